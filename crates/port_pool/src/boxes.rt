ghost use Rattle.std.specs.Prelude.{◌≡◌, ◌≤◌, ◌↔◌, [], ◌∷◌, List, Some, None, IsSome};
ghost use Rattle.port_pool.specs.Boxes.{BoxEvent, Open, Take, Close, FitsTaken, FitsBox};
ghost use Rattle.port_pool.specs.Takes.{taken_within, IsTaken, IsTakenFrom, EndsTaken};
ghost use Rattle.port_pool.specs.PairBoxes.{holder_in, ends_in, at_of, cells_of, BoxFor};

use crate::holder::Holder;
use relay_outside::{Addr, InEnd};
use rtp_packet::Half;

/// How many bytes the longest packet that is relayed may have, as it is taken.
pub const MOST_PACKET: usize = 2_000;

/// Room for the longest packet, and one byte by which a longer one is told.
pub type TakeBuffer = [u8; 2_001];

/// The result of a take of a box.
#[derive(Clone, Copy, PartialEq, Eq, Debug)]
pub enum BoxTake {
    /// The box is closed; no end was asked.
    Closed,
    /// Nothing was there at the end.
    Nothing,
    /// A datagram of at most 2,000 bytes for the box's holder fills the front of the buffer.
    Datagram {
        /// The leg that holds the box.
        holder: Holder,
        /// Where the datagram came from.
        source: Addr,
        /// How many bytes it has.
        len: usize,
    },
    /// A datagram of more than 2,000 bytes; its first 2,001 fill the buffer.
    /// Its source is told here, since the event has it and an end may tell nothing.
    TooLong {
        /// Where it came from.
        source: Addr,
    },
    /// The end's take failed; its count of faults rose.
    Fault,
}

/// The leg that holds a pair, and the in ends of the pair's ports.
#[derive(Drop)]
struct Opened<I> {
    holder: Holder,
    rtp: I,
    rtcp: I,
}

/// The box of one port pair: who holds the pair, and the in ends of its two ports.
///
/// Contracts see it as standing for the history of its openings, takes and closings.
#[derive(Drop)]
pub struct PairBox<I> {
    /// How many cells there are; they are numbered from 1.
    cells: u32,
    /// The address of the pair's port for RTP.
    at: Addr,
    /// The holder and the ends, while the pair is held.
    opened: Option<Opened<I>>,
}

/// Takes one datagram of an end, for the leg that holds its pair.
fn take_from<I: InEnd>(end: &mut I, holder: Holder, buf: &mut TakeBuffer) -> BoxTake
    ensures fits { FitsTaken (Some holder) (taken_within result buf.new) }
    ensures end { IsTaken I.log I.faults end.old end.new (taken_within result buf.new) }
{
    match end.take(buf) {
        Ok(Some((source, len))) => {
            if len > MOST_PACKET {
                BoxTake::TooLong { source }
            } else {
                BoxTake::Datagram {
                    holder,
                    source,
                    len,
                }
            }
        }
        Ok(None) => BoxTake::Nothing,
        Err(_) => BoxTake::Fault,
    }
}

impl<I: InEnd> Opened<I> {
    /// Takes one datagram of the end of a half.
    fn take(&mut self, half: Half, buf: &mut TakeBuffer) -> BoxTake
        ensures fits { FitsTaken (Some self.old.holder) (taken_within result buf.new) }
        ensures holder { self.new.holder ≡ self.old.holder }
        ensures ends { IsTakenFrom I.log I.faults half (self.old.rtp, self.old.rtcp) (self.new.rtp, self.new.rtcp) (taken_within result buf.new) }
    {
        match half {
            Half::Rtp => take_from(&mut self.rtp, self.holder, buf),
            Half::Rtcp => take_from(&mut self.rtcp, self.holder, buf),
        }
    }
}

impl<I: InEnd> PairBox<I> {
    /// The closed box of a pair that was never held, where there are this many cells, and its port for RTP has this address.
    pub fn empty(cells: u32, at: Addr) -> PairBox<I>
        ensures history { BoxFor result [] }
        ensures ends { ends_in result ≡ None }
        ensures cells { cells_of result ≡ cells }
        ensures at { at_of result ≡ at }
    {
        PairBox {
            cells,
            at,
            opened: None,
        }
    }

    /// Opens a closed box for a leg, with the in ends of the pair's ports for RTP and for RTCP. The cell of the leg is one
    /// of the box's cells.
    pub fn put_in(&mut self, holder: Holder, rtp_end: I, rtcp_end: I)
        requires closed { holder_in self.old ≡ None }
        requires cell { (1 ≤ holder.cell) × (holder.cell ≤ cells_of self.old) }
        ensures history { (h : List BoxEvent) → BoxFor self.old h → FitsBox h (Open holder) × BoxFor self.new (Open holder ∷ h) }
        ensures ends { ends_in self.new ≡ Some (rtp_end, rtcp_end) }
        ensures cells { cells_of self.new ≡ cells_of self.old }
        ensures at { at_of self.new ≡ at_of self.old }
    {
        let opened = Opened {
            holder,
            rtp: rtp_end,
            rtcp: rtcp_end,
        };
        match self.opened.replace(opened) {
            None => {}
            Some(_) => unreachable!(),
        }
    }

    /// Takes one datagram of the end of a half, into the front of the buffer. A closed box asks no end.
    pub fn take(&mut self, half: Half, buf: &mut TakeBuffer) -> BoxTake
        ensures history { (h : List BoxEvent) → BoxFor self.old h →
            FitsBox h (Take half (taken_within result buf.new)) × BoxFor self.new (Take half (taken_within result buf.new) ∷ h) }
        ensures ends { EndsTaken I.log I.faults half (ends_in self.old) (ends_in self.new) (taken_within result buf.new) }
        ensures cells { cells_of self.new ≡ cells_of self.old }
        ensures at { at_of self.new ≡ at_of self.old }
    {
        match &mut self.opened {
            Some(opened) => opened.take(half, buf),
            None => BoxTake::Closed,
        }
    }

    /// Closes the box and gives its ends back, that for RTP first. `None`: it is closed already.
    pub fn shut(&mut self) -> Option<(I, I)>
        ensures history { (h : List BoxEvent) → BoxFor self.old h → FitsBox h Close × BoxFor self.new (Close ∷ h) }
        ensures given { result ≡ ends_in self.old }
        ensures open { IsSome result ↔ IsSome (holder_in self.old) }
        ensures ends { ends_in self.new ≡ None }
        ensures cells { cells_of self.new ≡ cells_of self.old }
        ensures at { at_of self.new ≡ at_of self.old }
    {
        let Opened {
            holder: _,
            rtp,
            rtcp,
        } = self.opened.take()?;
        Some((rtp, rtcp))
    }
}
