ghost use Rattle.std.specs.Prelude.{ℕ, ◌≡◌, ◌≤◌, false, true, List, take, Option, Some, None, IfOk, IsSome, is_some};
ghost use Rattle.sdes_lines.specs.declared.crypto_line.Suite.{Suite};
ghost use Rattle.srtp_sources.specs.Notes.{Note};
ghost use Rattle.port_pool.specs.declared.holder.Holder.{Holder};
ghost use Rattle.port_pool.specs.Signals.{NewKey};
ghost use Rattle.call_cell.specs.Protection.{wrapped_with};
ghost use Rattle.call_cell.specs.Heads.{half_of, IsHead};
ghost use Rattle.call_cell.specs.Parts.{OutboundIn, WrapsInTo, boxed_in, is_numbered, key_number_in, send_answer};

use crate::contexts::Outbound;
use crate::heads::Head;
use crate::outcome::{LocalPort, Lost, PacketBuffer};
use crate::places::{boxed, unboxed};
use port_pool::LegSignal;
use relay_outside::{Addr, OutEnd, OutOfMemory};
use rtp_packet::Half;
use sdes_lines::Suite;
use std::alloc::Global;

/// How a leg sends: the out ends of its ports, and the contexts of the keys that were drawn for it.
#[derive(Drop)]
pub(crate) struct Sending<O> {
    /// The out ends for RTP and for RTCP, until they are taken.
    ends: Option<(O, O)>,
    /// The contexts of its key for the suite with tags of 80 bits.
    tag80: Option<Box<Option<Outbound>>>,
    /// The contexts of its key for the suite with tags of 32 bits.
    tag32: Option<Box<Option<Outbound>>>,
}

/// Whether the contexts in this place are those of the key of this number.
fn is_numbered(place: &Option<Box<Option<Outbound>>>, number: u64) -> bool
    ensures { result ≡ is_numbered (boxed_in place.now) number }
{
    let Some(place) = place else {
        return false;
    };
    match &**place {
        None => false,
        Some(contexts) => contexts.number() == number,
    }
}

/// Protects a packet in place under the key of this number, where its contexts stand in this place.
fn protect_under(
    place: &mut Option<Box<Option<Outbound>>>,
    number: u64,
    head: Head,
    buf: &mut PacketBuffer,
    len: usize,
) -> Result<usize, Lost>
    requires held { len ≤ 2000 }
    requires head { IsHead head (take len buf.old) }
    ensures fits { IfOk result (λ size. size ≤ 2064) }
    ensures number { key_number_in (boxed_in place.new) ≡ key_number_in (boxed_in place.old) }
    ensures wraps { (leg : Holder) (suite : Suite) (keys : ℕ → Option NewKey) (notes : ℕ → List Note) → OutboundIn leg suite keys notes (boxed_in place.old) →
        is_numbered (boxed_in place.old) number ≡ true →
        WrapsInTo (wrapped_with (keys number) (notes number) (half_of head) (take len buf.old)) leg suite keys notes place.old place.new buf.new result }
{
    let Some(place) = place else {
        return Err(Lost::KeySpent);
    };
    match (**place).as_mut() {
        None => Err(Lost::KeySpent),
        Some(contexts) => contexts.protect(head, buf, len),
    }
}

/// The result of a send of this many bytes by a local port.
fn send_answer(from: LocalPort, size: usize, done: bool) -> Result<usize, Lost>
    ensures { result ≡ send_answer from size done }
{
    if done {
        Ok(size)
    } else {
        let LocalPort { family, port } = from;
        Err(Lost::SendFault { family, port })
    }
}

impl<O> Sending<O> {
    ghost use Rattle.call_cell.specs.Parts.{contexts_of};
    ghost use Rattle.call_cell.specs.Preparations.{with_contexts};

    /// The out ends for RTP and for RTCP, and no key.
    pub(crate) fn new(rtp: O, rtcp: O) -> Sending<O>
        ensures ends { result.ends ≡ Some (rtp, rtcp) }
        ensures keyless { (suite : Suite) → contexts_of suite result ≡ None }
    {
        Sending {
            ends: Some((rtp, rtcp)),
            tag80: None,
            tag32: None,
        }
    }

    /// Takes the contexts of a key for a suite.
    pub(crate) fn put(&mut self, suite: Suite, contexts: Box<Option<Outbound>>)
        ensures { self.new ≡ with_contexts suite contexts self.old }
    {
        match suite {
            Suite::Tag80 => self.tag80 = Some(contexts),
            Suite::Tag32 => self.tag32 = Some(contexts),
        }
    }

    /// Whether it has its out ends.
    pub(crate) fn has_ends(&self) -> bool
        ensures { result ≡ is_some self.now.ends }
    {
        self.ends.is_some()
    }

    /// Takes the out ends, for RTP and for RTCP, where they weren't taken.
    pub(crate) fn take_ends(&mut self) -> Option<(O, O)>
        ensures ends { result ≡ self.old.ends }
        ensures rest { self.new ≡ record { ends = None; tag80 = self.old.tag80; tag32 = self.old.tag32 } }
    {
        self.ends.take()
    }

    /// The contexts of its keys for both suites, where its ends were taken.
    pub(crate) fn into_saved(self) -> (Option<Outbound>, Option<Outbound>)
        requires { self.ends ≡ None }
        ensures { result ≡ (boxed_in self.tag80, boxed_in self.tag32) }
    {
        let Sending { ends, tag80, tag32 } = self;
        let None = ends else { unreachable!() };
        (unboxed(tag80), unboxed(tag32))
    }

    /// The contexts of keys for both suites, without out ends.
    pub(crate) fn from_saved(
        alloc: Global,
        tag80: Option<Outbound>,
        tag32: Option<Outbound>,
    ) -> Result<Sending<O>, OutOfMemory>
        ensures { IfOk result (λ sending. (sending.ends ≡ None) × (boxed_in sending.tag80 ≡ tag80) × (boxed_in sending.tag32 ≡ tag32)) }
    {
        let tag80 = boxed(alloc, tag80)?;
        let tag32 = boxed(alloc, tag32)?;
        Ok(Sending {
            ends: None,
            tag80,
            tag32,
        })
    }

    /// Takes out ends for RTP and for RTCP, where it has none.
    pub(crate) fn put_ends(&mut self, rtp: O, rtcp: O)
        requires { self.old.ends ≡ None }
        ensures { self.new ≡ record { ends = Some (rtp, rtcp); tag80 = self.old.tag80; tag32 = self.old.tag32 } }
    {
        let earlier = self.ends.replace((rtp, rtcp));
        let None = earlier else { unreachable!() };
    }

    /// The out ends, for RTP and for RTCP, where they weren't taken.
    pub(crate) fn into_ends(self) -> Option<(O, O)>
        ensures { result ≡ self.ends }
    {
        let Sending {
            ends,
            tag80: _,
            tag32: _,
        } = self;
        ends
    }
}

impl<O: OutEnd> Sending<O> {
    ghost use Rattle.relay_outside.specs.declared.address.Addr.{Addr};
    ghost use Rattle.call_cell.specs.Parts.{SendingFor, HasNamed, ProtectsTo, SameEnds, SameKeys, SameNumbers, SendsBy, ForwardsTo, wrapped_by, wrapped_for};
    ghost use Rattle.call_cell.specs.Shapes.{SamePorts};

    /// Protects in place the packet in the buffer's first `len` bytes, under the key of this number where there is one, and
    /// returns its length. After a refusal nothing has changed.
    fn protect(
        &mut self,
        number: Option<u64>,
        head: Head,
        buf: &mut PacketBuffer,
        len: usize,
    ) -> Result<usize, Lost>
        requires held { len ≤ 2000 }
        requires head { IsHead head (take len buf.old) }
        ensures fits { IfOk result (λ size. size ≤ 2064) }
        ensures ends { SameEnds self.old self.new }
        ensures numbers { SameNumbers self.old self.new }
        ensures protects { (leg : Holder) (keys : ℕ → Option NewKey) (notes : ℕ → List Note) → SendingFor leg keys notes self.old → HasNamed number keys self.old →
            ProtectsTo (wrapped_by keys notes number (half_of head) (take len buf.old)) leg keys notes self.old self.new buf.new result }
    {
        let Some(number) = number else {
            return Ok(len);
        };
        if is_numbered(&self.tag80, number) {
            return protect_under(&mut self.tag80, number, head, buf, len);
        }
        if is_numbered(&self.tag32, number) {
            return protect_under(&mut self.tag32, number, head, buf, len);
        }
        Err(Lost::KeySpent)
    }

    /// Sends a datagram by the end of a half, and returns whether that succeeded.
    fn send(&mut self, half: Half, to: Addr, bytes: &[u8]) -> bool
        requires ends { IsSome self.old.ends }
        ensures sends { SendsBy O.log O.faults half to bytes.now result self.old self.new }
        ensures keys { SameKeys self.old self.new }
    {
        let Some((rtp, rtcp)) = &mut self.ends else {
            unreachable!()
        };
        match half {
            Half::Rtp => rtp.send(to, bytes).is_ok(),
            Half::Rtcp => rtcp.send(to, bytes).is_ok(),
        }
    }

    /// Sends the packet in the buffer's first `len` bytes, which has this head, to a leg with that in force, by the end of a
    /// half, whose local port is this, and returns how many bytes were sent. Once its ends were taken, the leg is on hold.
    pub(crate) fn forward(
        &mut self,
        signal: &LegSignal,
        half: Half,
        head: Head,
        from: LocalPort,
        to: Addr,
        buf: &mut PacketBuffer,
        len: usize,
    ) -> Result<usize, Lost>
        requires held { len ≤ 2000 }
        requires head { IsHead head (take len buf.old) }
        ensures numbers { SameNumbers self.old self.new }
        ensures ends { is_some self.new.ends ≡ is_some self.old.ends }
        ensures forwards { (leg : Holder) (keys : ℕ → Option NewKey) (notes : ℕ → List Note) → SendingFor leg keys notes self.old → HasNamed signal.now.outbound keys self.old →
            ForwardsTo O.log O.faults (wrapped_for keys notes signal.now (half_of head) (take len buf.old)) leg keys notes half from to self.old self.new buf.new result }
        ensures ports { SamePorts O.log self.old.ends self.new.ends }
    {
        if signal.hold || self.ends.is_none() {
            return Err(Lost::Hold);
        }
        let size = self.protect(signal.outbound, head, buf, len)?;
        send_answer(from, size, self.send(half, to, &buf[..size]))
    }
}
