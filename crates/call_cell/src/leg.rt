ghost use Rattle.std.specs.Prelude.{ℕ, ◌≡◌, ◌≤◌, ◌<◌, ◌+◌, List, take, Option, Some, None, true, IfOk, IfSome, is_some, length, position, if◌then◌else◌};
ghost use Rattle.relay_outside.specs.declared.address.Addr.{Addr};
ghost use Rattle.rtp_packet.specs.declared.head.Half.{Half};
ghost use Rattle.srtp_sources.specs.Notes.{Note};
ghost use Rattle.port_pool.specs.Signals.{NewKey, same_leg, side_eq};
ghost use Rattle.histories.specs.Words.{or_else};
ghost use Rattle.call_cell.specs.Blocks.{block_in};
ghost use Rattle.call_cell.specs.Cells.{is_opposite};
ghost use Rattle.call_cell.specs.Deeds.{judged_leg, kind_on, way_on};
ghost use Rattle.call_cell.specs.Heads.{half_of, IsHead};
ghost use Rattle.call_cell.specs.Parts.{learner_in};
ghost use Rattle.call_cell.specs.LegHistories.{port_by, leased_port, outcome_of, in_force_with};
ghost use Rattle.call_cell.specs.CellEnds.{parts_of};
ghost use Rattle.call_cell.specs.SavedCells.{saved_leg};
ghost use Rattle.call_cell.specs.Shapes.{cell_leg_shape};
ghost use Rattle.call_cell.specs.TakenEnds.{leased_address, ends_by_address, without_ends};
ghost use Rattle.call_cell.specs.GivenEnds.{with_given_ends};

use crate::contexts::Outbound;
use crate::counts::Counts;
use crate::heads::{Head, PlainPacket, kind_on, read_head, way_on};
use crate::in_contexts::InContexts;
use crate::outcome::{LocalPort, Lost, Outcome, PacketBuffer, Refused};
use crate::receiver::Receiving;
use crate::saved::LegSaved;
use crate::sender::Sending;
use endpoint_learn::Learner;
use port_pool::{Holder, Lease, LegReport, LegSignal, Side};
use relay_outside::{Addr, Config, OutEnd, OutOfMemory};
use rtcp_reports::{Block, last_block};
use rtp_packet::Half;
use sdes_lines::Suite;
use std::alloc::Global;

/// One leg of the cell's call.
#[derive(Drop)]
pub(crate) struct Leg<O> {
    /// The leg's identity.
    pub(crate) holder: Holder,
    /// The lease of its pair.
    lease: Lease,
    /// What was committed for it last.
    signal: Option<LegSignal>,
    /// What it keeps of received packets.
    receiving: Receiving,
    /// Its sockets and outbound contexts.
    sending: Sending<O>,
    /// How many packets it accepted and sent.
    counts: Counts,
    /// The last report block from its side, where one came.
    report: Option<Block>,
}

/// Whether these are the same leg, in the same lease of its pair.
fn is_same_leg(a: &Holder, b: &Holder) -> bool
    ensures { result ≡ same_leg a.now b.now }
{
    a.call == b.call && a.pair == b.pair && a.generation == b.generation
}

/// Whether the other leg is the one of the same section on the other side.
fn is_opposite(leg: &Holder, other: &Holder) -> bool
    ensures { result ≡ is_opposite leg.now other.now }
{
    other.section == leg.section && other.side != leg.side
}

/// The place of the leg that a packet was taken for.
/// All is asked of the leg with the receipt's call, pair and lease, and not of its section and side. In a legal list the two are
/// one.
pub(crate) fn place_of<O>(legs: &[Leg<O>], holder: &Holder) -> Option<usize>
    ensures place { result ≡ position (λ leg. same_leg holder.now leg.holder) legs.now }
    ensures within { IfSome result (λ at. at < length legs.now) }
{
    legs.iter().position(|leg| is_same_leg(holder, &leg.holder))
}

/// The place of the leg on the other side.
pub(crate) fn place_of_opposite<O>(legs: &[Leg<O>], holder: &Holder) -> Option<usize>
    ensures place { result ≡ position (λ leg. is_opposite holder.now leg.holder) legs.now }
    ensures within { IfSome result (λ at. at < length legs.now) }
{
    legs.iter().position(|leg| is_opposite(holder, &leg.holder))
}

/// The port of a half, by the even port of the pair.
fn port_by(half: Half, port: u16) -> u16
    ensures { result ≡ port_by half port }
{
    match half {
        Half::Rtp => port,
        Half::Rtcp => port.saturating_add(1),
    }
}

/// The local port of a half of a leased pair.
fn leased_port(half: Half, lease: &Lease) -> LocalPort
    ensures { result ≡ leased_port half lease.now }
{
    LocalPort {
        family: lease.family(),
        port: port_by(half, lease.rtp_port()),
    }
}

/// The address of the port for RTP of a leased pair.
pub(crate) fn leased_address(config: &Config, lease: &Lease) -> Addr
    ensures { result ≡ leased_address config.now lease.now }
{
    Addr {
        ip: config.interface_of(lease.family()),
        port: lease.rtp_port(),
    }
}

/// The outcome of a packet that was sent, or was lost on its way out.
fn outcome_of(from: LocalPort, to: Addr, sent: Result<usize, Lost>) -> Outcome
    ensures { result ≡ outcome_of from to sent }
{
    match sent {
        Ok(len) => Outcome::Sent {
            family: from.family,
            port: from.port,
            to,
            len,
        },
        Err(cause) => Outcome::Lost(cause),
    }
}

/// The last report block from a leg's side, after a plain packet of a kind; that of before where the packet has none.
fn later_block(kind: Half, packet: &[u8], earlier: Option<Block>) -> Option<Block>
    ensures { result ≡ or_else (block_in kind packet.now) earlier }
{
    match kind {
        Half::Rtp => earlier,
        Half::Rtcp => last_block(packet).or(earlier),
    }
}

impl<O> Leg<O> {
    ghost use Rattle.call_cell.specs.Preparations.{IsFreshLeg};
    ghost use Rattle.call_cell.specs.LegReports.{leg_report};

    /// A leg that no answer has committed yet: it has received and sent nothing and has no key.
    pub(crate) fn new(holder: Holder, lease: Lease, rtp: O, rtcp: O) -> Leg<O>
        requires pair { lease.pair ≡ holder.pair }
        requires generation { lease.generation ≡ holder.generation }
        ensures fresh { IsFreshLeg result }
        ensures holder { result.holder ≡ holder }
        ensures parts { parts_of result ≡ Some (lease, rtp, rtcp) }
    {
        Leg {
            holder,
            lease,
            signal: None,
            receiving: Receiving::new(),
            sending: Sending::new(rtp, rtcp),
            counts: Counts::new(),
            report: None,
        }
    }

    /// Whether the leg has its out ends.
    pub(crate) fn has_ends(&self) -> bool
        ensures { result ≡ is_some self.now.sending.ends }
    {
        self.sending.has_ends()
    }

    /// Takes the leg's out ends, for RTP and for RTCP, with the address of its port for RTP, where they weren't taken.
    pub(crate) fn take_ends(&mut self, config: &Config) -> Option<(Addr, O, O)>
        ensures ends { result ≡ ends_by_address (leased_address config.now self.old.lease) self.old.sending.ends }
        ensures rest { self.new ≡ without_ends self.old }
    {
        let (rtp, rtcp) = self.sending.take_ends()?;
        Some((leased_address(config, &self.lease), rtp, rtcp))
    }

    /// The leg's lease and its out ends, where they weren't taken.
    pub(crate) fn into_parts(self) -> Option<(Lease, O, O)>
        ensures { result ≡ parts_of self }
    {
        let Leg {
            holder: _,
            lease,
            signal: _,
            receiving: _,
            sending,
            counts: _,
            report: _,
        } = self;
        let (rtp, rtcp) = sending.into_ends()?;
        Some((lease, rtp, rtcp))
    }

    /// What the leg is saved as, where its ends were taken.
    pub(crate) fn into_saved(self) -> LegSaved
        requires { self.sending.ends ≡ None }
        ensures { result ≡ saved_leg self }
    {
        let Leg {
            holder,
            lease,
            signal,
            receiving,
            sending,
            counts,
            report,
        } = self;
        let (rtp, rtcp, inbound) = receiving.into_saved();
        let (tag80, tag32) = sending.into_saved();
        LegSaved {
            holder,
            lease,
            signal,
            rtp,
            rtcp,
            inbound,
            tag80,
            tag32,
            counts,
            report,
        }
    }

    /// The leg that was saved so, without its out ends.
    pub(crate) fn from_saved(alloc: Global, saved: LegSaved) -> Result<Leg<O>, OutOfMemory>
        ensures saved { IfOk result (λ leg. saved_leg leg ≡ saved) }
        ensures emptied { IfOk result (λ leg. leg.sending.ends ≡ None) }
    {
        let LegSaved {
            holder,
            lease,
            signal,
            rtp,
            rtcp,
            inbound,
            tag80,
            tag32,
            counts,
            report,
        } = saved;
        Ok(Leg {
            holder,
            lease,
            signal,
            receiving: Receiving::from_saved(alloc, rtp, rtcp, inbound)?,
            sending: Sending::from_saved(alloc, tag80, tag32)?,
            counts,
            report,
        })
    }

    /// The address of the leg's port for RTP.
    pub(crate) fn address(&self, config: &Config) -> Addr
        ensures { result ≡ leased_address config.now self.now.lease }
    {
        leased_address(config, &self.lease)
    }

    /// Takes out ends for RTP and for RTCP, where it has none.
    pub(crate) fn put_ends(&mut self, rtp: O, rtcp: O)
        requires { self.old.sending.ends ≡ None }
        ensures { self.new ≡ with_given_ends self.old (rtp, rtcp) }
    {
        self.sending.put_ends(rtp, rtcp);
    }

    /// What was committed last, and a half's learner, which knows where its packets go.
    fn committed(&self, half: Half) -> Option<(LegSignal, Learner)>
        ensures { result ≡ in_force_with self.now.signal (learner_in half self.now.receiving) }
    {
        let signal = self.signal?;
        let learner = self.receiving.learner(half)?;
        Some((signal, learner))
    }

    /// What is told of the leg, where it is committed.
    pub(crate) fn report(&self) -> Option<LegReport>
        ensures { result ≡ leg_report self.now }
    {
        let (_, learner) = self.committed(Half::Rtp)?;
        Some(LegReport {
            section: self.holder.section,
            side: self.holder.side,
            port: self.lease.rtp_port(),
            endpoint: learner.endpoint(),
            rtp_accepted: self.counts.rtp_accepted,
            rtp_sent: self.counts.rtp_sent,
            rtcp_accepted: self.counts.rtcp_accepted,
            rtcp_sent: self.counts.rtcp_sent,
            report: self.report,
        })
    }
}

impl<O> Leg<O> {
    ghost use Rattle.call_cell.specs.Commits.{LegCommits, is_inbound_anew};
    ghost use Rattle.call_cell.specs.LegHistories.{with_sending};
    ghost use Rattle.call_cell.specs.Preparations.{with_contexts};

    /// Takes the contexts of a key for a suite.
    pub(crate) fn put(&mut self, suite: Suite, contexts: Box<Option<Outbound>>)
        ensures { self.new ≡ with_sending self.old (with_contexts suite contexts self.old.sending) }
    {
        self.sending.put(suite, contexts);
    }

    /// Commits what an answer says of the leg.
    pub(crate) fn commit(&mut self, signal: &LegSignal, contexts: &mut InContexts)
        requires room { is_inbound_anew self.old.signal signal.now ≡ true → 0 < contexts.old }
        ensures commits { LegCommits signal.now self.old self.new }
        ensures room { contexts.new + (if is_inbound_anew self.old.signal signal.now then 1 else 0) ≡ contexts.old }
    {
        self.receiving.commit(&self.signal, signal, contexts);
        self.signal = Some(*signal);
    }
}

impl<O: OutEnd> Leg<O> {
    ghost use Rattle.call_cell.specs.Parts.{ReceivingFor, SendingFor, HasNamed, SameNumbers};
    ghost use Rattle.call_cell.specs.LegHistories.{outbound_of, length_in, LegAccepts, LegForwardsBy};
    ghost use Rattle.call_cell.specs.Counts.{AcceptedOne, SentOne};
    ghost use Rattle.call_cell.specs.Shapes.{SamePorts};

    /// Judges the packet in the buffer's first `len` bytes, which the leg's port for a half received, opens it in place, learns
    /// its source for that half, counts it as what it is and keeps its last report block. After a refusal nothing has changed.
    pub(crate) fn accept(
        &mut self,
        half: Half,
        source: Addr,
        buf: &mut PacketBuffer,
        len: usize,
    ) -> Result<PlainPacket, Refused>
        requires held { len ≤ 2000 }
        ensures fits { IfOk result (λ plain. plain.len ≤ 2000) }
        ensures head { IfOk result (λ plain. IsHead plain.head (take plain.len buf.new)) }
        ensures shape { cell_leg_shape self.new ≡ cell_leg_shape self.old }
        ensures kind { IfOk result (λ plain. half_of plain.head ≡ kind_on self.old.signal half (take len buf.old)) }
        ensures accepts { (known : Half → Option Addr) (notes : List Note) → ReceivingFor self.old.signal self.old.receiving known notes →
            LegAccepts (judged_leg self.old.signal (known half) notes (kind_on self.old.signal half (take len buf.old)) source (take len buf.old))
            half (kind_on self.old.signal half (take len buf.old)) source known notes self.old self.new buf.new (length_in result) }
        ensures counts { AcceptedOne self.old.counts self.new.counts }
        ensures ends { self.new.sending.ends ≡ self.old.sending.ends }
    {
        let Some(signal) = self.signal else {
            return Err(Refused::NotAnswered);
        };
        let kind = kind_on(&signal, half, &buf[..len]);
        let Some(head) = read_head(kind, &buf[..len]) else {
            return Err(Refused::Malformed);
        };
        let len = self
            .receiving
            .accept(&signal, half, head, source, buf, len)?;
        self.counts.accept(kind);
        self.report = later_block(kind, &buf[..len], self.report);
        Ok(PlainPacket { len, head })
    }

    /// Sends the plain packet in the buffer's first `len` bytes, which has this head, to the leg's side, protected under the key
    /// in force, and counts it where it was sent.
    pub(crate) fn forward(&mut self, head: Head, buf: &mut PacketBuffer, len: usize) -> Outcome
        requires held { len ≤ 2000 }
        requires head { IsHead head (take len buf.old) }
        ensures numbers { SameNumbers self.old.sending self.new.sending }
        ensures shape { cell_leg_shape self.new ≡ cell_leg_shape self.old }
        ensures forwards { (keys : ℕ → Option NewKey) (notes : ℕ → List Note) → SendingFor self.old.holder keys notes self.old.sending →
            HasNamed (outbound_of self.old.signal) keys self.old.sending →
            LegForwardsBy O.log O.faults (in_force_with self.old.signal (learner_in (way_on self.old.signal (half_of head)) self.old.receiving)) keys notes
            (half_of head) (way_on self.old.signal (half_of head)) (take len buf.old) self.old self.new buf.new result }
        ensures counts { SentOne self.old.counts self.new.counts }
        ensures ports { SamePorts O.log self.old.sending.ends self.new.sending.ends }
    {
        let way = way_on(&self.signal, head.half());
        let Some((signal, learner)) = self.committed(way) else {
            return Outcome::Lost(Lost::Hold);
        };
        let to = learner.endpoint();
        let from = leased_port(way, &self.lease);
        let sent = self.sending.forward(&signal, way, head, from, to, buf, len);
        self.counts.finish(way, &sent);
        outcome_of(from, to, sent)
    }
}
