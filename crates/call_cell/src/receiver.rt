ghost use Rattle.std.specs.Prelude.{ℕ, ◌≡◌, ◌≤◌, ◌<◌, ◌+◌, true, List, [], take, Option, Some, None, is_some, IfOk, if◌then◌else◌};
ghost use Rattle.relay_outside.specs.declared.address.Addr.{Addr};
ghost use Rattle.endpoint_learn.specs.Lessons.{taught};
ghost use Rattle.rtp_packet.specs.declared.head.Half.{Half};
ghost use Rattle.sdes_lines.specs.declared.crypto_line.Suite.{Suite};
ghost use Rattle.srtp_sources.specs.Notes.{Note};
ghost use Rattle.call_cell.specs.Protection.{opened_by};
ghost use Rattle.call_cell.specs.Heads.{half_of, IsHead};
ghost use Rattle.call_cell.specs.Deeds.{judged_leg};
ghost use Rattle.call_cell.specs.Parts.{InboundIn, OpensIn, boxed_in, inbound_of, learner_of, is_wrong_for};
ghost use Rattle.call_cell.specs.Parts as parts;
ghost use Rattle.call_cell.specs.Commits.{relearned, renoted, is_inbound_anew};

use crate::contexts::Inbound;
use crate::heads::Head;
use crate::in_contexts::InContexts;
use crate::outcome::{PacketBuffer, Refused};
use crate::places::{boxed, unboxed};
use crate::signals::{address, is_new_key};
use endpoint_learn::{Judge, Learner};
use port_pool::LegSignal;
use relay_outside::{Addr, KeyAndSalt, OutOfMemory};
use rtp_packet::Half;
use sdes_lines::Suite;
use std::alloc::Global;

/// What a leg keeps of the packets that it received.
#[derive(Drop)]
pub(crate) struct Receiving {
    /// Where packets of RTP go, from the first commit on.
    rtp: Option<Learner>,
    /// Where packets of RTCP go, from the first commit on.
    rtcp: Option<Learner>,
    /// The contexts of the inbound key, where there is one.
    inbound: Option<Box<Option<Inbound>>>,
}

/// Teaches a half's learner the source of an accepted packet.
fn teach(learner: &mut Option<Learner>, source: Addr)
    ensures { (half : Half) (s : LegSignal) (known : Option Addr) → learner.old ≡ learner_of half (Some s) known →
        learner.new ≡ learner_of half (Some s) (taught s.flags known source) }
{
    if let Some(learner) = learner {
        learner.learn(source);
    }
}

/// Whether another source was learned under `strict source`.
fn is_wrong_source(learner: Option<Learner>, source: Addr) -> bool
    ensures { result ≡ is_wrong_for learner source }
{
    let Some(learner) = learner else {
        return false;
    };
    match learner.judge(source) {
        Judge::Pass => false,
        Judge::WrongSource => true,
    }
}

/// Checks and opens a packet with this head in place, under the inbound key, where there is one.
fn open(
    inbound: &mut Option<Box<Option<Inbound>>>,
    head: Head,
    buf: &mut PacketBuffer,
    len: usize,
) -> Result<usize, Refused>
    requires held { len ≤ 2064 }
    requires head { IsHead head (take len buf.old) }
    ensures fits { IfOk result (λ size. size ≤ len) }
    ensures head { IfOk result (λ size. IsHead head (take size buf.new)) }
    ensures opens { (key : Option (List ℕ × Suite)) (notes : List Note) → InboundIn key (boxed_in inbound.old) notes →
        OpensIn (opened_by key notes (half_of head) (take len buf.old)) key notes inbound.old inbound.new buf.new result }
{
    let Some(place) = inbound else {
        return Ok(len);
    };
    match (**place).as_mut() {
        None => Ok(len),
        Some(contexts) => contexts.unprotect(head, buf, len),
    }
}

/// The learner of a half after a commit: what it learned it keeps where the half's address is as before.
fn signalled(learner: Option<Learner>, signal: &LegSignal, half: Half) -> Learner
    ensures { (earlier : Option LegSignal) (known : Option Addr) → learner ≡ learner_of half earlier known →
        Some result ≡ learner_of half (Some signal.now) (relearned earlier signal.now half known) }
{
    let Some(mut learner) = learner else {
        return Learner::new(address(signal, half), signal.flags);
    };
    learner.signal(address(signal, half), signal.flags);
    learner
}

/// The contexts of an inbound key, which have taken no packet; none where there is no key.
fn begin(
    key: &Option<(KeyAndSalt, Suite)>,
    contexts: &mut InContexts,
) -> Option<Box<Option<Inbound>>>
    requires room { is_some key.now ≡ true → 0 < contexts.old }
    ensures contexts { InboundIn key.now (boxed_in result) [] }
    ensures room { contexts.new + (if is_some key.now then 1 else 0) ≡ contexts.old }
{
    match key {
        None => None,
        Some(pair) => {
            let key = pair.0;
            Some(contexts.begin(&key, pair.1))
        }
    }
}

/// Begins the inbound contexts again where a commit names another key or suite.
fn recommit(
    inbound: &mut Option<Box<Option<Inbound>>>,
    earlier: &Option<LegSignal>,
    signal: &LegSignal,
    contexts: &mut InContexts,
)
    requires room { is_inbound_anew earlier.now signal.now ≡ true → 0 < contexts.old }
    ensures inbound { (notes : List Note) → InboundIn (inbound_of earlier.now) (boxed_in inbound.old) notes →
        InboundIn signal.now.inbound (boxed_in inbound.new) (renoted earlier.now signal.now notes) }
    ensures room { contexts.new + (if is_inbound_anew earlier.now signal.now then 1 else 0) ≡ contexts.old }
{
    if is_new_key(earlier, signal) {
        *inbound = begin(&signal.inbound, contexts);
    }
}

impl Receiving {
    ghost use Rattle.call_cell.specs.Parts.{ReceivingFor, AcceptsTo, learner_in};

    /// Nothing received, and no key.
    pub(crate) fn new() -> Receiving
        ensures { ReceivingFor None result (λ half. None) [] }
    {
        Receiving {
            rtp: None,
            rtcp: None,
            inbound: None,
        }
    }

    /// What is kept, for RTP, for RTCP and under the inbound key.
    pub(crate) fn into_saved(self) -> (Option<Learner>, Option<Learner>, Option<Inbound>)
        ensures { result ≡ (self.rtp, self.rtcp, boxed_in self.inbound) }
    {
        let Receiving { rtp, rtcp, inbound } = self;
        (rtp, rtcp, unboxed(inbound))
    }

    /// What was kept, for RTP, for RTCP and under the inbound key.
    pub(crate) fn from_saved(
        alloc: Global,
        rtp: Option<Learner>,
        rtcp: Option<Learner>,
        inbound: Option<Inbound>,
    ) -> Result<Receiving, OutOfMemory>
        ensures { IfOk result (λ receiving. (receiving.rtp ≡ rtp) × (receiving.rtcp ≡ rtcp) × (boxed_in receiving.inbound ≡ inbound)) }
    {
        let inbound = boxed(alloc, inbound)?;
        Ok(Receiving { rtp, rtcp, inbound })
    }

    /// The learner of a half, once an answer was committed.
    pub(crate) fn learner(&self, half: Half) -> Option<Learner>
        ensures { result ≡ learner_in half self.now }
    {
        match half {
            Half::Rtp => self.rtp,
            Half::Rtcp => self.rtcp,
        }
    }

    /// Learns from the source of an accepted packet.
    /// A packet counts by the flags with which it was accepted. What was learned before `asymmetric` stands again when that is
    /// off, the address being the same.
    fn learn(&mut self, half: Half, source: Addr)
        ensures { (s : LegSignal) (known : Half → Option Addr) (notes : List Note) → ReceivingFor (Some s) self.old known notes →
            ReceivingFor (Some s) self.new (parts.taught_half half s.flags source known) notes }
    {
        match half {
            Half::Rtp => teach(&mut self.rtp, source),
            Half::Rtcp => teach(&mut self.rtcp, source),
        }
    }

    /// Begins again what a commit changes: what was learned of a half whose address changed, and the contexts of another
    /// inbound key.
    /// What was in force earlier doesn't count, so what changes and changes back was changed twice; a commit that says the same
    /// changes nothing.
    pub(crate) fn commit(
        &mut self,
        earlier: &Option<LegSignal>,
        signal: &LegSignal,
        contexts: &mut InContexts,
    )
        requires room { is_inbound_anew earlier.now signal.now ≡ true → 0 < contexts.old }
        ensures receiving { (known : Half → Option Addr) (notes : List Note) → ReceivingFor earlier.now self.old known notes →
            ReceivingFor (Some signal.now) self.new (λ half. relearned earlier.now signal.now half (known half)) (renoted earlier.now signal.now notes) }
        ensures room { contexts.new + (if is_inbound_anew earlier.now signal.now then 1 else 0) ≡ contexts.old }
    {
        self.rtp = Some(signalled(self.rtp, signal, Half::Rtp));
        self.rtcp = Some(signalled(self.rtcp, signal, Half::Rtcp));
        recommit(&mut self.inbound, earlier, signal, contexts);
    }

    /// Judges the packet in the buffer's first `len` bytes, which has this head, for a leg with that in force, opens it in place,
    /// learns its source for the half that received it, and returns the plain packet's length. After a refusal nothing has
    /// changed.
    pub(crate) fn accept(
        &mut self,
        signal: &LegSignal,
        half: Half,
        head: Head,
        source: Addr,
        buf: &mut PacketBuffer,
        len: usize,
    ) -> Result<usize, Refused>
        requires held { len ≤ 2064 }
        requires head { IsHead head (take len buf.old) }
        ensures fits { IfOk result (λ size. size ≤ len) }
        ensures head { IfOk result (λ size. IsHead head (take size buf.new)) }
        ensures accepts { (known : Half → Option Addr) (notes : List Note) → ReceivingFor (Some signal.now) self.old known notes →
            AcceptsTo (judged_leg (Some signal.now) (known half) notes (half_of head) source (take len buf.old)) half source signal.now known notes self.old self.new buf.new result }
    {
        if is_wrong_source(self.learner(half), source) {
            return Err(Refused::WrongSource);
        }
        let size = open(&mut self.inbound, head, buf, len)?;
        self.learn(half, source);
        Ok(size)
    }
}
