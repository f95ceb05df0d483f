ghost use Rattle.std.specs.Prelude.{◌≡◌, ◌↔◌, ◌≤◌, ◌<◌, ℕ, List, Option, Some, None, Result, Ok, Err, [], IsTrue, IsSome, IfOk, IsOk, OnErr, MatchOption, length, not, slice_get};
ghost use Rattle.std.specs.List.{last_or};
ghost use Rattle.relay_outside.specs.DeviceLogs.{Gains, HasCause, is_done};
ghost use Rattle.relay_outside.specs.Link.{FitsRoom, link_given, datagram_of, datagrams};
ghost use Rattle.relay_outside.specs.LinkTape.{last_sent};
ghost use Rattle.relay_outside.specs.Failures.{next_count};
ghost use Rattle.relay_script.specs.declared.step.FailKind.TheVariants as kind;
ghost use Rattle.replay_devices.specs.Countdowns.{next_counted_fails, counted_room, faults_after};
ghost use Rattle.replay_devices.specs.Lines.{Asks, fail_asked_by, failures_of};
ghost use Rattle.replay_devices.specs.Link.{met_at, take_waiting, datagram_at, CountsRead, GivesLineDatagram, last_taken};

use crate::countdowns::Countdowns;
use crate::lines::{asked_of, failures_of, fill};
use relay_outside::{
    Addr, CallList, ControlLink, Failed, LinkCall, LinkGiven, OutOfMemory, Taken, datagram_call,
    last_sent_of, send_call,
};
use relay_script::{FailKind, Step};
use std::alloc::Global;
use std::marker::Model;

/// What a take of the control link meets.
#[derive(Clone, Copy, PartialEq, Eq, Debug)]
pub(crate) enum Waiting {
    /// Nothing: the present line is no line `ng`, or its take was made.
    Nothing,
    /// The datagram of the present line.
    Datagram,
    /// A fault, in place of the datagram of the present line.
    Failure,
}

/// The control link of a replay. A take gives the datagram of the present line `ng`, once, and at any other line
/// nothing. The takes and sends fail that lines `fail read` and `fail reply` ask for; a failing take drops the
/// datagram of its line. It can always be bound.
#[derive(Drop)]
pub struct ReplayLink<'a> {
    alloc: Global,
    log: CallList<LinkCall>,
    steps: &'a [Step],
    step: usize,
    waiting: Waiting,
    reads: Countdowns,
    replies: Countdowns,
    faults: u64,
}

impl<'a> Model for ReplayLink<'a> {
    ghost use Rattle.replay_devices.specs.Link.{ReplayLinkState};

    ghost Value = { ReplayLinkState };

    ghost view = { λ link. record { log = link.log; steps = link.steps.now; step = link.step; waiting = link.waiting; reads = link.reads; replies = link.replies; faults = link.faults } };
}

impl<'a> ReplayLink<'a> {
    /// The link of a replay of these steps, of which none is made yet. The memory for each failing call that the
    /// lines ask for is taken here.
    pub fn new(alloc: Global, steps: &'a [Step]) -> Result<ReplayLink<'a>, OutOfMemory>
        ensures log { IfOk result (λ link. link.log ≡ Some []) }
        ensures steps { IfOk result (λ link. link.steps ≡ steps.now) }
        ensures step { IfOk result (λ link. link.step ≡ 0) }
        ensures waiting { IfOk result (λ link. link.waiting ≡ Waiting.Nothing) }
        ensures reads { IfOk result (λ link. link.reads ≡ record { list = []; spare = failures_of kind.Read steps.now }) }
        ensures replies { IfOk result (λ link. link.replies ≡ record { list = []; spare = failures_of kind.Reply steps.now }) }
        ensures faults { IfOk result (λ link. link.faults ≡ 0) }
    {
        let reads = Countdowns::with_room(alloc, failures_of(FailKind::Read, steps))?;
        let replies = Countdowns::with_room(alloc, failures_of(FailKind::Reply, steps))?;
        Ok(ReplayLink {
            alloc,
            log: CallList::new(alloc),
            steps,
            step: 0,
            waiting: Waiting::Nothing,
            reads,
            replies,
            faults: 0,
        })
    }

    /// The line of this index, from 0, is made next.
    pub fn begin(&mut self, index: usize)
        ensures log { self.new.log ≡ self.old.log }
        ensures steps { self.new.steps ≡ self.old.steps }
        ensures step { self.new.step ≡ index }
        ensures waiting { self.new.waiting ≡ met_at (slice_get self.old.steps index) (next_counted_fails self.old.reads.list) }
        ensures reads { CountsRead (slice_get self.old.steps index) self.old.reads self.new.reads }
        ensures replies { Asks (fail_asked_by kind.Reply (slice_get self.old.steps index)) self.old.replies self.new.replies }
        ensures faults { self.new.faults ≡ self.old.faults }
    {
        self.step = index;
        self.waiting = Waiting::Nothing;
        match self.steps.get(index) {
            Some(Step::Ng(_, _)) => {
                self.waiting = waiting_for(self.reads.next_fails());
                self.reads.count_call();
            }
            Some(step) => {
                if let Some(number) = asked_of(FailKind::Read, step) {
                    let _ = self.reads.add(number);
                }
                if let Some(number) = asked_of(FailKind::Reply, step) {
                    let _ = self.replies.add(number);
                }
            }
            None => {}
        }
    }

    /// The last send that returned Ok: `None` where there was none, or the link logs nothing any more.
    pub fn last_sent(&self) -> Option<(Addr, &[u8])>
        ensures { MatchOption result (last_sent self.now.log ≡ None) (λ sent. last_sent self.now.log ≡ Some (sent.0, sent.1.now)) }
    {
        let calls = self.log.get()?;
        last_sent_of(calls)
    }

    /// The last datagram that a take gave: `None` where there was none, or the link logs nothing any more.
    pub fn last_taken(&self) -> Option<(Addr, &[u8])>
        ensures { MatchOption result (last_taken self.now.log ≡ None) (λ taken. last_taken self.now.log ≡ Some (taken.0, taken.1.now)) }
    {
        let calls = self.log.get()?;
        last_taken_of(calls)
    }

    /// Whether the link still tells its list.
    pub fn tells(&self) -> bool
        ensures { IsTrue result ↔ IsSome self.now.log }
    {
        self.log.tells()
    }
}

/// What the take for a line `ng` meets.
fn waiting_for(failing: bool) -> Waiting
    ensures { result ≡ take_waiting failing }
{
    if failing {
        Waiting::Failure
    } else {
        Waiting::Datagram
    }
}

/// The last datagram that a take gave.
fn last_taken_of(calls: &[LinkCall]) -> Option<(Addr, &[u8])>
    ensures { MatchOption result (last_or None (datagrams calls.now) ≡ None) (λ found. last_or None (datagrams calls.now) ≡ Some (found.0, found.1.now)) }
{
    let mut found = None;
    for call in calls {
        if let Some(taken) = taken_by(call) {
            found = Some(taken);
        }
    }
    found
}

/// The source and the bytes of a call that took a datagram.
fn taken_by(call: &LinkCall) -> Option<(Addr, &[u8])>
    ensures { MatchOption result (datagram_of call.now ≡ None) (λ found. datagram_of call.now ≡ Some (found.0, found.1.now)) }
{
    match call {
        LinkCall::Take { room: _, given } => match given {
            LinkGiven::Datagram { from, bytes } => Some((*from, bytes.as_slice())),
            LinkGiven::Nothing => None,
            LinkGiven::End => None,
            LinkGiven::Failed => None,
        },
        LinkCall::Bind { .. } => None,
        LinkCall::Send { .. } => None,
    }
}

/// The datagram of a line `ng`.
fn datagram_at<'a>(steps: &'a [Step], index: usize) -> Option<(Addr, &'a [u8])>
    ensures { MatchOption result (datagram_at (slice_get steps.now index) ≡ None) (λ found. datagram_at (slice_get steps.now index) ≡ Some (found.0, found.1.now)) }
{
    match steps.get(index) {
        Some(Step::Ng(from, bytes)) => Some((*from, bytes.as_slice())),
        _ => None,
    }
}

impl<'a> ControlLink for ReplayLink<'a> {
    ghost use Rattle.std.specs.Prelude.{◌≡◌, ◌<◌, IsOk, OnErr, length, not, slice_get};
    ghost use Rattle.relay_outside.specs.DeviceLogs.{Gains, HasCause, is_done};
    ghost use Rattle.relay_outside.specs.Link.{FitsRoom, link_given};
    ghost use Rattle.replay_devices.specs.Countdowns.{next_counted_fails, counted_room, faults_after};
    ghost use Rattle.replay_devices.specs.Link.{GivesLineDatagram};

    ghost log = { λ link. link.log };

    ghost faults = { λ link. link.faults };

    fn bind(&mut self, at: Addr) -> Result<(), Failed>
        ensures log { Gains self.old.log self.new.log (LinkCall.Bind at (is_done result)) }
        ensures cause { HasCause self.old.faults self.new.faults result }
        ensures counted { self.new.faults ≡ faults_after (is_done result) self.old.faults }
        ensures done { IsOk result }
        ensures same { self.new ≡ record self.old { log = self.new.log } }
    {
        self.log.note(Some(LinkCall::Bind { at, done: true }));
        Ok(())
    }

    fn take(&mut self, buf: &mut [u8]) -> Result<Taken, Failed>
        requires { 0 < length buf.old }
        ensures within { FitsRoom result (length buf.old) }
        ensures log { Gains self.old.log self.new.log (LinkCall.Take (length buf.old) (link_given result buf.new)) }
        ensures cause { HasCause self.old.faults self.new.faults result }
        ensures counted { self.new.faults ≡ faults_after (is_done result) self.old.faults }
        ensures kept { OnErr result (buf.new ≡ buf.old) }
        ensures gives { GivesLineDatagram self.old.waiting (slice_get self.old.steps self.old.step) result buf.new }
        ensures left { self.new ≡ record self.old { log = self.new.log; waiting = Waiting.Nothing; faults = self.new.faults } }
    {
        let room = buf.len();
        let waiting = self.waiting;
        self.waiting = Waiting::Nothing;
        if waiting == Waiting::Failure {
            self.faults = self.faults.saturating_add(1);
            let given = LinkGiven::Failed;
            self.log.note(Some(LinkCall::Take { room, given }));
            return Err(Failed);
        }
        let datagram = if waiting == Waiting::Datagram {
            datagram_at(self.steps, self.step)
        } else {
            None
        };
        let Some((from, bytes)) = datagram else {
            let given = LinkGiven::Nothing;
            self.log.note(Some(LinkCall::Take { room, given }));
            return Ok(Taken::Nothing);
        };
        let len = fill(buf, bytes);
        let call = datagram_call(self.alloc, room, from, &buf[..len]);
        self.log.note(call);
        Ok(Taken::Datagram { from, len })
    }

    fn send(&mut self, to: Addr, bytes: &[u8]) -> Result<(), Failed>
        ensures log { Gains self.old.log self.new.log (LinkCall.Send to bytes.now (is_done result)) }
        ensures cause { HasCause self.old.faults self.new.faults result }
        ensures counted { self.new.faults ≡ faults_after (is_done result) self.old.faults }
        ensures fails { next_counted_fails self.old.replies.list ≡ not (is_done result) }
        ensures left { self.new ≡ record self.old { log = self.new.log; replies = counted_room self.old.replies; faults = self.new.faults } }
    {
        let fails = self.replies.next_fails();
        self.replies.count_call();
        let call = send_call(self.alloc, to, bytes, !fails);
        self.log.note(call);
        if fails {
            self.faults = self.faults.saturating_add(1);
            return Err(Failed);
        }
        Ok(())
    }
}
