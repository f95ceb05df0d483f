ghost use Rattle.std.specs.Prelude.{◌≡◌, ◌↔◌, ◌≤◌, ◌<◌, ℕ, List, Option, Some, None, Result, Ok, Err, [], IsTrue, IsSome, IfOk, MatchOption, MatchResult, length};
ghost use Rattle.relay_outside.specs.DeviceLogs.{Gains, HasCause, is_done};
ghost use Rattle.relay_outside.specs.Link.{FitsRoom, link_given, sent_of, sent};
ghost use Rattle.std.specs.List.{last_or};
ghost use Rattle.relay_outside.specs.Failures.{next_fails, after_call};

use super::fill::fill;
use crate::address::Addr;
use crate::answers::{Failed, OutOfMemory, Taken};
use crate::calls::{CallList, Copied};
use crate::failures::Failing;
use crate::link::{ControlLink, LinkCall, LinkGiven};
use std::alloc::Global;
use std::marker::Model;

/// What a take of a link in memory is to give.
#[derive(Drop)]
pub enum LinkGift {
    /// A datagram.
    Datagram {
        /// Where it comes from.
        from: Addr,
        /// Its bytes.
        bytes: Copied,
    },
    /// Nothing is there.
    Nothing,
    /// The link gives no more: what the list has after it is never given.
    End,
}

impl LinkGift {
    /// A datagram with a copy of these bytes.
    pub fn datagram(alloc: Global, from: Addr, bytes: &[u8]) -> Result<LinkGift, OutOfMemory>
        ensures { IfOk result (λ gift. gift ≡ LinkGift.Datagram from bytes.now) }
    {
        match Copied::of(alloc, bytes) {
            Some(bytes) => Ok(LinkGift::Datagram { from, bytes }),
            None => Err(OutOfMemory),
        }
    }
}

/// What the two links in memory share: their log, and what they give.
#[derive(Drop)]
struct Tape {
    alloc: Global,
    log: CallList<LinkCall>,
    gifts: Vec<LinkGift>,
    next: usize,
}

impl Model for Tape {
    ghost use Rattle.std.specs.Prelude.{drop};
    ghost use Rattle.relay_outside.specs.LinkTape.{LinkTape};

    ghost Value = { LinkTape };

    ghost view = { λ tape. record { log = tape.log; gifts = drop tape.next tape.gifts.items } };
}

impl Tape {
    ghost use Rattle.relay_outside.specs.LinkTape.{GivesGift, last_sent};

    fn new(alloc: Global, gifts: Vec<LinkGift>) -> Tape
        ensures { result ≡ record { log = Some []; gifts = gifts.items } }
    {
        Tape {
            alloc,
            log: CallList::new(alloc),
            gifts,
            next: 0,
        }
    }

    fn note_bind(&mut self, at: Addr, done: bool)
        ensures log { Gains self.old.log self.new.log (LinkCall.Bind at done) }
        ensures gifts { self.new.gifts ≡ self.old.gifts }
    {
        self.log.note(Some(LinkCall::Bind { at, done }));
    }

    fn note_failed_take(&mut self, room: usize)
        ensures log { Gains self.old.log self.new.log (LinkCall.Take room LinkGiven.Failed) }
        ensures gifts { self.new.gifts ≡ self.old.gifts }
    {
        let given = LinkGiven::Failed;
        self.log.note(Some(LinkCall::Take { room, given }));
    }

    fn note_send(&mut self, to: Addr, bytes: &[u8], done: bool)
        ensures log { Gains self.old.log self.new.log (LinkCall.Send to bytes.now done) }
        ensures gifts { self.new.gifts ≡ self.old.gifts }
    {
        let call = send_call(self.alloc, to, bytes, done);
        self.log.note(call);
    }

    fn take(&mut self, buf: &mut [u8]) -> Taken
        ensures within { FitsRoom (Ok result) (length buf.old) }
        ensures log { Gains self.old.log self.new.log (LinkCall.Take (length buf.old) (link_given (Ok result) buf.new)) }
        ensures gift { GivesGift self.old.gifts self.new.gifts result buf.new }
    {
        let room = buf.len();
        let Some(gift) = self.gifts.get(self.next) else {
            let given = LinkGiven::End;
            self.log.note(Some(LinkCall::Take { room, given }));
            return Taken::End;
        };
        self.next += 1;
        match gift {
            LinkGift::Datagram { from, bytes } => {
                let len = fill(buf, bytes.as_slice());
                let call = datagram_call(self.alloc, room, *from, &buf[..len]);
                self.log.note(call);
                Taken::Datagram { from: *from, len }
            }
            LinkGift::Nothing => {
                let given = LinkGiven::Nothing;
                self.log.note(Some(LinkCall::Take { room, given }));
                Taken::Nothing
            }
            LinkGift::End => {
                self.next = self.gifts.len();
                let given = LinkGiven::End;
                self.log.note(Some(LinkCall::Take { room, given }));
                Taken::End
            }
        }
    }

    fn last_sent(&self) -> Option<(Addr, &[u8])>
        ensures { MatchOption result (last_sent self.now.log ≡ None) (λ sent. last_sent self.now.log ≡ Some (sent.0, sent.1.now)) }
    {
        let calls = self.log.get()?;
        last_sent_of(calls)
    }
}

/// The target and the bytes of the last send among a link's calls that returned Ok: `None` where there was none.
pub fn last_sent_of(calls: &[LinkCall]) -> Option<(Addr, &[u8])>
    ensures { MatchOption result (last_or None (sent calls.now) ≡ None) (λ found. last_or None (sent calls.now) ≡ Some (found.0, found.1.now)) }
{
    let mut found = None;
    for call in calls {
        if let Some(sent) = sent_by(call) {
            found = Some(sent);
        }
    }
    found
}

/// The target and the bytes of a call that sent something.
fn sent_by(call: &LinkCall) -> Option<(Addr, &[u8])>
    ensures { MatchOption result (sent_of call.now ≡ None) (λ found. sent_of call.now ≡ Some (found.0, found.1.now)) }
{
    match call {
        LinkCall::Send { to, bytes, done } => {
            if *done {
                Some((*to, bytes.as_slice()))
            } else {
                None
            }
        }
        LinkCall::Bind { .. } => None,
        LinkCall::Take { .. } => None,
    }
}

/// The record of a send; `None` where its bytes could not be copied.
pub fn send_call(alloc: Global, to: Addr, bytes: &[u8], done: bool) -> Option<LinkCall>
    ensures { MatchOption result (Unit {0}) (λ call. call ≡ LinkCall.Send to bytes.now done) }
{
    match Copied::of(alloc, bytes) {
        Some(bytes) => Some(LinkCall::Send { to, bytes, done }),
        None => None,
    }
}

/// The record of a take that gave a datagram; `None` where its bytes could not be copied.
pub fn datagram_call(alloc: Global, room: usize, from: Addr, bytes: &[u8]) -> Option<LinkCall>
    ensures { MatchOption result (Unit {0}) (λ call. call ≡ LinkCall.Take room (LinkGiven.Datagram from bytes.now)) }
{
    match Copied::of(alloc, bytes) {
        Some(bytes) => {
            let given = LinkGiven::Datagram { from, bytes };
            Some(LinkCall::Take { room, given })
        }
        None => None,
    }
}

/// A control link in memory. Its takes give the list that it was made from, in order, and then the end;
/// the calls whose numbers it was given fail.
///
/// A failing call passes nothing on and uses nothing up. Calls of all three kinds are counted together,
/// from 1, failing ones too.
#[derive(Drop)]
pub struct MemoryLink {
    tape: Tape,
    failing: Failing,
}

impl Model for MemoryLink {
    ghost use Rattle.relay_outside.specs.LinkTape.{LinkState};

    ghost Value = { LinkState };

    ghost view = { λ link. record { log = link.tape.log; gifts = link.tape.gifts; failures = link.failing } };
}

impl MemoryLink {
    ghost use Rattle.relay_outside.specs.LinkTape.{last_sent};

    /// A link whose takes give these, and whose calls with these numbers fail.
    pub fn new(alloc: Global, gifts: Vec<LinkGift>, failing: Vec<u64>) -> MemoryLink
        ensures { result ≡ record { log = Some []; gifts = gifts.items; failures = record { numbers = failing.items; calls = 0; faults = 0 } } }
    {
        MemoryLink {
            tape: Tape::new(alloc, gifts),
            failing: Failing::new(failing),
        }
    }

    /// Whether the link still keeps its log.
    pub fn tells(&self) -> bool
        ensures { IsTrue result ↔ IsSome self.now.log }
    {
        self.tape.log.tells()
    }

    /// The last send that returned Ok: `None` where there was none, or the link keeps no log any more.
    pub fn last_sent(&self) -> Option<(Addr, &[u8])>
        ensures { MatchOption result (last_sent self.now.log ≡ None) (λ sent. last_sent self.now.log ≡ Some (sent.0, sent.1.now)) }
    {
        self.tape.last_sent()
    }
}

impl ControlLink for MemoryLink {
    ghost use Rattle.std.specs.Prelude.{◌≡◌, ◌<◌, length, MatchResult, not};
    ghost use Rattle.relay_outside.specs.DeviceLogs.{Gains, HasCause, is_done};
    ghost use Rattle.relay_outside.specs.Link.{FitsRoom, link_given};
    ghost use Rattle.relay_outside.specs.LinkTape.{GivesGift};
    ghost use Rattle.relay_outside.specs.Failures.{next_fails, after_call};

    ghost log = { λ link. link.log };

    ghost faults = { λ link. link.failures.faults };

    fn bind(&mut self, at: Addr) -> Result<(), Failed>
        ensures log { Gains self.old.log self.new.log (LinkCall.Bind at (is_done result)) }
        ensures cause { HasCause self.old.failures.faults self.new.failures.faults result }
        ensures fails { next_fails self.old.failures ≡ not (is_done result) }
        ensures counted { self.new.failures ≡ after_call self.old.failures }
        ensures gifts { self.new.gifts ≡ self.old.gifts }
    {
        if self.failing.fails() {
            self.tape.note_bind(at, false);
            return Err(Failed);
        }
        self.tape.note_bind(at, true);
        Ok(())
    }

    fn take(&mut self, buf: &mut [u8]) -> Result<Taken, Failed>
        requires { 0 < length buf.old }
        ensures within { FitsRoom result (length buf.old) }
        ensures log { Gains self.old.log self.new.log (LinkCall.Take (length buf.old) (link_given result buf.new)) }
        ensures cause { HasCause self.old.failures.faults self.new.failures.faults result }
        ensures fails { next_fails self.old.failures ≡ not (is_done result) }
        ensures counted { self.new.failures ≡ after_call self.old.failures }
        ensures gift { MatchResult result (λ taken. GivesGift self.old.gifts self.new.gifts taken buf.new) (λ _. (self.new.gifts ≡ self.old.gifts) × (buf.new ≡ buf.old)) }
    {
        if self.failing.fails() {
            self.tape.note_failed_take(buf.len());
            return Err(Failed);
        }
        Ok(self.tape.take(buf))
    }

    fn send(&mut self, to: Addr, bytes: &[u8]) -> Result<(), Failed>
        ensures log { Gains self.old.log self.new.log (LinkCall.Send to bytes.now (is_done result)) }
        ensures cause { HasCause self.old.failures.faults self.new.failures.faults result }
        ensures fails { next_fails self.old.failures ≡ not (is_done result) }
        ensures counted { self.new.failures ≡ after_call self.old.failures }
        ensures gifts { self.new.gifts ≡ self.old.gifts }
    {
        if self.failing.fails() {
            self.tape.note_send(to, bytes, false);
            return Err(Failed);
        }
        self.tape.note_send(to, bytes, true);
        Ok(())
    }
}

/// A control link in memory that never fails: its takes give the list that it was made from, in order,
/// and then the end.
#[derive(Drop)]
pub struct SteadyLink {
    tape: Tape,
}

impl Model for SteadyLink {
    ghost use Rattle.relay_outside.specs.LinkTape.{LinkTape};

    ghost Value = { LinkTape };

    ghost view = { λ link. link.tape };
}

impl SteadyLink {
    ghost use Rattle.relay_outside.specs.LinkTape.{last_sent};

    /// A link whose takes give these.
    pub fn new(alloc: Global, gifts: Vec<LinkGift>) -> SteadyLink
        ensures { result ≡ record { log = Some []; gifts = gifts.items } }
    {
        SteadyLink {
            tape: Tape::new(alloc, gifts),
        }
    }

    /// Whether the link still keeps its log.
    pub fn tells(&self) -> bool
        ensures { IsTrue result ↔ IsSome self.now.log }
    {
        self.tape.log.tells()
    }

    /// The last send: `None` where there was none, or the link keeps no log any more.
    pub fn last_sent(&self) -> Option<(Addr, &[u8])>
        ensures { MatchOption result (last_sent self.now.log ≡ None) (λ sent. last_sent self.now.log ≡ Some (sent.0, sent.1.now)) }
    {
        self.tape.last_sent()
    }
}

impl ControlLink for SteadyLink {
    ghost use Rattle.std.specs.Prelude.{◌≡◌, ◌<◌, length, IfOk, IsOk};
    ghost use Rattle.relay_outside.specs.DeviceLogs.{Gains, HasCause, is_done};
    ghost use Rattle.relay_outside.specs.Link.{FitsRoom, link_given};
    ghost use Rattle.relay_outside.specs.LinkTape.{GivesGift};

    ghost log = { λ link. link.log };

    ghost faults = { λ link. 0 };

    fn bind(&mut self, at: Addr) -> Result<(), Failed>
        ensures log { Gains self.old.log self.new.log (LinkCall.Bind at (is_done result)) }
        ensures cause { HasCause 0 0 result }
        ensures done { IsOk result }
        ensures gifts { self.new.gifts ≡ self.old.gifts }
    {
        self.tape.note_bind(at, true);
        Ok(())
    }

    fn take(&mut self, buf: &mut [u8]) -> Result<Taken, Failed>
        requires { 0 < length buf.old }
        ensures within { FitsRoom result (length buf.old) }
        ensures log { Gains self.old.log self.new.log (LinkCall.Take (length buf.old) (link_given result buf.new)) }
        ensures cause { HasCause 0 0 result }
        ensures done { IsOk result }
        ensures gift { IfOk result (λ taken. GivesGift self.old.gifts self.new.gifts taken buf.new) }
    {
        Ok(self.tape.take(buf))
    }

    fn send(&mut self, to: Addr, bytes: &[u8]) -> Result<(), Failed>
        ensures log { Gains self.old.log self.new.log (LinkCall.Send to bytes.now (is_done result)) }
        ensures cause { HasCause 0 0 result }
        ensures done { IsOk result }
        ensures gifts { self.new.gifts ≡ self.old.gifts }
    {
        self.tape.note_send(to, bytes, true);
        Ok(())
    }
}
