//! The control link of a load.
ghost use Rattle.std.specs.Prelude.{◌≡◌, ◌↔◌, ◌≤◌, ◌<◌, ◌*◌, ℕ, true, false, Some, [], IsTrue, IsSome, IfOk, IfSome, MatchOption, length, take};
ghost use Rattle.relay_outside.specs.DeviceLogs.{Gains, HasCause, is_done};
ghost use Rattle.relay_outside.specs.Link.{FitsRoom, link_given};
ghost use Rattle.load_maker.specs.Datagrams.{controller, datagram_with, is_success};
ghost use Rattle.load_maker.specs.Links.{IsOfLoad};

use crate::datagrams::load_datagram;
use ng_bencode::Text;
use ng_frame::split;
use relay_outside::{
    Addr, CallList, ControlLink, Failed, Ip, LinkCall, LinkGiven, Taken, datagram_call, send_call,
};
use std::alloc::Global;
use std::marker::Model;

/// Where the datagrams of a load come from.
const CONTROLLER: Addr = Addr {
    ip: Ip::V4([127, 0, 0, 1]),
    port: 2224,
};

/// The control link of a load. Its takes give the offer and the answer of each call, by their numbers from 1, and then the end. Where
/// memory runs out, or a reply is no success, its takes fail from then on.
#[derive(Drop)]
pub struct LoadLink {
    alloc: Global,
    log: CallList<LinkCall>,
    calls: u32,
    given: u32,
    well: bool,
    faults: u64,
}

impl Model for LoadLink {
    ghost use Rattle.std.specs.Prelude.{◌≤◌, ◌*◌};
    ghost use Rattle.load_maker.specs.Links.{LoadLinkState, IsOfLoad};

    ghost Value = { LoadLinkState };

    ghost view = { λ link. record { log = link.log; calls = link.calls; given = link.given; well = link.well; faults = link.faults } };

    ghost invariant = { λ link. IsOfLoad (record { log = link.log; calls = link.calls; given = link.given; well = link.well; faults = link.faults }) };
}

/// Whether a reply is that of a success.
fn is_success(reply: &[u8]) -> bool
    ensures { result ≡ is_success reply.now }
{
    match split(reply) {
        Some((_, body)) => body.starts_with(b"d6:result2:ok"),
        None => false,
    }
}

/// Copies bytes to the front of a buffer that has room for them, and returns how many they are.
fn put_front(buf: &mut [u8], bytes: &[u8]) -> usize
    requires { length bytes.now ≤ length buf.old }
    ensures count { result ≡ length bytes.now }
    ensures front { take result buf.new ≡ bytes.now }
{
    let len = bytes.len();
    buf[..len].copy_from_slice(bytes);
    len
}

impl LoadLink {
    /// A link whose takes give the datagrams of this many calls.
    pub fn new(alloc: Global, calls: u32) -> LoadLink
        requires { calls ≤ 1000 }
        ensures { result ≡ record { log = Some []; calls = calls; given = 0; well = true; faults = 0 } }
    {
        LoadLink {
            alloc,
            log: CallList::new(alloc),
            calls,
            given: 0,
            well: true,
            faults: 0,
        }
    }

    /// Whether the link still tells its list.
    pub fn tells(&self) -> bool
        ensures tells { IsTrue result ↔ IsSome self.now.log }
        ensures of_load { IsOfLoad self.now }
    {
        self.log.tells()
    }

    /// Whether each reply so far was a success.
    pub fn has_succeeded(&self) -> bool
        ensures { result ≡ self.now.well }
    {
        self.well
    }

    /// Whether all datagrams of this many calls were given.
    pub fn gave_all(&self, calls: u32) -> bool
        requires { calls ≤ 1000 }
        ensures gave { IsTrue result → self.now.given ≡ 2 * calls }
        ensures otherwise { result ≡ false → self.now.given ≡ 2 * calls → ⊥ }
    {
        self.given == 2 * calls
    }

    /// The next datagram, where the replies were successes, there is memory for it, and it is no longer than the room for it.
    fn next_datagram(&self, room: usize) -> Option<Text>
        requires { self.now.given < 2 * self.now.calls }
        ensures { IfSome result (λ datagram. (datagram.list ≡ datagram_with self.now.given) × (length datagram.list ≤ room)) }
    {
        if !self.well {
            return None;
        }
        let Ok(datagram) = load_datagram(self.alloc, self.given) else {
            return None;
        };
        if datagram.as_slice().len() > room {
            return None;
        }
        Some(datagram)
    }
}

impl ControlLink for LoadLink {
    ghost use Rattle.std.specs.Prelude.{◌≡◌, ◌<◌, length};
    ghost use Rattle.relay_outside.specs.DeviceLogs.{Gains, HasCause, is_done};
    ghost use Rattle.relay_outside.specs.Link.{FitsRoom, link_given};

    ghost log = { λ link. link.log };

    ghost faults = { λ link. link.faults };

    fn bind(&mut self, at: Addr) -> Result<(), Failed>
        ensures log { Gains self.old.log self.new.log (LinkCall.Bind at (is_done result)) }
        ensures cause { HasCause self.old.faults self.new.faults result }
    {
        self.log.note(Some(LinkCall::Bind { at, done: true }));
        Ok(())
    }

    fn take(&mut self, buf: &mut [u8]) -> Result<Taken, Failed>
        requires { 0 < length buf.old }
        ensures within { FitsRoom result (length buf.old) }
        ensures log { Gains self.old.log self.new.log (LinkCall.Take (length buf.old) (link_given result buf.new)) }
        ensures cause { HasCause self.old.faults self.new.faults result }
    {
        let room = buf.len();
        if self.given == 2 * self.calls {
            let given = LinkGiven::End;
            self.log.note(Some(LinkCall::Take { room, given }));
            return Ok(Taken::End);
        }
        let Some(datagram) = self.next_datagram(room) else {
            let given = LinkGiven::Failed;
            self.log.note(Some(LinkCall::Take { room, given }));
            self.faults = self.faults.saturating_add(1);
            return Err(Failed);
        };
        let len = put_front(buf, datagram.as_slice());
        let call = datagram_call(self.alloc, room, CONTROLLER, &buf[..len]);
        self.log.note(call);
        self.given += 1;
        Ok(Taken::Datagram {
            from: CONTROLLER,
            len,
        })
    }

    fn send(&mut self, to: Addr, bytes: &[u8]) -> Result<(), Failed>
        ensures log { Gains self.old.log self.new.log (LinkCall.Send to bytes.now (is_done result)) }
        ensures cause { HasCause self.old.faults self.new.faults result }
    {
        self.well = self.well & is_success(bytes);
        let call = send_call(self.alloc, to, bytes, true);
        self.log.note(call);
        Ok(())
    }
}
