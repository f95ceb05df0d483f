//! A control link that gives the commands of fifty calls while their packets are relayed.
ghost use Rattle.std.specs.Prelude.{◌≤◌, None, length};

use crate::traffic::{Traffic, fill};
use relay_outside::{Addr, ControlLink, Failed, Ip, Taken};

/// How many calls there are.
const CALLS: u16 = 50;

/// How many of them are deleted: the others live until the stop.
const DELETED: u16 = 40;

/// How many commands a call has.
const COMMANDS: u16 = 5;

/// How many calls are offered from one command of a call to its next.
const APART: u16 = 8;

/// How many packets leave between two commands once a call was answered.
const PACKETS: u64 = 20;

/// How many takes of the link give nothing between two commands at most, where no packet leaves.
const MOST_PAUSES: u32 = 2_000_000;

/// The proxy that asks.
const PROXY: Addr = Addr {
    ip: Ip::V4([192, 0, 2, 10]),
    port: 5060,
};

/// The commands of the call 0000. Its number stands in the cookie and in the call-id, at the same places in each.
const OFFER: &[u8] =
    b"0_0000 d7:call-id4:00007:command5:offer8:from-tag1:a3:sdp89:v=0\r\no=- 1 1 IN IP4 192.0.2.10\r\ns=-\r\nc=IN IP4 192.0.2.10\r\nt=0 0\r\nm=audio 6000 RTP/AVP 0\r\ne";

const ANSWER: &[u8] =
    b"1_0000 d7:call-id4:00007:command6:answer8:from-tag1:a3:sdp95:v=0\r\no=- 1 1 IN IP4 198.51.100.20\r\ns=-\r\nc=IN IP4 198.51.100.20\r\nt=0 0\r\nm=audio 7000 RTP/AVP 0\r\n6:to-tag1:be";

const OFFER_AGAIN: &[u8] =
    b"2_0000 d7:call-id4:00007:command5:offer8:from-tag1:a3:sdp89:v=0\r\no=- 1 2 IN IP4 192.0.2.10\r\ns=-\r\nc=IN IP4 192.0.2.10\r\nt=0 0\r\nm=audio 6100 RTP/AVP 0\r\n6:to-tag1:be";

const ANSWER_AGAIN: &[u8] =
    b"3_0000 d7:call-id4:00007:command6:answer8:from-tag1:a3:sdp95:v=0\r\no=- 1 2 IN IP4 198.51.100.20\r\ns=-\r\nc=IN IP4 198.51.100.20\r\nt=0 0\r\nm=audio 7100 RTP/AVP 0\r\n6:to-tag1:be";

const DELETE: &[u8] = b"4_0000 d7:call-id4:00007:command6:deletee";

/// The call and the datagram of the command at this place; `None` where none stands there. The commands of a call stand in their
/// order, with those of the calls before and after it between them.
fn command_at(place: u16) -> Option<(u16, &'static [u8])> {
    let kind = place % COMMANDS;
    let call = (place / COMMANDS).checked_sub(kind * APART)?;
    if call >= CALLS {
        return None;
    }
    match kind {
        0 => Some((call, OFFER)),
        1 => Some((call, ANSWER)),
        2 => Some((call, OFFER_AGAIN)),
        3 => Some((call, ANSWER_AGAIN)),
        _ if call < DELETED => Some((call, DELETE)),
        _ => None,
    }
}

/// The place after the last command.
const LAST_PLACE: u16 = (CALLS + (COMMANDS - 1) * APART) * COMMANDS;

/// Fills the buffer with a command of the call with this number.
fn fill_command(buf: &mut [u8], call: u16, command: &[u8]) -> usize
    ensures { result ≤ length buf.old }
{
    let len = fill(buf, command);
    if len >= 23 {
        let digits = [b'0' + (call / 10 % 10) as u8, b'0' + (call % 10) as u8];
        buf[4..6].copy_from_slice(&digits);
        buf[21..23].copy_from_slice(&digits);
    }
    len
}

/// A control link that gives the commands of all calls, and then the end. Once a call was answered it gives nothing until more packets
/// have left, or for `MOST_PAUSES` takes.
#[derive(Drop)]
pub(crate) struct CallsLink<'a> {
    traffic: &'a Traffic,
    place: u16,
    /// How many packets are to have left before the next command.
    awaited: u64,
    /// How many takes gave nothing since the last command.
    pauses: u32,
    /// How many takes gave a datagram or nothing.
    turns: u64,
    datagrams: u64,
    replies: u64,
    /// Whether each reply went to the proxy and says ok.
    are_ok: bool,
}

impl<'a> CallsLink<'a> {
    /// A link that was not called yet.
    pub(crate) fn new(traffic: &'a Traffic) -> CallsLink<'a> {
        CallsLink {
            traffic,
            place: 0,
            awaited: 0,
            pauses: 0,
            turns: 0,
            datagrams: 0,
            replies: 0,
            are_ok: true,
        }
    }

    /// How many takes gave a datagram or nothing, how many gave a datagram, and how many replies were sent, where each says ok.
    pub(crate) fn counts(&self) -> Option<(u64, u64, u64)> {
        if self.are_ok {
            Some((self.turns, self.datagrams, self.replies))
        } else {
            None
        }
    }

    /// Whether the next take is to give nothing.
    fn pauses(&mut self) -> bool {
        if self.traffic.sent() >= self.awaited || self.pauses >= MOST_PAUSES {
            return false;
        }
        self.pauses += 1;
        true
    }

    /// The next command, if there is one.
    fn next_command(&mut self) -> Option<(u16, &'static [u8])> {
        for place in self.place..LAST_PLACE {
            self.place = place + 1;
            if let Some(command) = command_at(place) {
                return Some(command);
            }
        }
        None
    }
}

impl<'a> ControlLink for CallsLink<'a> {
    ghost log = { λ link. None };

    ghost faults = { λ link. 0 };

    fn bind(&mut self, _at: Addr) -> Result<(), Failed> {
        Ok(())
    }

    fn take(&mut self, buf: &mut [u8]) -> Result<Taken, Failed> {
        if self.pauses() {
            self.turns = self.turns.saturating_add(1);
            return Ok(Taken::Nothing);
        }
        let Some((call, command)) = self.next_command() else {
            return Ok(Taken::End);
        };
        self.turns = self.turns.saturating_add(1);
        self.datagrams = self.datagrams.saturating_add(1);
        self.pauses = 0;
        if self.place > APART * COMMANDS + COMMANDS {
            self.awaited = self.traffic.sent().saturating_add(PACKETS);
        }
        Ok(Taken::Datagram {
            from: PROXY,
            len: fill_command(buf, call, command),
        })
    }

    fn send(&mut self, to: Addr, bytes: &[u8]) -> Result<(), Failed> {
        let is_ok = bytes.len() > 20 && &bytes[7..20] == b"d6:result2:ok".as_slice();
        self.are_ok = self.are_ok && is_ok && to == PROXY;
        self.replies = self.replies.saturating_add(1);
        Ok(())
    }
}
