//! Memory for a reply that is taken before the reply is known, and a reply that is written without taking any.
ghost use Rattle.std.specs.Prelude.{◌≡◌, ◌<◌, ◌≤◌, ◌^◌, ◌++◌, ℕ, List, [], length, IfOk};
ghost use Rattle.relay_outside.specs.declared.settings.Config.{Config};
ghost use Rattle.ng_reply.specs.Replies.{sdp_reply};
ghost use Rattle.cookie_cache.specs.Keepings.{IsCookie};
ghost use Rattle.call_board.specs.Dialects.{is_json, written_in};
ghost use Rattle.call_board.specs.Replies.{Described, Fault, reply_datagram};
ghost use Rattle.control_messages.specs.Rooms.{reply_room, described_room, IsReplyRoom};

use crate::request::{Request, is_json};
use crate::short::error_into;
use ng_bencode::Text;
use ng_reply::{ErrorCode, sdp_json_into, sdp_json_len, sdp_reply_into, sdp_reply_len};
use relay_outside::OutOfMemory;
use std::alloc::Global;

/// How many bytes the datagram of an error has at most.
const MAX_ERROR: usize = 512;

/// How many bytes of room the reply to a body takes that has a description of this length.
fn described_len(body: &[u8], sdp_len: usize) -> usize
    requires { sdp_len < 2 ^ 40 }
    ensures { (sdp : List ℕ) → length sdp ≡ sdp_len → result ≡ reply_room (is_json body.now) sdp }
{
    if is_json(body) {
        sdp_json_len(sdp_len)
    } else {
        sdp_reply_len(sdp_len)
    }
}

/// An empty text with room for the reply to an offer or an answer: for success with a description of up to `sdp_len`
/// bytes, and for every error. `Err`: out of memory.
pub fn reply_room(alloc: Global, request: &Request, sdp_len: usize) -> Result<Text, OutOfMemory>
    requires cookie { IsCookie request.now.cookie.now }
    requires small { sdp_len < 2 ^ 40 }
    ensures { IfOk result (λ room. IsReplyRoom request.now.cookie.now request.now.body.now sdp_len room) }
{
    let described = request.cookie.len() + 1 + described_len(request.body, sdp_len);
    let mut room = Text::new(alloc);
    let Ok(()) = room.reserve(described.max(MAX_ERROR)) else {
        return Err(OutOfMemory);
    };
    Ok(room)
}

/// Writes the reply to a body with a description at the end. It takes no memory.
fn put_described(body: &[u8], sdp: &[u8], out: &mut Text)
    requires small { length sdp.now < 2 ^ 40 }
    requires room { reply_room (is_json body.now) sdp.now ≤ out.old.spare }
    ensures { out.new.list ≡ out.old.list ++ written_in (is_json body.now) (sdp_reply sdp.now) }
{
    if is_json(body) {
        sdp_json_into(sdp, out)
    } else {
        sdp_reply_into(sdp, out)
    }
}

/// Writes the datagram of success with a description into the empty `out`. It takes no memory.
pub fn write_described(request: &Request, sdp: &[u8], out: &mut Text)
    requires empty { out.old.list ≡ [] }
    requires small { length sdp.now < 2 ^ 40 }
    requires room { described_room request.now.cookie.now request.now.body.now sdp.now ≤ out.old.spare }
    ensures { (config : Config) → out.new.list ≡ reply_datagram config request.now.cookie.now request.now.body.now (Described sdp.now) }
{
    out.extend(request.cookie);
    out.push(b' ');
    put_described(request.body, sdp, out);
}

/// Writes the datagram of an error into the empty `out`. It takes no memory.
pub fn write_error(request: &Request, code: ErrorCode, out: &mut Text)
    requires cookie { IsCookie request.now.cookie.now }
    requires empty { out.old.list ≡ [] }
    requires room { 512 ≤ out.old.spare }
    ensures { (config : Config) → out.new.list ≡ reply_datagram config request.now.cookie.now request.now.body.now (Fault code) }
{
    let mut datagram = [0; 512];
    let len = error_into(request, code, &mut datagram);
    out.extend(&datagram[..len]);
}
