//! The replies that carry no description.
ghost use Rattle.std.specs.Prelude.{◌≡◌, ◌≤◌, ◌++◌, ◌∷◌, take, IfOk};
ghost use Rattle.relay_outside.specs.declared.settings.Config.{Config};
ghost use Rattle.ng_bencode.specs.Tree.{tree_of, depth};
ghost use Rattle.cookie_cache.specs.Keepings.{IsCookie};
ghost use Rattle.call_board.specs.Dialects.{is_json, written_in};
ghost use Rattle.call_board.specs.Replies.{Pong, Done, Warned, Fault, reply_datagram, fault_datagram};

use crate::request::{Request, is_json};
use ng_bencode::{Text, Value, encode};
use ng_frame::join;
use ng_reply::{ErrorCode, done, fixed_error, fixed_json_error, pong, warned};
use relay_outside::OutOfMemory;
use std::alloc::Global;

/// The datagram of a ping's reply. `Err`: out of memory.
pub fn pong_datagram(alloc: Global, request: &Request) -> Result<Text, OutOfMemory>
    ensures { (config : Config) → IfOk result (λ text. text.list ≡ reply_datagram config request.now.cookie.now request.now.body.now Pong) }
{
    let value = pong(alloc)?;
    value_datagram(alloc, request, &value)
}

/// The datagram of success, and nothing else. `Err`: out of memory.
pub fn done_datagram(alloc: Global, request: &Request) -> Result<Text, OutOfMemory>
    ensures { (config : Config) → IfOk result (λ text. text.list ≡ reply_datagram config request.now.cookie.now request.now.body.now Done) }
{
    let value = done(alloc)?;
    value_datagram(alloc, request, &value)
}

/// The datagram of success with the text of an error as a warning. `Err`: out of memory.
pub fn warned_datagram(
    alloc: Global,
    request: &Request,
    code: ErrorCode,
) -> Result<Text, OutOfMemory>
    ensures { (config : Config) → IfOk result (λ text. text.list ≡ reply_datagram config request.now.cookie.now request.now.body.now (Warned code)) }
{
    let value = warned(alloc, code)?;
    value_datagram(alloc, request, &value)
}

/// The datagram of an error. `Err`: out of memory, which `error_into` tells without taking any.
pub fn error_datagram(
    alloc: Global,
    request: &Request,
    code: ErrorCode,
) -> Result<Text, OutOfMemory>
    requires { IsCookie request.now.cookie.now }
    ensures { (config : Config) → IfOk result (λ text. text.list ≡ reply_datagram config request.now.cookie.now request.now.body.now (Fault code)) }
{
    let mut out = [0; 512];
    let len = error_into(request, code, &mut out);
    let Ok(datagram) = Text::copy_of(alloc, &out[..len]) else {
        return Err(OutOfMemory);
    };
    Ok(datagram)
}

/// Writes the datagram of an error, and returns its length. It takes no memory.
/// What stands in `out` after the datagram is left open.
pub fn error_into(request: &Request, code: ErrorCode, out: &mut [u8; 512]) -> usize
    requires { IsCookie request.now.cookie.now }
    ensures within { result ≤ 512 }
    ensures datagram { take result out.new ≡ fault_datagram request.now.cookie.now request.now.body.now code }
{
    if is_json(request.body) {
        fixed_json_error(request.cookie, code, out)
    } else {
        fixed_error(request.cookie, code, out)
    }
}

/// The text of a value in the dialect of a body. `Err`: out of memory.
fn value_text(alloc: Global, body: &[u8], value: &Value) -> Result<Text, ng_bencode::OutOfMemory>
    requires { depth (tree_of value.now) ≤ 16 }
    ensures { IfOk result (λ text. text.list ≡ written_in (is_json body.now) (tree_of value.now)) }
{
    if is_json(body) {
        ng_json::write(alloc, value)
    } else {
        encode(alloc, value)
    }
}

/// The datagram of a reply that stands as a value, in which at most 16 lists and dictionaries stand in one another: the cookie, a
/// space, and the value's text in the dialect of the request. `Err`: out of memory.
pub fn value_datagram(alloc: Global, request: &Request, value: &Value) -> Result<Text, OutOfMemory>
    requires { depth (tree_of value.now) ≤ 16 }
    ensures { IfOk result (λ text. text.list ≡ request.now.cookie.now ++ 32 ∷ written_in (is_json request.now.body.now) (tree_of value.now)) }
{
    let Ok(reply) = value_text(alloc, request.body, value) else {
        return Err(OutOfMemory);
    };
    match join(alloc, request.cookie, reply.as_slice()) {
        Ok(datagram) => Ok(datagram),
        Err(_) => Err(OutOfMemory),
    }
}
