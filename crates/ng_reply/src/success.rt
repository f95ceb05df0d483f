ghost use Rattle.std.specs.Prelude.{◌≡◌, ◌+◌, ◌<◌, ◌≤◌, ◌^◌, ◌++◌, ℕ, List, length, codes, IfOk, OnOk};
ghost use Rattle.ng_bencode.specs.Row.{list_in};
ghost use Rattle.ng_bencode.specs.Tree.{tree_of, pairs_of};
ghost use Rattle.ng_bencode.specs.Spells.{spelling};
ghost use Rattle.ng_reply.specs.Replies.{pong_reply, ok_reply, sdp_reply, warning_reply};

use crate::code::ErrorCode;
use crate::pairs::put_text;
use crate::words::code_text;
use itoa::Buffer;
use ng_bencode::{Pairs, Text, Value};
use relay_outside::OutOfMemory;
use std::alloc::Global;

/// What the reply with a description begins with.
const SDP_HEAD: &[u8; 18] = b"d6:result2:ok3:sdp";

/// The reply to a ping.
pub fn pong(alloc: Global) -> Result<Value, OutOfMemory>
    ensures { IfOk result (λ value. tree_of value ≡ pong_reply) }
{
    let mut pairs = Pairs::new(alloc);
    put_text(alloc, &mut pairs, b"result", b"pong")?;
    Ok(Value::dict(pairs))
}

/// Success, and nothing else.
pub fn done(alloc: Global) -> Result<Value, OutOfMemory>
    ensures { IfOk result (λ value. tree_of value ≡ ok_reply) }
{
    let mut pairs = Pairs::new(alloc);
    put_text(alloc, &mut pairs, b"result", b"ok")?;
    Ok(Value::dict(pairs))
}

/// Success with the text of an error as a warning.
pub fn warned(alloc: Global, code: ErrorCode) -> Result<Value, OutOfMemory>
    ensures { IfOk result (λ value. tree_of value ≡ warning_reply code) }
{
    let words = code_text(code);
    let mut pairs = Pairs::new(alloc);
    put_text(alloc, &mut pairs, b"result", b"ok")?;
    put_text(alloc, &mut pairs, b"warning", words.as_slice())?;
    Ok(Value::dict(pairs))
}

/// How many bytes the reply with a description of this length has.
pub fn sdp_reply_len(sdp_len: usize) -> usize
    requires { sdp_len < 2 ^ 40 }
    ensures { (sdp : List ℕ) → length sdp ≡ sdp_len → result ≡ length (spelling (sdp_reply sdp)) }
{
    let mut buffer = Buffer::new();
    let digits = buffer.format(sdp_len).as_bytes();
    SDP_HEAD.len() + digits.len() + 1 + sdp_len + 1
}

/// Writes the reply with a description after `out`, in room that was reserved for `sdp_reply_len` bytes.
pub fn sdp_reply_into(sdp: &[u8], out: &mut Text)
    requires small { length sdp.now < 2 ^ 40 }
    requires room { length (spelling (sdp_reply sdp.now)) ≤ out.old.spare }
    ensures written { out.new.list ≡ out.old.list ++ spelling (sdp_reply sdp.now) }
    ensures room { out.old.spare ≤ out.new.spare + length (spelling (sdp_reply sdp.now)) }
{
    let mut buffer = Buffer::new();
    let digits = buffer.format(sdp.len()).as_bytes();
    out.extend(SDP_HEAD);
    out.extend(digits);
    out.push(b':');
    out.extend(sdp);
    out.push(b'e');
}
