//! The bodies of the commands that make a call.
ghost use Rattle.std.specs.Prelude.{◌≡◌, ◌≤◌, IfOk, OnOk};
ghost use Rattle.ng_bencode.specs.Row.{list_in};
ghost use Rattle.ng_bencode.specs.Tree.{pairs_of};
ghost use Rattle.ng_bencode.specs.Spells.{spelling};
ghost use Rattle.load_maker.specs.Calls.{call_id, with_profile, offer_body, answer_body};

use crate::commands::Signals;
use crate::sdp::{answered_sdp, offered_sdp};
use crate::text::{put, put_number};
use ng_bencode::{Pairs, Text, Value, encode};
use ng_reply::put_text;
use relay_outside::OutOfMemory;
use std::alloc::Global;

/// The bodies of the commands that make this call, from 1. Where it is `protected`, side B is offered `RTP/SAVP` and answers with a key.
pub fn signals(alloc: Global, call: u32, protected: bool) -> Result<Signals, OutOfMemory>
    requires { (1 ≤ call) × (call ≤ 1000) }
    ensures offer { IfOk result (λ signals. signals.offer.list ≡ spelling (offer_body call protected)) }
    ensures answer { IfOk result (λ signals. signals.answer.list ≡ spelling (answer_body call protected)) }
{
    let offer = offer_body(alloc, call, protected)?;
    let answer = answer_body(alloc, call, protected)?;
    Ok(Signals { offer, answer })
}

/// The body of a call's offer.
pub(crate) fn offer_body(alloc: Global, call: u32, protected: bool) -> Result<Text, OutOfMemory>
    requires { call ≤ 1000 }
    ensures { IfOk result (λ body. body.list ≡ spelling (offer_body call protected)) }
{
    let id = call_id(alloc, call)?;
    let sdp = offered_sdp(alloc, call)?;
    let mut pairs = Pairs::new(alloc);
    put_text(alloc, &mut pairs, b"call-id", id.as_slice())?;
    put_text(alloc, &mut pairs, b"command", b"offer")?;
    put_text(alloc, &mut pairs, b"from-tag", b"a")?;
    put_text(alloc, &mut pairs, b"sdp", sdp.as_slice())?;
    put_profile(alloc, &mut pairs, protected)?;
    match encode(alloc, &Value::dict(pairs)) {
        Ok(body) => Ok(body),
        Err(_) => Err(OutOfMemory),
    }
}

/// The body of its answer.
/// It has the from-tag `a` and the to-tag `b`, as every answer after an offer of side A.
pub(crate) fn answer_body(alloc: Global, call: u32, protected: bool) -> Result<Text, OutOfMemory>
    requires { call ≤ 1000 }
    ensures { IfOk result (λ body. body.list ≡ spelling (answer_body call protected)) }
{
    let id = call_id(alloc, call)?;
    let sdp = answered_sdp(alloc, call, protected)?;
    let mut pairs = Pairs::new(alloc);
    put_text(alloc, &mut pairs, b"call-id", id.as_slice())?;
    put_text(alloc, &mut pairs, b"command", b"answer")?;
    put_text(alloc, &mut pairs, b"from-tag", b"a")?;
    put_text(alloc, &mut pairs, b"sdp", sdp.as_slice())?;
    put_text(alloc, &mut pairs, b"to-tag", b"b")?;
    match encode(alloc, &Value::dict(pairs)) {
        Ok(body) => Ok(body),
        Err(_) => Err(OutOfMemory),
    }
}

fn call_id(alloc: Global, call: u32) -> Result<Text, OutOfMemory>
    ensures { IfOk result (λ id. id.list ≡ call_id call) }
{
    let mut id = Text::new(alloc);
    put(&mut id, b"load-")?;
    put_number(&mut id, call)?;
    Ok(id)
}

/// Puts the protocol towards side B after the other pairs, where it is to be protected.
fn put_profile(alloc: Global, pairs: &mut Pairs, protected: bool) -> Result<(), OutOfMemory>
    ensures { OnOk result (pairs_of (list_in pairs.new) ≡ with_profile (pairs_of (list_in pairs.old)) protected) }
{
    if !protected {
        return Ok(());
    }
    put_text(alloc, pairs, b"transport protocol", b"RTP/SAVP")
}
