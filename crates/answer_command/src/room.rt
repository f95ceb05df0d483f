//! The memory of an answer that the board planned.
ghost use Rattle.std.specs.Prelude.{◌≡◌, ◌≤◌, ◌<◌, ◌^◌, [], ◌∷◌, is_some, IfOk, OnOk, if◌then◌else◌};
ghost use Rattle.cookie_cache.specs.Keepings.{IsCookie};
ghost use Rattle.call_cell.specs.Commits.{inbound_keys};
ghost use Rattle.control_messages.specs.Rooms.{IsReplyRoom};

use call_cell::InContexts;
use control_messages::{Request, reply_room};
use ng_bencode::Text;
use port_pool::{LegSignal, SectionSignal, Signal};
use relay_outside::OutOfMemory;
use sdp_text::Bytes;
use std::alloc::Global;

/// No description that is written for an answer has this many bytes.
const MOST_BYTES: usize = 1 << 40;

/// The memory of an answer.
#[derive(Drop)]
pub(crate) struct AnswerRoom {
    /// Room for the contexts of its inbound keys.
    pub contexts: InContexts,
    /// Room for its description.
    pub text: Bytes,
    /// Room for its reply.
    pub reply: Text,
}

/// Room for an empty text of this many bytes.
fn text_room(alloc: Global, len: usize) -> Result<Bytes, OutOfMemory>
    ensures { IfOk result (λ text. (text.list ≡ []) × (len ≤ text.spare)) }
{
    let mut text = Bytes::new(alloc);
    if text.reserve(len).is_err() {
        return Err(OutOfMemory);
    }
    Ok(text)
}

/// How many inbound keys are named for a leg: one or none.
fn leg_keys(leg: &LegSignal) -> usize
    ensures { result ≡ (if is_some leg.now.inbound then 1 else 0) }
{
    match leg.inbound {
        None => 0,
        Some(_) => 1,
    }
}

/// How many inbound keys a section names.
fn section_keys(section: SectionSignal) -> usize
    ensures { result ≡ inbound_keys (section ∷ []) }
{
    match section {
        SectionSignal::Commit(a, b) => leg_keys(&a) + leg_keys(&b),
        SectionSignal::Reject => 0,
    }
}

/// How many inbound keys an answer names.
fn inbound_keys(signal: &Signal) -> usize
    ensures { result ≡ inbound_keys signal.now }
{
    let mut keys = 0;
    for index in 0..signal.len() {
        keys += section_keys(signal.section(index));
    }
    keys
}

/// The memory of an answer to this request that commits this, and whose description has at most this many bytes. There is none for 2^40 bytes.
/// It has as many inbound contexts as the answer names keys, which is enough whatever the cell holds (`due_named`), since no two of its legs
/// have one section and side. A box for a key in force stays empty and goes with the answer.
pub(crate) fn answer_room(
    alloc: Global,
    request: &Request,
    signal: &Signal,
    len: usize,
) -> Result<AnswerRoom, OutOfMemory>
    requires { IsCookie request.now.cookie.now }
    ensures small { OnOk result (len < 2 ^ 40) }
    ensures contexts { IfOk result (λ room. room.contexts ≡ inbound_keys signal.now) }
    ensures text { IfOk result (λ room. (room.text.list ≡ []) × (len ≤ room.text.spare)) }
    ensures reply { IfOk result (λ room. IsReplyRoom request.now.cookie.now request.now.body.now len room.reply) }
{
    if len >= MOST_BYTES {
        return Err(OutOfMemory);
    }
    let contexts = InContexts::reserve(alloc, inbound_keys(signal))?;
    let text = text_room(alloc, len)?;
    let reply = reply_room(alloc, request, len)?;
    Ok(AnswerRoom {
        contexts,
        text,
        reply,
    })
}
