//! The memory of an offer that the board planned.
ghost use Rattle.std.specs.Prelude.{◌≡◌, ◌≤◌, ◌<◌, ◌^◌, [], IfOk, OnOk, vec_capacity};
ghost use Rattle.cookie_cache.specs.Keepings.{IsCookie};
ghost use Rattle.control_messages.specs.Rooms.{IsReplyRoom};
ghost use Rattle.offer_command.specs.Brings.{HasOfferRoom};

use crate::lease::LeaseRoom;
use call_cell::Prepare;
use control_messages::{Request, reply_room};
use media_ports::{DrawnList, OpenedPairs};
use ng_bencode::Text;
use offer_answer::Plan;
use relay_outside::OutOfMemory;
use sdp_text::Bytes;
use std::alloc::Global;

/// Room for a reply is made for fewer bytes of description than these.
const MOST_BYTES: usize = 1 << 40;

/// All memory that an accepted offer takes besides the board's. It is made before the first pair is leased, so that nothing
/// after that can run out of memory.
#[derive(Drop)]
pub struct OfferRoom<I, O> {
    /// Room for what it takes.
    pub(crate) lease: LeaseRoom<I, O>,
    /// What it brings to its call.
    pub(crate) prepare: Prepare<O>,
    /// Its description.
    pub(crate) text: Bytes,
}

/// Room for this many ports, and for a description of this many bytes.
fn reserve_text(alloc: Global, pairs: usize, len: usize) -> Result<(Vec<u16>, Bytes), OutOfMemory>
    ensures numbers { IfOk result (λ both. (both.0.items ≡ []) × (pairs ≤ vec_capacity both.0)) }
    ensures text { IfOk result (λ both. (both.1.list ≡ []) × (len ≤ both.1.spare)) }
{
    let numbers = Vec::with_capacity(alloc, pairs)?;
    let mut text = Bytes::new(alloc);
    if text.reserve(len).is_err() {
        return Err(OutOfMemory);
    }
    Ok((numbers, text))
}

impl<I, O> OfferRoom<I, O> {
    /// Room for what the plan of an offer demands.
    pub fn reserve(alloc: Global, plan: &Plan) -> Result<OfferRoom<I, O>, OutOfMemory>
        ensures { IfOk result (HasOfferRoom plan.now) }
    {
        let (pairs, keys) = (plan.pairs(), plan.keys());
        let drawn = DrawnList::with_room(alloc, keys)?;
        let (numbers, text) = reserve_text(alloc, pairs, plan.reply_len())?;
        let opened = OpenedPairs::with_room(alloc, pairs)?;
        match Prepare::reserve(alloc, pairs, keys) {
            Ok(prepare) => Ok(OfferRoom {
                lease: LeaseRoom {
                    opened,
                    numbers,
                    drawn,
                },
                prepare,
                text,
            }),
            Err(OutOfMemory) => {
                opened.destroy_empty();
                Err(OutOfMemory)
            }
        }
    }
}

/// The memory of an offer: all that it needs once its first pair is leased.
#[derive(Drop)]
pub(crate) struct OfferMemory<I, O> {
    /// Room for its act.
    pub room: OfferRoom<I, O>,
    /// Room for its reply.
    pub reply: Text,
}

/// The memory of an offer of this request with this plan. There is none for a description of 2^40 bytes.
pub(crate) fn offer_memory<I, O>(
    alloc: Global,
    request: &Request,
    plan: &Plan,
) -> Result<OfferMemory<I, O>, OutOfMemory>
    requires { IsCookie request.now.cookie.now }
    ensures small { OnOk result (plan.now.reply_len < 2 ^ 40) }
    ensures room { IfOk result (λ memory. HasOfferRoom plan.now memory.room) }
    ensures reply { IfOk result (λ memory. IsReplyRoom request.now.cookie.now request.now.body.now plan.now.reply_len memory.reply) }
{
    let length = plan.reply_len();
    if length >= MOST_BYTES {
        return Err(OutOfMemory);
    }
    let reply = reply_room(alloc, request, length)?;
    let room = OfferRoom::reserve(alloc, plan)?;
    Ok(OfferMemory { room, reply })
}
