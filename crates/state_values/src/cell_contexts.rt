//! The contexts of a leg's keys, by the bytes that each is saved as.
ghost use Rattle.std.specs.Prelude.{◌≡◌, Option, IfOk, IfSome, IfNone};
ghost use Rattle.srtp_context.specs.declared.inbound.InRtp.{InRtp};
ghost use Rattle.srtp_context.specs.declared.outbound.OutRtp.{OutRtp};
ghost use Rattle.srtp_context.specs.SavedRtp.{FitsInRtp, saved_in_rtp, FitsOutRtp, saved_out_rtp};
ghost use Rattle.srtcp_context.specs.declared.inbound.InRtcp.{InRtcp};
ghost use Rattle.srtcp_context.specs.declared.outbound.OutRtcp.{OutRtcp};
ghost use Rattle.srtcp_context.specs.SavedRtcp.{FitsInRtcp, saved_in_rtcp, FitsOutRtcp, saved_out_rtcp};
ghost use Rattle.call_cell.specs.declared.contexts.Inbound.{Inbound};
ghost use Rattle.call_cell.specs.declared.contexts.Outbound.{Outbound};
ghost use Rattle.ng_bencode.specs.Tree.{Bytes, tree_of};
ghost use Rattle.state_values.specs.Forms.{option_tree};
ghost use Rattle.state_values.specs.CellLegTrees.{inbound_tree, outbound_tree, FitsInbound, FitsOutbound};

use crate::fields::{next_field, none_left, pairs_in, put_pair, text_value};
use crate::forms::{none_value, read_array, read_option, some_value};
use crate::numbers::{number_value, read_number};
use call_cell::{Inbound, Outbound};
use ng_bencode::{Pairs, Row, Value};
use relay_outside::OutOfMemory;
use srtcp_context::{InRtcp, OutRtcp};
use srtp_context::{InRtp, OutRtp};
use std::alloc::Global;

fn read_in_rtp(value: &Value) -> Option<InRtp>
    ensures some { IfSome result (λ context. tree_of value.now ≡ Bytes (saved_in_rtp context)) }
    ensures none { IfNone result ((context : InRtp) → FitsInRtp context → tree_of value.now ≡ Bytes (saved_in_rtp context) → ⊥) }
{
    let bytes = read_array::<{ InRtp::SAVED }>(value)?;
    InRtp::load(&bytes)
}

fn read_in_rtcp(value: &Value) -> Option<InRtcp>
    ensures some { IfSome result (λ context. tree_of value.now ≡ Bytes (saved_in_rtcp context)) }
    ensures none { IfNone result ((context : InRtcp) → FitsInRtcp context → tree_of value.now ≡ Bytes (saved_in_rtcp context) → ⊥) }
{
    let bytes = read_array::<{ InRtcp::SAVED }>(value)?;
    InRtcp::load(&bytes)
}

fn read_out_rtp(value: &Value) -> Option<OutRtp>
    ensures some { IfSome result (λ context. tree_of value.now ≡ Bytes (saved_out_rtp context)) }
    ensures none { IfNone result ((context : OutRtp) → FitsOutRtp context → tree_of value.now ≡ Bytes (saved_out_rtp context) → ⊥) }
{
    let bytes = read_array::<{ OutRtp::SAVED }>(value)?;
    OutRtp::load(&bytes)
}

fn read_out_rtcp(value: &Value) -> Option<OutRtcp>
    ensures some { IfSome result (λ context. tree_of value.now ≡ Bytes (saved_out_rtcp context)) }
    ensures none { IfNone result ((context : OutRtcp) → FitsOutRtcp context → tree_of value.now ≡ Bytes (saved_out_rtcp context) → ⊥) }
{
    let bytes = read_array::<{ OutRtcp::SAVED }>(value)?;
    OutRtcp::load(&bytes)
}

/// The contexts of an inbound key, which are spent.
#[tactic(auto, unfolding(crate::specs::CellLegTrees::inbound_tree))]
fn inbound_value(alloc: Global, inbound: Inbound) -> Result<Value, OutOfMemory>
    ensures { IfOk result (λ value. tree_of value ≡ inbound_tree inbound) }
{
    let Inbound { rtp, rtcp } = inbound;
    let rtcp = text_value(alloc, &rtcp.save())?;
    let rtp = text_value(alloc, &rtp.save())?;
    let mut pairs: Pairs = Row::new(alloc);
    put_pair(alloc, &mut pairs, b"rtcp", rtcp)?;
    put_pair(alloc, &mut pairs, b"rtp", rtp)?;
    Ok(Value::dict(pairs))
}

#[tactic(auto, unfolding(crate::specs::CellLegTrees::inbound_tree))]
fn read_inbound(value: &Value) -> Option<Inbound>
    ensures some { IfSome result (λ inbound. tree_of value.now ≡ inbound_tree inbound) }
    ensures none { IfNone result ((inbound : Inbound) → FitsInbound inbound → tree_of value.now ≡ inbound_tree inbound → ⊥) }
{
    let mut pairs = pairs_in(value)?;
    let rtcp = read_in_rtcp(next_field(&mut pairs, b"rtcp")?)?;
    let rtp = read_in_rtp(next_field(&mut pairs, b"rtp")?)?;
    none_left(pairs)?;
    Some(Inbound { rtp, rtcp })
}

/// The contexts of the inbound key that there may be.
pub(crate) fn inbound_option(alloc: Global, inbound: Option<Inbound>) -> Result<Value, OutOfMemory>
    ensures { IfOk result (λ value. tree_of value ≡ option_tree inbound_tree inbound) }
{
    match inbound {
        None => Ok(none_value(alloc)),
        Some(inbound) => some_value(alloc, inbound_value(alloc, inbound)?),
    }
}

/// The contexts of the inbound key that there may be, where they are written so.
pub(crate) fn read_inbound_option(value: &Value) -> Option<Option<Inbound>>
    ensures some { IfSome result (λ inbound. tree_of value.now ≡ option_tree inbound_tree inbound) }
    ensures none { IfNone result ((inbound : Option Inbound) → IfSome inbound FitsInbound → tree_of value.now ≡ option_tree inbound_tree inbound → ⊥) }
{
    match read_option(value)? {
        None => Some(None),
        Some(one) => Some(Some(read_inbound(one)?)),
    }
}

/// The contexts of a drawn key, which are spent.
#[tactic(auto, unfolding(crate::specs::CellLegTrees::outbound_tree))]
fn outbound_value(alloc: Global, outbound: Outbound) -> Result<Value, OutOfMemory>
    ensures { IfOk result (λ value. tree_of value ≡ outbound_tree outbound) }
{
    let Outbound { number, rtp, rtcp } = outbound;
    let number = number_value(alloc, number)?;
    let rtcp = text_value(alloc, &rtcp.save())?;
    let rtp = text_value(alloc, &rtp.save())?;
    let mut pairs: Pairs = Row::new(alloc);
    put_pair(alloc, &mut pairs, b"number", number)?;
    put_pair(alloc, &mut pairs, b"rtcp", rtcp)?;
    put_pair(alloc, &mut pairs, b"rtp", rtp)?;
    Ok(Value::dict(pairs))
}

#[tactic(auto, unfolding(crate::specs::CellLegTrees::outbound_tree))]
fn read_outbound(value: &Value) -> Option<Outbound>
    ensures some { IfSome result (λ outbound. tree_of value.now ≡ outbound_tree outbound) }
    ensures none { IfNone result ((outbound : Outbound) → FitsOutbound outbound → tree_of value.now ≡ outbound_tree outbound → ⊥) }
{
    let mut pairs = pairs_in(value)?;
    let number = read_number(next_field(&mut pairs, b"number")?)?;
    let rtcp = read_out_rtcp(next_field(&mut pairs, b"rtcp")?)?;
    let rtp = read_out_rtp(next_field(&mut pairs, b"rtp")?)?;
    none_left(pairs)?;
    Some(Outbound { number, rtp, rtcp })
}

/// The contexts of the drawn key that there may be.
pub(crate) fn outbound_option(
    alloc: Global,
    outbound: Option<Outbound>,
) -> Result<Value, OutOfMemory>
    ensures { IfOk result (λ value. tree_of value ≡ option_tree outbound_tree outbound) }
{
    match outbound {
        None => Ok(none_value(alloc)),
        Some(outbound) => some_value(alloc, outbound_value(alloc, outbound)?),
    }
}

/// The contexts of the drawn key that there may be, where they are written so.
pub(crate) fn read_outbound_option(value: &Value) -> Option<Option<Outbound>>
    ensures some { IfSome result (λ outbound. tree_of value.now ≡ option_tree outbound_tree outbound) }
    ensures none { IfNone result ((outbound : Option Outbound) → IfSome outbound FitsOutbound → tree_of value.now ≡ option_tree outbound_tree outbound → ⊥) }
{
    match read_option(value)? {
        None => Some(None),
        Some(one) => Some(Some(read_outbound(one)?)),
    }
}
