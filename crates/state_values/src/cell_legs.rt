//! A leg's record.
ghost use Rattle.std.specs.Prelude.{◌≡◌, Option, IfOk, IfSome, IfNone};
ghost use Rattle.port_pool.specs.declared.signal.LegSignal.{LegSignal};
ghost use Rattle.call_cell.specs.declared.saved.LegSaved.{LegSaved};
ghost use Rattle.ng_bencode.specs.Tree.{tree_of};
ghost use Rattle.state_values.specs.Forms.{option_tree};
ghost use Rattle.state_values.specs.SignalTrees.{signal_tree, FitsLegSignal};
ghost use Rattle.state_values.specs.CellTrees.{cell_leg_tree, FitsLegSaved};

use crate::cell_contexts::{
    inbound_option, outbound_option, read_inbound_option, read_outbound_option,
};
use crate::cell_leg_parts::{
    counts_value, learner_option, lease_value, read_counts, read_learner_option, read_lease,
    read_report_option, report_option,
};
use crate::fields::{next_field, none_left, pairs_in, put_pair};
use crate::forms::{none_value, read_option, some_value};
use crate::holders::{holder_value, read_holder};
use crate::signals::{read_signal, signal_value};
use call_cell::LegSaved;
use ng_bencode::{Pairs, Row, Value};
use port_pool::LegSignal;
use relay_outside::OutOfMemory;
use std::alloc::Global;

fn signal_option(alloc: Global, signal: Option<LegSignal>) -> Result<Value, OutOfMemory>
    ensures { IfOk result (λ value. tree_of value ≡ option_tree signal_tree signal) }
{
    match signal {
        None => Ok(none_value(alloc)),
        Some(signal) => some_value(alloc, signal_value(alloc, signal)?),
    }
}

fn read_signal_option(value: &Value) -> Option<Option<LegSignal>>
    ensures some { IfSome result (λ signal. tree_of value.now ≡ option_tree signal_tree signal) }
    ensures none { IfNone result ((signal : Option LegSignal) → IfSome signal FitsLegSignal → tree_of value.now ≡ option_tree signal_tree signal → ⊥) }
{
    match read_option(value)? {
        None => Some(None),
        Some(one) => Some(Some(read_signal(one)?)),
    }
}

/// A leg as a value, which its contexts and its lease are spent by.
#[tactic(auto, unfolding(crate::specs::CellTrees::cell_leg_tree))]
pub(crate) fn leg_value(alloc: Global, saved: LegSaved) -> Result<Value, OutOfMemory>
    ensures { IfOk result (λ value. tree_of value ≡ cell_leg_tree saved) }
{
    let counts = counts_value(alloc, saved.counts)?;
    let holder = holder_value(alloc, saved.holder)?;
    let inbound = inbound_option(alloc, saved.inbound)?;
    let lease = lease_value(alloc, saved.lease)?;
    let report = report_option(alloc, saved.report)?;
    let rtcp = learner_option(alloc, saved.rtcp)?;
    let rtp = learner_option(alloc, saved.rtp)?;
    let signal = signal_option(alloc, saved.signal)?;
    let tag32 = outbound_option(alloc, saved.tag32)?;
    let tag80 = outbound_option(alloc, saved.tag80)?;
    let mut pairs: Pairs = Row::new(alloc);
    put_pair(alloc, &mut pairs, b"counts", counts)?;
    put_pair(alloc, &mut pairs, b"holder", holder)?;
    put_pair(alloc, &mut pairs, b"inbound", inbound)?;
    put_pair(alloc, &mut pairs, b"lease", lease)?;
    put_pair(alloc, &mut pairs, b"report", report)?;
    put_pair(alloc, &mut pairs, b"rtcp", rtcp)?;
    put_pair(alloc, &mut pairs, b"rtp", rtp)?;
    put_pair(alloc, &mut pairs, b"signal", signal)?;
    put_pair(alloc, &mut pairs, b"tag32", tag32)?;
    put_pair(alloc, &mut pairs, b"tag80", tag80)?;
    Ok(Value::dict(pairs))
}

/// The leg that is written so.
#[tactic(auto, unfolding(crate::specs::CellTrees::cell_leg_tree))]
pub(crate) fn read_leg(value: &Value) -> Option<LegSaved>
    ensures some { IfSome result (λ saved. tree_of value.now ≡ cell_leg_tree saved) }
    ensures none { IfNone result ((saved : LegSaved) → FitsLegSaved saved → tree_of value.now ≡ cell_leg_tree saved → ⊥) }
{
    let mut pairs = pairs_in(value)?;
    let counts = read_counts(next_field(&mut pairs, b"counts")?)?;
    let holder = read_holder(next_field(&mut pairs, b"holder")?)?;
    let inbound = read_inbound_option(next_field(&mut pairs, b"inbound")?)?;
    let lease = read_lease(next_field(&mut pairs, b"lease")?)?;
    let report = read_report_option(next_field(&mut pairs, b"report")?)?;
    let rtcp = read_learner_option(next_field(&mut pairs, b"rtcp")?)?;
    let rtp = read_learner_option(next_field(&mut pairs, b"rtp")?)?;
    let signal = read_signal_option(next_field(&mut pairs, b"signal")?)?;
    let tag32 = read_outbound_option(next_field(&mut pairs, b"tag32")?)?;
    let tag80 = read_outbound_option(next_field(&mut pairs, b"tag80")?)?;
    none_left(pairs)?;
    Some(LegSaved {
        holder,
        lease,
        signal,
        rtp,
        rtcp,
        inbound,
        tag80,
        tag32,
        counts,
        report,
    })
}
