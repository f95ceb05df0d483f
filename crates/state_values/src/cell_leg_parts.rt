//! The parts of a leg: its lease, where its packets go, its counts and its last report.
ghost use Rattle.std.specs.Prelude.{◌≡◌, Option, IfOk, IfSome, IfNone};
ghost use Rattle.endpoint_learn.specs.declared.learner.Learner.{Learner};
ghost use Rattle.endpoint_learn.specs.SavedLearners.{FitsLearner};
ghost use Rattle.port_pool.specs.declared.pairs.Lease.{Lease};
ghost use Rattle.port_pool.specs.SavedLeases.{FitsLease};
ghost use Rattle.rtcp_reports.specs.declared.block.Block.{Block};
ghost use Rattle.call_cell.specs.declared.counts.Counts.{Counts};
ghost use Rattle.ng_bencode.specs.Tree.{tree_of};
ghost use Rattle.state_values.specs.Forms.{option_tree};
ghost use Rattle.state_values.specs.CellLegTrees.{learner_tree, lease_tree, packet_counts_tree, report_block_tree, FitsPacketCounts, FitsReport};

use crate::fields::{next_field, none_left, pairs_in, put_pair, text_value};
use crate::forms::{none_value, read_array, read_option, some_value};
use crate::narrow::{read_octet, read_signed, signed_value};
use crate::numbers::{number_value, read_number, read_word, word_value};
use call_cell::Counts;
use endpoint_learn::Learner;
use ng_bencode::{Pairs, Row, Value};
use port_pool::Lease;
use relay_outside::OutOfMemory;
use rtcp_reports::Block;
use std::alloc::Global;

/// A lease, which is spent.
#[tactic(auto, unfolding(crate::specs::CellLegTrees::lease_tree))]
pub(crate) fn lease_value(alloc: Global, lease: Lease) -> Result<Value, OutOfMemory>
    ensures { IfOk result (λ value. tree_of value ≡ lease_tree lease) }
{
    text_value(alloc, &lease.save())
}

/// The lease that is written so.
#[tactic(auto, unfolding(crate::specs::CellLegTrees::lease_tree))]
pub(crate) fn read_lease(value: &Value) -> Option<Lease>
    ensures some { IfSome result (λ lease. tree_of value.now ≡ lease_tree lease) }
    ensures none { IfNone result ((lease : Lease) → FitsLease lease → tree_of value.now ≡ lease_tree lease → ⊥) }
{
    let bytes = read_array::<{ Lease::SAVED }>(value)?;
    Lease::load(&bytes)
}

#[tactic(auto, unfolding(crate::specs::CellLegTrees::learner_tree))]
fn learner_value(alloc: Global, learner: Learner) -> Result<Value, OutOfMemory>
    ensures { IfOk result (λ value. tree_of value ≡ learner_tree learner) }
{
    text_value(alloc, &learner.save())
}

#[tactic(auto, unfolding(crate::specs::CellLegTrees::learner_tree))]
fn read_learner(value: &Value) -> Option<Learner>
    ensures some { IfSome result (λ learner. tree_of value.now ≡ learner_tree learner) }
    ensures none { IfNone result ((learner : Learner) → FitsLearner learner → tree_of value.now ≡ learner_tree learner → ⊥) }
{
    let bytes = read_array::<{ Learner::SAVED }>(value)?;
    Learner::load(&bytes)
}

/// Where packets of a half go, once it was committed.
pub(crate) fn learner_option(alloc: Global, learner: Option<Learner>) -> Result<Value, OutOfMemory>
    ensures { IfOk result (λ value. tree_of value ≡ option_tree learner_tree learner) }
{
    match learner {
        None => Ok(none_value(alloc)),
        Some(learner) => some_value(alloc, learner_value(alloc, learner)?),
    }
}

/// Where packets of a half go, where it is written so.
pub(crate) fn read_learner_option(value: &Value) -> Option<Option<Learner>>
    ensures some { IfSome result (λ learner. tree_of value.now ≡ option_tree learner_tree learner) }
    ensures none { IfNone result ((learner : Option Learner) → IfSome learner FitsLearner → tree_of value.now ≡ option_tree learner_tree learner → ⊥) }
{
    match read_option(value)? {
        None => Some(None),
        Some(one) => Some(Some(read_learner(one)?)),
    }
}

/// How many packets a leg accepted and sent.
#[tactic(auto, unfolding(crate::specs::CellLegTrees::packet_counts_tree))]
pub(crate) fn counts_value(alloc: Global, counts: Counts) -> Result<Value, OutOfMemory>
    ensures { IfOk result (λ value. tree_of value ≡ packet_counts_tree counts) }
{
    let rtcp_accepted = number_value(alloc, counts.rtcp_accepted)?;
    let rtcp_sent = number_value(alloc, counts.rtcp_sent)?;
    let rtp_accepted = number_value(alloc, counts.rtp_accepted)?;
    let rtp_sent = number_value(alloc, counts.rtp_sent)?;
    let mut pairs: Pairs = Row::new(alloc);
    put_pair(alloc, &mut pairs, b"rtcp_accepted", rtcp_accepted)?;
    put_pair(alloc, &mut pairs, b"rtcp_sent", rtcp_sent)?;
    put_pair(alloc, &mut pairs, b"rtp_accepted", rtp_accepted)?;
    put_pair(alloc, &mut pairs, b"rtp_sent", rtp_sent)?;
    Ok(Value::dict(pairs))
}

/// The counts that are written so.
#[tactic(auto, unfolding(crate::specs::CellLegTrees::packet_counts_tree))]
pub(crate) fn read_counts(value: &Value) -> Option<Counts>
    ensures some { IfSome result (λ counts. tree_of value.now ≡ packet_counts_tree counts) }
    ensures none { IfNone result ((counts : Counts) → FitsPacketCounts counts → tree_of value.now ≡ packet_counts_tree counts → ⊥) }
{
    let mut pairs = pairs_in(value)?;
    let rtcp_accepted = read_number(next_field(&mut pairs, b"rtcp_accepted")?)?;
    let rtcp_sent = read_number(next_field(&mut pairs, b"rtcp_sent")?)?;
    let rtp_accepted = read_number(next_field(&mut pairs, b"rtp_accepted")?)?;
    let rtp_sent = read_number(next_field(&mut pairs, b"rtp_sent")?)?;
    none_left(pairs)?;
    Some(Counts {
        rtp_accepted,
        rtp_sent,
        rtcp_accepted,
        rtcp_sent,
    })
}

#[tactic(auto, unfolding(crate::specs::CellLegTrees::report_block_tree))]
fn report_value(alloc: Global, report: Block) -> Result<Value, OutOfMemory>
    ensures { IfOk result (λ value. tree_of value ≡ report_block_tree report) }
{
    let mut pairs: Pairs = Row::new(alloc);
    put_pair(
        alloc,
        &mut pairs,
        b"fraction",
        word_value(u32::from(report.fraction)),
    )?;
    put_pair(alloc, &mut pairs, b"highest", word_value(report.highest))?;
    put_pair(alloc, &mut pairs, b"jitter", word_value(report.jitter))?;
    put_pair(alloc, &mut pairs, b"lost", signed_value(report.lost))?;
    put_pair(alloc, &mut pairs, b"ssrc", word_value(report.ssrc))?;
    Ok(Value::dict(pairs))
}

#[tactic(auto, unfolding(crate::specs::CellLegTrees::report_block_tree))]
fn read_report(value: &Value) -> Option<Block>
    ensures some { IfSome result (λ report. tree_of value.now ≡ report_block_tree report) }
    ensures none { IfNone result ((report : Block) → FitsReport report → tree_of value.now ≡ report_block_tree report → ⊥) }
{
    let mut pairs = pairs_in(value)?;
    let fraction = read_octet(next_field(&mut pairs, b"fraction")?)?;
    let highest = read_word(next_field(&mut pairs, b"highest")?)?;
    let jitter = read_word(next_field(&mut pairs, b"jitter")?)?;
    let lost = read_signed(next_field(&mut pairs, b"lost")?)?;
    let ssrc = read_word(next_field(&mut pairs, b"ssrc")?)?;
    none_left(pairs)?;
    Some(Block {
        ssrc,
        fraction,
        lost,
        highest,
        jitter,
    })
}

/// The last report, where one came.
pub(crate) fn report_option(alloc: Global, report: Option<Block>) -> Result<Value, OutOfMemory>
    ensures { IfOk result (λ value. tree_of value ≡ option_tree report_block_tree report) }
{
    match report {
        None => Ok(none_value(alloc)),
        Some(report) => some_value(alloc, report_value(alloc, report)?),
    }
}

/// The last report, where it is written so.
pub(crate) fn read_report_option(value: &Value) -> Option<Option<Block>>
    ensures some { IfSome result (λ report. tree_of value.now ≡ option_tree report_block_tree report) }
    ensures none { IfNone result ((report : Option Block) → IfSome report FitsReport → tree_of value.now ≡ option_tree report_block_tree report → ⊥) }
{
    match read_option(value)? {
        None => Some(None),
        Some(one) => Some(Some(read_report(one)?)),
    }
}
