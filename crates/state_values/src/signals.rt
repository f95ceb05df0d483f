//! What an answer commits for one leg.
ghost use Rattle.std.specs.Prelude.{◌≡◌, ℕ, List, Option, IfOk, IfSome, IfNone};
ghost use Rattle.relay_outside.specs.declared.address.Addr.{Addr};
ghost use Rattle.relay_outside.specs.declared.settings.Flags.{Flags};
ghost use Rattle.sdes_lines.specs.declared.crypto_line.Suite.{Suite};
ghost use Rattle.endpoint_learn.specs.SavedLearners.{FitsAddr};
ghost use Rattle.port_pool.specs.declared.signal.LegSignal.{LegSignal};
ghost use Rattle.ng_bencode.specs.Tree.{Bytes, tree_of};
ghost use Rattle.state_values.specs.Forms.{option_tree};
ghost use Rattle.state_values.specs.CacheTrees.{source_bytes};
ghost use Rattle.state_values.specs.SignalTrees.{signal_flags_tree, inbound_key_tree, signal_tree, FitsInboundKey, FitsLegSignal};

use crate::fields::{next_field, none_left, pairs_in, put_pair, text_value};
use crate::forms::{flag_value, none_value, read_array, read_flag, read_option, some_value};
use crate::number_options::{number_option, read_number_option};
use crate::sources::{read_source, source_text};
use crate::variants::{read_suite, suite_value};
use ng_bencode::{Pairs, Row, Value};
use port_pool::LegSignal;
use relay_outside::{Addr, Flags, KeyAndSalt, OutOfMemory};
use sdes_lines::Suite;
use std::alloc::Global;

/// The flags of an offer or an answer, as a value.
#[tactic(auto, unfolding(crate::specs::SignalTrees::signal_flags_tree))]
fn flags_value(alloc: Global, flags: Flags) -> Result<Value, OutOfMemory>
    ensures { IfOk result (λ value. tree_of value ≡ signal_flags_tree flags) }
{
    let mut pairs: Pairs = Row::new(alloc);
    put_pair(
        alloc,
        &mut pairs,
        b"asymmetric",
        flag_value(flags.asymmetric),
    )?;
    put_pair(alloc, &mut pairs, b"handover", flag_value(flags.handover))?;
    put_pair(alloc, &mut pairs, b"strict", flag_value(flags.strict))?;
    Ok(Value::dict(pairs))
}

#[tactic(auto, unfolding(crate::specs::SignalTrees::signal_flags_tree))]
fn read_flags(value: &Value) -> Option<Flags>
    ensures some { IfSome result (λ flags. tree_of value.now ≡ signal_flags_tree flags) }
    ensures none { IfNone result ((flags : Flags) → tree_of value.now ≡ signal_flags_tree flags → ⊥) }
{
    let mut pairs = pairs_in(value)?;
    let asymmetric = read_flag(next_field(&mut pairs, b"asymmetric")?)?;
    let handover = read_flag(next_field(&mut pairs, b"handover")?)?;
    let strict = read_flag(next_field(&mut pairs, b"strict")?)?;
    none_left(pairs)?;
    Some(Flags {
        strict,
        handover,
        asymmetric,
    })
}

/// A master key with its salt, and its suite, as a value.
#[tactic(auto, unfolding(crate::specs::SignalTrees::inbound_key_tree))]
fn key_value(alloc: Global, key: (KeyAndSalt, Suite)) -> Result<Value, OutOfMemory>
    ensures { IfOk result (λ value. tree_of value ≡ inbound_key_tree key) }
{
    let bytes = text_value(alloc, &key.0)?;
    let mut pairs: Pairs = Row::new(alloc);
    put_pair(alloc, &mut pairs, b"key", bytes)?;
    put_pair(alloc, &mut pairs, b"suite", suite_value(key.1))?;
    Ok(Value::dict(pairs))
}

#[tactic(auto, unfolding(crate::specs::SignalTrees::inbound_key_tree))]
fn read_key(value: &Value) -> Option<(KeyAndSalt, Suite)>
    ensures some { IfSome result (λ key. tree_of value.now ≡ inbound_key_tree key) }
    ensures none { IfNone result ((key : List ℕ × Suite) → FitsInboundKey key → tree_of value.now ≡ inbound_key_tree key → ⊥) }
{
    let mut pairs = pairs_in(value)?;
    let key = read_array::<30>(next_field(&mut pairs, b"key")?)?;
    let suite = read_suite(next_field(&mut pairs, b"suite")?)?;
    none_left(pairs)?;
    Some((key, suite))
}

fn key_option(alloc: Global, key: Option<(KeyAndSalt, Suite)>) -> Result<Value, OutOfMemory>
    ensures { IfOk result (λ value. tree_of value ≡ option_tree inbound_key_tree key) }
{
    match key {
        None => Ok(none_value(alloc)),
        Some(key) => some_value(alloc, key_value(alloc, key)?),
    }
}

fn read_key_option(value: &Value) -> Option<Option<(KeyAndSalt, Suite)>>
    ensures some { IfSome result (λ key. tree_of value.now ≡ option_tree inbound_key_tree key) }
    ensures none { IfNone result ((key : Option (List ℕ × Suite)) → IfSome key FitsInboundKey → tree_of value.now ≡ option_tree inbound_key_tree key → ⊥) }
{
    match read_option(value)? {
        None => Some(None),
        Some(one) => Some(Some(read_key(one)?)),
    }
}

fn address_value(alloc: Global, address: Addr) -> Result<Value, OutOfMemory>
    ensures { IfOk result (λ value. tree_of value ≡ Bytes (source_bytes address)) }
{
    Ok(Value::bytes(source_text(alloc, address)?))
}

fn read_address(value: &Value) -> Option<Addr>
    ensures some { IfSome result (λ address. tree_of value.now ≡ Bytes (source_bytes address)) }
    ensures none { IfNone result ((address : Addr) → FitsAddr address → tree_of value.now ≡ Bytes (source_bytes address) → ⊥) }
{
    let bytes = value.as_bytes()?;
    read_source(bytes.as_slice())
}

/// What an answer commits for one leg, as a value.
#[tactic(auto, unfolding(crate::specs::SignalTrees::signal_tree))]
pub(crate) fn signal_value(alloc: Global, signal: LegSignal) -> Result<Value, OutOfMemory>
    ensures { IfOk result (λ value. tree_of value ≡ signal_tree signal) }
{
    let flags = flags_value(alloc, signal.flags)?;
    let inbound = key_option(alloc, signal.inbound)?;
    let outbound = number_option(alloc, signal.outbound)?;
    let rtcp = address_value(alloc, signal.rtcp)?;
    let rtp = address_value(alloc, signal.rtp)?;
    let mut pairs: Pairs = Row::new(alloc);
    put_pair(alloc, &mut pairs, b"flags", flags)?;
    put_pair(alloc, &mut pairs, b"hold", flag_value(signal.hold))?;
    put_pair(alloc, &mut pairs, b"inbound", inbound)?;
    put_pair(alloc, &mut pairs, b"mux", flag_value(signal.mux))?;
    put_pair(alloc, &mut pairs, b"outbound", outbound)?;
    put_pair(alloc, &mut pairs, b"rtcp", rtcp)?;
    put_pair(alloc, &mut pairs, b"rtp", rtp)?;
    Ok(Value::dict(pairs))
}

/// What an answer commits for one leg, where it is written so.
#[tactic(auto, unfolding(crate::specs::SignalTrees::signal_tree))]
pub(crate) fn read_signal(value: &Value) -> Option<LegSignal>
    ensures some { IfSome result (λ signal. tree_of value.now ≡ signal_tree signal) }
    ensures none { IfNone result ((signal : LegSignal) → FitsLegSignal signal → tree_of value.now ≡ signal_tree signal → ⊥) }
{
    let mut pairs = pairs_in(value)?;
    let flags = read_flags(next_field(&mut pairs, b"flags")?)?;
    let hold = read_flag(next_field(&mut pairs, b"hold")?)?;
    let inbound = read_key_option(next_field(&mut pairs, b"inbound")?)?;
    let mux = read_flag(next_field(&mut pairs, b"mux")?)?;
    let outbound = read_number_option(next_field(&mut pairs, b"outbound")?)?;
    let rtcp = read_address(next_field(&mut pairs, b"rtcp")?)?;
    let rtp = read_address(next_field(&mut pairs, b"rtp")?)?;
    none_left(pairs)?;
    Some(LegSignal {
        rtp,
        rtcp,
        flags,
        hold,
        mux,
        inbound,
        outbound,
    })
}
