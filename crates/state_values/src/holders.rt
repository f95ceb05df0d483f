//! Who holds a pair of ports.
ghost use Rattle.std.specs.Prelude.{◌≡◌, IfOk, IfSome, IfNone};
ghost use Rattle.port_pool.specs.declared.holder.Holder.{Holder};
ghost use Rattle.ng_bencode.specs.Tree.{tree_of};
ghost use Rattle.state_values.specs.SignalTrees.{holder_tree, FitsHolder};

use crate::fields::{next_field, none_left, pairs_in, put_pair};
use crate::narrow::read_octet;
use crate::numbers::{number_value, read_number, read_word, word_value};
use crate::variants::{read_side, side_value};
use ng_bencode::{Pairs, Row, Value};
use port_pool::Holder;
use relay_outside::OutOfMemory;
use std::alloc::Global;

/// Who holds a pair, as a value.
#[tactic(auto, unfolding(crate::specs::SignalTrees::holder_tree))]
pub(crate) fn holder_value(alloc: Global, holder: Holder) -> Result<Value, OutOfMemory>
    ensures { IfOk result (λ value. tree_of value ≡ holder_tree holder) }
{
    let call = number_value(alloc, holder.call)?;
    let generation = number_value(alloc, holder.generation)?;
    let mut pairs: Pairs = Row::new(alloc);
    put_pair(alloc, &mut pairs, b"call", call)?;
    put_pair(alloc, &mut pairs, b"cell", word_value(holder.cell))?;
    put_pair(alloc, &mut pairs, b"generation", generation)?;
    put_pair(alloc, &mut pairs, b"pair", word_value(holder.pair))?;
    put_pair(
        alloc,
        &mut pairs,
        b"section",
        word_value(u32::from(holder.section)),
    )?;
    put_pair(alloc, &mut pairs, b"side", side_value(holder.side))?;
    Ok(Value::dict(pairs))
}

/// The holder that is written so.
#[tactic(auto, unfolding(crate::specs::SignalTrees::holder_tree))]
pub(crate) fn read_holder(value: &Value) -> Option<Holder>
    ensures some { IfSome result (λ holder. tree_of value.now ≡ holder_tree holder) }
    ensures none { IfNone result ((holder : Holder) → FitsHolder holder → tree_of value.now ≡ holder_tree holder → ⊥) }
{
    let mut pairs = pairs_in(value)?;
    let call = read_number(next_field(&mut pairs, b"call")?)?;
    let cell = read_word(next_field(&mut pairs, b"cell")?)?;
    let generation = read_number(next_field(&mut pairs, b"generation")?)?;
    let pair = read_word(next_field(&mut pairs, b"pair")?)?;
    let section = read_octet(next_field(&mut pairs, b"section")?)?;
    let side = read_side(next_field(&mut pairs, b"side")?)?;
    none_left(pairs)?;
    Some(Holder {
        cell,
        call,
        section,
        side,
        pair,
        generation,
    })
}
