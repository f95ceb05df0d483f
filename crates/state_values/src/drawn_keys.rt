//! Drawn keys, in full.
ghost use Rattle.std.specs.Prelude.{◌≡◌, Option, IfOk, IfSome, IfNone};
ghost use Rattle.ng_bencode.specs.Tree.{tree_of};
ghost use Rattle.offer_answer.specs.declared.leg.DrawnKey.{DrawnKey};
ghost use Rattle.state_values.specs.Forms.{option_tree};
ghost use Rattle.state_values.specs.DialogTrees.{key_tree, FitsKey};

use crate::fields::{next_field, none_left, pairs_in, put_pair, text_value};
use crate::forms::{none_value, read_array, read_option, some_value};
use crate::numbers::{number_value, read_number};
use crate::variants::{read_suite, suite_value};
use ng_bencode::{Pairs, Row, Value};
use offer_answer::DrawnKey;
use relay_outside::OutOfMemory;
use std::alloc::Global;

/// A key that an offer drew.
fn key_value(alloc: Global, key: &DrawnKey) -> Result<Value, OutOfMemory>
    ensures { IfOk result (λ value. tree_of value ≡ key_tree key.now) }
{
    let mut pairs: Pairs = Row::new(alloc);
    put_pair(alloc, &mut pairs, b"bytes", text_value(alloc, &key.bytes)?)?;
    put_pair(
        alloc,
        &mut pairs,
        b"number",
        number_value(alloc, key.number)?,
    )?;
    put_pair(alloc, &mut pairs, b"suite", suite_value(key.suite))?;
    Ok(Value::dict(pairs))
}

/// What is written so.
fn read_key(value: &Value) -> Option<DrawnKey>
    ensures some { IfSome result (λ key. tree_of value.now ≡ key_tree key) }
    ensures none { IfNone result ((key : DrawnKey) → FitsKey key → tree_of value.now ≡ key_tree key → ⊥) }
{
    let mut pairs = pairs_in(value)?;
    let bytes = next_field(&mut pairs, b"bytes")?;
    let number = next_field(&mut pairs, b"number")?;
    let suite = next_field(&mut pairs, b"suite")?;
    none_left(pairs)?;
    Some(DrawnKey {
        bytes: read_array(bytes)?,
        number: read_number(number)?,
        suite: read_suite(suite)?,
    })
}

/// A drawn key, where there is one.
pub(crate) fn key_option_value(alloc: Global, key: &Option<DrawnKey>) -> Result<Value, OutOfMemory>
    ensures { IfOk result (λ value. tree_of value ≡ option_tree key_tree key.now) }
{
    match key {
        Some(key) => some_value(alloc, key_value(alloc, key)?),
        None => Ok(none_value(alloc)),
    }
}

/// What is written so.
pub(crate) fn read_key_option(value: &Value) -> Option<Option<DrawnKey>>
    ensures some { IfSome result (λ key. tree_of value.now ≡ option_tree key_tree key) }
    ensures none { IfNone result ((key : Option DrawnKey) → IfSome key FitsKey → tree_of value.now ≡ option_tree key_tree key → ⊥) }
{
    match read_option(value)? {
        Some(inner) => Some(Some(read_key(inner)?)),
        None => Some(None),
    }
}
