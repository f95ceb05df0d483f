//! Crypto lines, in full.
ghost use Rattle.std.specs.Prelude.{◌≡◌, List, All, length, Option, IfOk, IfSome, IfNone};
ghost use Rattle.sdes_lines.specs.declared.crypto_line.CryptoLine.{CryptoLine};
ghost use Rattle.ng_bencode.specs.Tree.{tree_of};
ghost use Rattle.state_values.specs.Numbers.{list_tree};
ghost use Rattle.state_values.specs.Forms.{option_tree};
ghost use Rattle.state_values.specs.OfferTrees.{line_tree, FitsOfferedLine, FitsLineOption};

use crate::fields::{next_field, none_left, pairs_in, put_item, put_pair, text_value};
use crate::forms::{none_value, read_array, read_option, some_value, two};
use crate::numbers::{read_word, word_value};
use crate::variants::{read_suite, suite_value};
use ng_bencode::{Pairs, Row, Value, Values};
use relay_outside::OutOfMemory;
use sdes_lines::CryptoLine;
use std::alloc::Global;

/// A crypto line.
fn line_value(alloc: Global, line: &CryptoLine) -> Result<Value, OutOfMemory>
    ensures { IfOk result (λ value. tree_of value ≡ line_tree line.now) }
{
    let mut pairs: Pairs = Row::new(alloc);
    put_pair(alloc, &mut pairs, b"key", text_value(alloc, &line.key)?)?;
    put_pair(alloc, &mut pairs, b"suite", suite_value(line.suite))?;
    put_pair(alloc, &mut pairs, b"tag", word_value(line.tag))?;
    Ok(Value::dict(pairs))
}

/// What is written so.
fn read_line(value: &Value) -> Option<CryptoLine>
    ensures some { IfSome result (λ line. tree_of value.now ≡ line_tree line) }
    ensures none { IfNone result ((line : CryptoLine) → FitsOfferedLine line → tree_of value.now ≡ line_tree line → ⊥) }
{
    let mut pairs = pairs_in(value)?;
    let key = next_field(&mut pairs, b"key")?;
    let suite = next_field(&mut pairs, b"suite")?;
    let tag = next_field(&mut pairs, b"tag")?;
    none_left(pairs)?;
    Some(CryptoLine {
        key: read_array(key)?,
        suite: read_suite(suite)?,
        tag: read_word(tag)?,
    })
}

/// A crypto line, where there is one.
pub(crate) fn line_option_value(
    alloc: Global,
    line: &Option<CryptoLine>,
) -> Result<Value, OutOfMemory>
    ensures { IfOk result (λ value. tree_of value ≡ option_tree line_tree line.now) }
{
    match line {
        Some(line) => some_value(alloc, line_value(alloc, line)?),
        None => Ok(none_value(alloc)),
    }
}

/// What is written so.
pub(crate) fn read_line_option(value: &Value) -> Option<Option<CryptoLine>>
    ensures some { IfSome result (λ line. tree_of value.now ≡ option_tree line_tree line) }
    ensures none { IfNone result ((line : Option CryptoLine) → IfSome line FitsOfferedLine → tree_of value.now ≡ option_tree line_tree line → ⊥) }
{
    match read_option(value)? {
        Some(inner) => Some(Some(read_line(inner)?)),
        None => Some(None),
    }
}

/// The crypto lines that a section was offered, the first before the second.
pub(crate) fn lines_value(
    alloc: Global,
    lines: &[Option<CryptoLine>; 2],
) -> Result<Value, OutOfMemory>
    ensures { IfOk result (λ value. tree_of value ≡ list_tree (option_tree line_tree) lines.now) }
{
    let mut values: Values = Row::new(alloc);
    for line in lines {
        let value = line_option_value(alloc, line)?;
        put_item(&mut values, value)?;
    }
    Ok(Value::list(values))
}

/// What is written so. `None`: it is no list of two.
pub(crate) fn read_lines(value: &Value) -> Option<[Option<CryptoLine>; 2]>
    ensures some { IfSome result (λ lines. tree_of value.now ≡ list_tree (option_tree line_tree) lines) }
    ensures none { IfNone result ((lines : List (Option CryptoLine)) → All FitsLineOption lines → length lines ≡ 2 →
        tree_of value.now ≡ list_tree (option_tree line_tree) lines → ⊥) }
{
    let list = value.as_list()?;
    let (a, b) = two(list.as_slice())?;
    let first = read_line_option(a)?;
    let second = read_line_option(b)?;
    Some([first, second])
}
