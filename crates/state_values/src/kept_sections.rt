//! The sections of a dialog.
ghost use Rattle.std.specs.Prelude.{◌≡◌, List, All, length, IfOk, IfSome, IfNone};
ghost use Rattle.ng_bencode.specs.Row.{list_in};
ghost use Rattle.ng_bencode.specs.Tree.{tree_of};
ghost use Rattle.offer_answer.specs.declared.leg.DialogSection.{DialogSection};
ghost use Rattle.state_values.specs.Numbers.{list_tree};
ghost use Rattle.state_values.specs.DialogTrees.{kept_tree, FitsKept};

use crate::fields::{next_field, none_left, pairs_in, put_item, put_pair};
use crate::forms::{flag_value, read_flag};
use crate::legs::{leg_value, read_leg};
use ng_bencode::{Pairs, Row, Value, Values};
use offer_answer::DialogSection;
use relay_outside::OutOfMemory;
use std::alloc::Global;

/// A section of a dialog.
fn kept_value(alloc: Global, kept: &DialogSection) -> Result<Value, OutOfMemory>
    ensures { IfOk result (λ value. tree_of value ≡ kept_tree kept.now) }
{
    let a = leg_value(alloc, &kept.a)?;
    let b = leg_value(alloc, &kept.b)?;
    let mut pairs: Pairs = Row::new(alloc);
    put_pair(alloc, &mut pairs, b"a", a)?;
    put_pair(alloc, &mut pairs, b"b", b)?;
    put_pair(alloc, &mut pairs, b"has_pairs", flag_value(kept.has_pairs))?;
    put_pair(
        alloc,
        &mut pairs,
        b"is_committed",
        flag_value(kept.is_committed),
    )?;
    Ok(Value::dict(pairs))
}

/// What is written so.
fn read_kept(value: &Value) -> Option<DialogSection>
    ensures some { IfSome result (λ kept. tree_of value.now ≡ kept_tree kept) }
    ensures none { IfNone result ((kept : DialogSection) → FitsKept kept → tree_of value.now ≡ kept_tree kept → ⊥) }
{
    let mut pairs = pairs_in(value)?;
    let a = next_field(&mut pairs, b"a")?;
    let b = next_field(&mut pairs, b"b")?;
    let has_pairs = next_field(&mut pairs, b"has_pairs")?;
    let is_committed = next_field(&mut pairs, b"is_committed")?;
    none_left(pairs)?;
    Some(DialogSection {
        a: read_leg(a)?,
        b: read_leg(b)?,
        has_pairs: read_flag(has_pairs)?,
        is_committed: read_flag(is_committed)?,
    })
}

/// The sections of a dialog.
pub(crate) fn kept_sections_value(
    alloc: Global,
    kept_sections: &[DialogSection],
) -> Result<Value, OutOfMemory>
    ensures { IfOk result (λ value. tree_of value ≡ list_tree kept_tree kept_sections.now) }
{
    let mut values: Values = Row::new(alloc);
    for kept in kept_sections {
        let value = kept_value(alloc, kept)?;
        put_item(&mut values, value)?;
    }
    Ok(Value::list(values))
}

fn read_kept_list(alloc: Global, value: &Value) -> Result<Option<Vec<DialogSection>>, OutOfMemory>
    ensures some { IfOk result (λ read. IfSome read (λ kept_sections. tree_of value.now ≡ list_tree kept_tree kept_sections.items)) }
    ensures none { IfOk result (λ read. IfNone read ((kept_sections : List DialogSection) → All FitsKept kept_sections →
        tree_of value.now ≡ list_tree kept_tree kept_sections → ⊥)) }
{
    let Some(values) = value.as_list() else {
        return Ok(None);
    };
    let mut kept_sections = Vec::new(alloc);
    for item in values.as_slice() {
        let Some(kept) = read_kept(item) else {
            return Ok(None);
        };
        kept_sections.push(kept)?;
    }
    Ok(Some(kept_sections))
}

fn eight_kept(list: &[DialogSection]) -> Option<[DialogSection; 8]>
    ensures some { IfSome result (λ kept_sections. list.now ≡ kept_sections) }
    ensures none { IfNone result (length list.now ≡ 8 → ⊥) }
{
    if list.len() != 8 {
        return None;
    }
    let mut kept_sections = [list[0]; 8];
    kept_sections.copy_from_slice(list);
    Some(kept_sections)
}

/// What is written so. `None`: it is no list of eight.
pub(crate) fn read_kept_sections(
    alloc: Global,
    value: &Value,
) -> Result<Option<[DialogSection; 8]>, OutOfMemory>
    ensures some { IfOk result (λ read. IfSome read (λ kept_sections. tree_of value.now ≡ list_tree kept_tree kept_sections)) }
    ensures none { IfOk result (λ read. IfNone read ((kept_sections : List DialogSection) → All FitsKept kept_sections → length kept_sections ≡ 8 →
        tree_of value.now ≡ list_tree kept_tree kept_sections → ⊥)) }
{
    let Some(list) = read_kept_list(alloc, value)? else {
        return Ok(None);
    };
    Ok(eight_kept(list.as_slice()))
}
