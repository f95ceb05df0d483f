//! The dialog's record.
ghost use Rattle.std.specs.Prelude.{codes, ◌≡◌, ℕ, Option, IfOk, IfSome, IfNone};
ghost use Rattle.ng_bencode.specs.Room.{Room};
ghost use Rattle.ng_bencode.specs.Tree.{Dict, entry, no_entries, tree_of};
ghost use Rattle.offer_answer.specs.declared.saved.DialogSaved.{DialogSaved};
ghost use Rattle.state_values.specs.Numbers.{number_tree};
ghost use Rattle.state_values.specs.Forms.{option_tree, flag_tree};
ghost use Rattle.state_values.specs.DialogTrees.{tag_tree, dialog_tree, FitsDialogSaved};

use crate::fields::{next_field, none_left, pairs_in, put_pair, read_text, text_value};
use crate::forms::{flag_value, none_value, read_flag, read_option, some_value};
use crate::kept_sections::{kept_sections_value, read_kept_sections};
use crate::numbers::{number_value, read_number};
use crate::offers::{offer_option_value, read_offer_option};
use ng_bencode::{Pairs, Row, Text, Value};
use offer_answer::DialogSaved;
use relay_outside::OutOfMemory;
use std::alloc::Global;

fn tag_option_value(alloc: Global, tag: &Option<Text>) -> Result<Value, OutOfMemory>
    ensures { IfOk result (λ value. tree_of value ≡ option_tree tag_tree tag.now) }
{
    match tag {
        Some(tag) => some_value(alloc, text_value(alloc, tag.as_slice())?),
        None => Ok(none_value(alloc)),
    }
}

fn read_tag_option(alloc: Global, value: &Value) -> Result<Option<Option<Text>>, OutOfMemory>
    ensures some { IfOk result (λ read. IfSome read (λ tag. tree_of value.now ≡ option_tree tag_tree tag)) }
    ensures none { IfOk result (λ read. IfNone read ((tag : Option (Room ℕ)) → tree_of value.now ≡ option_tree tag_tree tag → ⊥)) }
{
    let Some(there) = read_option(value) else {
        return Ok(None);
    };
    let Some(inner) = there else {
        return Ok(Some(None));
    };
    let Some(tag) = read_text(alloc, inner)? else {
        return Ok(None);
    };
    Ok(Some(Some(tag)))
}

/// What a dialog's dictionary holds.
#[derive(Clone, Copy)]
struct DialogFields<'a> {
    answering_tag: &'a Value,
    committed_count: u64,
    first_tag: &'a Value,
    has_answer: bool,
    is_begun: bool,
    is_settled: bool,
    last_offer: &'a Value,
    sections: &'a Value,
}

fn dialog_fields(value: &Value) -> Option<DialogFields<'_>>
    ensures some { IfSome result (λ found. tree_of value.now ≡ Dict
        (entry (codes "answering_tag") (tree_of found.answering_tag.now)
        (entry (codes "committed_count") (number_tree found.committed_count)
        (entry (codes "first_tag") (tree_of found.first_tag.now)
        (entry (codes "has_answer") (flag_tree found.has_answer)
        (entry (codes "is_begun") (flag_tree found.is_begun)
        (entry (codes "is_settled") (flag_tree found.is_settled)
        (entry (codes "last_offer") (tree_of found.last_offer.now)
        (entry (codes "sections") (tree_of found.sections.now) no_entries))))))))) }
    ensures none { IfNone result ((saved : DialogSaved) → FitsDialogSaved saved → tree_of value.now ≡ dialog_tree saved → ⊥) }
{
    let mut pairs = pairs_in(value)?;
    let answering_tag = next_field(&mut pairs, b"answering_tag")?;
    let committed_count = next_field(&mut pairs, b"committed_count")?;
    let first_tag = next_field(&mut pairs, b"first_tag")?;
    let has_answer = next_field(&mut pairs, b"has_answer")?;
    let is_begun = next_field(&mut pairs, b"is_begun")?;
    let is_settled = next_field(&mut pairs, b"is_settled")?;
    let last_offer = next_field(&mut pairs, b"last_offer")?;
    let sections = next_field(&mut pairs, b"sections")?;
    none_left(pairs)?;
    Some(DialogFields {
        answering_tag,
        committed_count: read_number(committed_count)?,
        first_tag,
        has_answer: read_flag(has_answer)?,
        is_begun: read_flag(is_begun)?,
        is_settled: read_flag(is_settled)?,
        last_offer,
        sections,
    })
}

/// A dialog as a value: its tags, what was accepted, its sections with their drawn keys, and its last offer with its crypto lines.
pub fn dialog_value(alloc: Global, saved: &DialogSaved) -> Result<Value, OutOfMemory>
    ensures { IfOk result (λ value. tree_of value ≡ dialog_tree saved.now) }
{
    let answering_tag = tag_option_value(alloc, &saved.answering_tag)?;
    let committed_count = number_value(alloc, saved.committed_count as u64)?;
    let first_tag = text_value(alloc, saved.first_tag.as_slice())?;
    let last_offer = offer_option_value(alloc, &saved.last_offer)?;
    let sections = kept_sections_value(alloc, &saved.sections)?;
    let mut pairs: Pairs = Row::new(alloc);
    put_pair(alloc, &mut pairs, b"answering_tag", answering_tag)?;
    put_pair(alloc, &mut pairs, b"committed_count", committed_count)?;
    put_pair(alloc, &mut pairs, b"first_tag", first_tag)?;
    put_pair(
        alloc,
        &mut pairs,
        b"has_answer",
        flag_value(saved.has_answer),
    )?;
    put_pair(alloc, &mut pairs, b"is_begun", flag_value(saved.is_begun))?;
    put_pair(
        alloc,
        &mut pairs,
        b"is_settled",
        flag_value(saved.is_settled),
    )?;
    put_pair(alloc, &mut pairs, b"last_offer", last_offer)?;
    put_pair(alloc, &mut pairs, b"sections", sections)?;
    Ok(Value::dict(pairs))
}

/// The dialog that is written so. `None`: no dialog is.
pub fn read_dialog(alloc: Global, value: &Value) -> Result<Option<DialogSaved>, OutOfMemory>
    ensures some { IfOk result (λ read. IfSome read (λ saved. tree_of value.now ≡ dialog_tree saved)) }
    ensures none { IfOk result (λ read. IfNone read ((saved : DialogSaved) → FitsDialogSaved saved → tree_of value.now ≡ dialog_tree saved → ⊥)) }
{
    let Some(fields) = dialog_fields(value) else {
        return Ok(None);
    };
    let Some(answering_tag) = read_tag_option(alloc, fields.answering_tag)? else {
        return Ok(None);
    };
    let Some(first_tag) = read_text(alloc, fields.first_tag)? else {
        return Ok(None);
    };
    let Some(last_offer) = read_offer_option(alloc, fields.last_offer)? else {
        return Ok(None);
    };
    let Some(sections) = read_kept_sections(alloc, fields.sections)? else {
        return Ok(None);
    };
    Ok(Some(DialogSaved {
        first_tag,
        is_begun: fields.is_begun,
        answering_tag,
        has_answer: fields.has_answer,
        is_settled: fields.is_settled,
        committed_count: fields.committed_count as usize,
        last_offer,
        sections,
    }))
}
