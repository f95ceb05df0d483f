//! The sections of an offer.
ghost use Rattle.std.specs.Prelude.{◌≡◌, List, All, length, IfOk, IfSome, IfNone};
ghost use Rattle.ng_bencode.specs.Row.{list_in};
ghost use Rattle.ng_bencode.specs.Tree.{tree_of};
ghost use Rattle.offer_answer.specs.declared.last_offer.MadeSection.{MadeSection};
ghost use Rattle.state_values.specs.Numbers.{list_tree};
ghost use Rattle.state_values.specs.OfferTrees.{made_tree, FitsMade};

use crate::described::{read_section, section_value};
use crate::fields::{next_field, none_left, pairs_in, put_item, put_pair};
use crate::lines::{line_option_value, lines_value, read_line_option, read_lines};
use crate::variants::{proto_value, read_proto};
use ng_bencode::{Pairs, Row, Value, Values};
use offer_answer::MadeSection;
use relay_outside::OutOfMemory;
use std::alloc::Global;

/// A section of an offer.
fn made_value(alloc: Global, made: &MadeSection) -> Result<Value, OutOfMemory>
    ensures { IfOk result (λ value. tree_of value ≡ made_tree made.now) }
{
    let line = line_option_value(alloc, &made.line)?;
    let lines = lines_value(alloc, &made.lines)?;
    let section = section_value(alloc, &made.section)?;
    let mut pairs: Pairs = Row::new(alloc);
    put_pair(alloc, &mut pairs, b"line", line)?;
    put_pair(alloc, &mut pairs, b"lines", lines)?;
    put_pair(alloc, &mut pairs, b"section", section)?;
    put_pair(alloc, &mut pairs, b"written", proto_value(made.written))?;
    Ok(Value::dict(pairs))
}

/// What is written so.
fn read_made(value: &Value) -> Option<MadeSection>
    ensures some { IfSome result (λ made. tree_of value.now ≡ made_tree made) }
    ensures none { IfNone result ((made : MadeSection) → FitsMade made → tree_of value.now ≡ made_tree made → ⊥) }
{
    let mut pairs = pairs_in(value)?;
    let line = next_field(&mut pairs, b"line")?;
    let lines = next_field(&mut pairs, b"lines")?;
    let section = next_field(&mut pairs, b"section")?;
    let written = next_field(&mut pairs, b"written")?;
    none_left(pairs)?;
    Some(MadeSection {
        line: read_line_option(line)?,
        lines: read_lines(lines)?,
        section: read_section(section)?,
        written: read_proto(written)?,
    })
}

/// The sections of an offer, as many as are kept.
pub(crate) fn made_sections_value(
    alloc: Global,
    made_sections: &[MadeSection],
) -> Result<Value, OutOfMemory>
    ensures { IfOk result (λ value. tree_of value ≡ list_tree made_tree made_sections.now) }
{
    let mut values: Values = Row::new(alloc);
    for made in made_sections {
        let value = made_value(alloc, made)?;
        put_item(&mut values, value)?;
    }
    Ok(Value::list(values))
}

fn read_made_list(alloc: Global, value: &Value) -> Result<Option<Vec<MadeSection>>, OutOfMemory>
    ensures some { IfOk result (λ read. IfSome read (λ made_sections. tree_of value.now ≡ list_tree made_tree made_sections.items)) }
    ensures none { IfOk result (λ read. IfNone read ((made_sections : List MadeSection) → All FitsMade made_sections →
        tree_of value.now ≡ list_tree made_tree made_sections → ⊥)) }
{
    let Some(values) = value.as_list() else {
        return Ok(None);
    };
    let mut made_sections = Vec::new(alloc);
    for item in values.as_slice() {
        let Some(made) = read_made(item) else {
            return Ok(None);
        };
        made_sections.push(made)?;
    }
    Ok(Some(made_sections))
}

fn eight_made(list: &[MadeSection]) -> Option<[MadeSection; 8]>
    ensures some { IfSome result (λ made_sections. list.now ≡ made_sections) }
    ensures none { IfNone result (length list.now ≡ 8 → ⊥) }
{
    if list.len() != 8 {
        return None;
    }
    let mut made_sections = [list[0]; 8];
    made_sections.copy_from_slice(list);
    Some(made_sections)
}

/// What is written so. `None`: it is no list of eight.
pub(crate) fn read_made_sections(
    alloc: Global,
    value: &Value,
) -> Result<Option<[MadeSection; 8]>, OutOfMemory>
    ensures some { IfOk result (λ read. IfSome read (λ made_sections. tree_of value.now ≡ list_tree made_tree made_sections)) }
    ensures none { IfOk result (λ read. IfNone read ((made_sections : List MadeSection) → All FitsMade made_sections → length made_sections ≡ 8 →
        tree_of value.now ≡ list_tree made_tree made_sections → ⊥)) }
{
    let Some(list) = read_made_list(alloc, value)? else {
        return Ok(None);
    };
    Ok(eight_made(list.as_slice()))
}
