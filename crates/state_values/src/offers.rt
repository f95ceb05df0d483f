//! The last offer of a dialog.
ghost use Rattle.std.specs.Prelude.{codes, ◌≡◌, Option, IfOk, IfSome, IfNone};
ghost use Rattle.ng_bencode.specs.Tree.{Dict, entry, no_entries, tree_of};
ghost use Rattle.offer_answer.specs.declared.last_offer.LastOffer.{LastOffer};
ghost use Rattle.state_values.specs.Numbers.{number_tree};
ghost use Rattle.state_values.specs.Forms.{option_tree, side_tree};
ghost use Rattle.state_values.specs.OfferTrees.{options_tree, offer_tree, FitsOffer};

use crate::fields::{next_field, none_left, pairs_in, put_pair, read_text, text_value};
use crate::forms::{none_value, read_option, some_value};
use crate::made_sections::{made_sections_value, read_made_sections};
use crate::numbers::{number_value, read_number};
use crate::options::{options_value, read_options};
use crate::variants::{read_side, side_value};
use ng_bencode::{Pairs, Row, Value};
use ng_command::Options;
use offer_answer::LastOffer;
use port_pool::Side;
use relay_outside::OutOfMemory;
use std::alloc::Global;

/// What an offer's dictionary holds.
#[derive(Clone, Copy)]
struct OfferFields<'a> {
    count: u64,
    from_tag: &'a Value,
    maker: Side,
    options: Options,
    sections: &'a Value,
}

fn offer_fields(value: &Value) -> Option<OfferFields<'_>>
    ensures some { IfSome result (λ found. tree_of value.now ≡ Dict
        (entry (codes "count") (number_tree found.count)
        (entry (codes "from_tag") (tree_of found.from_tag.now)
        (entry (codes "maker") (side_tree found.maker)
        (entry (codes "options") (options_tree found.options)
        (entry (codes "sections") (tree_of found.sections.now) no_entries)))))) }
    ensures none { IfNone result ((offer : LastOffer) → FitsOffer offer → tree_of value.now ≡ offer_tree offer → ⊥) }
{
    let mut pairs = pairs_in(value)?;
    let count = next_field(&mut pairs, b"count")?;
    let from_tag = next_field(&mut pairs, b"from_tag")?;
    let maker = next_field(&mut pairs, b"maker")?;
    let options = next_field(&mut pairs, b"options")?;
    let sections = next_field(&mut pairs, b"sections")?;
    none_left(pairs)?;
    Some(OfferFields {
        count: read_number(count)?,
        from_tag,
        maker: read_side(maker)?,
        options: read_options(options)?,
        sections,
    })
}

fn offer_value(alloc: Global, offer: &LastOffer) -> Result<Value, OutOfMemory>
    ensures { IfOk result (λ value. tree_of value ≡ offer_tree offer.now) }
{
    let count = number_value(alloc, offer.count as u64)?;
    let from_tag = text_value(alloc, offer.from_tag.as_slice())?;
    let options = options_value(alloc, &offer.options)?;
    let sections = made_sections_value(alloc, &offer.sections)?;
    let mut pairs: Pairs = Row::new(alloc);
    put_pair(alloc, &mut pairs, b"count", count)?;
    put_pair(alloc, &mut pairs, b"from_tag", from_tag)?;
    put_pair(alloc, &mut pairs, b"maker", side_value(offer.maker))?;
    put_pair(alloc, &mut pairs, b"options", options)?;
    put_pair(alloc, &mut pairs, b"sections", sections)?;
    Ok(Value::dict(pairs))
}

fn read_offer(alloc: Global, value: &Value) -> Result<Option<LastOffer>, OutOfMemory>
    ensures some { IfOk result (λ read. IfSome read (λ offer. tree_of value.now ≡ offer_tree offer)) }
    ensures none { IfOk result (λ read. IfNone read ((offer : LastOffer) → FitsOffer offer → tree_of value.now ≡ offer_tree offer → ⊥)) }
{
    let Some(fields) = offer_fields(value) else {
        return Ok(None);
    };
    let Some(from_tag) = read_text(alloc, fields.from_tag)? else {
        return Ok(None);
    };
    let Some(sections) = read_made_sections(alloc, fields.sections)? else {
        return Ok(None);
    };
    Ok(Some(LastOffer {
        from_tag,
        maker: fields.maker,
        options: fields.options,
        count: fields.count as usize,
        sections,
    }))
}

/// The last offer, where there is one.
pub(crate) fn offer_option_value(
    alloc: Global,
    offer: &Option<LastOffer>,
) -> Result<Value, OutOfMemory>
    ensures { IfOk result (λ value. tree_of value ≡ option_tree offer_tree offer.now) }
{
    match offer {
        Some(offer) => some_value(alloc, offer_value(alloc, offer)?),
        None => Ok(none_value(alloc)),
    }
}

/// What is written so. The outer `None`: nothing is.
pub(crate) fn read_offer_option(
    alloc: Global,
    value: &Value,
) -> Result<Option<Option<LastOffer>>, OutOfMemory>
    ensures some { IfOk result (λ read. IfSome read (λ offer. tree_of value.now ≡ option_tree offer_tree offer)) }
    ensures none { IfOk result (λ read. IfNone read ((offer : Option LastOffer) → IfSome offer FitsOffer →
        tree_of value.now ≡ option_tree offer_tree offer → ⊥)) }
{
    let Some(there) = read_option(value) else {
        return Ok(None);
    };
    let Some(inner) = there else {
        return Ok(Some(None));
    };
    let Some(offer) = read_offer(alloc, inner)? else {
        return Ok(None);
    };
    Ok(Some(Some(offer)))
}
