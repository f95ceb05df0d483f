//! The live calls' records.
ghost use Rattle.std.specs.Prelude.{codes, ◌≡◌, ◌<◌, ◌^◌, ℕ, List, All, Option, IfOk, IfSome, IfNone};
ghost use Rattle.ng_bencode.specs.Tree.{Bytes, Dict, entry, no_entries, tree_of};
ghost use Rattle.call_board.specs.declared.saved_board.CallSaved.{CallSaved};
ghost use Rattle.state_values.specs.Numbers.{number_tree};
ghost use Rattle.state_values.specs.Forms.{option_tree};
ghost use Rattle.state_values.specs.CallTrees.{call_tree, calls_tree, FitsCallSaved};

use crate::dialogs::{dialog_value, read_dialog};
use crate::fields::{next_field, none_left, pairs_in, put_item, put_pair, read_text, text_value};
use crate::forms::{none_value, read_option, some_value};
use crate::numbers::{number_value, read_number, read_word};
use call_board::CallSaved;
use ng_bencode::{Pairs, Row, Value, Values};
use relay_outside::OutOfMemory;
use std::alloc::Global;

/// The moment from which a tick ends a call, if it is ending.
fn due_value(alloc: Global, due_moment: Option<u64>) -> Result<Value, OutOfMemory>
    ensures { IfOk result (λ value. tree_of value ≡ option_tree number_tree due_moment) }
{
    match due_moment {
        Some(moment) => some_value(alloc, number_value(alloc, moment)?),
        None => Ok(none_value(alloc)),
    }
}

/// The due moment that is written so. The outer `None`: none is.
fn read_due(value: &Value) -> Option<Option<u64>>
    ensures some { IfSome result (λ due. tree_of value.now ≡ option_tree number_tree due) }
    ensures none { IfNone result ((due : Option ℕ) → IfSome due (λ moment. moment < 2 ^ 64) → tree_of value.now ≡ option_tree number_tree due → ⊥) }
{
    match read_option(value)? {
        Some(moment) => Some(Some(read_number(moment)?)),
        None => Some(None),
    }
}

fn call_value(alloc: Global, saved: &CallSaved) -> Result<Value, OutOfMemory>
    ensures { IfOk result (λ value. tree_of value ≡ call_tree saved.now) }
{
    let id = text_value(alloc, saved.id.as_slice())?;
    let cell = number_value(alloc, u64::from(saved.cell))?;
    let dialog = dialog_value(alloc, &saved.dialog)?;
    let due = due_value(alloc, saved.due_moment)?;
    let first = number_value(alloc, saved.first_moment)?;
    let last = number_value(alloc, saved.last_moment)?;
    let number = number_value(alloc, saved.number)?;
    let mut pairs: Pairs = Row::new(alloc);
    put_pair(alloc, &mut pairs, b"call_id", id)?;
    put_pair(alloc, &mut pairs, b"cell", cell)?;
    put_pair(alloc, &mut pairs, b"dialog", dialog)?;
    put_pair(alloc, &mut pairs, b"due_moment", due)?;
    put_pair(alloc, &mut pairs, b"first_moment", first)?;
    put_pair(alloc, &mut pairs, b"last_moment", last)?;
    put_pair(alloc, &mut pairs, b"number", number)?;
    Ok(Value::dict(pairs))
}

/// What a call's dictionary holds.
#[derive(Clone, Copy)]
struct CallFields<'a> {
    id: &'a Value,
    cell: u32,
    dialog: &'a Value,
    due_moment: Option<u64>,
    first_moment: u64,
    last_moment: u64,
    number: u64,
}

fn call_fields(value: &Value) -> Option<CallFields<'_>>
    ensures some { IfSome result (λ found. tree_of value.now ≡ Dict
        (entry (codes "call_id") (tree_of found.id.now)
        (entry (codes "cell") (number_tree found.cell)
        (entry (codes "dialog") (tree_of found.dialog.now)
        (entry (codes "due_moment") (option_tree number_tree found.due_moment)
        (entry (codes "first_moment") (number_tree found.first_moment)
        (entry (codes "last_moment") (number_tree found.last_moment)
        (entry (codes "number") (number_tree found.number) no_entries)))))))) }
    ensures none { IfNone result ((saved : CallSaved) → FitsCallSaved saved → tree_of value.now ≡ call_tree saved → ⊥) }
{
    let mut pairs = pairs_in(value)?;
    let id = next_field(&mut pairs, b"call_id")?;
    let cell = next_field(&mut pairs, b"cell")?;
    let dialog = next_field(&mut pairs, b"dialog")?;
    let due = next_field(&mut pairs, b"due_moment")?;
    let first = next_field(&mut pairs, b"first_moment")?;
    let last = next_field(&mut pairs, b"last_moment")?;
    let number = next_field(&mut pairs, b"number")?;
    none_left(pairs)?;
    Some(CallFields {
        id,
        cell: read_word(cell)?,
        dialog,
        due_moment: read_due(due)?,
        first_moment: read_number(first)?,
        last_moment: read_number(last)?,
        number: read_number(number)?,
    })
}

fn read_call(alloc: Global, value: &Value) -> Result<Option<CallSaved>, OutOfMemory>
    ensures some { IfOk result (λ read. IfSome read (λ saved. tree_of value.now ≡ call_tree saved)) }
    ensures none { IfOk result (λ read. IfNone read ((saved : CallSaved) → FitsCallSaved saved → tree_of value.now ≡ call_tree saved → ⊥)) }
{
    let Some(fields) = call_fields(value) else {
        return Ok(None);
    };
    let Some(id) = read_text(alloc, fields.id)? else {
        return Ok(None);
    };
    let Some(dialog) = read_dialog(alloc, fields.dialog)? else {
        return Ok(None);
    };
    Ok(Some(CallSaved {
        number: fields.number,
        cell: fields.cell,
        id,
        dialog,
        first_moment: fields.first_moment,
        last_moment: fields.last_moment,
        due_moment: fields.due_moment,
    }))
}

/// Live calls in their order as a value.
pub fn calls_value(alloc: Global, calls: &[CallSaved]) -> Result<Value, OutOfMemory>
    ensures { IfOk result (λ value. tree_of value ≡ calls_tree calls.now) }
{
    let mut values: Values = Row::new(alloc);
    for saved in calls {
        let value = call_value(alloc, saved)?;
        put_item(&mut values, value)?;
    }
    Ok(Value::list(values))
}

/// The live calls that are written so. `None`: no calls are.
pub fn read_calls(alloc: Global, value: &Value) -> Result<Option<Vec<CallSaved>>, OutOfMemory>
    ensures some { IfOk result (λ read. IfSome read (λ calls. tree_of value.now ≡ calls_tree calls.items)) }
    ensures none { IfOk result (λ read. IfNone read ((calls : List CallSaved) → All FitsCallSaved calls →
        tree_of value.now ≡ calls_tree calls → ⊥)) }
{
    let Some(values) = value.as_list() else {
        return Ok(None);
    };
    let mut calls = Vec::new(alloc);
    for item in values.as_slice() {
        let Some(saved) = read_call(alloc, item)? else {
            return Ok(None);
        };
        calls.push(saved)?;
    }
    Ok(Some(calls))
}
