//! A cell's record.
ghost use Rattle.std.specs.Prelude.{codes, ◌≡◌, List, All, IfOk, IfSome, IfNone};
ghost use Rattle.call_cell.specs.declared.saved.CellSaved.{CellSaved};
ghost use Rattle.call_cell.specs.declared.saved.LegSaved.{LegSaved};
ghost use Rattle.ng_bencode.specs.Tree.{Dict, entry, no_entries, tree_of};
ghost use Rattle.state_values.specs.Numbers.{number_tree, list_tree};
ghost use Rattle.state_values.specs.Forms.{flag_tree, option_tree};
ghost use Rattle.state_values.specs.ConfigTrees.{config_tree};
ghost use Rattle.state_values.specs.CellTrees.{cell_leg_tree, cell_tree, FitsLegSaved, FitsCellSaved};

use crate::cell_legs::{leg_value, read_leg};
use crate::configs::{config_value, read_config};
use crate::fields::{next_field, none_left, pairs_in, put_item, put_pair};
use crate::forms::{flag_value, read_flag};
use crate::number_options::{number_option, read_number_option};
use crate::numbers::{number_value, read_number};
use call_cell::{CellSaved, LegSaved};
use ng_bencode::{Pairs, Row, Value, Values};
use relay_outside::{Config, OutOfMemory};
use std::alloc::Global;

/// Legs in their order, which are spent.
fn legs_value(alloc: Global, legs: Vec<LegSaved>) -> Result<Value, OutOfMemory>
    ensures { IfOk result (λ value. tree_of value ≡ list_tree cell_leg_tree legs.items) }
{
    let mut legs = legs;
    let mut values: Values = Row::new(alloc);
    for _ in 0..legs.len() {
        let value = leg_value(alloc, legs.remove(0))?;
        put_item(&mut values, value)?;
    }
    Ok(Value::list(values))
}

/// The legs that are written so.
fn read_legs(alloc: Global, value: &Value) -> Result<Option<Vec<LegSaved>>, OutOfMemory>
    ensures some { IfOk result (λ read. IfSome read (λ legs. tree_of value.now ≡ list_tree cell_leg_tree legs.items)) }
    ensures none { IfOk result (λ read. IfNone read ((legs : List LegSaved) → All FitsLegSaved legs →
        tree_of value.now ≡ list_tree cell_leg_tree legs → ⊥)) }
{
    let Some(values) = value.as_list() else {
        return Ok(None);
    };
    let mut legs = Vec::new(alloc);
    for item in values.as_slice() {
        let Some(saved) = read_leg(item) else {
            return Ok(None);
        };
        legs.push(saved)?;
    }
    Ok(Some(legs))
}

/// A cell as a value: what it is run with, its call, its moments and its legs in lease order. It spends the legs' leases and contexts.
#[tactic(auto, unfolding(crate::specs::CellTrees::cell_tree))]
pub fn cell_value(alloc: Global, saved: CellSaved) -> Result<Value, OutOfMemory>
    ensures { IfOk result (λ value. tree_of value ≡ cell_tree saved) }
{
    let active = number_value(alloc, saved.active)?;
    let began = number_value(alloc, saved.began)?;
    let call = number_option(alloc, saved.call)?;
    let config = config_value(alloc, &saved.config)?;
    let legs = legs_value(alloc, saved.legs)?;
    let is_committed = flag_value(saved.is_committed);
    let moment = number_value(alloc, saved.moment)?;
    let mut pairs: Pairs = Row::new(alloc);
    put_pair(alloc, &mut pairs, b"active", active)?;
    put_pair(alloc, &mut pairs, b"began", began)?;
    put_pair(alloc, &mut pairs, b"call", call)?;
    put_pair(alloc, &mut pairs, b"config", config)?;
    put_pair(alloc, &mut pairs, b"is_committed", is_committed)?;
    put_pair(alloc, &mut pairs, b"legs", legs)?;
    put_pair(alloc, &mut pairs, b"moment", moment)?;
    Ok(Value::dict(pairs))
}

/// What a cell's value has, its legs not yet read.
#[derive(Clone, Copy)]
struct CellFields<'a> {
    active: u64,
    began: u64,
    call: Option<u64>,
    config: Config,
    is_committed: bool,
    legs: &'a Value,
    moment: u64,
}

#[tactic(auto, unfolding(crate::specs::CellTrees::cell_tree))]
fn cell_fields(value: &Value) -> Option<CellFields<'_>>
    ensures some { IfSome result (λ it. tree_of value.now ≡ Dict
        (entry (codes "active") (number_tree it.active)
        (entry (codes "began") (number_tree it.began)
        (entry (codes "call") (option_tree number_tree it.call)
        (entry (codes "config") (config_tree it.config)
        (entry (codes "is_committed") (flag_tree it.is_committed)
        (entry (codes "legs") (tree_of it.legs.now)
        (entry (codes "moment") (number_tree it.moment) no_entries)))))))) }
    ensures none { IfNone result ((saved : CellSaved) → FitsCellSaved saved → tree_of value.now ≡ cell_tree saved → ⊥) }
{
    let mut pairs = pairs_in(value)?;
    let active = read_number(next_field(&mut pairs, b"active")?)?;
    let began = read_number(next_field(&mut pairs, b"began")?)?;
    let call = read_number_option(next_field(&mut pairs, b"call")?)?;
    let config = read_config(next_field(&mut pairs, b"config")?)?;
    let is_committed = read_flag(next_field(&mut pairs, b"is_committed")?)?;
    let legs = next_field(&mut pairs, b"legs")?;
    let moment = read_number(next_field(&mut pairs, b"moment")?)?;
    none_left(pairs)?;
    Some(CellFields {
        active,
        began,
        call,
        config,
        is_committed,
        legs,
        moment,
    })
}

/// The cell that is written so. `None`: no cell is.
#[tactic(auto, unfolding(crate::specs::CellTrees::cell_tree))]
pub fn read_cell(alloc: Global, value: &Value) -> Result<Option<CellSaved>, OutOfMemory>
    ensures some { IfOk result (λ read. IfSome read (λ saved. tree_of value.now ≡ cell_tree saved)) }
    ensures none { IfOk result (λ read. IfNone read ((saved : CellSaved) → FitsCellSaved saved → tree_of value.now ≡ cell_tree saved → ⊥)) }
{
    let Some(it) = cell_fields(value) else {
        return Ok(None);
    };
    let Some(legs) = read_legs(alloc, it.legs)? else {
        return Ok(None);
    };
    Ok(Some(CellSaved {
        config: it.config,
        moment: it.moment,
        call: it.call,
        began: it.began,
        is_committed: it.is_committed,
        active: it.active,
        legs,
    }))
}
