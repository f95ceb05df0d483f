//! The pairs of the range: each is free or held, and that once.

ghost use Rattle.std.specs.Prelude.{◌≡◌, ◌↔◌, ◌++◌, ◌<◌, ℕ, true, false, IsTrue, IfOk, length, map, slice_index_or};
ghost use Rattle.relay_outside.specs.declared.settings.Config.{Config};
ghost use Rattle.histories.specs.Words.{In};
ghost use Rattle.port_pool.specs.Pools.{AreFrom};
ghost use Rattle.port_pool.specs.SavedPools.{saved_pairs};
ghost use Rattle.call_cell.specs.declared.saved.LegSaved.{LegSaved};
ghost use Rattle.call_shapes.specs.Turns.{pairs_held, holders_of};
ghost use Rattle.whole_records.specs.SavedShapes.{saved_cell_at};
ghost use Rattle.whole_records.specs.Records.{saved_held_legs};
ghost use Rattle.whole_records.specs.RecordParts.{StandOnce, HasRange, PairsStand};

use call_board::CallSaved;
use call_cell::{CellSaved, LegSaved};
use port_pool::PoolSaved;
use relay_outside::{Config, OutOfMemory};
use std::alloc::{AllocError, Global};

/// Puts the pairs of these legs behind the others.
fn put_legs(pairs: &mut Vec<u32>, legs: &[LegSaved]) -> Result<(), AllocError>
    ensures { IfOk result (λ done. pairs.new.items ≡ pairs.old.items ++ map (λ (leg : LegSaved). leg.holder.pair) legs.now) }
{
    for leg in legs {
        pairs.push(leg.holder.pair)?;
    }
    Ok(())
}

/// Puts the pairs of the legs of the cell of this number, where there is one, behind the others.
fn put_cell(pairs: &mut Vec<u32>, number: u32, cells: &[CellSaved]) -> Result<(), AllocError>
    ensures { (config : Config) → IfOk result (λ done. pairs.new.items ≡ pairs.old.items ++ pairs_held (holders_of (saved_cell_at config cells.now number).legs)) }
{
    let place = number as usize;
    if place == 0 || place > cells.len() {
        return Ok(());
    }
    put_legs(pairs, &cells[place - 1].legs)
}

/// Puts the pairs of the legs of these calls' cells behind the others.
fn put_held(
    pairs: &mut Vec<u32>,
    calls: &[CallSaved],
    cells: &[CellSaved],
) -> Result<(), AllocError>
    ensures { (config : Config) → IfOk result (λ done. pairs.new.items ≡ pairs.old.items ++ pairs_held (saved_held_legs config calls.now cells.now)) }
{
    for call in calls {
        put_cell(pairs, call.cell, cells)?;
    }
    Ok(())
}

/// Whether all are marked.
fn are_marked(marks: &[bool]) -> bool
    ensures { IsTrue result ↔ ((k : ℕ) → k < length marks.now → slice_index_or marks.now k false ≡ true) }
{
    for mark in marks {
        if !*mark {
            return false;
        }
    }
    true
}

/// Whether there is a mark for the pair, and it isn't marked.
fn may_stand(marks: &[bool], pair: u32) -> bool
    ensures { IsTrue result ↔ ((pair < length marks.now) × (slice_index_or marks.now pair false ≡ false)) }
{
    let place = pair as usize;
    if place >= marks.len() {
        return false;
    }
    !marks[place]
}

/// Whether each number below the count stands among these just once, and no other does.
fn stand_once(alloc: Global, count: usize, pairs: &[u32]) -> Result<bool, AllocError>
    ensures { IfOk result (λ once. IsTrue once ↔ StandOnce count pairs.now) }
{
    let mut marks = Vec::from_elem(alloc, false, count)?;
    'pairs: for it in pairs {
        let pair = *it;
        if !may_stand(&marks, pair) {
            return Ok(false);
        }
        marks[pair as usize] = true;
    }
    Ok(are_marked(&marks))
}

/// Whether all are below the limit.
fn are_below(limit: u32, pairs: &[u32]) -> bool
    ensures { IsTrue result ↔ ((pair : ℕ) → In pair pairs.now → pair < limit) }
{
    for pair in pairs {
        if *pair >= limit {
            return false;
        }
    }
    true
}

/// Whether all are from the first one on.
fn are_from(first: u32, pairs: &[u32]) -> bool
    ensures { IsTrue result ↔ AreFrom first pairs.now }
{
    for pair in pairs {
        if *pair < first {
            return false;
        }
    }
    true
}

/// Whether the pool has the ports of the configuration and in each queue pairs of its family.
fn has_range(config: &Config, pool: &PoolSaved) -> bool
    ensures { IsTrue result ↔ HasRange config.now (saved_pairs pool.now) }
{
    if pool.first_port != config.first_port() || pool.per_family != config.range_pairs() {
        return false;
    }
    if pool.generations.len() != config.pairs() as usize {
        return false;
    }
    are_below(pool.per_family, &pool.free4) && are_from(pool.per_family, &pool.free6)
}

/// Whether besides each pair of the range stands just once, in a queue or as a leg of one call's cell.
pub(crate) fn pairs_stand(
    alloc: Global,
    config: &Config,
    pool: &PoolSaved,
    calls: &[CallSaved],
    cells: &[CellSaved],
) -> Result<bool, OutOfMemory>
    ensures { IfOk result (λ stand. IsTrue stand ↔ PairsStand config.now (saved_pairs pool.now) (pairs_held (saved_held_legs config.now calls.now cells.now))) }
{
    if !has_range(config, pool) {
        return Ok(false);
    }
    let mut pairs = Vec::new(alloc);
    pairs.extend_from_slice(&pool.free4)?;
    pairs.extend_from_slice(&pool.free6)?;
    put_held(&mut pairs, calls, cells)?;
    let once = stand_once(alloc, config.pairs() as usize, &pairs)?;
    Ok(once)
}
