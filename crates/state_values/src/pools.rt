//! The pool's record.
ghost use Rattle.std.specs.Prelude.{codes, ◌≡◌, IfOk, IfSome, IfNone};
ghost use Rattle.port_pool.specs.declared.saved_pool.PoolSaved.{PoolSaved};
ghost use Rattle.ng_bencode.specs.Tree.{Dict, entry, no_entries, tree_of};
ghost use Rattle.state_values.specs.PoolTrees.{pool_tree, FitsPoolSaved, IsReadPool};

use crate::fields::{next_field, none_left, pairs_in, put_pair};
use crate::numbers::{numbers_value, read_numbers, read_words, words_value};
use ng_bencode::{Pairs, Row, Value};
use port_pool::PoolSaved;
use relay_outside::OutOfMemory;
use std::alloc::Global;

/// The values of a pool's dictionary.
#[derive(Clone, Copy)]
struct PoolFields<'a> {
    free4: &'a Value,
    free6: &'a Value,
    generations: &'a Value,
}

/// A pool as a value: its queues and generations. Its ports aren't written, since they follow from the configuration.
pub fn pool_value(alloc: Global, saved: &PoolSaved) -> Result<Value, OutOfMemory>
    ensures { IfOk result (λ value. tree_of value ≡ pool_tree saved.now) }
{
    let free4 = words_value(alloc, saved.free4.as_slice())?;
    let free6 = words_value(alloc, saved.free6.as_slice())?;
    let generations = numbers_value(alloc, saved.generations.as_slice())?;
    let mut pairs: Pairs = Row::new(alloc);
    put_pair(alloc, &mut pairs, b"free4", free4)?;
    put_pair(alloc, &mut pairs, b"free6", free6)?;
    put_pair(alloc, &mut pairs, b"generations", generations)?;
    Ok(Value::dict(pairs))
}

/// The values of a dictionary that has a pool's keys.
fn pool_fields(value: &Value) -> Option<PoolFields<'_>>
    ensures some { IfSome result (λ found. tree_of value.now ≡
        Dict (entry (codes "free4") (tree_of found.free4.now) (entry (codes "free6") (tree_of found.free6.now)
        (entry (codes "generations") (tree_of found.generations.now) no_entries)))) }
    ensures none { IfNone result ((saved : PoolSaved) → tree_of value.now ≡ pool_tree saved → ⊥) }
{
    let mut pairs = pairs_in(value)?;
    let free4 = next_field(&mut pairs, b"free4")?;
    let free6 = next_field(&mut pairs, b"free6")?;
    let generations = next_field(&mut pairs, b"generations")?;
    none_left(pairs)?;
    Some(PoolFields {
        free4,
        free6,
        generations,
    })
}

/// The pool of these ports that is written so. `None`: no pool is.
pub fn read_pool(
    alloc: Global,
    first_port: u32,
    per_family: u32,
    value: &Value,
) -> Result<Option<PoolSaved>, OutOfMemory>
    ensures some { IfOk result (λ read. IfSome read (λ saved. IsReadPool first_port per_family (tree_of value.now) saved)) }
    ensures none { IfOk result (λ read. IfNone read ((saved : PoolSaved) → FitsPoolSaved saved → tree_of value.now ≡ pool_tree saved → ⊥)) }
{
    let Some(fields) = pool_fields(value) else {
        return Ok(None);
    };
    let Some(free4) = read_words(alloc, fields.free4)? else {
        return Ok(None);
    };
    let Some(free6) = read_words(alloc, fields.free6)? else {
        return Ok(None);
    };
    let Some(generations) = read_numbers(alloc, fields.generations)? else {
        return Ok(None);
    };
    Ok(Some(PoolSaved {
        first_port,
        per_family,
        free4,
        free6,
        generations,
    }))
}
