//! The second value: the pool.
ghost use Rattle.std.specs.Prelude.{◌≡◌, ◌↔◌, IsTrue, IfOk, IfSome, IfNone};
ghost use Rattle.port_pool.specs.SavedPools.{saved_pairs};
ghost use Rattle.port_pool.specs.declared.saved_pool.PoolSaved.{PoolSaved};
ghost use Rattle.ng_bencode.specs.Tree.{tree_of};
ghost use Rattle.state_values.specs.PoolTrees.{pool_tree, FitsPoolSaved};
ghost use Rattle.state_reads.specs.Texts.{HasPorts, PoolStands, IsPoolText};

use crate::ranges::{are_counts, longs_fit, words_fit};
use crate::texts::value_of_text;
use ng_bencode::Value;
use port_pool::PoolSaved;
use relay_outside::{Config, OutOfMemory};
use state_values::read_pool;
use std::alloc::Global;

/// The fields of a record are in their ranges (no run-time use).
fn pool_fits(saved: &PoolSaved)
    ensures { FitsPoolSaved saved.now }
{
    let _first = saved.first_port;
    let _per = saved.per_family;
    words_fit(&saved.free4);
    words_fit(&saved.free6);
    longs_fit(&saved.generations);
}

/// Whether it is a pool, with a generation below 2^62 for each pair of the configuration.
fn pool_stands(alloc: Global, config: &Config, saved: &PoolSaved) -> Result<bool, OutOfMemory>
    ensures { IfOk result (λ stands. IsTrue stands ↔ PoolStands config.now (saved_pairs saved.now)) }
{
    if saved.generations.len() != config.pairs() as usize || !are_counts(&saved.generations) {
        return Ok(false);
    }
    saved.is_pool(alloc)
}

/// The pool of this configuration's ports that is read of the value.
fn pool_of_value(
    alloc: Global,
    config: &Config,
    value: &Value,
) -> Result<Option<PoolSaved>, OutOfMemory>
    ensures some { IfOk result (λ read. IfSome read (λ saved. tree_of value.now ≡ pool_tree saved)) }
    ensures ports { IfOk result (λ read. IfSome read (HasPorts config.now)) }
    ensures stands { IfOk result (λ read. IfSome read (λ saved. PoolStands config.now (saved_pairs saved))) }
    ensures none { IfOk result (λ read. IfNone read ((saved : PoolSaved) → FitsPoolSaved saved → tree_of value.now ≡ pool_tree saved →
        HasPorts config.now saved × PoolStands config.now (saved_pairs saved) → ⊥)) }
{
    let Some(saved) = read_pool(alloc, config.first_port(), config.range_pairs(), value)? else {
        return Ok(None);
    };
    pool_fits(&saved);
    if pool_stands(alloc, config, &saved)? {
        Ok(Some(saved))
    } else {
        Ok(None)
    }
}

/// The pool of this configuration's ports that this text is. `None`: it is none, it has not just a generation for each pair of the range, or one
/// is 2^62 or more.
pub fn pool_of_text(
    alloc: Global,
    config: &Config,
    text: &[u8],
) -> Result<Option<PoolSaved>, OutOfMemory>
    ensures some { IfOk result (λ read. IfSome read (IsPoolText config.now text.now)) }
    ensures none { IfOk result (λ read. IfNone read ((saved : PoolSaved) → FitsPoolSaved saved → IsPoolText config.now text.now saved → ⊥)) }
{
    let Some(value) = value_of_text(alloc, text)? else {
        return Ok(None);
    };
    pool_of_value(alloc, config, &value)
}
