//! A pool as a value with public fields.

ghost use Rattle.std.specs.Prelude.{◌≡◌, ◌≤◌, ◌↔◌, List, ℕ, length, IfOk, IsTrue};
ghost use Rattle.std.specs.VecDeque.{deque_capacity};
ghost use Rattle.relay_outside.specs.declared.settings.Config.{Config};
ghost use Rattle.port_pool.specs.declared.saved_pool.PoolSaved.{PoolSaved};
ghost use Rattle.port_pool.specs.Pools.{Pairs, AreFree, AreFrom, PoolStandsFor};
ghost use Rattle.port_pool.specs.SavedPools.{FitsPool, SavesPool, saved_pairs};

use relay_outside::OutOfMemory;
use std::alloc::{AllocError, Global};
use std::collections::VecDeque;

/// All that a `Pool` holds: `Pool::into_saved` gives it, and `Pool::from_saved` makes a pool of it.
#[derive(Drop)]
pub struct PoolSaved {
    /// The first even port of the range.
    pub first_port: u32,
    /// How many pairs the range has, which is how many of each family there are.
    pub per_family: u32,
    /// The free pairs of version 4, by their numbers from 0, the next to be leased in front.
    pub free4: Vec<u32>,
    /// The same of version 6, whose numbers are those after version 4's.
    pub free6: Vec<u32>,
    /// For each pair the generation of its last lease, 0 before the first.
    pub generations: Vec<u64>,
}

impl PoolSaved {
    /// Whether this is a pool: ports are of 16 bits, version 6 has as many pairs as version 4 or fewer, and in each queue
    /// stand pairs of its family, each once. It takes memory for a mark of each pair.
    pub fn is_pool(&self, alloc: Global) -> Result<bool, OutOfMemory>
        ensures { IfOk result (λ is. IsTrue is ↔ FitsPool (saved_pairs self.now)) }
    {
        let ports = u64::from(self.first_port) + 2 * u64::from(self.per_family);
        if ports > 65_536 {
            return Ok(false);
        }
        let per_family = self.per_family as usize;
        let count = self.generations.len();
        if count < per_family || 2 * per_family < count {
            return Ok(false);
        }
        let first = are_free(alloc, 0, per_family, &self.free4)?;
        let others = are_free(alloc, self.per_family, count, &self.free6)?;
        Ok(first && others)
    }
}

/// Whether these are pairs from `first` on and below `end`, each once.
fn are_free(alloc: Global, first: u32, end: usize, pairs: &[u32]) -> Result<bool, AllocError>
    ensures { IfOk result (λ are. IsTrue are ↔ (AreFree end pairs.now × AreFrom first pairs.now)) }
{
    let mut marks = Vec::from_elem(alloc, false, end)?;
    'pairs: for it in pairs {
        let pair = *it;
        if pair < first || pair as usize >= end || marks[pair as usize] {
            return Ok(false);
        }
        marks[pair as usize] = true;
    }
    Ok(true)
}

/// These pairs in a queue with so much room.
pub(crate) fn queue_of(
    alloc: Global,
    room: usize,
    pairs: &[u32],
) -> Result<VecDeque<u32>, AllocError>
    requires { length pairs.now ≤ room }
    ensures pairs { IfOk result (λ queue. queue.items ≡ pairs.now) }
    ensures room { IfOk result (λ queue. room ≤ deque_capacity queue) }
{
    let mut queue = VecDeque::with_capacity(alloc, room)?;
    'pairs: for pair in pairs {
        queue.push_back_reserved(*pair);
    }
    Ok(queue)
}

/// Theorem (no run-time code): a pool that is loaded stands for all free pairs and leases for which the saved one stood.
pub fn pool_moves()
    ensures { (config : Config) (free : List ℕ) (leases : ℕ → ℕ) (old : Pairs) (new : Pairs) (saved : PoolSaved) →
        SavesPool old saved → SavesPool new saved → PoolStandsFor config free leases old → PoolStandsFor config free leases new }
{}
