//! That what is written is read again, and as nothing else.
ghost use Rattle.std.specs.Prelude.{◌≡◌, ◌≤◌, List, All};
ghost use Rattle.ng_bencode.specs.Tree.{depth};
ghost use Rattle.ng_bencode.specs.Spells.{spelling, Spells};
ghost use Rattle.port_pool.specs.declared.saved_pool.PoolSaved.{PoolSaved};
ghost use Rattle.port_pool.specs.SavedPools.{saved_pairs};
ghost use Rattle.cookie_cache.specs.declared.saved.CacheSaved.{CacheSaved};
ghost use Rattle.relay_outside.specs.declared.settings.Config.{Config};
ghost use Rattle.state_values.specs.ConfigTrees.{config_tree, FitsConfig};
ghost use Rattle.state_values.specs.declared.relays.RelaySaved.{RelaySaved};
ghost use Rattle.state_values.specs.RelayTrees.{relay_tree, FitsRelaySaved};
ghost use Rattle.call_board.specs.declared.saved_board.CallSaved.{CallSaved};
ghost use Rattle.state_values.specs.CallTrees.{calls_tree, FitsCallSaved, AreSameCalls};
ghost use Rattle.state_values.specs.CacheTrees.{cache_tree, FitsCacheSaved, IsSameCache};
ghost use Rattle.offer_answer.specs.declared.saved.DialogSaved.{DialogSaved};
ghost use Rattle.state_values.specs.DialogTrees.{dialog_tree, FitsDialogSaved, IsSameDialog};
ghost use Rattle.state_values.specs.PoolTrees.{pool_tree, FitsPoolSaved};
ghost use Rattle.call_cell.specs.declared.saved.CellSaved.{CellSaved};
ghost use Rattle.state_values.specs.CellTrees.{cell_tree, FitsCellSaved, IsSameCell};

/// Theorem (no run-time code): pools of the same ports that are written alike are the same, so the pool that is read is the one
/// that was written.
pub fn pools_differ()
    ensures { (a b : PoolSaved) → FitsPoolSaved a → FitsPoolSaved b → a.first_port ≡ b.first_port → a.per_family ≡ b.per_family →
        pool_tree a ≡ pool_tree b → saved_pairs a ≡ saved_pairs b }
{}

/// Theorem (no run-time code): the text of each pool spells it, so `encode` may be called and `decode` reads it back.
pub fn pools_are_spelled()
    ensures { (saved : PoolSaved) → Spells (spelling (pool_tree saved)) (pool_tree saved) }
{}

/// Theorem (no run-time code): caches that are written alike are the same but for spare room, so the cache that is read is the one
/// that was written.
pub fn caches_differ()
    ensures { (a b : CacheSaved) → FitsCacheSaved a → FitsCacheSaved b → cache_tree a ≡ cache_tree b → IsSameCache a b }
{}

/// Theorem (no run-time code): the text of each cache spells it, so `encode` may be called and `decode` reads it back.
pub fn caches_are_spelled()
    ensures { (saved : CacheSaved) → Spells (spelling (cache_tree saved)) (cache_tree saved) }
{}

/// Theorem (no run-time code): configurations that are written alike are the same, so the one that is read is the one that was written.
pub fn configs_differ()
    ensures { (a b : Config) → FitsConfig a → FitsConfig b → config_tree a ≡ config_tree b → a ≡ b }
{}

/// Theorem (no run-time code): the text of each configuration spells it, so `encode` may be called and `decode` reads it back.
pub fn configs_are_spelled()
    ensures { (config : Config) → Spells (spelling (config_tree config)) (config_tree config) }
{}

/// Theorem (no run-time code): cells that are written alike are the same but for spare room, so the cell that is read is the one
/// that was written: all that its contexts, learners and leases stand for holds of it.
pub fn cells_differ()
    ensures { (a b : CellSaved) → FitsCellSaved a → FitsCellSaved b → cell_tree a ≡ cell_tree b → IsSameCell a b }
{}

/// Theorem (no run-time code): each cell's value may be given to `encode`, and its text spells it, so `decode` reads it back.
pub fn cells_are_spelled()
    ensures deep { (saved : CellSaved) → depth (cell_tree saved) ≤ 16 }
    ensures spelled { (saved : CellSaved) → FitsCellSaved saved → Spells (spelling (cell_tree saved)) (cell_tree saved) }
{}

/// Theorem (no run-time code): configurations, last moments and counts that are written alike are the same.
pub fn relays_differ()
    ensures { (a b : RelaySaved) → FitsRelaySaved a → FitsRelaySaved b → relay_tree a ≡ relay_tree b → a ≡ b }
{}

/// Theorem (no run-time code): the text of each relay's configuration, last moment and counts spells them, so `encode` may be called
/// and `decode` reads them back.
pub fn relays_are_spelled()
    ensures { (saved : RelaySaved) → Spells (spelling (relay_tree saved)) (relay_tree saved) }
{}

/// Theorem (no run-time code): live calls that are written alike are the same but for spare room, one by one, so those that are read
/// are those that were written.
pub fn calls_differ()
    ensures { (a b : List CallSaved) → All FitsCallSaved a → All FitsCallSaved b → calls_tree a ≡ calls_tree b → AreSameCalls a b }
{}

/// Theorem (no run-time code): the text of each list of live calls spells it, so `encode` may be called and `decode` reads it back.
pub fn calls_are_spelled()
    ensures { (calls : List CallSaved) → Spells (spelling (calls_tree calls)) (calls_tree calls) }
{}

/// Theorem (no run-time code): dialogs that are written alike are the same but for spare room of their tags, so the dialog that is
/// read is the one that was written.
pub fn dialogs_differ()
    ensures { (a b : DialogSaved) → FitsDialogSaved a → FitsDialogSaved b → dialog_tree a ≡ dialog_tree b → IsSameDialog a b }
{}

/// Theorem (no run-time code): the text of each dialog spells it, so `encode` may be called and `decode` reads it back.
pub fn dialogs_are_spelled()
    ensures { (saved : DialogSaved) → Spells (spelling (dialog_tree saved)) (dialog_tree saved) }
{}
