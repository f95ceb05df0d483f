//! Records as bytes, and what bytes are written as again, once the record that they spell was loaded and saved.

use crate::cells::{ends_for, loaded_cell, saved_cell};
use crate::spellings::{bytes_of, value_of};
use call_board::CallSaved;
use call_cell::CellSaved;
use cookie_cache::{CacheSaved, CookieCache};
use ng_bencode::Text;
use port_pool::{Pool, PoolSaved};
use relay_outside::Config;
use state_values::*;
use std::alloc::Global;
use std::process::Abort;

/// The records of a written state, each with what reads it.
#[derive(Clone, Copy, PartialEq, Eq, Debug)]
pub(crate) enum Record {
    /// A pool of two pairs of each family, from port 30000 on.
    Pool,
    /// The kept replies.
    Cache,
    /// The configuration, the last moment and the counts.
    Relay,
    /// The live calls.
    Calls,
    /// A cell.
    Cell,
}

pub(crate) fn pool_bytes(rt: &impl Abort, alloc: Global, saved: &PoolSaved) -> Text {
    pools_are_spelled();
    bytes_of(rt, alloc, pool_value(alloc, saved))
}

/// The bytes in which the pool is written that is written so: two pairs of each family, from port 30000 on.
pub(crate) fn pool_again(rt: &impl Abort, alloc: Global, bytes: &[u8]) -> Option<Text> {
    let value = value_of(rt, alloc, bytes)?;
    let saved = read_pool(alloc, 30_000, 2, &value).expect(rt, "memory")?;
    let pool = Pool::from_saved(alloc, saved).expect(rt, "memory")?;
    let saved = pool.into_saved().expect(rt, "memory");
    Some(pool_bytes(rt, alloc, &saved))
}

pub(crate) fn cache_bytes(rt: &impl Abort, alloc: Global, saved: &CacheSaved) -> Text {
    caches_are_spelled();
    bytes_of(rt, alloc, cache_value(alloc, saved))
}

/// The same of a cache.
pub(crate) fn cache_again(rt: &impl Abort, alloc: Global, bytes: &[u8]) -> Option<Text> {
    let value = value_of(rt, alloc, bytes)?;
    let saved = read_cache(alloc, &value).expect(rt, "memory")?;
    let cache = CookieCache::from_saved(saved).expect(rt, "memory")?;
    let saved = cache.into_saved().expect(rt, "memory");
    Some(cache_bytes(rt, alloc, &saved))
}

pub(crate) fn config_bytes(rt: &impl Abort, alloc: Global, config: &Config) -> Text {
    configs_are_spelled();
    bytes_of(rt, alloc, config_value(alloc, config))
}

/// The same of a configuration, which nothing is loaded of.
pub(crate) fn config_again(rt: &impl Abort, alloc: Global, bytes: &[u8]) -> Option<Text> {
    let value = value_of(rt, alloc, bytes)?;
    let config = read_config(&value)?;
    Some(config_bytes(rt, alloc, &config))
}

pub(crate) fn relay_bytes(rt: &impl Abort, alloc: Global, saved: &RelaySaved) -> Text {
    relays_are_spelled();
    bytes_of(rt, alloc, relay_value(alloc, saved))
}

/// The same of a relay's configuration, last moment and counts, which nothing is loaded of alone.
pub(crate) fn relay_again(rt: &impl Abort, alloc: Global, bytes: &[u8]) -> Option<Text> {
    let value = value_of(rt, alloc, bytes)?;
    let saved = read_relay(&value)?;
    Some(relay_bytes(rt, alloc, &saved))
}

pub(crate) fn calls_bytes(rt: &impl Abort, alloc: Global, calls: &[CallSaved]) -> Text {
    calls_are_spelled();
    bytes_of(rt, alloc, calls_value(alloc, calls))
}

/// The same of live calls, which nothing is loaded of alone.
pub(crate) fn calls_again(rt: &impl Abort, alloc: Global, bytes: &[u8]) -> Option<Text> {
    let value = value_of(rt, alloc, bytes)?;
    let calls = read_calls(alloc, &value).expect(rt, "memory")?;
    Some(calls_bytes(rt, alloc, calls.as_slice()))
}

pub(crate) fn cell_bytes(rt: &impl Abort, alloc: Global, saved: CellSaved) -> Text {
    cells_are_spelled();
    bytes_of(rt, alloc, cell_value(alloc, saved))
}

/// The same of a cell, which is loaded with ends for its legs.
pub(crate) fn cell_again(rt: &impl Abort, alloc: Global, bytes: &[u8]) -> Option<Text> {
    let value = value_of(rt, alloc, bytes)?;
    let saved = read_cell(alloc, &value).expect(rt, "memory")?;
    let mut ends = ends_for(rt, alloc, &saved);
    let cell = loaded_cell(rt, alloc, saved, &mut ends);
    let saved = saved_cell(rt, cell, &mut ends);
    Some(cell_bytes(rt, alloc, saved))
}

/// The bytes in which what is written so is written again. `None`: nothing is written so, or nothing is loaded of it.
pub(crate) fn written_again(
    rt: &impl Abort,
    alloc: Global,
    record: Record,
    bytes: &[u8],
) -> Option<Text> {
    match record {
        Record::Pool => pool_again(rt, alloc, bytes),
        Record::Cache => cache_again(rt, alloc, bytes),
        Record::Relay => relay_again(rt, alloc, bytes),
        Record::Calls => calls_again(rt, alloc, bytes),
        Record::Cell => cell_again(rt, alloc, bytes),
    }
}
