//! The first value: what a relay is run with, its last moment and its counts.
ghost use Rattle.std.specs.Prelude.{◌≡◌, ◌↔◌, IsTrue, IfOk, IfSome, IfNone};
ghost use Rattle.state_values.specs.ConfigTrees.{FitsConfig};
ghost use Rattle.ng_bencode.specs.Tree.{tree_of};
ghost use Rattle.state_values.specs.RelayTrees.{relay_tree, FitsRelaySaved};
ghost use Rattle.state_values.specs.declared.relays.RelaySaved.{RelaySaved};
ghost use Rattle.state_reads.specs.Bounds.{RelayCounts};
ghost use Rattle.state_reads.specs.Texts.{RelayStands, IsRelayText};

use crate::ranges::{ip_fits, is_count};
use crate::texts::value_of_text;
use ng_bencode::Value;
use relay_outside::{Config, OutOfMemory};
use state_values::{RelaySaved, read_relay};
use std::alloc::Global;

/// Whether both counts are below 2^62.
fn are_counts(saved: &RelaySaved) -> bool
    ensures { IsTrue result ↔ RelayCounts saved.now }
{
    is_count(saved.begun) && is_count(saved.drawn)
}

/// The fields of a configuration are in their ranges (no run-time use).
fn config_fits(config: &Config)
    ensures { FitsConfig config.now }
{
    ip_fits(config.interface);
    if let Some(other) = config.interface6 {
        ip_fits(other);
    }
    let _sessions = config.max_sessions;
    let _offer = config.offer_timeout_ms;
    let _last = config.port_max;
    let _first = config.port_min;
    let _timeout = config.timeout_ms;
}

/// The fields of a record are in their ranges (no run-time use).
fn relay_fits(saved: &RelaySaved)
    ensures { FitsRelaySaved saved.now }
{
    config_fits(&saved.config);
    let _moment = saved.moment;
    let _begun = saved.begun;
    let _drawn = saved.drawn;
}

/// Whether a node of this configuration wrote it.
fn relay_stands(config: &Config, saved: &RelaySaved) -> bool
    ensures { IsTrue result ↔ RelayStands config.now saved.now }
{
    saved.config == *config && are_counts(saved)
}

/// What is read of the value, where a node of this configuration wrote it.
fn relay_of_value(config: &Config, value: &Value) -> Option<RelaySaved>
    ensures some { IfSome result (λ saved. tree_of value.now ≡ relay_tree saved) }
    ensures stands { IfSome result (RelayStands config.now) }
    ensures none { IfNone result ((saved : RelaySaved) → FitsRelaySaved saved → tree_of value.now ≡ relay_tree saved → RelayStands config.now saved → ⊥) }
{
    let saved = read_relay(value)?;
    relay_fits(&saved);
    if relay_stands(config, &saved) {
        Some(saved)
    } else {
        None
    }
}

/// What a relay of this configuration is run with, its last moment and its counts, which this text is. `None`: it is that of no such relay, or
/// a count is 2^62 or more.
pub fn relay_of_text(
    alloc: Global,
    config: &Config,
    text: &[u8],
) -> Result<Option<RelaySaved>, OutOfMemory>
    ensures some { IfOk result (λ read. IfSome read (IsRelayText config.now text.now)) }
    ensures none { IfOk result (λ read. IfNone read ((saved : RelaySaved) → FitsRelaySaved saved → IsRelayText config.now text.now saved → ⊥)) }
{
    let Some(value) = value_of_text(alloc, text)? else {
        return Ok(None);
    };
    Ok(relay_of_value(config, &value))
}
