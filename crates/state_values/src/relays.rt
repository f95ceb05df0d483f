//! What a relay keeps beside its pool, its calls, its cells and its replies.
ghost use Rattle.std.specs.Prelude.{◌≡◌, IfOk, IfSome, IfNone};
ghost use Rattle.ng_bencode.specs.Tree.{tree_of};
ghost use Rattle.state_values.specs.RelayTrees.{relay_tree, FitsRelaySaved};
ghost use Rattle.state_values.specs.declared.relays.RelaySaved.{RelaySaved};

use crate::configs::{config_value, read_config};
use crate::fields::{next_field, none_left, pairs_in, put_pair};
use crate::numbers::{number_value, read_number};
use ng_bencode::{Pairs, Row, Value};
use relay_outside::{Config, OutOfMemory};
use std::alloc::Global;

/// What a relay is run with, its last moment and its counts.
#[derive(Clone, Copy, PartialEq, Eq, Debug)]
pub struct RelaySaved {
    /// What it is run with.
    pub config: Config,
    /// The board's last moment, in milliseconds.
    pub moment: u64,
    /// How many calls were begun: the number of the next one.
    pub begun: u64,
    /// How many keys were drawn: the number of the next one.
    pub drawn: u64,
}

/// A relay's configuration, last moment and counts as a value.
pub fn relay_value(alloc: Global, saved: &RelaySaved) -> Result<Value, OutOfMemory>
    ensures { IfOk result (λ value. tree_of value ≡ relay_tree saved.now) }
{
    let begun = number_value(alloc, saved.begun)?;
    let config = config_value(alloc, &saved.config)?;
    let drawn = number_value(alloc, saved.drawn)?;
    let moment = number_value(alloc, saved.moment)?;
    let mut pairs: Pairs = Row::new(alloc);
    put_pair(alloc, &mut pairs, b"begun", begun)?;
    put_pair(alloc, &mut pairs, b"config", config)?;
    put_pair(alloc, &mut pairs, b"drawn", drawn)?;
    put_pair(alloc, &mut pairs, b"moment", moment)?;
    Ok(Value::dict(pairs))
}

/// The configuration, last moment and counts that are written so. `None`: no relay's are.
pub fn read_relay(value: &Value) -> Option<RelaySaved>
    ensures some { IfSome result (λ saved. tree_of value.now ≡ relay_tree saved) }
    ensures none { IfNone result ((saved : RelaySaved) → FitsRelaySaved saved → tree_of value.now ≡ relay_tree saved → ⊥) }
{
    let mut pairs = pairs_in(value)?;
    let begun = next_field(&mut pairs, b"begun")?;
    let config = next_field(&mut pairs, b"config")?;
    let drawn = next_field(&mut pairs, b"drawn")?;
    let moment = next_field(&mut pairs, b"moment")?;
    none_left(pairs)?;
    Some(RelaySaved {
        config: read_config(config)?,
        moment: read_number(moment)?,
        begun: read_number(begun)?,
        drawn: read_number(drawn)?,
    })
}
