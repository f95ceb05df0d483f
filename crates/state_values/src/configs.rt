//! The configuration.
ghost use Rattle.std.specs.Prelude.{◌≡◌, Option, IfOk, IfSome, IfNone};
ghost use Rattle.ng_bencode.specs.Tree.{tree_of};
ghost use Rattle.relay_outside.specs.declared.address.Ip.{Ip};
ghost use Rattle.relay_outside.specs.declared.settings.Config.{Config};
ghost use Rattle.endpoint_learn.specs.SavedLearners.{FitsIp};
ghost use Rattle.state_values.specs.Forms.{option_tree};
ghost use Rattle.state_values.specs.CacheTrees.{source_octets};
ghost use Rattle.state_values.specs.ConfigTrees.{config_tree, interface_tree, FitsConfig};

use crate::fields::{next_field, none_left, pairs_in, put_pair, text_value};
use crate::forms::{none_value, read_option, some_value};
use crate::numbers::{number_value, read_number, read_port, read_word};
use ng_bencode::{Pairs, Row, Value};
use relay_outside::{Config, Ip, OutOfMemory};
use std::alloc::Global;

/// An address without a port.
fn interface_value(alloc: Global, interface: Ip) -> Result<Value, OutOfMemory>
    ensures { IfOk result (λ value. tree_of value ≡ interface_tree interface) }
{
    match interface {
        Ip::V4(a) => text_value(alloc, &a),
        Ip::V6(a) => text_value(alloc, &a),
    }
}

/// The address that these bytes are.
fn host_of(bytes: &[u8]) -> Option<Ip>
    ensures some { IfSome result (λ host. bytes.now ≡ source_octets host) }
    ensures none { IfNone result ((host : Ip) → FitsIp host → bytes.now ≡ source_octets host → ⊥) }
{
    match bytes {
        [a, b, c, d] => Some(Ip::V4([*a, *b, *c, *d])),
        [a, b, c, d, e, f, g, h, i, j, k, l, m, n, o, p] => Some(Ip::V6([
            *a, *b, *c, *d, *e, *f, *g, *h, *i, *j, *k, *l, *m, *n, *o, *p,
        ])),
        _ => None,
    }
}

/// The address without a port that is written so.
fn read_interface(value: &Value) -> Option<Ip>
    ensures some { IfSome result (λ interface. tree_of value.now ≡ interface_tree interface) }
    ensures none { IfNone result ((interface : Ip) → FitsIp interface → tree_of value.now ≡ interface_tree interface → ⊥) }
{
    host_of(value.as_bytes()?.as_slice())
}

/// The interface that there may be.
fn interfaces_value(alloc: Global, interface: Option<Ip>) -> Result<Value, OutOfMemory>
    ensures { IfOk result (λ value. tree_of value ≡ option_tree interface_tree interface) }
{
    match interface {
        Some(one) => some_value(alloc, interface_value(alloc, one)?),
        None => Ok(none_value(alloc)),
    }
}

/// The interface that there may be, as it is written so.
fn read_interfaces(value: &Value) -> Option<Option<Ip>>
    ensures some { IfSome result (λ interface. tree_of value.now ≡ option_tree interface_tree interface) }
    ensures none { IfNone result ((interface : Option Ip) → IfSome interface FitsIp →
        tree_of value.now ≡ option_tree interface_tree interface → ⊥) }
{
    match read_option(value)? {
        Some(one) => Some(Some(read_interface(one)?)),
        None => Some(None),
    }
}

/// A configuration as a value.
pub fn config_value(alloc: Global, config: &Config) -> Result<Value, OutOfMemory>
    ensures { IfOk result (λ value. tree_of value ≡ config_tree config.now) }
{
    let interface = interface_value(alloc, config.interface)?;
    let interface6 = interfaces_value(alloc, config.interface6)?;
    let max_sessions = number_value(alloc, u64::from(config.max_sessions))?;
    let offer_timeout = number_value(alloc, config.offer_timeout_ms)?;
    let port_max = number_value(alloc, u64::from(config.port_max))?;
    let port_min = number_value(alloc, u64::from(config.port_min))?;
    let timeout = number_value(alloc, config.timeout_ms)?;
    let mut pairs: Pairs = Row::new(alloc);
    put_pair(alloc, &mut pairs, b"interface", interface)?;
    put_pair(alloc, &mut pairs, b"interface6", interface6)?;
    put_pair(alloc, &mut pairs, b"max_sessions", max_sessions)?;
    put_pair(alloc, &mut pairs, b"offer_timeout_ms", offer_timeout)?;
    put_pair(alloc, &mut pairs, b"port_max", port_max)?;
    put_pair(alloc, &mut pairs, b"port_min", port_min)?;
    put_pair(alloc, &mut pairs, b"timeout_ms", timeout)?;
    Ok(Value::dict(pairs))
}

/// The configuration that is written so. `None`: none is.
pub fn read_config(value: &Value) -> Option<Config>
    ensures some { IfSome result (λ config. tree_of value.now ≡ config_tree config) }
    ensures none { IfNone result ((config : Config) → FitsConfig config → tree_of value.now ≡ config_tree config → ⊥) }
{
    let mut pairs = pairs_in(value)?;
    let interface = next_field(&mut pairs, b"interface")?;
    let interface6 = next_field(&mut pairs, b"interface6")?;
    let max_sessions = next_field(&mut pairs, b"max_sessions")?;
    let offer_timeout = next_field(&mut pairs, b"offer_timeout_ms")?;
    let port_max = next_field(&mut pairs, b"port_max")?;
    let port_min = next_field(&mut pairs, b"port_min")?;
    let timeout = next_field(&mut pairs, b"timeout_ms")?;
    none_left(pairs)?;
    Some(Config {
        interface: read_interface(interface)?,
        interface6: read_interfaces(interface6)?,
        port_min: read_port(port_min)?,
        port_max: read_port(port_max)?,
        timeout_ms: read_number(timeout)?,
        offer_timeout_ms: read_number(offer_timeout)?,
        max_sessions: read_word(max_sessions)?,
    })
}
