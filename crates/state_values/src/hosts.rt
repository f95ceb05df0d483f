//! Addresses of hosts as byte strings.
ghost use Rattle.std.specs.Prelude.{◌≡◌, Option, IfOk, IfSome, IfNone};
ghost use Rattle.relay_outside.specs.declared.address.Ip.{Ip};
ghost use Rattle.endpoint_learn.specs.SavedLearners.{FitsIp};
ghost use Rattle.sdp_text.specs.declared.host.Host.{Host};
ghost use Rattle.ng_bencode.specs.Tree.{tree_of};
ghost use Rattle.state_values.specs.Forms.{option_tree};
ghost use Rattle.state_values.specs.OfferTrees.{host_tree, ip_tree, FitsHost};

use crate::fields::text_value;
use crate::forms::{none_value, read_array, read_option, some_value};
use ng_bencode::Value;
use relay_outside::{Ip, OutOfMemory};
use sdp_text::Host;
use std::alloc::Global;

fn host_value(alloc: Global, host: Host) -> Result<Value, OutOfMemory>
    ensures { IfOk result (λ value. tree_of value ≡ host_tree host) }
{
    match host {
        Host::V4(a) => text_value(alloc, &a),
        Host::V6(a) => text_value(alloc, &a),
    }
}

fn read_host(value: &Value) -> Option<Host>
    ensures some { IfSome result (λ host. tree_of value.now ≡ host_tree host) }
    ensures none { IfNone result ((host : Host) → FitsHost host → tree_of value.now ≡ host_tree host → ⊥) }
{
    if let Some(a) = read_array::<4>(value) {
        return Some(Host::V4(a));
    }
    Some(Host::V6(read_array::<16>(value)?))
}

/// The address of a host in a description, where there is one.
pub(crate) fn host_option_value(alloc: Global, host: Option<Host>) -> Result<Value, OutOfMemory>
    ensures { IfOk result (λ value. tree_of value ≡ option_tree host_tree host) }
{
    match host {
        Some(host) => some_value(alloc, host_value(alloc, host)?),
        None => Ok(none_value(alloc)),
    }
}

/// What is written so.
pub(crate) fn read_host_option(value: &Value) -> Option<Option<Host>>
    ensures some { IfSome result (λ host. tree_of value.now ≡ option_tree host_tree host) }
    ensures none { IfNone result ((host : Option Host) → IfSome host FitsHost → tree_of value.now ≡ option_tree host_tree host → ⊥) }
{
    match read_option(value)? {
        Some(inner) => Some(Some(read_host(inner)?)),
        None => Some(None),
    }
}

fn ip_value(alloc: Global, ip: Ip) -> Result<Value, OutOfMemory>
    ensures { IfOk result (λ value. tree_of value ≡ ip_tree ip) }
{
    match ip {
        Ip::V4(a) => text_value(alloc, &a),
        Ip::V6(a) => text_value(alloc, &a),
    }
}

fn read_ip(value: &Value) -> Option<Ip>
    ensures some { IfSome result (λ ip. tree_of value.now ≡ ip_tree ip) }
    ensures none { IfNone result ((ip : Ip) → FitsIp ip → tree_of value.now ≡ ip_tree ip → ⊥) }
{
    if let Some(a) = read_array::<4>(value) {
        return Some(Ip::V4(a));
    }
    Some(Ip::V6(read_array::<16>(value)?))
}

/// An address, where there is one.
pub(crate) fn ip_option_value(alloc: Global, ip: Option<Ip>) -> Result<Value, OutOfMemory>
    ensures { IfOk result (λ value. tree_of value ≡ option_tree ip_tree ip) }
{
    match ip {
        Some(ip) => some_value(alloc, ip_value(alloc, ip)?),
        None => Ok(none_value(alloc)),
    }
}

/// What is written so.
pub(crate) fn read_ip_option(value: &Value) -> Option<Option<Ip>>
    ensures some { IfSome result (λ ip. tree_of value.now ≡ option_tree ip_tree ip) }
    ensures none { IfNone result ((ip : Option Ip) → IfSome ip FitsIp → tree_of value.now ≡ option_tree ip_tree ip → ⊥) }
{
    match read_option(value)? {
        Some(inner) => Some(Some(read_ip(inner)?)),
        None => Some(None),
    }
}
