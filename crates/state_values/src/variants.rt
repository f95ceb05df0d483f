//! Variants of enumerations, each by its number.
ghost use Rattle.std.specs.Prelude.{◌≡◌, Option, IfOk, IfSome, IfNone};
ghost use Rattle.relay_outside.specs.declared.address.Family.{Family};
ghost use Rattle.sdes_lines.specs.declared.crypto_line.Suite.{Suite};
ghost use Rattle.sdp_text.specs.declared.proto.Proto.{Proto};
ghost use Rattle.port_pool.specs.declared.holder.Side.{Side};
ghost use Rattle.ng_bencode.specs.Tree.{tree_of};
ghost use Rattle.state_values.specs.Forms.{option_tree, side_tree, family_tree, suite_tree, proto_tree};

use crate::forms::{none_value, read_option, some_value};
use crate::numbers::{read_number, word_value};
use ng_bencode::Value;
use port_pool::Side;
use relay_outside::{Family, OutOfMemory};
use sdes_lines::Suite;
use sdp_text::Proto;
use std::alloc::Global;

/// A side of a call.
pub(crate) fn side_value(side: Side) -> Value
    ensures { tree_of result ≡ side_tree side }
{
    word_value(match side {
        Side::A => 0,
        Side::B => 1,
    })
}

/// The side that is written so.
pub(crate) fn read_side(value: &Value) -> Option<Side>
    ensures some { IfSome result (λ side. tree_of value.now ≡ side_tree side) }
    ensures none { IfNone result ((side : Side) → tree_of value.now ≡ side_tree side → ⊥) }
{
    match read_number(value)? {
        0 => Some(Side::A),
        1 => Some(Side::B),
        _ => None,
    }
}

/// A family of addresses.
pub(crate) fn family_value(family: Family) -> Value
    ensures { tree_of result ≡ family_tree family }
{
    word_value(match family {
        Family::V4 => 0,
        Family::V6 => 1,
    })
}

/// The family that is written so.
pub(crate) fn read_family(value: &Value) -> Option<Family>
    ensures some { IfSome result (λ family. tree_of value.now ≡ family_tree family) }
    ensures none { IfNone result ((family : Family) → tree_of value.now ≡ family_tree family → ⊥) }
{
    match read_number(value)? {
        0 => Some(Family::V4),
        1 => Some(Family::V6),
        _ => None,
    }
}

/// A crypto suite.
pub(crate) fn suite_value(suite: Suite) -> Value
    ensures { tree_of result ≡ suite_tree suite }
{
    word_value(match suite {
        Suite::Tag80 => 0,
        Suite::Tag32 => 1,
    })
}

/// The suite that is written so.
pub(crate) fn read_suite(value: &Value) -> Option<Suite>
    ensures some { IfSome result (λ suite. tree_of value.now ≡ suite_tree suite) }
    ensures none { IfNone result ((suite : Suite) → tree_of value.now ≡ suite_tree suite → ⊥) }
{
    match read_number(value)? {
        0 => Some(Suite::Tag80),
        1 => Some(Suite::Tag32),
        _ => None,
    }
}

/// A profile.
pub(crate) fn proto_value(proto: Proto) -> Value
    ensures { tree_of result ≡ proto_tree proto }
{
    word_value(match proto {
        Proto::Avp => 0,
        Proto::Avpf => 1,
        Proto::Savp => 2,
        Proto::Savpf => 3,
        Proto::Other => 4,
    })
}

/// The profile that is written so.
pub(crate) fn read_proto(value: &Value) -> Option<Proto>
    ensures some { IfSome result (λ proto. tree_of value.now ≡ proto_tree proto) }
    ensures none { IfNone result ((proto : Proto) → tree_of value.now ≡ proto_tree proto → ⊥) }
{
    match read_number(value)? {
        0 => Some(Proto::Avp),
        1 => Some(Proto::Avpf),
        2 => Some(Proto::Savp),
        3 => Some(Proto::Savpf),
        4 => Some(Proto::Other),
        _ => None,
    }
}

/// A family, where there is one.
pub(crate) fn family_option_value(
    alloc: Global,
    family: Option<Family>,
) -> Result<Value, OutOfMemory>
    ensures { IfOk result (λ value. tree_of value ≡ option_tree family_tree family) }
{
    match family {
        Some(family) => some_value(alloc, family_value(family)),
        None => Ok(none_value(alloc)),
    }
}

/// What is written so.
pub(crate) fn read_family_option(value: &Value) -> Option<Option<Family>>
    ensures some { IfSome result (λ family. tree_of value.now ≡ option_tree family_tree family) }
    ensures none { IfNone result ((family : Option Family) → tree_of value.now ≡ option_tree family_tree family → ⊥) }
{
    match read_option(value)? {
        Some(inner) => Some(Some(read_family(inner)?)),
        None => Some(None),
    }
}

/// A profile, where there is one.
pub(crate) fn proto_option_value(alloc: Global, proto: Option<Proto>) -> Result<Value, OutOfMemory>
    ensures { IfOk result (λ value. tree_of value ≡ option_tree proto_tree proto) }
{
    match proto {
        Some(proto) => some_value(alloc, proto_value(proto)),
        None => Ok(none_value(alloc)),
    }
}

/// What is written so.
pub(crate) fn read_proto_option(value: &Value) -> Option<Option<Proto>>
    ensures some { IfSome result (λ proto. tree_of value.now ≡ option_tree proto_tree proto) }
    ensures none { IfNone result ((proto : Option Proto) → tree_of value.now ≡ option_tree proto_tree proto → ⊥) }
{
    match read_option(value)? {
        Some(inner) => Some(Some(read_proto(inner)?)),
        None => Some(None),
    }
}
