//! What a dialog keeps of a leg.
ghost use Rattle.std.specs.Prelude.{◌≡◌, IfOk, IfSome, IfNone};
ghost use Rattle.ng_bencode.specs.Tree.{tree_of};
ghost use Rattle.offer_answer.specs.declared.leg.Leg.{Leg};
ghost use Rattle.state_values.specs.DialogTrees.{leg_tree, FitsLeg};

use crate::drawn_keys::{key_option_value, read_key_option};
use crate::fields::{next_field, none_left, pairs_in, put_pair};
use crate::numbers::{read_port, word_value};
use crate::variants::{
    family_option_value, proto_option_value, read_family_option, read_proto_option,
};
use ng_bencode::{Pairs, Row, Value};
use offer_answer::Leg;
use relay_outside::OutOfMemory;
use std::alloc::Global;

/// A leg of a section.
pub(crate) fn leg_value(alloc: Global, leg: &Leg) -> Result<Value, OutOfMemory>
    ensures { IfOk result (λ value. tree_of value ≡ leg_tree leg.now) }
{
    let mut pairs: Pairs = Row::new(alloc);
    put_pair(
        alloc,
        &mut pairs,
        b"family",
        family_option_value(alloc, leg.family)?,
    )?;
    put_pair(
        alloc,
        &mut pairs,
        b"in_force",
        proto_option_value(alloc, leg.in_force)?,
    )?;
    put_pair(
        alloc,
        &mut pairs,
        b"key_in_force",
        key_option_value(alloc, &leg.key_in_force)?,
    )?;
    put_pair(
        alloc,
        &mut pairs,
        b"long_key",
        key_option_value(alloc, &leg.long_key)?,
    )?;
    put_pair(
        alloc,
        &mut pairs,
        b"offered",
        proto_option_value(alloc, leg.offered)?,
    )?;
    put_pair(alloc, &mut pairs, b"port", word_value(u32::from(leg.port)))?;
    put_pair(
        alloc,
        &mut pairs,
        b"short_key",
        key_option_value(alloc, &leg.short_key)?,
    )?;
    Ok(Value::dict(pairs))
}

/// What is written so.
pub(crate) fn read_leg(value: &Value) -> Option<Leg>
    ensures some { IfSome result (λ leg. tree_of value.now ≡ leg_tree leg) }
    ensures none { IfNone result ((leg : Leg) → FitsLeg leg → tree_of value.now ≡ leg_tree leg → ⊥) }
{
    let mut pairs = pairs_in(value)?;
    let family = next_field(&mut pairs, b"family")?;
    let in_force = next_field(&mut pairs, b"in_force")?;
    let key_in_force = next_field(&mut pairs, b"key_in_force")?;
    let long_key = next_field(&mut pairs, b"long_key")?;
    let offered = next_field(&mut pairs, b"offered")?;
    let port = next_field(&mut pairs, b"port")?;
    let short_key = next_field(&mut pairs, b"short_key")?;
    none_left(pairs)?;
    Some(Leg {
        family: read_family_option(family)?,
        in_force: read_proto_option(in_force)?,
        key_in_force: read_key_option(key_in_force)?,
        long_key: read_key_option(long_key)?,
        offered: read_proto_option(offered)?,
        port: read_port(port)?,
        short_key: read_key_option(short_key)?,
    })
}
