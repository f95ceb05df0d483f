//! A JSON text as a value.
ghost use Rattle.std.specs.Prelude.{◌≡◌, ◌≤◌, ◌++◌, ◌∷◌, [], ℕ, Some, None, length, MatchOption, IfOk, IfErr, IfSome};
ghost use Rattle.std.specs.List.{insert};
ghost use Rattle.serde_json.specs.Data.{Data, depth, items_depth, members_depth};
ghost use Rattle.serde_json.specs.View.{view, items_view, members_view};
ghost use Rattle.ng_bencode.specs.Room.{Room};
ghost use Rattle.ng_bencode.specs.Row.{list_in};
ghost use Rattle.ng_bencode.specs.Tree.{Tree, depth as tree_depth, tree_of, trees_of, pairs_of, no_entries};
ghost use Rattle.ng_bencode.specs.declared.value.Value.{Value as SpecValue};
ghost use Rattle.ng_json.specs.Twins.{IsJson, SaysInJson, HasNoTwin, tree_in, trees_in, pairs_in, with_pair_in_order};

use crate::errors::JsonFault;
use crate::strings::bytes_of_string;
use ng_bencode::{OutOfMemory, Pairs, Row, Text, Value, Values};
use serde_json::{Map, Value as Json};
use std::alloc::Global;
use std::cmp::Ordering;

/// How many arrays and objects may stand in one another.
const MAX_DEPTH: usize = 16;

/// Reads the whole of a text as JSON, as the bencoded value that says the same. Of a key that is written twice in one object the
/// last value counts. What a text says is what the kit's `serde_json` makes of it: more than 127 levels are no JSON there.
///
/// # Errors
///
/// `NotJson` where the bytes are not the JSON text of one value, `NoTwin` where no bencoded value says the same.
pub fn read(alloc: Global, body: &[u8]) -> Result<Value, JsonFault>
    ensures value { IfOk result (λ value. SaysInJson body.now (tree_of value)) }
    ensures shallow { IfOk result (λ value. tree_depth (tree_of value) ≤ 16) }
    ensures not_json { IfErr result (λ fault. fault ≡ JsonFault.NotJson → (d : Data) → IsJson body.now d → ⊥) }
    ensures no_twin { IfErr result (λ fault. fault ≡ JsonFault.NoTwin → HasNoTwin body.now) }
{
    match Json::from_slice(alloc, body) {
        Ok(json) => value_in(alloc, &json, MAX_DEPTH),
        Err(error) => {
            if error.is_memory() {
                Err(JsonFault::OutOfMemory)
            } else {
                Err(JsonFault::NotJson)
            }
        }
    }
}

/// The value that says what a JSON value says in which `room` arrays and objects may stand in one another.
#[cycle(twin)]
fn value_in(alloc: Global, json: &Json, room: usize) -> Result<Value, JsonFault>
    ensures deep { IfOk result (λ value. depth (view json.now) ≤ room) }
    ensures value { IfOk result (λ value. tree_in (view json.now) ≡ Some (tree_of value)) }
    ensures no_twin { IfErr result (λ fault. fault ≡ JsonFault.NoTwin → depth (view json.now) ≤ room → tree_in (view json.now) ≡ None) }
    ensures is_json { IfErr result (λ fault. fault ≡ JsonFault.NotJson → ⊥) }
{
    match json {
        Json::Null | Json::Bool(_) => Err(JsonFault::NoTwin),
        Json::Number(number) => match number.as_i64() {
            Some(number) => Ok(Value::int(number)),
            None => Err(JsonFault::NoTwin),
        },
        Json::String(text) => Ok(Value::bytes(bytes_of_string(alloc, text.as_bytes())?)),
        Json::Array(items) => {
            if room == 0 {
                return Err(JsonFault::NoTwin);
            }
            Ok(Value::list(values_in(alloc, items, room - 1)?))
        }
        Json::Object(members) => {
            if room == 0 {
                return Err(JsonFault::NoTwin);
            }
            Ok(Value::dict(pairs_in(alloc, members, room - 1)?))
        }
    }
}

/// The values of an array.
#[cycle(twin)]
fn values_in(alloc: Global, items: &Vec<Json>, room: usize) -> Result<Values, JsonFault>
    ensures deep { IfOk result (λ values. items_depth (items_view items.now.items) ≤ room) }
    ensures values { IfOk result (λ values. trees_in (items_view items.now.items) ≡ Some (trees_of (list_in values))) }
    ensures no_twin { IfErr result (λ fault. fault ≡ JsonFault.NoTwin → items_depth (items_view items.now.items) ≤ room →
        trees_in (items_view items.now.items) ≡ None) }
    ensures is_json { IfErr result (λ fault. fault ≡ JsonFault.NotJson → ⊥) }
{
    let mut found: Values = Row::new(alloc);
    for item in items {
        let value = value_in(alloc, item, room)?;
        found.reserve(1)?;
        found.push(value);
    }
    Ok(found)
}

/// The pairs of an object, in the byte order of their keys.
#[cycle(twin)]
fn pairs_in(alloc: Global, members: &Map<String, Json>, room: usize) -> Result<Pairs, JsonFault>
    ensures deep { IfOk result (λ pairs. members_depth (members_view members.now.entries) ≤ room) }
    ensures pairs { IfOk result (λ pairs. pairs_in (members_view members.now.entries) no_entries ≡ Some (pairs_of (list_in pairs))) }
    ensures no_twin { IfErr result (λ fault. fault ≡ JsonFault.NoTwin → members_depth (members_view members.now.entries) ≤ room →
        pairs_in (members_view members.now.entries) no_entries ≡ None) }
    ensures is_json { IfErr result (λ fault. fault ≡ JsonFault.NotJson → ⊥) }
{
    let mut found = Vec::new(alloc);
    for (text, member) in members.iter() {
        let key = bytes_of_string(alloc, text.as_bytes())?;
        let Some(at) = place_of(&found, key.as_slice()) else {
            return Err(JsonFault::NoTwin);
        };
        let value = value_in(alloc, member, room)?;
        found.insert(at, (key, value))?;
    }
    Ok(row_of(alloc, found)?)
}

/// How many pairs stand before the place of a key. `None`: the key is there.
/// It searches from the front: a body of 16,384 bytes has a few thousand keys at most.
fn place_of(pairs: &[(Text, Value)], key: &[u8]) -> Option<usize>
    ensures within { IfSome result (λ at. at ≤ length pairs.now) }
    ensures place { MatchOption result
        ((tree : Tree) → with_pair_in_order key.now tree (pairs_of pairs.now) ≡ None)
        (λ at. (name : Room ℕ) (value : SpecValue) → name.list ≡ key.now →
        with_pair_in_order key.now (tree_of value) (pairs_of pairs.now) ≡ Some (pairs_of (insert pairs.now at (name, value)))) }
{
    for i in 0..pairs.len() {
        match key.cmp(pairs[i].0.as_slice()) {
            Ordering::Less => return Some(i),
            Ordering::Equal => return None,
            Ordering::Greater => {}
        }
    }
    Some(pairs.len())
}

/// These pairs as a dictionary's.
fn row_of(alloc: Global, found: Vec<(Text, Value)>) -> Result<Pairs, OutOfMemory>
    ensures { IfOk result (λ pairs. list_in pairs ≡ found.items) }
{
    let mut pairs: Pairs = Row::new(alloc);
    pairs.reserve(found.len())?;
    for pair in found {
        pairs.push(pair);
    }
    Ok(pairs)
}
