//! Values of any depth, read from the head of a text.
ghost use Rattle.std.specs.Prelude.{◌≡◌, ◌++◌, ◌∷◌, ◌<◌, ◌≤◌, ℕ, List, length, IfOk, IfErr};
ghost use Rattle.ng_bencode.specs.Row.{list_in};
ghost use Rattle.ng_bencode.specs.Tree.{Tree, Trees, Entries, tree_of, trees_of, pairs_of};
ghost use Rattle.ng_bencode.specs.Spells.{spelling, spellings, entry_spellings, Spells};
ghost use Rattle.ng_bencode.specs.Fits.{Fits, ItemsFit, EntriesFit};

use crate::errors::Bad;
use crate::row::Row;
use crate::scan::{read_end, read_head, read_int, read_string};
use crate::text::Text;
use crate::value::{Pairs, Value, Values};
use std::alloc::Global;

/// What an integer, a list and a dictionary begin with.
const INT: u8 = b'i';

const LIST: u8 = b'l';

const DICT: u8 = b'd';

/// How many lists and dictionaries may stand in one another.
const MAX_DEPTH: usize = 16;

/// Reads the whole of `bytes` as one bencoded value.
///
/// # Errors
///
/// `NotBencode` where the bytes spell no value: also where another byte follows the value, an integer
/// does not fit an i64, or more than 16 lists and dictionaries stand in one another.
pub fn decode(alloc: Global, bytes: &[u8]) -> Result<Value, Bad>
    ensures value { IfOk result (λ value. Spells bytes.now (tree_of value)) }
    ensures only { IfOk result (λ value. (tree : Tree) → Spells bytes.now tree → tree ≡ tree_of value) }
    ensures cause { IfErr result (λ bad. bad ≡ Bad.NotBencode →
        (tree : Tree) → Spells bytes.now tree → ⊥) }
{
    let (value, rest) = read_value(alloc, bytes, MAX_DEPTH)?;
    if rest.is_empty() {
        Ok(value)
    } else {
        Err(Bad::NotBencode)
    }
}

/// The value at the head of `bytes`, and what follows it, where `depth` lists and dictionaries may still open.
#[cycle(read)]
fn read_value(alloc: Global, bytes: &[u8], depth: usize) -> Result<(Value, &[u8]), Bad>
    ensures fits { IfOk result (λ parts. Fits depth (tree_of parts.0)) }
    ensures value { IfOk result (λ parts. bytes.now ≡ spelling (tree_of parts.0) ++ parts.1.now) }
    ensures shorter { IfOk result (λ parts. length parts.1.now < length bytes.now) }
    ensures cause { IfErr result (λ bad. bad ≡ Bad.NotBencode →
        (tree : Tree) (rest : List ℕ) → Fits depth tree → bytes.now ≡ spelling tree ++ rest → ⊥) }
{
    let Some((head, body)) = read_head(bytes) else {
        return Err(Bad::NotBencode);
    };
    if head == INT {
        return match read_int(body) {
            Some((number, rest)) => Ok((Value::Int(number), rest)),
            None => Err(Bad::NotBencode),
        };
    }
    if head == LIST {
        if depth == 0 {
            return Err(Bad::NotBencode);
        }
        let (items, rest) = read_items(alloc, body, depth - 1)?;
        return Ok((Value::List(items), rest));
    }
    if head == DICT {
        if depth == 0 {
            return Err(Bad::NotBencode);
        }
        let (pairs, rest) = read_pairs(alloc, body, depth - 1)?;
        return Ok((Value::Dict(pairs), rest));
    }
    match read_string(bytes) {
        Some((text, rest)) => Ok((Value::Bytes(Text::copy_of(alloc, text)?), rest)),
        None => Err(Bad::NotBencode),
    }
}

/// The values of a list after its `l`, and what follows its `e`.
#[cycle(read)]
fn read_items(alloc: Global, bytes: &[u8], depth: usize) -> Result<(Values, &[u8]), Bad>
    ensures fits { IfOk result (λ parts. ItemsFit depth (trees_of (list_in parts.0))) }
    ensures value { IfOk result (λ parts.
        bytes.now ≡ spellings (trees_of (list_in parts.0)) ++ 101 ∷ parts.1.now) }
    ensures shorter { IfOk result (λ parts. length parts.1.now < length bytes.now) }
    ensures cause { IfErr result (λ bad. bad ≡ Bad.NotBencode →
        (items : Trees) (rest : List ℕ) → ItemsFit depth items → bytes.now ≡ spellings items ++ 101 ∷ rest → ⊥) }
{
    let mut found: Values = Row::new(alloc);
    let mut rest = bytes;
    'items: loop {
        if let Some(after) = read_end(rest) {
            return Ok((found, after));
        }
        let (item, after) = read_value(alloc, rest, depth)?;
        found.reserve(1)?;
        found.push(item);
        rest = after;
    }
}

/// The pairs of a dictionary after its `d`, and what follows its `e`.
#[cycle(read)]
fn read_pairs(alloc: Global, bytes: &[u8], depth: usize) -> Result<(Pairs, &[u8]), Bad>
    ensures fits { IfOk result (λ parts. EntriesFit depth (pairs_of (list_in parts.0))) }
    ensures value { IfOk result (λ parts.
        bytes.now ≡ entry_spellings (pairs_of (list_in parts.0)) ++ 101 ∷ parts.1.now) }
    ensures shorter { IfOk result (λ parts. length parts.1.now < length bytes.now) }
    ensures cause { IfErr result (λ bad. bad ≡ Bad.NotBencode →
        (pairs : Entries) (rest : List ℕ) → EntriesFit depth pairs → bytes.now ≡ entry_spellings pairs ++ 101 ∷ rest → ⊥) }
{
    let mut found: Pairs = Row::new(alloc);
    let mut rest = bytes;
    'pairs: loop {
        if let Some(after) = read_end(rest) {
            return Ok((found, after));
        }
        let Some((key, behind)) = read_string(rest) else {
            return Err(Bad::NotBencode);
        };
        let own = Text::copy_of(alloc, key)?;
        let (value, after) = read_value(alloc, behind, depth)?;
        found.reserve(1)?;
        found.push((own, value));
        rest = after;
    }
}
