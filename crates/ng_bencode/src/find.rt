ghost use Rattle.std.specs.Prelude.{◌≡◌, ℕ, None, Some, MatchOption, drop, ◌==◌};
ghost use Rattle.ng_bencode.specs.Row.{list_in};
ghost use Rattle.ng_bencode.specs.Tree.{tree_of, pairs_of};
ghost use Rattle.ng_bencode.specs.Lookup.{value_at, is_same_key};

use crate::value::{Pairs, Value};

/// The value of the first pair whose key is `key`, where a space and a hyphen count as one byte.
/// `None` where no pair has it.
pub fn lookup<'a>(dict: &'a Pairs, key: &[u8]) -> Option<&'a Value>
    ensures { MatchOption result
        (value_at (pairs_of (list_in dict.now)) key.now ≡ None)
        (λ value. value_at (pairs_of (list_in dict.now)) key.now ≡ Some (tree_of value.now)) }
{
    for pair in dict.as_slice() {
        if same_key(pair.0.as_slice(), key) {
            return Some(&pair.1);
        }
    }
    None
}

/// Whether two names are the same byte for byte, where a space and a hyphen count as one.
pub fn same_key(a: &[u8], b: &[u8]) -> bool
    ensures { result ≡ is_same_key a.now b.now }
{
    if a.len() != b.len() {
        return false;
    }
    for i in 0..a.len() {
        if hyphen_for_space(a[i]) != hyphen_for_space(b[i]) {
            return false;
        }
    }
    true
}

fn hyphen_for_space(byte: u8) -> u8
    ensures { result ≡ Rattle.ng_bencode.specs.Lookup.hyphen_for_space byte }
{
    if byte == b' ' { b'-' } else { byte }
}
