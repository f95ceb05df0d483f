//! What stands under a key of a command.
ghost use Rattle.std.specs.Prelude.{◌≡◌, ◌∷◌, [], Some, is_some};
ghost use Rattle.std.specs.Option.{option_copied};
ghost use Rattle.ng_bencode.specs.Row.{list_in};
ghost use Rattle.ng_bencode.specs.Tree.{tree_of, trees_of, pairs_of, item, no_items};
ghost use Rattle.ng_bencode.specs.Lookup.{value_at};
ghost use Rattle.ng_command.specs.Values.{string_of, text_at, is_name, texts_in, words_of, is_wordless, has_word, has_key};

use ng_bencode::{Pairs, Value, Values, lookup, same_key};

/// The longest call-id or tag, in bytes.
const MAX_NAME: usize = 255;

/// The bytes of a byte string.
pub(crate) fn text_of(value: &Value) -> Option<&[u8]>
    ensures { option_copied result ≡ string_of (Some (tree_of value.now)) }
{
    match value.as_bytes() {
        Some(text) => Some(text.as_slice()),
        None => None,
    }
}

/// The byte string under a key.
pub(crate) fn text_at<'a>(pairs: &'a Pairs, key: &[u8]) -> Option<&'a [u8]>
    ensures { option_copied result ≡ text_at (pairs_of (list_in pairs.now)) key.now }
{
    match lookup(pairs, key) {
        Some(value) => text_of(value),
        None => None,
    }
}

/// Whether this is a call-id or a tag.
pub(crate) fn is_name(text: Option<&[u8]>) -> bool
    ensures { result ≡ is_name (option_copied text.entry) }
{
    match text {
        Some(text) => !text.is_empty() && text.len() <= MAX_NAME,
        None => false,
    }
}

/// Whether something stands under the key.
pub(crate) fn is_there(pairs: &Pairs, key: &[u8]) -> bool
    ensures { result ≡ is_some (value_at (pairs_of (list_in pairs.now)) key.now) }
{
    lookup(pairs, key).is_some()
}

/// Whether something stands under the key, and it is neither a list nor a byte string.
pub(crate) fn is_wordless(pairs: &Pairs, key: &[u8]) -> bool
    ensures { result ≡ is_wordless (value_at (pairs_of (list_in pairs.now)) key.now) }
{
    match lookup(pairs, key) {
        Some(value) => value.as_list().is_none() && value.as_bytes().is_none(),
        None => false,
    }
}

/// Whether a word stands in the list under the key. A byte string there is a list of that one word.
pub(crate) fn has_word(pairs: &Pairs, key: &[u8], word: &[u8]) -> bool
    ensures { result ≡ has_word word.now (words_of (value_at (pairs_of (list_in pairs.now)) key.now)) }
{
    let Some(value) = lookup(pairs, key) else {
        return false;
    };
    if let Some(text) = value.as_bytes() {
        return same_key(text.as_slice(), word);
    }
    match value.as_list() {
        Some(values) => is_among(values, word),
        None => false,
    }
}

/// Whether a word is one of these values.
fn is_among(values: &Values, word: &[u8]) -> bool
    ensures { result ≡ has_word word.now (texts_in (trees_of (list_in values.now))) }
{
    for value in values.as_slice() {
        if is_word(value, word) {
            return true;
        }
    }
    false
}

/// Whether a value is this word.
fn is_word(value: &Value, word: &[u8]) -> bool
    ensures { result ≡ has_word word.now (texts_in (item (tree_of value.now) no_items)) }
{
    match text_of(value) {
        Some(text) => same_key(text, word),
        None => false,
    }
}

/// Whether a dictionary with this inner key stands under the key.
pub(crate) fn has_key(pairs: &Pairs, key: &[u8], inner: &[u8]) -> bool
    ensures { result ≡ has_key inner.now (value_at (pairs_of (list_in pairs.now)) key.now) }
{
    let Some(value) = lookup(pairs, key) else {
        return false;
    };
    match value.as_dict() {
        Some(dict) => lookup(dict, inner).is_some(),
        None => false,
    }
}
