ghost use Rattle.std.specs.Prelude.{◌≡◌, MatchOption};

use crate::row::Row;
use crate::text::Text;

/// The values of a list, in their order.
pub type Values = Row<Value>;

/// The pairs of a dictionary, in their order. Keys may repeat, and need not be sorted.
pub type Pairs = Row<(Text, Value)>;

/// A bencoded value.
///
/// Contracts see it as a tree, `tree_of`.
#[derive(Drop)]
pub enum Value {
    /// An integer.
    Int(i64),
    /// A byte string.
    Bytes(Text),
    /// A list.
    List(Row<Value>),
    /// A dictionary.
    Dict(Row<(Text, Value)>),
}

impl Value {
    ghost use Rattle.ng_bencode.specs.Row.{list_in};
    ghost use Rattle.ng_bencode.specs.Tree.{tree_of, trees_of, pairs_of, Trees, Entries, Int, Bytes, Items, Dict};

    /// The integer `number`.
    pub fn int(number: i64) -> Value
        ensures { tree_of result ≡ Int number }
    {
        Value::Int(number)
    }

    /// The byte string of these bytes.
    pub fn bytes(text: Text) -> Value
        ensures { tree_of result ≡ Bytes text.list }
    {
        Value::Bytes(text)
    }

    /// The list of these values.
    pub fn list(values: Values) -> Value
        ensures { tree_of result ≡ Items (trees_of (list_in values)) }
    {
        Value::List(values)
    }

    /// The dictionary of these pairs.
    pub fn dict(pairs: Pairs) -> Value
        ensures { tree_of result ≡ Dict (pairs_of (list_in pairs)) }
    {
        Value::Dict(pairs)
    }

    /// The integer, where it is one.
    pub fn as_int(&self) -> Option<i64>
        ensures { MatchOption result
            ((number : _) → tree_of self.now ≡ Int number → ⊥)
            (λ number. tree_of self.now ≡ Int number) }
    {
        match self {
            Value::Int(number) => Some(*number),
            _ => None,
        }
    }

    /// The byte string, where it is one.
    pub fn as_bytes(&self) -> Option<&Text>
        ensures { MatchOption result
            ((bytes : _) → tree_of self.now ≡ Bytes bytes → ⊥)
            (λ text. tree_of self.now ≡ Bytes text.now.list) }
    {
        match self {
            Value::Bytes(text) => Some(text),
            _ => None,
        }
    }

    /// The values, where it is a list.
    pub fn as_list(&self) -> Option<&Values>
        ensures { MatchOption result
            ((items : Trees) → tree_of self.now ≡ Items items → ⊥)
            (λ values. tree_of self.now ≡ Items (trees_of (list_in values.now))) }
    {
        match self {
            Value::List(values) => Some(values),
            _ => None,
        }
    }

    /// The pairs, where it is a dictionary.
    pub fn as_dict(&self) -> Option<&Pairs>
        ensures { MatchOption result
            ((pairs : Entries) → tree_of self.now ≡ Dict pairs → ⊥)
            (λ pairs. tree_of self.now ≡ Dict (pairs_of (list_in pairs.now))) }
    {
        match self {
            Value::Dict(pairs) => Some(pairs),
            _ => None,
        }
    }
}
