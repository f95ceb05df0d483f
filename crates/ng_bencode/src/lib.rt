//! Bencode, the notation of the ng control protocol: what a text spells is read, and a value is written,
//! exactly by the grammar. A value is an integer that fits an i64, a byte string, a list, or a
//! dictionary whose pairs keep their order; each has one spelling, and at most 16 lists and
//! dictionaries stand in one another. `specs/Spells.antt` has the grammar, `specs/Tree.antt` what a
//! `Value` stands for, and `specs/Lookup.antt` which pair of a dictionary a key finds.
#![tactic(auto)]

mod errors;
mod find;
mod law;
mod nested;
mod row;
mod scan;
mod text;
mod value;
mod write;

pub use errors::{Bad, OutOfMemory};
pub use find::{lookup, same_key};
pub use law::one_reading;
pub use nested::decode;
pub use row::Row;
pub use scan::{read_decimal, read_until};
pub use text::Text;
pub use value::{Pairs, Value, Values};
pub use write::encode;
