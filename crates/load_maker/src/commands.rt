//! The two commands that make a call.
use ng_bencode::Text;

/// The bodies of the two commands that make a call.
#[derive(Drop)]
pub struct Signals {
    /// The offer of side A.
    pub offer: Text,
    /// The answer of side B.
    pub answer: Text,
}
