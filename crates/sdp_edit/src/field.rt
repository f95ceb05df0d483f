//! The fields of a line.

ghost use Rattle.std.specs.Prelude.{◌≡◌, ◌≤◌, ◌==◌, [], ◌∷◌, ◌++◌, length, IfSome, IfNone};
ghost use Rattle.std.specs.List.{before_first};
ghost use Rattle.sdp_text.specs.Pieces.{fields};

// How many bytes stand before the first space.
fn field_length(text: &[u8]) -> usize
    ensures length { result ≡ length (before_first (λ byte. byte == 32) text.now) }
    ensures within { result ≤ length text.now }
{
    text.iter().take_while(|byte| **byte != b' ').count()
}

/// The first of two or more fields, and the text of the others. `None` means that there is one field alone.
pub(crate) fn cut(text: &[u8]) -> Option<(&[u8], &[u8])>
    ensures fields { IfSome result (λ parts. fields text.now ≡ parts.0.now ∷ fields parts.1.now) }
    ensures text { IfSome result (λ parts. text.now ≡ parts.0.now ++ 32 ∷ parts.1.now) }
    ensures last { IfNone result (fields text.now ≡ text.now ∷ []) }
{
    let at = field_length(text);
    if at < text.len() {
        Some((&text[..at], &text[at + 1..]))
    } else {
        None
    }
}
