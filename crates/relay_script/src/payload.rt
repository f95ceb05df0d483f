//! The bytes of a datagram, as a line has them.
ghost use Rattle.std.specs.Prelude.{◌≡◌, ◌<◌, ◌++◌, ◌∷◌, [], ℕ, List, length, MatchOption, MatchResult, IfSome, codes};
ghost use Rattle.hex.specs.Hex.{encode_lower};
ghost use Rattle.relay_script.specs.Fields.{IsHex, IsText, IsPayload};
ghost use Rattle.relay_script.specs.LineParts.{RefusesText, BeginsWith, NoPiece};

use crate::step::ParseFault;
use ng_bencode::Text;
use std::alloc::Global;

/// The first byte and what follows it.
fn read_head(text: &[u8]) -> Option<(u8, &[u8])>
    ensures { MatchOption result (text.now ≡ []) (λ parts. text.now ≡ parts.0 ∷ parts.1.now) }
{
    if text.is_empty() {
        return None;
    }
    Some((text[0], &text[1..]))
}

/// The byte that two hexadecimal digits in lower case write.
fn read_pair(high: u8, low: u8) -> Option<u8>
    ensures { MatchOption result
        ((byte : ℕ) → byte < 256 → high ∷ low ∷ [] ≡ encode_lower (byte ∷ []) → ⊥)
        (λ byte. high ∷ low ∷ [] ≡ encode_lower (byte ∷ [])) }
{
    let digits = [high, low];
    let mut byte = [0];
    let Ok(()) = hex::decode_to_slice(digits, &mut byte) else {
        return None;
    };
    let mut written = [0; 2];
    let _ = hex::encode_to_slice(byte, &mut written);
    if written == digits {
        Some(byte[0])
    } else {
        None
    }
}

/// The byte that the first two digits write, and what follows them.
fn read_coded(text: &[u8]) -> Option<(u8, &[u8])>
    ensures digits { MatchOption result
        ((byte : ℕ) (rest : List ℕ) → byte < 256 → text.now ≡ encode_lower (byte ∷ []) ++ rest → ⊥)
        (λ parts. text.now ≡ encode_lower (parts.0 ∷ []) ++ parts.1.now) }
    ensures byte { IfSome result (λ parts. parts.0 < 256) }
{
    let (high, rest) = read_head(text)?;
    let (low, rest) = read_head(rest)?;
    let byte = read_pair(high, low)?;
    Some((byte, rest))
}

/// The bytes that pairs of digits write.
fn read_hex(alloc: Global, digits: &[u8]) -> Result<Text, ParseFault>
    ensures { MatchResult result
        (λ bytes. IsHex digits.now bytes.list)
        (λ fault. RefusesText fault ((bytes : List ℕ) → IsHex digits.now bytes → ⊥)) }
{
    let mut bytes = Text::new(alloc);
    bytes.reserve(digits.len() / 2)?;
    let mut rest = digits;
    while !rest.is_empty() {
        let Some((byte, more)) = read_coded(rest) else {
            return Err(ParseFault::NotInGrammar);
        };
        bytes.push(byte);
        rest = more;
    }
    Ok(bytes)
}

/// The byte that the first piece of a text stands for, and what follows it.
fn read_piece(text: &[u8]) -> Option<(u8, &[u8])>
    ensures { MatchOption result (NoPiece text.now) (λ parts. BeginsWith text.now parts.0 parts.1.now) }
{
    let (first, rest) = read_head(text)?;
    if first != b'\\' {
        return Some((first, rest));
    }
    let (letter, rest) = read_head(rest)?;
    match letter {
        b'r' => Some((b'\r', rest)),
        b'n' => Some((b'\n', rest)),
        b'\\' => Some((b'\\', rest)),
        b'x' => read_coded(rest),
        _ => None,
    }
}

/// The bytes that the pieces of a text stand for.
fn read_text(alloc: Global, text: &[u8]) -> Result<Text, ParseFault>
    ensures { MatchResult result
        (λ bytes. IsText text.now bytes.list)
        (λ fault. RefusesText fault ((bytes : List ℕ) → IsText text.now bytes → ⊥)) }
{
    let mut bytes = Text::new(alloc);
    bytes.reserve(text.len())?;
    let mut rest = text;
    while !rest.is_empty() {
        let Some((byte, more)) = read_piece(rest) else {
            return Err(ParseFault::NotInGrammar);
        };
        bytes.push(byte);
        rest = more;
    }
    Ok(bytes)
}

/// The bytes of a datagram.
pub(crate) fn read_payload(alloc: Global, text: &[u8]) -> Result<Text, ParseFault>
    ensures { MatchResult result
        (λ bytes. IsPayload text.now bytes.list)
        (λ fault. RefusesText fault ((bytes : List ℕ) → IsPayload text.now bytes → ⊥)) }
{
    let Some((letter, rest)) = read_head(text) else {
        return Err(ParseFault::NotInGrammar);
    };
    let Some((colon, rest)) = read_head(rest) else {
        return Err(ParseFault::NotInGrammar);
    };
    if colon != b':' {
        return Err(ParseFault::NotInGrammar);
    }
    match letter {
        b'x' => read_hex(alloc, rest),
        b't' => read_text(alloc, rest),
        _ => Err(ParseFault::NotInGrammar),
    }
}
