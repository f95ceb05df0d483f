//! The line above a value.
ghost use Rattle.std.specs.Prelude.{◌≡◌, ◌<◌, ◌^◌, ◌++◌, ℕ, List, codes, decimal, MatchOption, MatchResult, IfSome};
ghost use Rattle.std.specs.Bool.{OnFalse};
ghost use Rattle.std.specs.Char.{is_ascii_digit};
ghost use Rattle.std.specs.List.{list_all};
ghost use Rattle.state_lines.specs.OneRead.{IsLengthLine, TellsOf};
ghost use Rattle.state_lines.specs.StateLines.{length_line};

use crate::faults::Unread;
use itoa::Buffer;

/// What stands before the length of a value.
pub(crate) const WORD: &[u8] = b"value ";

/// Whether these bytes are digits.
fn are_digits(bytes: &[u8]) -> bool
    ensures { result ≡ list_all is_ascii_digit bytes.now }
{
    bytes.iter().all(|byte| byte.is_ascii_digit())
}

/// Whether these bytes are a number in decimal: digits, of which the first is a 0 only where it stands alone.
fn is_number(digits: &[u8]) -> bool
    ensures { OnFalse result ((n : ℕ) → n < 10 ^ 64 → digits.now ≡ decimal n → ⊥) }
{
    if digits.is_empty() {
        return false;
    }
    if digits[0] == b'0' {
        return digits.len() == 1;
    }
    are_digits(digits)
}

/// The number that these bytes write in decimal, without a leading zero, if it is below 2^64.
fn read_decimal(digits: &[u8]) -> Option<u64>
    ensures { IfSome result (λ n. digits.now ≡ decimal n) }
{
    let Ok(text) = str::from_utf8(digits) else {
        return None;
    };
    let Ok(value) = text.parse::<u64>() else {
        return None;
    };
    let mut buffer = Buffer::new();
    if buffer.format(value).as_bytes() == digits {
        Some(value)
    } else {
        None
    }
}

/// What follows the word.
fn after_word(line: &[u8]) -> Option<&[u8]>
    ensures { MatchOption result
        ((rest : List ℕ) → line.now ≡ codes "value " ++ rest → ⊥)
        (λ rest. line.now ≡ codes "value " ++ rest.now) }
{
    line.strip_prefix(WORD)
}

/// How many bytes the value has that stands below this line. More than can be held are told as want of memory.
pub(crate) fn read_length_line(line: &[u8]) -> Result<usize, Unread>
    ensures { MatchResult result
        (λ bytes. line.now ≡ length_line bytes)
        (λ unread. TellsOf unread (IsLengthLine line.now → ⊥)) }
{
    let Some(digits) = after_word(line) else {
        return Err(Unread::NotOfForm);
    };
    if !is_number(digits) {
        return Err(Unread::NotOfForm);
    }
    match read_decimal(digits) {
        Some(bytes) => Ok(bytes as usize),
        None => Err(Unread::OutOfMemory),
    }
}
