//! A line of hexadecimal digits.
ghost use Rattle.std.specs.Prelude.{◌≡◌, ◌≢◌, length, MatchResult, IfOk};
ghost use Rattle.hex.specs.Hex.{encode_lower, IsBytes};
ghost use Rattle.state_lines.specs.OneRead.{IsDigitLine, TellsOf};

use crate::faults::Unread;
use hex::FromHexError;
use std::alloc::Global;

/// Why digits were not read.
fn refusal(error: FromHexError) -> Unread
    ensures { TellsOf result (error ≢ FromHexError.OutOfMemory) }
{
    match error {
        FromHexError::OutOfMemory => Unread::OutOfMemory,
        _ => Unread::NotOfForm,
    }
}

/// The bytes that the digits of this line write, which are to be so many.
pub(crate) fn read_digit_line(alloc: Global, line: &[u8], count: usize) -> Result<Vec<u8>, Unread>
    ensures digits { MatchResult result
        (λ bytes. line.now ≡ encode_lower bytes.items)
        (λ unread. TellsOf unread (IsDigitLine count line.now → ⊥)) }
    ensures count { IfOk result (λ bytes. length bytes.items ≡ count) }
    ensures bytes { IfOk result (λ bytes. IsBytes bytes.items) }
{
    let bytes = match hex::decode(alloc, line) {
        Ok(bytes) => bytes,
        Err(error) => return Err(refusal(error)),
    };
    if bytes.len() != count {
        return Err(Unread::NotOfForm);
    }
    // (digits are read in either case)
    let Ok(lower) = hex::encode(alloc, bytes.as_slice()) else {
        return Err(Unread::OutOfMemory);
    };
    if lower.as_bytes() == line {
        Ok(bytes)
    } else {
        Err(Unread::NotOfForm)
    }
}
