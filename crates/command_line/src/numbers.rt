ghost use Rattle.std.specs.Prelude.{◌≡◌, ◌≤◌, IfSome};
ghost use Rattle.command_line.specs.Numbers.{has_leading_zero, whole_number, number_within};

use sdp_text::read_number_up_to;

/// The least and the greatest number that a text may say.
#[derive(Clone, Copy)]
pub(crate) struct Limits {
    pub(crate) least: u64,
    pub(crate) most: u64,
}

/// Whether a text of several bytes begins with a zero.
fn has_leading_zero(text: &[u8]) -> bool
    ensures { result ≡ has_leading_zero text.now }
{
    match text {
        [first, _, ..] => *first == b'0',
        _ => false,
    }
}

/// A decimal number without a leading zero, where it is no greater than the limit.
pub(crate) fn read_whole_number(text: &[u8], limit: u64) -> Option<u64>
    ensures value { result ≡ whole_number limit text.now }
    ensures within { IfSome result (λ value. value ≤ limit) }
{
    if has_leading_zero(text) {
        None
    } else {
        read_number_up_to(text, limit)
    }
}

/// A decimal number without a leading zero, within the limits.
pub(crate) fn read_number_within(text: &[u8], limits: Limits) -> Option<u64>
    ensures value { result ≡ number_within limits.least limits.most text.now }
    ensures within { IfSome result (λ value. (limits.least ≤ value) × (value ≤ limits.most)) }
{
    let value = read_whole_number(text, limits.most)?;
    if limits.least <= value {
        Some(value)
    } else {
        None
    }
}
