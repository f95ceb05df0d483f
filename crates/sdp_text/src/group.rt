ghost use Rattle.std.specs.Prelude.{◌≡◌, ℕ, ◌+◌, ◌≤◌, ◌<◌, ◌==◌, [], ◌∷◌, ◌++◌, length, min, Some, None, IfSome, take, drop, MatchOption, replicate, ◌-◌, true, false};
ghost use Rattle.std.specs.Option.{option_map, option_copied};
ghost use Rattle.sdp_text.specs.Hosts.{is_hex, hex_value, group, groups, around_double_colon, exactly, filled_up, eight_groups, bytes_of_groups};
ghost use Rattle.sdp_text.specs.Limits.{no_longer};

use crate::piece::cut;
use std::marker::Model;

/// At most eight groups of an IPv6 address.
#[derive(Drop)]
pub(crate) struct Groups {
    /// The groups, and after them numbers that mean nothing.
    values: [u16; 8],
    /// How many groups there are.
    len: usize,
}

impl Model for Groups {
    ghost use Rattle.std.specs.Prelude.{List, ℕ, take, ◌≤◌};

    ghost Value = { List ℕ };

    ghost view = { λ g. take g.len g.values };

    ghost invariant = { λ g. g.len ≤ 8 };
}

impl Groups {
    pub(crate) fn new() -> Self
        ensures { result ≡ [] }
    {
        Groups {
            values: [0; 8],
            len: 0,
        }
    }

    pub(crate) fn len(&self) -> usize
        ensures len { result ≡ length self.now }
        ensures most { result ≤ 8 }
    {
        self.len
    }

    pub(crate) fn as_slice(&self) -> &[u16]
        ensures { result.now ≡ self.now }
    {
        &self.values[..self.len]
    }

    pub(crate) fn push(&mut self, group: u16)
        requires { length self.old < 8 }
        ensures { self.new ≡ self.old ++ group ∷ [] }
    {
        self.values[self.len] = group;
        self.len += 1;
    }

    /// The bytes of eight groups.
    pub(crate) fn bytes(&self) -> [u8; 16]
        requires { length self.now ≡ 8 }
        ensures { result ≡ bytes_of_groups self.now }
    {
        let groups = self.as_slice();
        let mut bytes = [0; 16];
        for (i, group) in groups.iter().enumerate() {
            bytes[2 * i] = (*group / 256) as u8;
            bytes[2 * i + 1] = (*group % 256) as u8;
        }
        bytes
    }
}

fn hex_digit(byte: u8) -> Option<u16>
    ensures { MatchOption result (is_hex byte ≡ false) (λ digit. (is_hex byte ≡ true) × (digit ≡ hex_value byte) × (digit < 16)) }
{
    match byte {
        b'0'..=b'9' => Some(u16::from(byte - b'0')),
        b'A'..=b'F' => Some(u16::from(byte - b'A') + 10),
        b'a'..=b'f' => Some(u16::from(byte - b'a') + 10),
        _ => None,
    }
}

// One group: one to four hexadecimal digits.
fn read_group(text: &[u8]) -> Option<u16>
    ensures { result ≡ group text.now }
{
    if text.is_empty() || text.len() > 4 {
        return None;
    }
    let mut value = 0;
    for byte in text {
        let digit = hex_digit(*byte)?;
        value = 16 * value + digit;
    }
    Some(value)
}

// Groups joined by colons. More than eight are refused, since no address has them.
fn read_groups(text: &[u8]) -> Option<Groups>
    ensures { result ≡ no_longer 8 (groups text.now) }
{
    let mut found = Groups::new();
    if text.is_empty() {
        return Some(found);
    }
    let mut rest = text;
    loop {
        let (front, more) = cut(rest, b':');
        let group = read_group(front)?;
        if found.len() == 8 {
            return None;
        }
        found.push(group);
        match more {
            Some(after) => rest = after,
            None => return Some(found),
        }
    }
}

// The place of the first `::`.
fn double_colon(text: &[u8]) -> Option<usize>
    ensures { MatchOption result (around_double_colon text.now ≡ None) (λ at. (at + 2 ≤ length text.now) × (around_double_colon text.now ≡ Some (take at text.now, drop (at + 2) text.now))) }
{
    for i in 0..text.len().saturating_sub(1) {
        if text[i] == b':' && text[i + 1] == b':' {
            return Some(i);
        }
    }
    None
}

// The groups on both sides of `::`, and between them as many groups of zero as make eight.
fn fill_up(left: Groups, right: &Groups) -> Option<Groups>
    ensures { result ≡ filled_up (Some left) (Some right.now) }
{
    if left.len() + right.len() >= 8 {
        return None;
    }
    let missing = 8 - (left.len() + right.len());
    let mut all = left;
    for _ in 0..missing {
        all.push(0);
    }
    for group in right.as_slice() {
        all.push(*group);
    }
    Some(all)
}

// Eight groups, with no `::`.
fn whole(text: &[u8]) -> Option<Groups>
    ensures { result ≡ exactly 8 (groups text.now) }
{
    let Some(all) = read_groups(text) else {
        return None;
    };
    if all.len() == 8 { Some(all) } else { None }
}

// The groups before `::` and after it.
fn shortened(before: &[u8], behind: &[u8]) -> Option<Groups>
    ensures { result ≡ filled_up (groups before.now) (groups behind.now) }
{
    let Some(left) = read_groups(before) else {
        return None;
    };
    let Some(right) = read_groups(behind) else {
        return None;
    };
    fill_up(left, &right)
}

/// The eight groups of an IPv6 text.
pub(crate) fn eight_groups(text: &[u8]) -> Option<Groups>
    ensures groups { result ≡ eight_groups text.now }
    ensures eight { IfSome result (λ groups. length groups ≡ 8) }
{
    match double_colon(text) {
        Some(at) => shortened(&text[..at], &text[at + 2..]),
        None => whole(text),
    }
}
