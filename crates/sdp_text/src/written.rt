ghost use Rattle.std.specs.Prelude.{◌≡◌, ◌+◌, ◌*◌, ◌≤◌, ◌<◌, ◌^◌, ◌==◌, if◌then◌else◌, [], ◌∷◌, ◌++◌, length, map};
ghost use Rattle.std.specs.List.{join_with_byte};
ghost use Rattle.sdp_text.specs.Hosts.{digit_byte, octet_text, group_text, joined_groups, groups_of_bytes, longer, longest_run, around_run, text_of};

use crate::group::Groups;
use crate::host::Host;
use std::marker::Model;

/// The text of an address: at most 39 bytes.
#[derive(Drop)]
pub struct HostText {
    /// The text, and after it bytes that mean nothing.
    bytes: [u8; 48],
    /// How many bytes the text has.
    len: usize,
}

impl Model for HostText {
    ghost use Rattle.std.specs.Prelude.{List, ℕ, take, ◌≤◌};

    ghost Value = { List ℕ };

    ghost view = { λ t. take t.len t.bytes };

    ghost invariant = { λ t. t.len ≤ 48 };
}

impl HostText {
    fn new() -> Self
        ensures { result ≡ [] }
    {
        HostText {
            bytes: [0; 48],
            len: 0,
        }
    }

    fn push(&mut self, byte: u8)
        requires { length self.old < 48 }
        ensures { self.new ≡ self.old ++ byte ∷ [] }
    {
        self.bytes[self.len] = byte;
        self.len += 1;
    }

    /// The bytes of the text.
    pub fn as_slice(&self) -> &[u8]
        ensures { result.now ≡ self.now }
    {
        &self.bytes[..self.len]
    }
}

// Writes a digit of a base up to 16.
fn push_digit(out: &mut HostText, digit: u16)
    requires digit { digit < 16 }
    requires room { length out.old < 48 }
    ensures { out.new ≡ out.old ++ digit_byte digit ∷ [] }
{
    let byte = digit as u8;
    out.push(if byte < 10 {
        b'0' + byte
    } else {
        b'a' + (byte - 10)
    });
}

fn push_octet(out: &mut HostText, octet: u8)
    requires { length out.old + 3 ≤ 48 }
    ensures { out.new ≡ out.old ++ octet_text octet }
{
    let n = u16::from(octet);
    if n >= 100 {
        push_digit(out, n / 100);
    }
    if n >= 10 {
        push_digit(out, n / 10 % 10);
    }
    push_digit(out, n % 10);
}

fn push_group(out: &mut HostText, n: u16)
    requires { length out.old + 4 ≤ 48 }
    ensures { out.new ≡ out.old ++ group_text n }
{
    if n >= 4096 {
        push_digit(out, n / 4096);
    }
    if n >= 256 {
        push_digit(out, n / 256 % 16);
    }
    if n >= 16 {
        push_digit(out, n / 16 % 16);
    }
    push_digit(out, n % 16);
}

// Writes numbers of at most 255 joined by dots.
fn push_octets(out: &mut HostText, octets: &[u8])
    requires { length out.old + 4 * length octets.now ≤ 48 }
    ensures { out.new ≡ out.old ++ join_with_byte 46 (map octet_text octets.now) }
{
    let Some((first, others)) = octets.split_first() else {
        return;
    };
    push_octet(out, *first);
    for octet in others {
        out.push(b'.');
        push_octet(out, *octet);
    }
}

// Writes groups joined by colons.
fn push_groups(out: &mut HostText, groups: &[u16])
    requires { length out.old + 5 * length groups.now ≤ 48 }
    ensures written { out.new ≡ out.old ++ joined_groups groups.now }
    ensures short { length out.new ≤ length out.old + 5 * length groups.now }
{
    let Some((first, others)) = groups.split_first() else {
        return;
    };
    push_group(out, *first);
    for group in others {
        out.push(b':');
        push_group(out, *group);
    }
}

/// A run of groups of zero: where it begins, and how many they are.
#[derive(Clone, Copy)]
pub(crate) struct Run {
    /// The place of its first group, from 0.
    start: usize,
    count: usize,
}

// The longer run, and the first one at a tie.
fn longer(first: Run, second: Run) -> Run
    ensures { result ≡ longer first second }
{
    if first.count < second.count {
        second
    } else {
        first
    }
}

// How many groups of zero stand from this group on, where `behind` of them stand from the next one on.
fn zeros_from(group: u16, behind: usize) -> usize
    requires { behind < 2 ^ 32 }
    ensures { result ≡ (if group == 0 then 1 + behind else 0) }
{
    if group == 0 { 1 + behind } else { 0 }
}

// The longest run of groups of zero, the first at a tie.
fn longest_run(groups: &[u16]) -> Run
    requires { length groups.now ≤ 8 }
    ensures run { result ≡ longest_run 0 groups.now }
    ensures within { result.start + result.count ≤ length groups.now }
{
    let mut longest = Run {
        start: groups.len(),
        count: 0,
    };
    let mut zeros = 0;
    let mut i = groups.len();
    while i > 0 {
        i -= 1;
        zeros = zeros_from(groups[i], zeros);
        let here = Run {
            start: i,
            count: zeros,
        };
        longest = longer(here, longest);
    }
    longest
}

fn groups_of(bytes: &[u8]) -> Groups
    requires { length bytes.now ≡ 16 }
    ensures groups { result ≡ groups_of_bytes bytes.now }
    ensures eight { length result ≡ 8 }
{
    let mut groups = Groups::new();
    for i in 0..8 {
        groups.push(256 * u16::from(bytes[2 * i]) + u16::from(bytes[2 * i + 1]));
    }
    groups
}

// Writes eight groups, with the run as `::` where it has two groups or more.
fn push_around(out: &mut HostText, all: &[u16], run: Run)
    requires eight { length all.now ≡ 8 }
    requires within { run.start + run.count ≤ 8 }
    requires empty { out.old ≡ [] }
    ensures { out.new ≡ around_run all.now run }
{
    if run.count < 2 {
        push_groups(out, all);
        return;
    }
    push_groups(out, &all[..run.start]);
    out.push(b':');
    out.push(b':');
    push_groups(out, &all[run.start + run.count..]);
}

fn push_v6(out: &mut HostText, bytes: &[u8])
    requires whole { length bytes.now ≡ 16 }
    requires empty { out.old ≡ [] }
    ensures written { out.new ≡ around_run (groups_of_bytes bytes.now) (longest_run 0 (groups_of_bytes bytes.now)) }
    ensures short { length out.new ≤ 39 }
{
    let groups = groups_of(bytes);
    let all = groups.as_slice();
    let run = longest_run(all);
    push_around(out, all, run);
}

fn push_v4(out: &mut HostText, bytes: &[u8])
    requires whole { length bytes.now ≡ 4 }
    requires empty { out.old ≡ [] }
    ensures written { out.new ≡ join_with_byte 46 (map octet_text bytes.now) }
    ensures short { length out.new ≤ 39 }
{
    push_octets(out, bytes);
}

/// The text of an address: an IPv4 address as four decimal numbers, an IPv6 address in lower case without
/// leading zeros, with the longest run of two or more groups of zero, the first at a tie, as `::`
/// (RFC 5952 section 4).
///
/// Lower case and no leading zeros are what its definition says alone, with tests beside it; `sdp_laws`
/// says that it is read as itself and which run is `::`.
pub fn host_text(host: &Host) -> HostText
    ensures text { result ≡ text_of host.now }
    ensures short { length result ≤ 39 }
{
    let mut out = HostText::new();
    match host {
        Host::V4(bytes) => push_v4(&mut out, bytes),
        Host::V6(bytes) => push_v6(&mut out, bytes),
    }
    out
}
