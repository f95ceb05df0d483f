ghost use Rattle.std.specs.Prelude.{◌≡◌, ◌+◌, ◌≤◌, ◌<◌, ◌^◌, length, take, map, IfOk};
ghost use Rattle.sdp_text.specs.Lines.{lines_of, size_of, without_empty_end};
ghost use Rattle.std.specs.Str.Lines.{lines, strip_carriage_return};
ghost use Rattle.sdp_text.specs.LineFaults.{is_typed, holds_nul_or_cr, is_origin_whole, is_origin_faulty, is_connection_faulty, is_media_faulty, is_rtcp_faulty, is_faulty, faulty_line};
ghost use Rattle.sdp_text.specs.Roles.{role};

use crate::bytes::OutOfMemory;
use crate::piece::{count_filled, cut};
use crate::role::{Role, read_connection, read_media, read_rtcp, role_of};
use std::alloc::Global;

// A line without the one CR at its end, where it has one.
fn without_cr(line: &[u8]) -> &[u8]
    ensures line { result.now ≡ strip_carriage_return line.now }
    ensures shorter { length result.now ≤ length line.now }
{
    let len = line.len();
    if len > 0 && line[len - 1] == b'\r' {
        &line[..len - 1]
    } else {
        line
    }
}

// The lines of a text, with the empty ones at its end.
fn all_lines(alloc: Global, text: &[u8]) -> Result<Vec<&[u8]>, OutOfMemory>
    ensures lines { IfOk result (λ found. map (λ x. x.now) found.items ≡ lines text.now) }
    ensures few { IfOk result (λ found. length found.items ≤ length text.now) }
    ensures small { IfOk result (λ found. size_of (map (λ x. x.now) found.items) ≤ length text.now + 1) }
{
    let mut found = Vec::new(alloc);
    let mut rest = text;
    loop {
        let (line, after) = cut(rest, b'\n');
        let Some(more) = after else {
            if !line.is_empty() {
                found.push(line)?;
            }
            return Ok(found);
        };
        found.push(without_cr(line))?;
        rest = more;
    }
}

// How many lines there are up to the last one that isn't empty.
fn filled_len(lines: &[&[u8]]) -> usize
    ensures within { result ≤ length lines.now }
    ensures kept { take result (map (λ x. x.now) lines.now) ≡ without_empty_end (map (λ x. x.now) lines.now) }
{
    let mut len = lines.len();
    while len > 0 && lines[len - 1].is_empty() {
        len -= 1;
    }
    len
}

/// The lines of a text without their ends: LF, or CR and LF. Empty lines at the very end are dropped.
pub(crate) fn split_lines(alloc: Global, text: &[u8]) -> Result<Vec<&[u8]>, OutOfMemory>
    ensures lines { IfOk result (λ found. map (λ x. x.now) found.items ≡ lines_of text.now) }
    ensures few { IfOk result (λ found. length found.items ≤ length text.now) }
    ensures small { IfOk result (λ found. size_of (map (λ x. x.now) found.items) ≤ length text.now + 1) }
{
    match all_lines(alloc, text) {
        Ok(mut found) => {
            let len = filled_len(found.as_slice());
            found.truncate(len);
            Ok(found)
        }
        Err(OutOfMemory) => Err(OutOfMemory),
    }
}

fn is_typed(line: &[u8]) -> bool
    ensures { result ≡ is_typed line.now }
{
    line.len() >= 2 && line[0] >= b'a' && line[0] <= b'z' && line[1] == b'='
}

fn holds_nul_or_cr(line: &[u8]) -> bool
    ensures { result ≡ holds_nul_or_cr line.now }
{
    line.iter().any(|b| *b == 0 || *b == b'\r')
}

fn is_origin_whole(text: &[u8]) -> bool
    ensures { result ≡ is_origin_whole text.now }
{
    count_filled(text) == Some(6)
}

fn is_origin_faulty(line: &[u8]) -> bool
    ensures { result ≡ is_origin_faulty line.now }
{
    line.starts_with(b"o=") && !is_origin_whole(&line[2..])
}

fn is_connection_faulty(line: &[u8]) -> bool
    ensures { result ≡ is_connection_faulty line.now }
{
    line.starts_with(b"c=") && read_connection(&line[2..]).is_none()
}

fn is_media_faulty(line: &[u8]) -> bool
    ensures { result ≡ is_media_faulty line.now }
{
    line.starts_with(b"m=") && read_media(&line[2..]).is_none()
}

fn is_rtcp_faulty(line: &[u8]) -> bool
    ensures { result ≡ is_rtcp_faulty line.now }
{
    line.starts_with(b"a=rtcp:") && read_rtcp(&line[7..]).is_none()
}

// Whether a line is faulty by itself. Its number counts from 1.
fn is_faulty(number: u32, line: &[u8]) -> bool
    ensures { result ≡ is_faulty number line.now }
{
    !is_typed(line)
        || holds_nul_or_cr(line)
        || (number == 1 && line != b"v=0".as_slice())
        || is_origin_faulty(line)
        || is_connection_faulty(line)
        || is_media_faulty(line)
        || is_rtcp_faulty(line)
}

/// The number of the first faulty line, from 1. An empty text has a faulty first line.
pub(crate) fn faulty_line(lines: &[&[u8]]) -> Option<u32>
    requires { length lines.now < 2 ^ 31 }
    ensures { result ≡ faulty_line (map (λ x. x.now) lines.now) }
{
    if lines.is_empty() {
        return Some(1);
    }
    let mut number = 1;
    for line in lines {
        if is_faulty(number, *line) {
            return Some(number);
        }
        number += 1;
    }
    None
}

/// What each line says.
pub(crate) fn roles_of(alloc: Global, lines: &[&[u8]]) -> Result<Vec<Role>, OutOfMemory>
    ensures { IfOk result (λ roles. roles.items ≡ map role (map (λ x. x.now) lines.now)) }
{
    let mut roles = Vec::new(alloc);
    for line in lines {
        roles.push(role_of(*line))?;
    }
    Ok(roles)
}
