//! Which crypto line of a section is used.

ghost use Rattle.std.specs.Prelude.{◌≡◌, ◌≤◌, ◌↔◌, IsTrue, length, drop};
ghost use Rattle.std.specs.Prelude.{Option, Some};
ghost use Rattle.sdes_lines.specs.declared.crypto_line.CryptoLine.{CryptoLine};
ghost use Rattle.sdp_edit.specs.Places.{up_to_media};
ghost use Rattle.sdp_edit.specs.ChosenLines.{section_lines, IsFirstOf, IsAny, IsOffered, IsChosenKey, IsLineOf};

use crate::place::is_media;
use sdes_lines::{CryptoLine, usable};
use sdp_text::Sdp;

/// The first usable crypto line of a section (RFC 4568 section 5.1.2). The index counts from 0; a section
/// that isn't there has none.
pub fn choose(sdp: &Sdp, section: usize) -> Option<CryptoLine>
    ensures first { IsFirstOf IsAny (section_lines section sdp.now) result }
    ensures only { (other : Option CryptoLine) → IsFirstOf IsAny (section_lines section sdp.now) other → other ≡ result }
{
    for index in section_start(sdp, section)..sdp.line_count() {
        let line = sdp.line(index);
        if is_media(line) {
            return None;
        }
        if let Some(key) = usable(line) {
            return Some(key);
        }
    }
    None
}

/// The first usable crypto line of a section whose tag and suite are those of an offered line
/// (RFC 4568 section 5.1.2).
pub fn choose_among(
    sdp: &Sdp,
    section: usize,
    offered: &[Option<CryptoLine>; 2],
) -> Option<CryptoLine>
    ensures first { IsFirstOf (IsOffered offered.now) (section_lines section sdp.now) result }
    ensures only { (other : Option CryptoLine) → IsFirstOf (IsOffered offered.now) (section_lines section sdp.now) other → other ≡ result }
{
    for index in section_start(sdp, section)..sdp.line_count() {
        let line = sdp.line(index);
        if is_media(line) {
            return None;
        }
        if let Some(key) = offered_key(line, offered) {
            return Some(key);
        }
    }
    None
}

// The index of the line after the `m=` line of a section, or how many lines there are.
fn section_start(sdp: &Sdp, section: usize) -> usize
    ensures lines { section_lines section sdp.now ≡ up_to_media (drop result sdp.now) }
    ensures within { result ≤ length sdp.now }
{
    let mut left = section;
    for index in 0..sdp.line_count() {
        if is_media(sdp.line(index)) {
            if left == 0 {
                return index + 1;
            }
            left -= 1;
        }
    }
    sdp.line_count()
}

fn is_offered(key: &CryptoLine, offered: &[Option<CryptoLine>]) -> bool
    ensures { IsTrue result ↔ IsOffered offered.now key.now }
{
    for line in offered {
        if let Some(line) = line {
            if line.tag == key.tag && line.suite == key.suite {
                return true;
            }
        }
    }
    false
}

// The key of a usable line that is offered.
fn offered_key(line: &[u8], offered: &[Option<CryptoLine>; 2]) -> Option<CryptoLine>
    ensures key { IsChosenKey (IsOffered offered.now) line.now result }
    ensures only { (other : CryptoLine) → IsLineOf (IsOffered offered.now) line.now other → result ≡ Some other }
{
    let key = usable(line)?;
    if is_offered(&key, offered) {
        Some(key)
    } else {
        None
    }
}
