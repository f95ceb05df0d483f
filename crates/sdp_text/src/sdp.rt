ghost use Rattle.std.specs.Prelude.{◌≡◌, ◌≢◌, ◌≤◌, ◌<◌, ◌^◌, length, IfOk, IfErr, OnOk, Some, None, slice_get};
ghost use Rattle.sdp_text.specs.Lines.{lines_of, size_of};
ghost use Rattle.sdp_text.specs.Descriptions.{fault_in, sections_in, v6_line_in, HasItsAddresses};

use crate::bytes::OutOfMemory;
use crate::fault::SdpFault;
use crate::line::{faulty_line, roles_of, split_lines};
use crate::part::{parts_of, sections_fault};
use crate::section::Section;
use crate::summary::{sections_of, v6_line};
use std::alloc::Global;
use std::marker::Model;

/// A description that was read: the lines of its text, which stay where they are, and its sections.
#[derive(Drop)]
pub struct Sdp<'a> {
    /// Where each line stands in the text, without its end.
    lines: Vec<&'a [u8]>,
    /// What each section signals, in the order of their `m=` lines.
    sections: Vec<Section>,
    /// The first line in effect for an active section that names an IPv6 address.
    v6_line: Option<u32>,
}

impl<'a> Model for Sdp<'a> {
    ghost use Rattle.std.specs.Prelude.{ℕ, List, map};

    ghost Value = { List (List ℕ) };

    ghost use Rattle.sdp_text.specs.Descriptions.{IsRead};

    ghost view = { λ s. map (λ x. x.now) s.lines.items };

    ghost invariant = { λ s. IsRead (map (λ x. x.now) s.lines.items) s.sections.items s.v6_line };
}

fn section_at(sections: &[Section], index: usize) -> Section
    requires { index < length sections.now }
    ensures { slice_get sections.now index ≡ Some result }
{
    sections[index]
}

/// Reads a description. Its lines end by LF, or by CR and LF; the last line may lack its end, and empty
/// lines at the very end are dropped. `SdpFault` says when it is refused: first the first malformed line,
/// then an active section without a place, then DTLS, then more than eight sections, then the first line
/// with a number of ports or an address that can't be served. Running out of memory may come at any time.
pub fn read(alloc: Global, text: &[u8]) -> Result<Sdp, SdpFault>
    requires { length text.now < 2 ^ 31 }
    ensures lines { IfOk result (λ sdp. sdp ≡ lines_of text.now) }
    ensures sound { OnOk result (fault_in (lines_of text.now) ≡ None) }
    ensures fault { IfErr result (λ fault. fault ≢ SdpFault.OutOfMemory → fault_in (lines_of text.now) ≡ Some fault) }
{
    let lines = split_lines(alloc, text)?;
    if let Some(number) = faulty_line(lines.as_slice()) {
        return Err(SdpFault::Line(number));
    }
    let roles = roles_of(alloc, lines.as_slice())?;
    let parts = parts_of(alloc, roles.as_slice())?;
    if let Some(fault) = sections_fault(parts.as_slice()) {
        return Err(fault);
    }
    let sections = sections_of(alloc, parts.as_slice())?;
    let v6_line = v6_line(parts.as_slice());
    Ok(Sdp {
        lines,
        sections,
        v6_line,
    })
}

impl<'a> Sdp<'a> {
    /// The number, from 1, of the first `c=` or `a=rtcp` line in effect for an active section that names an
    /// IPv6 address.
    pub fn first_v6(&self) -> Option<u32>
        ensures { result ≡ v6_line_in self.now }
    {
        self.v6_line
    }

    /// How many lines there are.
    pub fn line_count(&self) -> usize
        ensures count { result ≡ length self.now }
        // With one byte for the end of each, the lines have at most 2^31 bytes.
        ensures small { size_of self.now ≤ 2 ^ 31 }
    {
        self.lines.len()
    }

    /// A line without its end. The index counts from 0.
    pub fn line(&self, index: usize) -> &[u8]
        requires { index < length self.now }
        ensures { slice_get self.now index ≡ Some result.now }
    {
        self.lines[index]
    }

    /// How many sections there are: at most eight.
    pub fn section_count(&self) -> usize
        ensures count { result ≡ length (sections_in self.now) }
        ensures most { result ≤ 8 }
        ensures sound { fault_in self.now ≡ None }
    {
        self.sections.len()
    }

    /// What a section signals. The index counts from 0.
    pub fn section(&self, index: usize) -> Section
        requires { index < length (sections_in self.now) }
        ensures section { slice_get (sections_in self.now) index ≡ Some result }
        // An active section has an address, for RTCP too.
        ensures served { HasItsAddresses result }
    {
        section_at(self.sections.as_slice(), index)
    }
}
