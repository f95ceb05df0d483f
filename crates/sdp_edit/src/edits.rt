//! What editing puts into a description.

ghost use Rattle.std.specs.Prelude.{◌≡◌, ◌+◌, ◌≤◌, ◌<◌, [], ◌∷◌, ◌++◌, OnOk};

use sdes_lines::CryptoLine;
use sdp_text::{Host, OutOfMemory, Proto};
use std::alloc::Global;
use std::marker::Model;

/// What a section's lines become.
#[derive(Clone, Copy, Debug, PartialEq, Eq)]
pub struct SectionEdit {
    /// The port of the `m=` line. 0 rejects the section.
    pub port: u16,
    /// The protocol of the `m=` line; `Other` keeps the text that stands there.
    pub proto: Proto,
    /// The address of the section's `c=` line.
    pub address: Host,
    /// Whether a line `a=rtcp-mux` is written at the end of the section, before the crypto lines (RFC 5761
    /// section 5.1.1). Those that stood in it go in either case.
    pub mux: bool,
    /// The crypto lines at the end of the section. Their tags are at most 999,999,999.
    pub crypto: [Option<CryptoLine>; 2],
}

/// What a description's lines become.
#[derive(Drop)]
pub struct Edit {
    /// The address that is written before the first section.
    pub address: Host,
    /// Whether the address is written into the first `o=` line.
    pub replace_origin: bool,
    /// Whether it is written into the `c=` lines before the first `m=` line.
    pub replace_session: bool,
    /// One edit for each section. A section that has none is treated as the lines before the first one are.
    pub sections: SectionEdits,
}

/// A list of section edits with its spare room.
#[derive(Drop)]
pub struct SectionEdits {
    items: Vec<SectionEdit>,
}

impl Model for SectionEdits {
    ghost use Rattle.std.specs.Prelude.{ℕ, ◌-◌, vec_len};
    ghost use Rattle.std.specs.Vec.{vec_capacity};
    ghost use Rattle.sdp_text.specs.Room.{Reserve};
    ghost use Rattle.sdp_edit.specs.declared.edits.SectionEdit.{SectionEdit};

    ghost Value = { Reserve SectionEdit };

    ghost view = { λ edits. record { list = edits.items.items; spare = vec_capacity edits.items - vec_len edits.items } };
}

impl SectionEdits {
    /// The empty list. It takes no memory.
    pub fn new(alloc: Global) -> SectionEdits
        ensures { result.list ≡ [] }
    {
        SectionEdits {
            items: Vec::new(alloc),
        }
    }

    /// Makes room for `more` edits. Its edits and the room that it had stay, also when it fails.
    pub fn reserve(&mut self, more: usize) -> Result<(), OutOfMemory>
        ensures room { OnOk result (more ≤ self.new.spare) }
        ensures list { self.new.list ≡ self.old.list }
        ensures kept { self.old.spare ≤ self.new.spare }
    {
        self.items.reserve(more)?;
        Ok(())
    }

    /// Adds an edit at the end.
    pub fn push(&mut self, item: SectionEdit)
        requires { 0 < self.old.spare }
        ensures list { self.new.list ≡ self.old.list ++ item ∷ [] }
        ensures spare { self.old.spare ≤ self.new.spare + 1 }
    {
        let _ = self.items.push(item);
    }

    /// The edits.
    pub fn as_slice(&self) -> &[SectionEdit]
        ensures { result.now ≡ self.now.list }
    {
        self.items.as_slice()
    }
}
