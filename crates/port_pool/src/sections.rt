ghost use Rattle.std.specs.Prelude.{◌≡◌, ◌<◌, ◌≤◌, [], ◌∷◌, ◌++◌, length, IfOk, slice_get, Some};

use crate::signal::SectionSignal;
use relay_outside::OutOfMemory;
use sdp_text::MOST_SECTIONS;
use std::alloc::Global;
use std::marker::Model;

/// What an answer commits, section by section, for at most 8 sections. Contracts see it as a list.
#[derive(Drop)]
pub struct Signal {
    sections: Vec<SectionSignal>,
}

impl Model for Signal {
    ghost use Rattle.std.specs.Prelude.{◌≤◌, List, length, vec_capacity};
    ghost use Rattle.port_pool.specs.declared.signal.SectionSignal.{SectionSignal};

    ghost Value = { List SectionSignal };

    ghost view = { λ signal. signal.sections.items };

    ghost invariant = { λ signal. (length signal.sections.items ≤ 8) × (8 ≤ vec_capacity signal.sections) };
}

impl Signal {
    /// A signal without sections, with capacity for 8.
    pub fn new(alloc: Global) -> Result<Signal, OutOfMemory>
        ensures { IfOk result (λ signal. signal ≡ []) }
    {
        let sections = Vec::with_capacity(alloc, MOST_SECTIONS)?;
        Ok(Signal { sections })
    }

    /// Adds what is committed for the next section. It takes no memory.
    pub fn push(&mut self, section: SectionSignal)
        requires { length self.old < 8 }
        ensures { self.new ≡ self.old ++ section ∷ [] }
    {
        self.sections.push_reserved(section);
    }

    /// How many sections it has, at most 8.
    pub fn len(&self) -> usize
        ensures count { result ≡ length self.now }
        ensures few { result ≤ 8 }
    {
        self.sections.len()
    }

    /// What is committed for a section, by its number from 0.
    pub fn section(&self, index: usize) -> SectionSignal
        requires { index < length self.now }
        ensures { slice_get self.now index ≡ Some result }
    {
        self.sections[index]
    }
}
