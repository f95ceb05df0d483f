ghost use Rattle.std.specs.Prelude.{◌≤◌};

use crate::parts::{part_at, put_part};
use crate::windows::{load_windows, save_windows};
use crate::words::{load_words, save_words};
use replay_window::{Fresh, Near, Window};
use srtp_keys::UnprotectFault;

/// How many sources a table keeps. None gives way to another, since that would forget which indices were used.
pub const MOST_SOURCES: usize = 32;

/// The sources of one half under one key, and of each the indices that were taken or sent. It can't be cloned.
#[derive(Drop)]
pub struct Sources {
    /// The SSRCs of the known sources, in the order in which they came.
    ssrcs: [u32; 32],
    /// The windows of the same sources.
    windows: [Window; 32],
    /// How many sources are known.
    count: usize,
    ghost within: { count ≤ 32 },
}

/// A source as `Sources::find` found it in a table: where it stands there, if it is known. It holds until the table notes an
/// index.
#[derive(Clone, Copy, Drop)]
pub struct Source {
    /// The source's SSRC.
    ssrc: u32,
    /// Its place among the known sources.
    place: Option<usize>,
}

impl Sources {
    ghost use Rattle.std.specs.Prelude.{◌≡◌, ◌<◌, ◌^◌, ◌==◌, List, [], ◌∷◌, ℕ, Ok, Err, IfSome, MatchResult, OnErr, position, slice_index, slice_index_or, slice_set, ◌+◌, true, take};
    ghost use Rattle.replay_window.specs.declared.window.Window.{Window};
    ghost use Rattle.rtp_packet.specs.declared.head.Half.{Half};
    ghost use Rattle.replay_window.specs.declared.answers.Fresh.TheVariants.{Yes};
    ghost use Rattle.replay_window.specs.Indices.{near, fresh};
    ghost use Rattle.replay_window.specs.Windows.{IsIndex, WindowStandsFor};
    ghost use Rattle.srtp_sources.specs.Notes.{Note, indices, has_room};
    ghost use Rattle.srtp_sources.specs.Tables.{SourcesFor, IsPlaced, can_note};
    ghost use Rattle.srtp_sources.specs.Judged.{judged_index};
    ghost use Rattle.std.specs.Prelude.{IfNone};
    ghost use Rattle.srtp_sources.specs.declared.sources.Sources.{Sources};
    ghost use Rattle.srtp_sources.specs.SavedSources.{FitsSources, saved_sources};

    /// The bytes of a table's saved form.
    pub const SAVED: usize = 929;

    /// A table without a source.
    pub fn new() -> Sources
        ensures { (half : Half) → SourcesFor half result [] }
    {
        Sources {
            ssrcs: [0; 32],
            windows: std::array::from_fn(|_| Window::new()),
            count: 0,
        }
    }

    /// Looks a source up. The calls that take the answer look no further.
    pub fn find(&self, ssrc: u32) -> Source
        ensures ssrc { result.ssrc ≡ ssrc }
        ensures placed { IsPlaced self.now result }
    {
        let place = self.ssrcs[..self.count]
            .iter()
            .position(|known| *known == ssrc);
        Source { ssrc, place }
    }

    // Where a source that was found stands.
    fn place(&self, source: Source) -> Option<usize>
        requires { IsPlaced self.now source }
        ensures first { result ≡ position (λ known. known == source.ssrc) (take self.now.count self.now.ssrcs) }
        ensures found { IfSome result (λ place. (place < self.now.count) × (slice_index self.now.ssrcs place ≡ source.ssrc)) }
    {
        source.place
    }

    /// The index that a sequence number of a source that was found most likely stands for.
    pub fn near_of(&self, source: Source, seq: u16) -> Near
        requires { IsPlaced self.now source }
        ensures nearest { (half : Half) (notes : List Note) → SourcesFor half self.now notes → result ≡ near (indices half source.ssrc notes) seq }
        ensures index { IsIndex result }
    {
        match self.place(source) {
            Some(place) => self.windows[place].near(seq),
            None => Near::At(u64::from(seq)),
        }
    }

    /// Whether an index of a source that was found may be taken.
    pub fn fresh_of(&self, source: Source, index: u64) -> Fresh
        requires placed { IsPlaced self.now source }
        requires index { index < 2 ^ 48 }
        ensures { (half : Half) (notes : List Note) → SourcesFor half self.now notes → result ≡ fresh (indices half source.ssrc notes) index }
    {
        match self.place(source) {
            Some(place) => self.windows[place].fresh(index),
            None => Fresh::Yes,
        }
    }

    /// Whether a source that was looked up is known or may still come in.
    pub fn has_room_for(&self, source: Source) -> bool
        requires { IsPlaced self.now source }
        ensures room { result ≡ can_note self.now source.ssrc }
        ensures notes { (half : Half) (notes : List Note) → SourcesFor half self.now notes → result ≡ has_room half source.ssrc notes }
    {
        self.count < MOST_SOURCES || self.place(source).is_some()
    }

    /// Notes an index of a source that was found, which `fresh_of` has to allow.
    pub fn note_for(&mut self, source: Source, index: u64)
        requires placed { IsPlaced self.old source }
        requires index { index < 2 ^ 48 }
        requires room { can_note self.old source.ssrc ≡ true }
        ensures { (half : Half) (notes : List Note) → SourcesFor half self.old notes → fresh (indices half source.ssrc notes) index ≡ Yes → SourcesFor half self.new (record { half = half; ssrc = source.ssrc; index = index } ∷ notes) }
    {
        match self.place(source) {
            Some(place) => note_at(&mut self.windows, place, index),
            None => self.enter(source.ssrc, index),
        }
    }

    /// Notes the index of an authentic packet of a source that was found. It is refused, in this order, where it is too old, where it was
    /// noted before, and where the source is one too many (RFC 3711 section 3.3); nothing has changed then.
    pub fn take(&mut self, source: Source, index: u64) -> Result<(), UnprotectFault>
        requires placed { IsPlaced self.old source }
        requires index { index < 2 ^ 48 }
        ensures refused { OnErr result (self.new ≡ self.old) }
        ensures judged { (half : Half) (notes : List Note) → SourcesFor half self.old notes → MatchResult result
            (λ noted. (judged_index half source.ssrc notes index ≡ Ok index) × SourcesFor half self.new (record { half = half; ssrc = source.ssrc; index = index } ∷ notes))
            (λ cause. judged_index half source.ssrc notes index ≡ Err cause) }
    {
        match self.fresh_of(source, index) {
            Fresh::Yes => {}
            Fresh::TooOld => return Err(UnprotectFault::TooOld),
            Fresh::Used => return Err(UnprotectFault::Replayed),
        }
        if !self.has_room_for(source) {
            return Err(UnprotectFault::TooManySources);
        }
        self.note_for(source, index);
        Ok(())
    }

    /// The saved form, with all that the table keeps.
    pub fn save(self) -> [u8; Sources::SAVED]
        ensures fits { FitsSources self }
        ensures saved { result ≡ saved_sources self }
    {
        let mut bytes = [0; Sources::SAVED];
        put_part(&mut bytes, 0, &[self.count as u8]);
        put_part(&mut bytes, 1, &save_words(&self.ssrcs));
        put_part(&mut bytes, 129, &save_windows(&self.windows));
        bytes
    }

    /// The table of a saved form; None where it is that of no table.
    pub fn load(bytes: &[u8; Sources::SAVED]) -> Option<Sources>
        ensures some { IfSome result (λ table. FitsSources table × (saved_sources table ≡ bytes.now)) }
        ensures none { IfNone result ((table : Sources) → FitsSources table → saved_sources table ≡ bytes.now → ⊥) }
    {
        let count = usize::from(bytes[0]);
        if count > MOST_SOURCES {
            return None;
        }
        let ssrcs = load_words(&part_at(bytes, 1));
        let windows = load_windows(&part_at(bytes, 129))?;
        Some(Sources {
            ssrcs,
            windows,
            count,
        })
    }

    // Takes in a new source with its first index.
    fn enter(&mut self, ssrc: u32, index: u64)
        requires index { index < 2 ^ 48 }
        requires room { self.old.count < 32 }
        ensures ssrcs { self.new.ssrcs ≡ slice_set self.old.ssrcs self.old.count ssrc }
        ensures count { self.new.count ≡ self.old.count + 1 }
        ensures here { (other : Window) → WindowStandsFor (slice_index_or self.new.windows self.old.count other) (index ∷ []) }
        ensures elsewhere { (at : ℕ) (other : Window) → at < self.old.count → slice_index_or self.new.windows at other ≡ slice_index_or self.old.windows at other }
    {
        let mut window = Window::new();
        window.note(index);
        self.ssrcs[self.count] = ssrc;
        self.windows[self.count] = window;
        self.count += 1;
    }
}

ghost use Rattle.std.specs.Prelude.{◌≡◌, ◌≢◌, ◌<◌, ◌^◌, ℕ, List, ◌∷◌, slice_index_or};
ghost use Rattle.replay_window.specs.declared.window.Window.{Window};
ghost use Rattle.replay_window.specs.Indices.{fresh};
ghost use Rattle.replay_window.specs.Windows.{WindowStandsFor};
ghost use Rattle.replay_window.specs.declared.answers.Fresh.TheVariants.{Yes};

// Notes an index in the window at `place`.
fn note_at(windows: &mut [Window; 32], place: usize, index: u64)
    requires place { place < 32 }
    requires index { index < 2 ^ 48 }
    ensures here { (noted : List ℕ) (other : Window) → WindowStandsFor (slice_index_or windows.old place other) noted → fresh noted index ≡ Yes → WindowStandsFor (slice_index_or windows.new place other) (index ∷ noted) }
    ensures elsewhere { (at : ℕ) (other : Window) → at ≢ place → slice_index_or windows.new at other ≡ slice_index_or windows.old at other }
{
    windows[place].note(index);
}
