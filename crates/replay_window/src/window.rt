ghost use Rattle.std.specs.Prelude.{◌≡◌, ◌<◌, ◌^◌};
ghost use Rattle.std.specs.Prelude.{IfNone, IfSome};
ghost use Rattle.std.specs.Option.{ForNone, ForSome};

use crate::answers::{Fresh, Near};
use crate::saved::{read, written};

/// How many indices, counted from the greatest downwards, a window tells apart.
const SIZE: u64 = 128;

/// The numbers of a cycle of sequence numbers.
const CYCLE: u64 = 65_536;

/// Half a cycle: a number that is further away lies in another cycle.
const HALF_CYCLE: u64 = 32_768;

/// The cycles of packet indices: an index is below 2^48.
const CYCLES: u64 = 4_294_967_296;

/// The indices that were noted, of which those are kept that aren't too old.
#[derive(Drop)]
pub struct Window {
    /// The greatest noted index.
    greatest: Option<u64>,
    /// Bit `k` says whether the index that lies `k` below the greatest was noted.
    bits: u128,
    ghost in_range: { ForSome greatest (λ index. index < 2 ^ 48) },
    ghost unused: { ForNone greatest (bits ≡ 0) },
}

impl Window {
    ghost use Rattle.std.specs.Prelude.{ℕ, List, [], ◌∷◌};
    ghost use Rattle.replay_window.specs.declared.answers.Fresh.TheVariants.{Yes};
    ghost use Rattle.replay_window.specs.Indices.{near, fresh};
    ghost use Rattle.replay_window.specs.Windows.{WindowStandsFor, IsIndex};
    ghost use Rattle.replay_window.specs.SavedWindows.{FitsWindow, saved_window};

    /// The bytes of a saved window.
    pub const SAVED: usize = 25;

    /// A window in which nothing was noted.
    pub fn new() -> Window
        ensures { WindowStandsFor result [] }
    {
        Window {
            greatest: None,
            bits: 0,
        }
    }

    /// The index nearest to the greatest noted one among those that end in `seq`; at a tie the one in the greatest's own
    /// cycle, and `seq` itself where nothing was noted.
    #[tactic(auto, unfolding(crate::specs::Indices::near))]
    pub fn near(&self, seq: u16) -> Near
        ensures nearest { (noted : List ℕ) → WindowStandsFor self.now noted → result ≡ near noted seq }
        ensures index { IsIndex result }
    {
        let seq = u64::from(seq);
        let Some(greatest) = self.greatest else {
            return Near::At(seq);
        };
        near_to(greatest, seq)
    }

    /// Whether `index` may be taken.
    #[tactic(auto, unfolding(crate::specs::Indices::fresh))]
    pub fn fresh(&self, index: u64) -> Fresh
        requires { index < 2 ^ 48 }
        ensures { (noted : List ℕ) → WindowStandsFor self.now noted → result ≡ fresh noted index }
    {
        let Some(greatest) = self.greatest else {
            return Fresh::Yes;
        };
        if greatest < index {
            return Fresh::Yes;
        }
        let behind = greatest - index;
        if behind >= SIZE {
            return Fresh::TooOld;
        }
        if (self.bits >> behind) & 1 == 1 {
            return Fresh::Used;
        }
        Fresh::Yes
    }

    /// Notes `index`, which `fresh` has to allow.
    /// An index that is older than the window is not marked, which is safe.
    pub fn note(&mut self, index: u64)
        requires { index < 2 ^ 48 }
        ensures { (noted : List ℕ) → WindowStandsFor self.old noted → fresh noted index ≡ Yes → WindowStandsFor self.new (index ∷ noted) }
    {
        match self.greatest {
            None => {
                self.greatest = Some(index);
                self.bits = 1;
            }
            Some(greatest) => {
                if greatest < index {
                    self.greatest = Some(index);
                    self.bits = shifted(self.bits, index - greatest) | 1;
                } else {
                    self.bits = marked(self.bits, greatest - index);
                }
            }
        }
    }

    /// The window as bytes: whether there is a greatest index, as 0 or 1, the index in 8 bytes, which are 0 where there is
    /// none, and the bits in 16, the highest byte first.
    pub fn save(&self) -> [u8; Window::SAVED]
        ensures { FitsWindow self.now × (result ≡ saved_window self.now) }
    {
        match self.greatest {
            None => written(0, 0, self.bits),
            Some(index) => written(1, index, self.bits),
        }
    }

    /// The window that is saved as these bytes, and None where none is: the flag is neither 0 nor 1, the index is 2^48 or
    /// more, or bytes aren't 0 where there is no greatest index.
    pub fn load(bytes: &[u8; Window::SAVED]) -> Option<Window>
        ensures some { IfSome result (λ window. FitsWindow window × (saved_window window ≡ bytes.now)) }
        ensures none { IfNone result ((window : Window) → FitsWindow window → saved_window window ≡ bytes.now → ⊥) }
    {
        let (flag, index, bits) = read(bytes);
        if flag == 0 && index == 0 && bits == 0 {
            return Some(Window::new());
        }
        if flag == 1 && index < CYCLE * CYCLES {
            return Some(Window {
                greatest: Some(index),
                bits,
            });
        }
        None
    }
}

ghost use Rattle.std.specs.Prelude.{ℕ, ◌-◌, ◌≤◌, ◌≢◌};
ghost use Rattle.std.specs.Int.{bit_at};
ghost use Rattle.replay_window.specs.Indices.{IsNearest, as_index, nearest_lifted};

// The bits when the greatest index has risen by `gap`.
fn shifted(bits: u128, gap: u64) -> u128
    ensures low { (k : ℕ) → k < gap → bit_at result k ≡ 0 }
    ensures high { (k : ℕ) → gap ≤ k → k < 128 → bit_at result k ≡ bit_at bits (k - gap) }
{
    if gap < SIZE { bits << gap } else { 0 }
}

// The bits with the one for the index `behind` below the greatest set, where there is one.
fn marked(bits: u128, behind: u64) -> u128
    ensures set { behind < 128 → bit_at result behind ≡ 1 }
    ensures others { (k : ℕ) → k < 128 → k ≢ behind → bit_at result k ≡ bit_at bits k }
{
    if behind < SIZE {
        bits | 1 << behind
    } else {
        bits
    }
}

// The index nearest to `greatest` among those that end in `seq`: by the halves of the cycle (RFC 3711 section 3.3.1).
fn near_to(greatest: u64, seq: u64) -> Near
    requires greatest { greatest < 2 ^ 48 }
    requires seq { seq < 65536 }
    ensures { result ≡ as_index (nearest_lifted greatest seq) }
{
    let cycle = greatest / CYCLE;
    let last = greatest % CYCLE;
    let own = cycle * CYCLE + seq;
    if last + HALF_CYCLE < seq {
        if cycle == 0 {
            Near::Below
        } else {
            Near::At(own - CYCLE)
        }
    } else if seq + HALF_CYCLE < last {
        if cycle + 1 == CYCLES {
            Near::Beyond
        } else {
            Near::At(own + CYCLE)
        }
    } else {
        Near::At(own)
    }
}

/// Theorem (no run-time code): of all whole numbers that end in a sequence number, those below zero among them, `near` takes the
/// one nearest to the greatest noted index (RFC 3711 section 3.3.1), and at a tie the one in that index's own cycle.
pub fn near_is_nearest()
    ensures { (top : ℕ) (seq : ℕ) → seq < 65536 → IsNearest top seq (nearest_lifted top seq) }
{}
