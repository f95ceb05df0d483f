//! The word that ends the threads of media. It can be set only by who shows that the control turns are over, and a thread that found it set knows that
//! they are.
ghost use Rattle.std.specs.Prelude.{IsTrue};

use std::marker::{Brand, PhantomData};
use std::sync::{OnceLock, Wait};

/// What is known once the control turns are over.
pub(crate) trait Over {
    ghost holds: { Type 0 };
}

impl Over for Brand {
    ghost holds = { Unit {0} };
}

/// Shows that the control turns are over.
#[derive(Drop)]
pub(crate) struct TurnsOver<F: Over> {
    marker: PhantomData<F>,
    ghost over: { ∥ F.holds ∥₁ },
}

/// The halt word of threads of media: not set at first, and set once.
#[derive(Drop)]
pub(crate) struct HaltWord<F: Over> {
    word: OnceLock<TurnsOver<F>>,
}

impl<F: Over> HaltWord<F> {
    /// It is not set.
    pub(crate) fn new() -> HaltWord<F> {
        HaltWord {
            word: OnceLock::new(),
        }
    }

    /// Sets it, where the control turns are over.
    pub(crate) fn set<W: Wait>(&self, rt: &W)
        requires { ∥ F.holds ∥₁ }
    {
        let over = TurnsOver {
            marker: PhantomData,
        };
        let _ = self.word.set(rt, over);
    }

    /// Whether it is set.
    pub(crate) fn is_set(&self) -> bool
        ensures { IsTrue result → ∥ F.holds ∥₁ }
    {
        self.word.get().is_some()
    }
}
