ghost use Rattle.std.specs.Prelude.{◌≡◌};

use relay_script::Step;
use std::marker::Model;

/// How the reading of a script ended.
#[derive(Clone, Copy, PartialEq, Eq, Debug)]
pub enum Ending {
    /// The source gave no more lines.
    End,
    /// The line after the steps is not in the grammar.
    Outside,
    /// A read of the source failed.
    Fault,
}

/// The steps of a script's lines, in order, and how its reading ended. Contracts see both.
#[derive(Drop)]
pub struct Script {
    pub(crate) steps: Vec<Step>,
    pub(crate) ending: Ending,
}

impl Model for Script {
    ghost use Rattle.replay_devices.specs.Scripts.{ReadScript};

    ghost Value = { ReadScript };

    ghost view = { λ script. record { steps = script.steps.items; ending = script.ending } };
}

impl Script {
    /// The steps, one for each line up to the ending: at most 50,000.
    pub fn steps(&self) -> &[Step]
        ensures { result.now ≡ self.now.steps }
    {
        self.steps.as_slice()
    }

    /// How the reading ended, after the steps.
    pub fn ending(&self) -> Ending
        ensures { result ≡ self.now.ending }
    {
        self.ending
    }
}
