ghost use Rattle.std.specs.Prelude.{◌≡◌, [], ◌∷◌, ◌++◌, OnOk, map};
ghost use Rattle.replay_devices.specs.Failures.{after_open_at, after_send_at, is_next_at, any_next_at, waiting_for};

use call_cell::LocalPort;
use relay_outside::{Family, OutOfMemory};
use std::alloc::Global;
use std::marker::Model;

/// Which end a line `fail send` speaks of.
#[derive(Clone, Copy, PartialEq, Eq)]
pub(crate) enum Stage {
    /// That of the next opening of its port, of whichever family, that makes an end.
    Waiting,
    /// The one that such an opening made, at the interface of this family.
    Counting(Family),
}

/// A send that a line `fail send` asks to fail.
#[derive(Clone, Copy)]
pub(crate) struct SendFailure {
    /// The number of its port.
    port: u16,
    /// Which of the end's sends it is, from 1, less those that were made: 0 if it was made, or if the end was closed before.
    number: u32,
    stage: Stage,
}

impl SendFailure {
    /// The same, after an opening of a port that made an end.
    fn opened(self, at: LocalPort) -> SendFailure
        ensures { result ≡ after_open_at at self }
    {
        if self.port != at.port {
            return self;
        }
        match self.stage {
            Stage::Waiting => SendFailure {
                stage: Stage::Counting(at.family),
                ..self
            },
            Stage::Counting(family) if family == at.family => SendFailure { number: 0, ..self },
            Stage::Counting(_) => self,
        }
    }

    /// The same, after a send by a port.
    fn sent(self, at: LocalPort) -> SendFailure
        ensures { result ≡ after_send_at at self }
    {
        if self.port != at.port {
            return self;
        }
        match self.stage {
            Stage::Counting(family) if family == at.family => SendFailure {
                number: self.number.saturating_sub(1),
                ..self
            },
            Stage::Counting(_) | Stage::Waiting => self,
        }
    }

    /// Whether it is the next send by a port.
    fn is_next(&self, at: LocalPort) -> bool
        ensures { result ≡ is_next_at at self.now }
    {
        match self.stage {
            Stage::Waiting => false,
            Stage::Counting(family) => {
                family == at.family && self.port == at.port && self.number == 1
            }
        }
    }
}

/// The sends that lines `fail send` ask to fail, in the order of the lines.
#[derive(Drop)]
pub(crate) struct SendFailures {
    list: Vec<SendFailure>,
}

impl Model for SendFailures {
    ghost use Rattle.std.specs.Prelude.{List};
    ghost use Rattle.replay_devices.specs.declared.failures.SendFailure.{SendFailure};

    ghost Value = { List SendFailure };

    ghost view = { λ failures. failures.list.items };
}

impl SendFailures {
    /// None yet. It takes no memory.
    pub(crate) fn new(alloc: Global) -> SendFailures
        ensures { result ≡ [] }
    {
        SendFailures {
            list: Vec::new(alloc),
        }
    }

    /// The send of this number fails, of the end that the next opening of a port makes.
    pub(crate) fn add(&mut self, port: u16, number: u32) -> Result<(), OutOfMemory>
        ensures { OnOk result (self.new ≡ self.old ++ waiting_for port number ∷ []) }
    {
        let failure = SendFailure {
            port,
            number,
            stage: Stage::Waiting,
        };
        self.list.push(failure)?;
        Ok(())
    }

    /// An opening of a port made an end.
    pub(crate) fn opened(&mut self, at: LocalPort)
        ensures { self.new ≡ map (after_open_at at) self.old }
    {
        for failure in self.list.iter_mut() {
            *failure = failure.opened(at);
        }
    }

    /// A packet was sent by a port, or its send failed.
    pub(crate) fn sent(&mut self, at: LocalPort)
        ensures { self.new ≡ map (after_send_at at) self.old }
    {
        for failure in self.list.iter_mut() {
            *failure = failure.sent(at);
        }
    }

    /// Whether the next send by a port fails.
    pub(crate) fn next_fails(&self, at: LocalPort) -> bool
        ensures { result ≡ any_next_at at self.now }
    {
        self.list.iter().any(|failure| failure.is_next(at))
    }
}
