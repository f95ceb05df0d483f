ghost use Rattle.std.specs.Prelude.{◌≡◌, ◌<◌, ◌+◌, ◌^◌, ℕ, Some, None, IsSome, IfOk, IfSome, MatchOption, length, slice_get, position, drop};
ghost use Rattle.replay_devices.specs.Lines.{arrives_at, packet_in};
ghost use Rattle.replay_devices.specs.Ports.{take_fails, takes_after, next_line, packet_in_line};

use crate::countdowns::Countdowns;
use crate::lines::{failures_of, next_line};
use relay_outside::{Addr, OutOfMemory};
use relay_script::{FailKind, Step};
use std::alloc::Global;
use std::marker::Model;

/// The lines of a script as the ports of its replay read them: which packet arrives at which line, and which of the
/// takes fail, both of which the lines alone say.
#[derive(Drop)]
pub struct Timetable<'a> {
    steps: &'a [Step],
    /// For each line, whether a take for it fails.
    failing: Vec<bool>,
}

impl<'a> Model for Timetable<'a> {
    ghost use Rattle.std.specs.Prelude.{List, ℕ, ◌≡◌, ◌<◌, length, slice_get, Some};
    ghost use Rattle.relay_script.specs.declared.step.Step.{Step};
    ghost use Rattle.replay_devices.specs.Ports.{take_fails};

    ghost Value = { List Step };

    ghost view = { λ table. table.steps.now };

    ghost invariant = { λ table. (index : ℕ) → index < length table.steps.now → slice_get table.failing.items index ≡ Some (take_fails table.steps.now index) };
}

impl<'a> Timetable<'a> {
    /// The timetable of these steps.
    pub fn new(alloc: Global, steps: &'a [Step]) -> Result<Timetable<'a>, OutOfMemory>
        ensures { IfOk result (λ table. table ≡ steps.now) }
    {
        let failing = failing_takes(alloc, steps)?;
        Ok(Timetable { steps, failing })
    }

    /// The steps.
    pub(crate) fn steps(&self) -> &'a [Step]
        ensures { result.now ≡ self.now }
    {
        self.steps
    }

    /// The index of the first line, from an index on, at the port of this address.
    pub(crate) fn next_line(&self, at: Addr, from: usize) -> Option<usize>
        ensures line { result ≡ next_line self.now at from }
        ensures within { IfSome result (λ index. index < length self.now) }
        ensures bounded { IfSome result (λ index. index + 1 < 2 ^ 64) }
        ensures arrives { IfSome result (λ index. IsSome (packet_in_line (slice_get self.now index))) }
    {
        next_line(self.steps, at, from)
    }

    /// The packet of the line `take` or `packet` of this index.
    pub(crate) fn packet(&self, index: usize) -> Option<(Addr, &'a [u8])>
        ensures { MatchOption result (packet_in_line (slice_get self.now index) ≡ None) (λ found. packet_in_line (slice_get self.now index) ≡ Some (found.0, found.1.now)) }
    {
        match self.steps.get(index) {
            Some(Step::Take(_, from, bytes)) => Some((*from, bytes.as_slice())),
            Some(Step::Packet(_, from, bytes)) => Some((*from, bytes.as_slice())),
            _ => None,
        }
    }

    /// Whether the take for the line of this index fails.
    pub(crate) fn take_fails(&self, index: usize) -> bool
        requires { index < length self.now }
        ensures { result ≡ take_fails self.now index }
    {
        self.failing[index]
    }
}

/// Passes a line: it is counted if it is a line `take` or `packet`, and may ask that a later one fails.
fn pass(takes: &mut Countdowns, step: &Step) -> Result<(), OutOfMemory>
    ensures { IfOk result (λ _. takes.new.list ≡ takes_after step.now takes.old.list) }
{
    match step {
        Step::Take(_, _, _) => takes.count_call(),
        Step::Packet(_, _, _) => takes.count_call(),
        Step::Fail(FailKind::Take, number) => return takes.add(*number),
        _ => {}
    }
    Ok(())
}

/// For each line, whether a take for it fails.
fn failing_takes(alloc: Global, steps: &[Step]) -> Result<Vec<bool>, OutOfMemory>
    ensures { IfOk result (λ failing. (index : ℕ) → index < length steps.now → slice_get failing.items index ≡ Some (take_fails steps.now index)) }
{
    let mut takes = Countdowns::with_room(alloc, failures_of(FailKind::Take, steps))?;
    let mut failing = Vec::with_capacity(alloc, steps.len())?;
    for step in steps {
        failing.push(takes.next_fails())?;
        pass(&mut takes, step)?;
    }
    Ok(failing)
}
