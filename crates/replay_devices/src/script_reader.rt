//! Reading a script, line by line.
ghost use Rattle.std.specs.Prelude.{◌≡◌, ◌≤◌, ◌++◌, ◌∷◌, [], IfOk, OnOk, OnErr, length, map};
ghost use Rattle.relay_outside.specs.DeviceLogs.{Gained, Rose};
ghost use Rattle.relay_script.specs.Steps.{step_meaning};
ghost use Rattle.replay_devices.specs.LineReads.{IsFoundOrShort, Finds, FromFault, OneRead};
ghost use Rattle.replay_devices.specs.Scripts.{ReadsScript, ReadsEnding, ReadsFront};

use crate::script::{Ending, Script};
use relay_outside::{LineRead, LineSource, OutOfMemory};
use relay_script::{ParseFault, Step, parse};
use std::alloc::Global;

/// How many bytes of a line are read: one more than a line may have, so that a longer one is told from it.
const ROOM: usize = 40_001;

/// How many lines a script may have.
const MOST_LINES: usize = 50_000;

/// What was found where the next line stands.
#[derive(Drop)]
enum Found {
    /// A line that asks for this step.
    Step(Step),
    /// The end of the script.
    Ending(Ending),
}

/// What a line asks for.
fn find_step(alloc: Global, line: &[u8]) -> Result<Found, OutOfMemory>
    ensures { IfOk result (Finds line.now) }
{
    match parse(alloc, line) {
        Ok(step) => Ok(Found::Step(step)),
        Err(ParseFault::NotInGrammar) => Ok(Found::Ending(Ending::Outside)),
        Err(ParseFault::OutOfMemory) => Err(OutOfMemory),
    }
}

/// Reads the next line, and what it asks for.
fn read_step<S: LineSource>(
    alloc: Global,
    source: &mut S,
    buf: &mut [u8],
) -> Result<Found, OutOfMemory>
    requires { length buf.old ≡ 40001 }
    ensures read { OneRead (S.log source.old) (S.log source.new) (IsFoundOrShort result) }
    ensures later { S.faults source.old ≤ S.faults source.new }
    ensures fault { IfOk result (FromFault (S.faults source.old) (S.faults source.new)) }
{
    match source.line(buf) {
        Ok(LineRead::Text { len }) => find_step(alloc, &buf[..len]),
        Ok(LineRead::End) => Ok(Found::Ending(Ending::End)),
        Err(_) => Ok(Found::Ending(Ending::Fault)),
    }
}

/// Reads what stands after as many lines as a script may have.
fn read_past<S: LineSource>(source: &mut S, buf: &mut [u8]) -> Ending
    requires { length buf.old ≡ 40001 }
    ensures read { OneRead (S.log source.old) (S.log source.new) (ReadsEnding 50000 result) }
    ensures later { S.faults source.old ≤ S.faults source.new }
    ensures fault { result ≡ Ending.Fault → Rose (S.faults source.old) (S.faults source.new) }
{
    match source.line(buf) {
        Ok(LineRead::Text { .. }) => Ending::Outside,
        Ok(LineRead::End) => Ending::End,
        Err(_) => Ending::Fault,
    }
}

/// Puts a step after the others.
fn keep_step(steps: &mut Vec<Step>, step: Step) -> Result<(), OutOfMemory>
    ensures { OnOk result (steps.new.items ≡ steps.old.items ++ step ∷ []) }
{
    steps.push(step)?;
    Ok(())
}

/// Reads a script through a buffer for its lines.
fn read_lines<S: LineSource>(
    alloc: Global,
    source: &mut S,
    buf: &mut [u8],
) -> Result<Script, OutOfMemory>
    requires { length buf.old ≡ 40001 }
    ensures reads { IfOk result (λ script. Gained (S.log source.old) (S.log source.new) (ReadsScript (map step_meaning script.steps) script.ending)) }
    ensures most { IfOk result (λ script. length script.steps ≤ 50000) }
    ensures front { OnErr result (Gained (S.log source.old) (S.log source.new) ReadsFront) }
    ensures later { S.faults source.old ≤ S.faults source.new }
    ensures fault { IfOk result (λ script. script.ending ≡ Ending.Fault → Rose (S.faults source.old) (S.faults source.new)) }
{
    let mut steps = Vec::new(alloc);
    for _line in 0..MOST_LINES {
        match read_step(alloc, source, buf)? {
            Found::Step(step) => keep_step(&mut steps, step)?,
            Found::Ending(ending) => return Ok(Script { steps, ending }),
        }
    }
    let ending = read_past(source, buf);
    Ok(Script { steps, ending })
}

/// Reads a script, up to its end, a fault of its source, or the first line that is outside the grammar: one of more than
/// 40,000 bytes, one past the 50,000th line, or one that `parse` doesn't know. The lines after that one are not read.
///
/// Where memory is wanting the source has given some lines, each of which asked for a step but perhaps the last.
pub fn read_script<S: LineSource>(alloc: Global, source: &mut S) -> Result<Script, OutOfMemory>
    ensures reads { IfOk result (λ script. Gained (S.log source.old) (S.log source.new) (ReadsScript (map step_meaning script.steps) script.ending)) }
    ensures most { IfOk result (λ script. length script.steps ≤ 50000) }
    ensures front { OnErr result (Gained (S.log source.old) (S.log source.new) ReadsFront) }
    ensures later { S.faults source.old ≤ S.faults source.new }
    ensures fault { IfOk result (λ script. script.ending ≡ Ending.Fault → Rose (S.faults source.old) (S.faults source.new)) }
{
    let mut buffer = vec![in alloc; 0; ROOM]?;
    read_lines(alloc, source, buffer.as_mut_slice())
}
