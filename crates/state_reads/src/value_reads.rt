//! Reading the values of a state, one by one, from a source of lines.
ghost use Rattle.std.specs.Prelude.{◌≡◌, ◌≤◌, Err};
ghost use Rattle.relay_outside.specs.DeviceLogs.{Gained, Rose};
ghost use Rattle.state_reads.specs.Texts.{IsRelayText, IsPoolText, IsCellText, IsCacheText};
ghost use Rattle.state_reads.specs.Calls.{AreCallsOf};
ghost use Rattle.state_reads.specs.Refusals.{NoRelay, NoPool, NoCalls, NoCell, NoCache};
ghost use Rattle.state_reads.specs.ValueReads.{ReadsValue, told_of};

use crate::caches::cache_of_text;
use crate::calls::calls_of_text;
use crate::cells::cell_of_text;
use crate::pools::pool_of_text;
use crate::relays::relay_of_text;
use call_board::CallSaved;
use call_cell::CellSaved;
use cookie_cache::CacheSaved;
use port_pool::PoolSaved;
use relay_outside::{Config, LineSource, OutOfMemory};
use state_lines::{LineFault, StateReader};
use state_values::RelaySaved;
use std::alloc::Global;

/// What is told of a text whose last line has this number.
fn told<T>(number: u32, read: Result<Option<T>, OutOfMemory>) -> Result<T, LineFault>
    ensures { result ≡ told_of number read }
{
    match read {
        Ok(Some(saved)) => Ok(saved),
        Ok(None) => Err(LineFault::NotState(number)),
        Err(OutOfMemory) => Err(LineFault::OutOfMemory),
    }
}

/// Reads the first value.
pub fn read_relay_value<S: LineSource>(
    alloc: Global,
    config: &Config,
    reader: &mut StateReader,
    source: &mut S,
) -> Result<RelaySaved, LineFault>
    ensures read { Gained (S.log source.old) (S.log source.new)
        (ReadsValue (IsRelayText config.now) (NoRelay config.now) reader.old reader.new result) }
    ensures later { S.faults source.old ≤ S.faults source.new }
    ensures fault { result ≡ Err LineFault.Source → Rose (S.faults source.old) (S.faults source.new) }
{
    let text = reader.read_value(source)?;
    told(reader.asked(), relay_of_text(alloc, config, &text))
}

/// Reads the second value.
pub fn read_pool_value<S: LineSource>(
    alloc: Global,
    config: &Config,
    reader: &mut StateReader,
    source: &mut S,
) -> Result<PoolSaved, LineFault>
    ensures read { Gained (S.log source.old) (S.log source.new)
        (ReadsValue (IsPoolText config.now) (NoPool config.now) reader.old reader.new result) }
    ensures later { S.faults source.old ≤ S.faults source.new }
    ensures fault { result ≡ Err LineFault.Source → Rose (S.faults source.old) (S.faults source.new) }
{
    let text = reader.read_value(source)?;
    told(reader.asked(), pool_of_text(alloc, config, &text))
}

/// Reads the third value, of a board that began so many calls, and has so many cells.
pub fn read_calls_value<S: LineSource>(
    alloc: Global,
    begun: u64,
    count: u32,
    reader: &mut StateReader,
    source: &mut S,
) -> Result<Vec<CallSaved>, LineFault>
    ensures read { Gained (S.log source.old) (S.log source.new)
        (ReadsValue (AreCallsOf begun count) (NoCalls begun count) reader.old reader.new result) }
    ensures later { S.faults source.old ≤ S.faults source.new }
    ensures fault { result ≡ Err LineFault.Source → Rose (S.faults source.old) (S.faults source.new) }
{
    let text = reader.read_value(source)?;
    told(reader.asked(), calls_of_text(alloc, begun, count, &text))
}

/// Reads the value of a cell.
pub fn read_cell_value<S: LineSource>(
    alloc: Global,
    reader: &mut StateReader,
    source: &mut S,
) -> Result<CellSaved, LineFault>
    ensures read { Gained (S.log source.old) (S.log source.new)
        (ReadsValue IsCellText NoCell reader.old reader.new result) }
    ensures later { S.faults source.old ≤ S.faults source.new }
    ensures fault { result ≡ Err LineFault.Source → Rose (S.faults source.old) (S.faults source.new) }
{
    let text = reader.read_value(source)?;
    told(reader.asked(), cell_of_text(alloc, &text))
}

/// Reads the last value.
pub fn read_cache_value<S: LineSource>(
    alloc: Global,
    reader: &mut StateReader,
    source: &mut S,
) -> Result<CacheSaved, LineFault>
    ensures read { Gained (S.log source.old) (S.log source.new)
        (ReadsValue IsCacheText NoCache reader.old reader.new result) }
    ensures later { S.faults source.old ≤ S.faults source.new }
    ensures fault { result ≡ Err LineFault.Source → Rose (S.faults source.old) (S.faults source.new) }
{
    let text = reader.read_value(source)?;
    told(reader.asked(), cache_of_text(alloc, &text))
}
