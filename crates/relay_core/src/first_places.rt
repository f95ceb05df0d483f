//! The places of a relay before its first step.

ghost use Rattle.std.specs.Prelude.{◌≡◌, [], IfOk, OnOk};
ghost use Rattle.relay_outside.specs.Settings.{AreFamilies};
ghost use Rattle.port_pool.specs.Ports.{pair_count};
ghost use Rattle.relay_core.specs.FirstPlaces.{AreParts, AddsCells, AddsBoxes};
ghost use Rattle.relay_core.specs.WholeParts.{AreWholeParts};
ghost use Rattle.relay_core.specs.Continued.{AreLeftBy};
ghost use Rattle.relay_core.specs.Homes.{AreEndsHome};

use crate::part::Part;
use call_board::Board;
use call_cell::Cell;
use port_pool::{PairBox, port_address};
use relay_outside::{Config, InEnd, OutEnd, OutOfMemory};
use rtp_packet::Half;
use std::alloc::Global;

/// Adds an empty cell for each call that may be live.
fn add_cells<I: InEnd + Drop, O: OutEnd + Drop>(
    alloc: Global,
    parts: &mut Vec<Part<I, O>>,
    config: &Config,
) -> Result<(), OutOfMemory>
    ensures { OnOk result (AddsCells config.now parts.old.items parts.new.items config.now.max_sessions) }
{
    for _ in 0..config.max_sessions {
        parts.push(Part::Cell(Cell::empty(alloc, config)))?;
    }
    Ok(())
}

/// Adds a closed box for each of the configuration's port pairs, in their order.
fn add_boxes<I: InEnd + Drop, O: OutEnd + Drop>(
    parts: &mut Vec<Part<I, O>>,
    config: &Config,
) -> Result<(), OutOfMemory>
    ensures { OnOk result (AddsBoxes config.now parts.old.items parts.new.items (pair_count config.now)) }
{
    for pair in 0..config.pairs() {
        let at = port_address(config, pair, Half::Rtp);
        parts.push(Part::Pair(PairBox::empty(config.max_sessions, at)))?;
    }
    Ok(())
}

/// What the places of a relay hold before its first step: the board, an empty cell for each call that may be live, and a
/// closed box for each port pair. Each interface of the configuration has an address of its family.
/// A board and a cell stand for histories under one configuration, which is read off them: so what the places begin as
/// is said once (`AreParts`). They are also what the empty list leaves: a fresh start is one that goes on from nothing. And what
/// they keep goes together, whatever their histories, and the ends that they keep, of which there are none yet, are those of their
/// ports.
pub fn parts<I: InEnd + Drop, O: OutEnd + Drop>(
    alloc: Global,
    config: &Config,
) -> Result<Vec<Part<I, O>>, OutOfMemory>
    requires { AreFamilies config.now }
    ensures begins { IfOk result (λ parts. AreParts config.now parts.items) }
    ensures left { IfOk result (λ parts. AreLeftBy config.now [] parts.items) }
    ensures whole { IfOk result (λ parts. AreWholeParts config.now parts.items) }
    ensures homes { IfOk result (λ parts. AreEndsHome I.log O.log config.now parts.items) }
{
    let board = Board::new(alloc, config)?;
    let mut parts = Vec::new(alloc);
    parts.push(Part::Board(board))?;
    add_cells(alloc, &mut parts, config)?;
    add_boxes(&mut parts, config)?;
    Ok(parts)
}
