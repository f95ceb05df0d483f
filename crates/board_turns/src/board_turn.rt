use call_board::Board;
use call_cell::Gone;
use relay_core::{Happening, Part, Relay};
use relay_outside::{Config, InEnd, OutEnd, PortMaker};
use turn_table::{Hand, Machine, Turns};

/// The entry of the board to which nested steps belong. It is made when the board's turn ends, after them.
#[derive(Clone, Copy, PartialEq, Eq, Debug)]
pub struct BoardEntryId {
    /// Its number: the front of the board's turn.
    pub number: u64,
    /// Its moment in milliseconds, which is handed to offers, answers and questions whether a call is due.
    pub moment: u64,
}

/// The main hand in a turn of the board, where it makes nested steps.
#[derive(Drop)]
pub struct MainHand<'t, 'h, I: InEnd, O: OutEnd>
where
    Relay<I, O>: Machine<State = Part<I, O>, Event = Happening, Outcome = ()>,
{
    /// The table of the board, the cells and the boxes.
    pub turns: &'t Turns<Relay<I, O>>,
    /// The configuration with which the table began.
    pub config: &'t Config,
    /// The hand.
    pub hand: &'h mut Hand<Relay<I, O>>,
    /// The turn's entry.
    pub entry_id: BoardEntryId,
}

/// A turn of the board: all that a command, a tick or a stop works with.
#[derive(Drop)]
pub struct BoardTurn<'t, 'h, 'b, 'p, 'g, P: PortMaker>
where
    Relay<P::In, P::Out>: Machine<State = Part<P::In, P::Out>, Event = Happening, Outcome = ()>,
{
    /// The main hand, which has the turn.
    pub main: MainHand<'t, 'h, P::In, P::Out>,
    /// The board.
    pub board: &'b mut Board,
    /// It opens and closes the ports of calls.
    pub ports: &'p mut P,
    /// The legs that go from a call's cell, until they are closed. It is empty before the turn and after it.
    pub gone: &'g mut Gone<P::Out>,
}

/// The main hand between two turns of the board, and what its turns work with.
#[derive(Drop)]
pub struct Between<'t, 'h, 'p, 'g, P: PortMaker>
where
    Relay<P::In, P::Out>: Machine<State = Part<P::In, P::Out>, Event = Happening, Outcome = ()>,
{
    /// The table of the board, the cells and the boxes.
    pub turns: &'t Turns<Relay<P::In, P::Out>>,
    /// The configuration with which the table began.
    pub config: &'t Config,
    /// The main hand.
    pub hand: &'h mut Hand<Relay<P::In, P::Out>>,
    /// It opens and closes the ports of calls.
    pub ports: &'p mut P,
    /// Room for the legs that go from a call's cell in a turn. It is empty.
    pub gone: &'g mut Gone<P::Out>,
}
