//! The board's turn of one datagram.
ghost use Rattle.std.specs.Prelude.{◌≤◌};
ghost use Rattle.relay_outside.specs.DeviceLogs.{HasCause};
ghost use Rattle.board_turns.specs.BoardTurns.{Rests, RestsAgain};
ghost use Rattle.ng_server.specs.Datagrams.{IsRequest, AnswersInTurn};

use crate::board_entry::put_control;
use crate::request::deal;
use board_turns::{Between, BoardEntryId, BoardTurn, MainHand};
use control_messages::Request;
use relay_core::Part;
use relay_outside::{ControlLink, Failed, KeySource, PortMaker};
use std::alloc::Global;
use std::marker::Brand;
use std::sync::Wait;

/// A datagram with a frame that came.
#[derive(Drop)]
pub(crate) struct Arrived<'a> {
    /// Its parts and its source.
    pub request: Request<'a>,
    /// The moment that is handed in, in milliseconds. One before that of the board's last entry counts as that one.
    pub moment: u64,
    /// Where memory for its command and its reply comes from.
    pub alloc: Global,
}

/// Replies to one datagram, in one turn of the board, which the main hand holds from the look for a kept reply to the send of the
/// reply. Returns the result of the send; the command and its kept reply stand all the same.
///
/// A kept reply is sent again and nothing is done. Else the command is carried out: an offer leases pairs, opens their ports and
/// draws its keys, and all of it is undone after a fault; what ends closes its ports. Where memory runs out, the reply says so, and
/// then nothing is done.
pub(crate) fn answer_datagram<N: ControlLink, P: PortMaker, K: KeySource, R: Wait>(
    rt: &R,
    at: &mut Between<P>,
    link: &mut N,
    keys: &mut K,
    arrived: &Arrived,
) -> Result<(), Failed>
    requires rests { Rests P.log at.old }
    requires request { IsRequest arrived.now.request }
    ensures rests { RestsAgain P.log P.faults at.old at.new }
    ensures answers { AnswersInTurn at.old.config.now at.old.hand.now at.new.hand.now arrived.now.request arrived.now.moment result (P.faults at.old.ports.now) (P.faults at.new.ports.now)
        (K.faults keys.old) (K.faults keys.new) (P.log at.old.ports.now) (P.log at.new.ports.now) (K.log keys.old) (K.log keys.new) (N.log link.old) (N.log link.new) }
    ensures cause { HasCause (N.faults link.old) (N.faults link.new) result }
    ensures later { K.faults keys.old ≤ K.faults keys.new }
{
    let mut step = at.turns.turn(rt, at.hand, 0);
    let number = step.front();
    let board = match step.state() {
        Part::Board(board) => board,
        Part::Cell(_) => unreachable!(),
        Part::Pair(_) => unreachable!(),
    };
    let moment = board.advance(arrived.moment);
    let mut turn = BoardTurn {
        main: MainHand {
            turns: at.turns,
            config: at.config,
            hand: &mut *at.hand,
            entry_id: BoardEntryId { number, moment },
        },
        board,
        ports: &mut *at.ports,
        gone: &mut *at.gone,
    };
    let answered = deal(rt, arrived.alloc, &mut turn, link, keys, &arrived.request);
    put_control::<P::In, P::Out, Brand>(
        at.turns,
        at.hand,
        step,
        at.config,
        arrived,
        &answered.turn_record,
    );
    answered.sent
}
