//! The legs that went from a cell, closed in lease order.
ghost use Rattle.std.specs.Prelude.{◌≡◌, ℕ, List, [], ◌∷◌, map};
ghost use Rattle.relay_outside.specs.declared.settings.Config.{Config};
ghost use Rattle.relay_outside.specs.DeviceLogs.{Gained, WhereLogged};
ghost use Rattle.turn_table.specs.Hands.{entries};
ghost use Rattle.call_board.specs.Boards.{BoardMatches, KeepsCalls, pairs_in};
ghost use Rattle.call_board.specs.Views.{View, with_returned};
ghost use Rattle.call_board.specs.Shapes.{board_shape, shape_returns};
ghost use Rattle.relay_core.specs.PlaceHistories.{GoneHome};
ghost use Rattle.media_ports.specs.OpenPorts.{OpensHeld};
ghost use Rattle.board_turns.specs.NestedSteps.{closing_of};
ghost use Rattle.board_turns.specs.Closings.{leases_of_legs, closings_of, ClosesLegs, pairs_left};
ghost use Rattle.board_turns.specs.Ties.{TiesTakes};
ghost use Rattle.board_turns.specs.BoardTurns.{CanNest, MakesNested, MayClose, StaysInTurn};

use crate::board_turn::BoardTurn;
use crate::boxes::shut_box;
use media_ports::{PairEnds, close_pair};
use port_pool::Lease;
use relay_outside::{Config, PortMaker};
use std::sync::Wait;

/// Closes one leg: its box, then its two ports, that for RTP first, and then the lease of its pair is given back.
fn close_leg<P: PortMaker, R: Wait>(rt: &R, turn: &mut BoardTurn<P>, leg: (Lease, P::Out, P::Out))
    requires may { CanNest turn.old.main }
    requires can { MayClose P.log turn.old (leg ∷ []) }
    requires home { GoneHome P.Out.log turn.old.main.config.now (leg ∷ []) }
    ensures stays { StaysInTurn P.log P.faults turn.old turn.new }
    ensures gained { MakesNested (closings_of turn.old.main.config.now (leg ∷ [])) turn.old.main turn.new.main }
    ensures returned { (config : Config) (v : View) → BoardMatches config turn.old.board.now v → BoardMatches config turn.new.board.now (with_returned v (leg.0.pair ∷ [])) }
    ensures calls { KeepsCalls turn.old.board.now turn.new.board.now }
    ensures pool { board_shape turn.new.board.now ≡ shape_returns (leg.0.pair ∷ []) (board_shape turn.old.board.now) }
    ensures closes { Gained (P.log turn.old.ports.now) (P.log turn.new.ports.now) (ClosesLegs P.Out.log turn.old.main.config.now (leg ∷ [])) }
    ensures open { (held : List ℕ) → WhereLogged (P.log turn.old.ports.now) (λ calls. OpensHeld turn.old.main.config.now calls held) →
        WhereLogged (P.log turn.new.ports.now) (λ calls. OpensHeld turn.old.main.config.now calls (pairs_left (leg.0.pair ∷ []) held)) }
    ensures takes { TiesTakes turn.old.main.config.now (P.log turn.old.ports.now) (P.log turn.new.ports.now) (entries turn.old.main.hand.now) (entries turn.new.main.hand.now) }
    ensures rest { turn.new.gone.now ≡ turn.old.gone.now }
{
    let (lease, rtp_out, rtcp_out) = leg;
    let (rtp_in, rtcp_in) = shut_box(rt, &mut turn.main, lease.pair());
    let ends = PairEnds {
        rtp_in,
        rtp_out,
        rtcp_in,
        rtcp_out,
    };
    close_pair(turn.ports, turn.main.config, &lease, ends);
    turn.board.give_back(lease);
}

/// Closes the legs that went from a cell, in lease order, and leaves none: of each leg the box is shut, its two ports
/// are given to the port maker, that for RTP first, each with the ends that were opened for it, and then its pair goes back
/// to the board. The out ends of each leg were opened for the ports of its pair. It takes no memory.
pub fn close_legs<P: PortMaker, R: Wait>(rt: &R, turn: &mut BoardTurn<P>)
    requires may { CanNest turn.old.main }
    requires can { MayClose P.log turn.old turn.old.gone.now }
    requires home { GoneHome P.Out.log turn.old.main.config.now turn.old.gone.now }
    ensures stays { StaysInTurn P.log P.faults turn.old turn.new }
    ensures gained { MakesNested (closings_of turn.old.main.config.now turn.old.gone.now) turn.old.main turn.new.main }
    ensures returned { (config : Config) (v : View) → BoardMatches config turn.old.board.now v → BoardMatches config turn.new.board.now (with_returned v (pairs_in (leases_of_legs turn.old.gone.now))) }
    ensures calls { KeepsCalls turn.old.board.now turn.new.board.now }
    ensures pool { board_shape turn.new.board.now ≡ shape_returns (pairs_in (leases_of_legs turn.old.gone.now)) (board_shape turn.old.board.now) }
    ensures closes { Gained (P.log turn.old.ports.now) (P.log turn.new.ports.now) (ClosesLegs P.Out.log turn.old.main.config.now turn.old.gone.now) }
    ensures open { (held : List ℕ) → WhereLogged (P.log turn.old.ports.now) (λ calls. OpensHeld turn.old.main.config.now calls held) →
        WhereLogged (P.log turn.new.ports.now) (λ calls. OpensHeld turn.old.main.config.now calls (pairs_left (pairs_in (leases_of_legs turn.old.gone.now)) held)) }
    ensures takes { TiesTakes turn.old.main.config.now (P.log turn.old.ports.now) (P.log turn.new.ports.now) (entries turn.old.main.hand.now) (entries turn.new.main.hand.now) }
    ensures empty { turn.new.gone.now ≡ [] }
{
    while let Some(leg) = turn.gone.pop() {
        close_leg(rt, turn, leg);
    }
}
