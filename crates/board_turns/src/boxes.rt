//! The box of a port pair, opened and shut.
ghost use Rattle.std.specs.Prelude.{◌≡◌, ◌≤◌, ◌<◌, ℕ, [], ◌∷◌};
ghost use Rattle.relay_outside.specs.DeviceLogs.{IsOpenedFor};
ghost use Rattle.rtp_packet.specs.declared.head.Half.TheVariants.{Rtp, Rtcp};
ghost use Rattle.board_turns.specs.BoardTurns.{CanNest, MakesNested, Nests};
ghost use Rattle.port_pool.specs.Boxes.{Open, Close};
ghost use Rattle.port_pool.specs.Ports.{pair_count, port_address, AreOfPair};
ghost use Rattle.relay_core.specs.Entries.{Box, box_of};
ghost use Rattle.relay_core.specs.Scripts.{open_owed};
ghost use Rattle.relay_core.specs.Steps.{Relates};
ghost use Rattle.board_turns.specs.NestedSteps.{nested, leaving, ends_left, AddsRow, IsShut, IsTurnOpen, closing_of, OpensBox, Shuts};
ghost use Rattle.board_turns.specs.BoxStates.{CanShut, HasEnds};

use crate::board_turn::MainHand;
use crate::puts::put_step;
use port_pool::Holder;
use relay_core::{Part, Relay};
use relay_outside::{Config, InEnd, OutEnd};
use std::marker::Brand;
use std::sync::Wait;

/// The place of a pair's box, after the board and the cells.
fn box_place(config: &Config, pair: u32) -> usize
    ensures { result ≡ box_of config.now pair }
{
    config.max_sessions as usize + 1 + pair as usize
}

fn shut_part<I: InEnd, O: OutEnd>(part: &mut Part<I, O>) -> (I, I)
    requires { CanShut part.old }
    ensures step { (number handed : ℕ) → Relates I.log I.faults O.log O.faults part.old (leaving number handed 0 (Box Close) (ends_left I.log result)) part.new }
    ensures ends { HasEnds part.old result }
{
    match part {
        Part::Pair(pair) => pair.shut().unwrap(),
        Part::Board(_) => unreachable!(),
        Part::Cell(_) => unreachable!(),
    }
}

/// Opens the box of a leg's pair for the leg, with the in ends that were opened for the pair's ports for RTP and for RTCP, and not
/// called since. The box is shut.
/// Ends that were called could have lists that begin with calls that are no take's, or stand at another port.
pub fn open_box<I: InEnd, O: OutEnd, R: Wait>(
    rt: &R,
    main: &mut MainHand<I, O>,
    holder: Holder,
    rtp_end: I,
    rtcp_end: I,
)
    requires may { CanNest main.old }
    requires pair { holder.pair < pair_count main.old.config.now }
    requires cell { (1 ≤ holder.cell) × (holder.cell ≤ main.old.config.now.max_sessions) }
    requires shut { IsShut main.old.config.now main.old.hand.now holder.pair }
    requires ends { IsOpenedFor (port_address main.old.config.now holder.pair Rtp) (I.log rtp_end) × IsOpenedFor (port_address main.old.config.now holder.pair Rtcp) (I.log rtcp_end) }
    ensures nests { Nests main.old main.new }
    ensures gained { MakesNested (open_owed main.old.config.now holder ∷ []) main.old main.new }
    ensures ends { OpensBox I.log I.faults O.log O.faults main.old.hand.now (box_of main.old.config.now holder.pair) (nested main.old.entry_id.number main.old.entry_id.moment 0 (Box (Open holder))) (rtp_end, rtcp_end) }
{
    let mut step = main
        .turns
        .turn(rt, main.hand, box_place(main.config, holder.pair));
    let held = match step.state() {
        Part::Pair(held) => held,
        Part::Board(_) => unreachable!(),
        Part::Cell(_) => unreachable!(),
    };
    held.put_in(holder, rtp_end, rtcp_end);
    put_step::<I, O, Holder, (), Brand>(main.turns, main.hand, step, main.entry_id, &holder, &());
}

/// Shuts the box of a pair and gives its ends back, that for RTP first: those that were opened for the pair's ports. The box is open.
pub fn shut_box<I: InEnd, O: OutEnd, R: Wait>(
    rt: &R,
    main: &mut MainHand<I, O>,
    pair: u32,
) -> (I, I)
    requires may { CanNest main.old }
    requires pair { pair < pair_count main.old.config.now }
    requires open { IsTurnOpen main.old.config.now main.old.hand.now pair }
    ensures nests { Nests main.old main.new }
    ensures gained { MakesNested (closing_of main.old.config.now pair ∷ []) main.old main.new }
    ensures row { AddsRow (box_of main.old.config.now pair) (Box Close) (ends_left I.log result) main.old.hand.now main.new.hand.now }
    ensures home { AreOfPair I.log (port_address main.old.config.now pair Rtp) result.0 result.1 }
    ensures ends { Shuts I.log I.faults O.log O.faults main.old.hand.now (box_of main.old.config.now pair) (leaving main.old.entry_id.number main.old.entry_id.moment 0 (Box Close) (ends_left I.log result)) result }
{
    let mut step = main.turns.turn(rt, main.hand, box_place(main.config, pair));
    let ends = shut_part(step.state());
    put_step::<I, O, (), (I, I), Brand>(main.turns, main.hand, step, main.entry_id, &(), &ends);
    ends
}
