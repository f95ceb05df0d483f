//! What an offer takes by its plan: pairs, ports and keys, all of them or none.
ghost use Rattle.std.specs.Prelude.{◌≡◌, ◌≤◌, ◌<◌, ◌+◌, ◌*◌, ◌^◌, ℕ, List, [], length, IfOk, IfErr, OnOk, OnErr};
ghost use Rattle.relay_outside.specs.declared.settings.Config.{Config};
ghost use Rattle.relay_outside.specs.DeviceLogs.{Gained, WhereLogged};
ghost use Rattle.relay_outside.specs.Settings.{AreFamilies};
ghost use Rattle.port_pool.specs.Ports.{pair_count};
ghost use Rattle.port_pool.specs.Pools.{AreFree};
ghost use Rattle.media_ports.specs.Addresses.{addresses_of, AreLeased};
ghost use Rattle.media_ports.specs.Calls.{OpensPairs, NoneOpen, SameOpen, WhereBothLogged};
ghost use Rattle.media_ports.specs.Draws.{AreDrawn};
ghost use Rattle.media_ports.specs.Ends.{ArePairsOpened};
ghost use Rattle.media_ports.specs.ReturnedEnds.{GivesBackUncalled};
ghost use Rattle.media_ports.specs.OpenPorts.{LogsHeld, HasBoth};
ghost use Rattle.call_board.specs.Boards.{BoardMatches, KeepsCalls, KeepsReplies, leases_at, pairs_in};
ghost use Rattle.call_board.specs.Plans.{leased};
ghost use Rattle.call_board.specs.Views.{View};
ghost use Rattle.call_board.specs.Whole.{with_draws};
ghost use Rattle.call_board.specs.Shapes.{board_shape};
ghost use Rattle.offer_answer.specs.Offers.{legs_demanded};
ghost use Rattle.offer_command.specs.Brings.{HasLeaseRoom, rtp_ports};
ghost use Rattle.offer_command.specs.Leases.{CanLease, pairs_of_plan, keys_of_plan, planned_pairs, with_taken};
ghost use Rattle.offer_command.specs.Shapes.{ShapeTakes, ShapeUndoes, shape_with_draws};
ghost use Rattle.offer_command.specs.Undo.{ComesEarly, DrawsBefore, HasRisen, UndoesPorts, keys_before, with_undone};

use crate::description::list_ports;
use call_board::{Board, BoardPlan};
use media_ports::{DrawnList, OpenedPairs, close_opened, draw_keys, open_pairs};
use port_pool::Leases;
use relay_outside::{Config, KeySource, PortMaker};

/// Why an offer was undone.
#[derive(Drop)]
pub enum LeaseFault {
    /// A port could not be opened. No key was drawn.
    Port {
        /// How many ports were opened before it.
        opened: usize,
    },
    /// A draw failed, when all ports were open.
    Key {
        /// The keys that were drawn before it. They are used up.
        drawn: DrawnList,
    },
}

impl LeaseFault {
    /// How many keys were drawn before the fault.
    pub(crate) fn keys(&self) -> usize
        ensures { result ≡ length (keys_before self.now) }
    {
        match self {
            LeaseFault::Port { .. } => 0,
            LeaseFault::Key { drawn } => drawn.as_slice().len(),
        }
    }
}

/// Room for what an offer takes: the ends of its opened ports, its ports for RTP, and its drawn keys.
#[derive(Drop)]
pub struct LeaseRoom<I, O> {
    /// The ends, in the order of leases.
    pub opened: OpenedPairs<I, O>,
    /// The ports for RTP, in the order of leases.
    pub numbers: Vec<u16>,
    /// The keys.
    pub drawn: DrawnList,
}

/// The leases of an offer with the ends of their opened ports, in the order of its plan's legs.
#[derive(Drop)]
pub struct LeasedPairs<I, O> {
    /// The leases.
    pub leases: Leases,
    /// The ends of their ports.
    pub opened: OpenedPairs<I, O>,
}

/// The plan of an offer, whose leases were made, with what is filled into it.
#[derive(Drop)]
pub struct LeasedPlan {
    /// The plan.
    pub plan: BoardPlan,
    /// The ports for RTP of its leases, in the order of its legs.
    pub numbers: Vec<u16>,
    /// The drawn keys, in the order in which it demands them.
    pub drawn: DrawnList,
    /// The number of the first of them; the others follow.
    pub first_key: u64,
}

/// What an offer took by its plan.
#[derive(Drop)]
pub struct LeasedOffer<I, O> {
    /// The plan.
    pub plan: LeasedPlan,
    /// The leases and their ends.
    pub pairs: LeasedPairs<I, O>,
}

/// The last port of the range, which has 16 bits.
pub(crate) fn last_port(config: &Config) -> u16
    ensures { (result ≡ config.now.port_max) × (result < 2 ^ 16) }
{
    config.port_max
}

/// Numbers this many drawn keys.
fn count_draws(board: &mut Board, count: usize)
    requires { (config : Config) × (v : View) × BoardMatches config board.old v × (v.drawn + count ≤ 2 ^ 63) }
    ensures drawn { (config : Config) (v : View) → BoardMatches config board.old v → BoardMatches config board.new (with_draws v count) }
    ensures calls { KeepsCalls board.old board.new }
    ensures replies { KeepsReplies board.old board.new }
    ensures shape { board_shape board.new ≡ shape_with_draws count (board_shape board.old) }
{
    for _drawn in 0..count {
        board.count_draw();
    }
}

/// Opens the ports of leased pairs, and then draws this many keys. It takes no memory: the lists have room. After a fault the ports
/// that were opened are closed again.
fn open_and_draw<P: PortMaker, K: KeySource>(
    ports: &mut P,
    keys: &mut K,
    config: &Config,
    leases: &Leases,
    count: usize,
    room: LeaseRoom<P::In, P::Out>,
) -> Result<LeaseRoom<P::In, P::Out>, LeaseFault>
    requires opened { (room.opened.list ≡ []) × (length leases.now.list ≤ room.opened.room) }
    requires drawn { (room.drawn.list ≡ []) × (count ≤ room.drawn.room) }
    requires families { AreFamilies config.now }
    requires leased { AreLeased config.now leases.now.list }
    requires closed { WhereLogged (P.log ports.old) (NoneOpen (addresses_of config.now leases.now.list)) }

    ensures opens { OnOk result (Gained (P.log ports.old) (P.log ports.new) (OpensPairs config.now leases.now.list)) }
    ensures pairs { IfOk result (λ taken. length taken.opened.list ≡ length leases.now.list) }
    ensures are_opened { IfOk result (λ taken. ArePairsOpened P.In.log P.Out.log config.now leases.now.list taken.opened.list) }
    ensures draws { IfOk result (λ taken. Gained (K.log keys.old) (K.log keys.new) (AreDrawn taken.drawn.list)) }
    ensures count { IfOk result (λ taken. length taken.drawn.list ≡ count) }
    ensures rest { IfOk result (λ taken. taken.numbers ≡ room.numbers) }

    ensures closes { IfErr result (λ fault. Gained (P.log ports.old) (P.log ports.new) (UndoesPorts (addresses_of config.now leases.now.list) fault)) }
    ensures early { IfErr result (ComesEarly (length leases.now.list) count) }
    ensures same { OnErr result (WhereBothLogged (P.log ports.old) (P.log ports.new) SameOpen) }
    ensures draws_before { IfErr result (λ fault. DrawsBefore fault (K.log keys.old) (K.log keys.new)) }
    ensures cause { IfErr result (λ fault. HasRisen fault (P.faults ports.old) (P.faults ports.new) (K.faults keys.old) (K.faults keys.new)) }
    ensures later { (P.faults ports.old ≤ P.faults ports.new) × (K.faults keys.old ≤ K.faults keys.new) }
{
    let LeaseRoom {
        mut opened,
        numbers,
        mut drawn,
    } = room;
    if let Err(fault) = open_pairs(ports, config, leases, &mut opened) {
        opened.destroy_empty();
        return Err(LeaseFault::Port {
            opened: fault.opened,
        });
    }
    if draw_keys(keys, count, &mut drawn).is_err() {
        close_opened(ports, config, leases, &mut opened);
        opened.destroy_empty();
        return Err(LeaseFault::Key { drawn });
    }
    Ok(LeaseRoom {
        opened,
        numbers,
        drawn,
    })
}

/// Takes what a plan of an offer demands: leases its pairs, for each leg the one of its family that has been free for longest, opens
/// their ports pair by pair, that for RTP first, and draws and numbers its keys. It takes no memory: the lists are empty, and have room.
/// The plan is that of the last call on this board which planned or changed anything.
///
/// After a fault all of it is undone: the ports that were opened are closed in the order of their openings and the pairs wait
/// after all free ones. The keys that were drawn stay numbered.
pub fn lease_offer<P: PortMaker, K: KeySource>(
    config: &Config,
    board: &mut Board,
    ports: &mut P,
    keys: &mut K,
    plan: BoardPlan,
    room: LeaseRoom<P::In, P::Out>,
) -> Result<LeasedOffer<P::In, P::Out>, LeaseFault>
    requires can { CanLease config.now board.old (P.log ports.old) plan }
    requires room { HasLeaseRoom plan.plan room }

    // What the plan demands is leased, opened, drawn and numbered.
    ensures taken { IfOk result (λ took. (v : View) → BoardMatches config.now board.old v → AreFree (pair_count config.now) v.free →
        BoardMatches config.now board.new (with_taken v (planned_pairs config.now v plan) (length took.plan.drawn.list))) }
    ensures plan { IfOk result (λ took. took.plan.plan ≡ leased plan) }
    ensures leases { IfOk result (λ took. (v : View) → BoardMatches config.now board.old v → AreFree (pair_count config.now) v.free →
        took.pairs.leases.list ≡ leases_at config.now v (planned_pairs config.now v plan)) }
    ensures pairs { IfOk result (λ took. length took.pairs.leases.list ≡ pairs_of_plan plan) }
    ensures ports { IfOk result (λ took. took.plan.numbers.items ≡ rtp_ports took.pairs.leases.list) }
    ensures opened { IfOk result (λ took. length took.pairs.opened.list ≡ length took.pairs.leases.list) }
    ensures are_opened { IfOk result (λ took. ArePairsOpened P.In.log P.Out.log config.now took.pairs.leases.list took.pairs.opened.list) }
    ensures opens { IfOk result (λ took. Gained (P.log ports.old) (P.log ports.new) (OpensPairs config.now took.pairs.leases.list)) }
    ensures are_open { IfOk result (λ took. (held now : List ℕ) → LogsHeld config.now (P.log ports.old) held → HasBoth held (pairs_in took.pairs.leases.list) now → LogsHeld config.now (P.log ports.new) now) }
    ensures keys { IfOk result (λ took. length took.plan.drawn.list ≡ keys_of_plan plan) }
    ensures draws { IfOk result (λ took. Gained (K.log keys.old) (K.log keys.new) (AreDrawn took.plan.drawn.list)) }
    ensures first { IfOk result (λ took. (v : View) → BoardMatches config.now board.old v → took.plan.first_key ≡ v.drawn) }
    ensures low { IfOk result (λ took. took.plan.first_key ≤ 2 ^ 63) }
    ensures shape { IfOk result (λ took. ShapeTakes (legs_demanded plan.plan) took.pairs.leases.list (board_shape board.old) (board_shape board.new)) }

    // After a fault all of it is undone, but for the keys that were drawn.
    ensures undone { IfErr result (λ fault. (v : View) → BoardMatches config.now board.old v → AreFree (pair_count config.now) v.free →
        BoardMatches config.now board.new (with_undone v (planned_pairs config.now v plan) (length (keys_before fault)))) }
    ensures shape_undone { OnErr result (ShapeUndoes (legs_demanded plan.plan) (board_shape board.old) (board_shape board.new)) }
    ensures early { IfErr result (ComesEarly (pairs_of_plan plan) (keys_of_plan plan)) }
    ensures closes { IfErr result (λ fault. (v : View) → BoardMatches config.now board.old v → AreFree (pair_count config.now) v.free →
        Gained (P.log ports.old) (P.log ports.new) (UndoesPorts (addresses_of config.now (leases_at config.now v (planned_pairs config.now v plan))) fault)) }
    ensures same { OnErr result (WhereBothLogged (P.log ports.old) (P.log ports.new) SameOpen) }
    ensures still_open { OnErr result ((held : List ℕ) → LogsHeld config.now (P.log ports.old) held → LogsHeld config.now (P.log ports.new) held) }
    ensures draws_before { IfErr result (λ fault. DrawsBefore fault (K.log keys.old) (K.log keys.new)) }
    ensures cause { IfErr result (λ fault. HasRisen fault (P.faults ports.old) (P.faults ports.new) (K.faults keys.old) (K.faults keys.new)) }

    // Either way no end that is given back was called, and no address called for but those of the configuration.
    ensures gives_back { Gained (P.log ports.old) (P.log ports.new) (GivesBackUncalled config.now) }
    ensures later { (P.faults ports.old ≤ P.faults ports.new) × (K.faults keys.old ≤ K.faults keys.new) }
    ensures calls { KeepsCalls board.old board.new }
    ensures replies { KeepsReplies board.old board.new }
{
    let _last = last_port(config);
    let mut plan = plan;
    let first_key = board.next_key();
    let leases = board.lease(&mut plan);
    let count = plan.planned().keys();
    match open_and_draw(ports, keys, config, &leases, count, room) {
        Ok(taken) => {
            let LeaseRoom {
                opened,
                mut numbers,
                drawn,
            } = taken;
            count_draws(board, drawn.as_slice().len());
            list_ports(&leases, &mut numbers);
            Ok(LeasedOffer {
                plan: LeasedPlan {
                    plan,
                    numbers,
                    drawn,
                    first_key,
                },
                pairs: LeasedPairs { leases, opened },
            })
        }
        Err(fault) => {
            count_draws(board, fault.keys());
            board.undo_offer(plan, leases);
            Err(fault)
        }
    }
}
