ghost use Rattle.std.specs.Prelude.{◌≡◌, ◌≤◌, ◌≢◌, List, [], map, length, take, IfOk, IfErr};
ghost use Rattle.relay_outside.specs.DeviceLogs.{Gained, Rose, is_done};
ghost use Rattle.relay_outside.specs.Settings.{AreFamilies};
ghost use Rattle.relay_outside.specs.declared.settings.Config.{Config};
ghost use Rattle.turn_table.specs.Hands.{IsSameHand, IsHandOf, HasNoTurn, parts, starts, entries};
ghost use Rattle.call_board.specs.Calls.{live};
ghost use Rattle.relay_core.specs.Entries.{Entry};
ghost use Rattle.relay_core.specs.Legal.{Orderly, Legal};
ghost use Rattle.relay_core.specs.Safe.{BoardSafe, Safe};
ghost use Rattle.relay_core.specs.Records.{as_logged};
ghost use Rattle.relay_core.specs.Turns.{made_by};
ghost use Rattle.relay_core.specs.FirstPlaces.{AreParts};
ghost use Rattle.relay_core.specs.Joins.{IsSound, AreStanding};
ghost use Rattle.relay_core.specs.RowMoments.{AreTimed};
ghost use Rattle.relay_core.specs.Continued.{AreLeftBy, IsSoundAfter, continued};
ghost use Rattle.relay_core.specs.KeptAfter.{IsWholeNow};
ghost use Rattle.relay_core.specs.WholeParts.{AreWholeParts};
ghost use Rattle.relay_core.specs.EndLogs.{InOrder, InsAreTold, OutsAreTold};
ghost use Rattle.media_ports.specs.Openings.{NoneOpened};
ghost use Rattle.media_ports.specs.OpenPorts.{LogsHeld};
ghost use Rattle.board_turns.specs.Between.{IsBetween, MakesTurn};
ghost use Rattle.board_turns.specs.Stops.{stop_entry};
ghost use Rattle.board_turns.specs.Ticks.{Ticks};
ghost use Rattle.ng_server.specs.ControlTurns.{TakesDatagram, TakesNoDatagram, Turned, turn_after};
ghost use Rattle.ng_server.specs.Servers.{OpensJust, history_of};
ghost use Rattle.board_turns.specs.Ties.{PortsFollowRows};

use crate::control_turn::ControlTurn;
use crate::datagram::{Arrived, answer_datagram};
use crate::desk::{DATAGRAM_ROOM, Desk};
use board_turns::{Between, stop_turn, tick_turn};
use control_messages::Request;
use ng_frame::split;
use relay_core::{Part, Relay, close_relay, parts};
use relay_outside::{
    Addr, Config, ControlLink, Failed, InEnd, KeySource, OutEnd, OutOfMemory, PortMaker, Taken,
};
use std::alloc::Global;
use std::sync::Wait;
use turn_table::{Hand, Turns};

/// How many bytes a datagram of the control protocol may have.
const LONGEST: usize = 16_384;

/// A relay under the ng control protocol: the table of its turns, which threads share by reference, and its configuration. It has to
/// be closed, by the hand that has all parts.
pub struct Server<P: PortMaker> {
    pub(crate) config: Config,
    pub(crate) turns: Turns<Relay<P::In, P::Out>>,
}

/// The table of a relay before its first step, and its main hand.
fn start_table<I: InEnd + Drop, O: OutEnd + Drop>(
    alloc: Global,
    config: &Config,
) -> Result<(Turns<Relay<I, O>>, Hand<Relay<I, O>>), OutOfMemory>
    requires { AreFamilies config.now }
    ensures between { IfOk result (λ r. IsBetween config.now r.0 r.1) }
    ensures nothing { IfOk result (λ r. made_by r.1 ≡ []) }
    ensures all { IfOk result (λ r. parts r.1 ≡ 1024) }
{
    let states = parts(alloc, config)?;
    match Turns::start(alloc, states) {
        Ok(started) => Ok(started),
        Err(_) => Err(OutOfMemory),
    }
}

/// Takes a datagram from the link into the front of a desk's room, and returns its source and its length; where there is none, how the
/// turn ends.
fn take_datagram<N: ControlLink>(
    link: &mut N,
    room: &mut [u8],
) -> Result<(Addr, usize), ControlTurn>
    requires { length room.old ≡ DATAGRAM_ROOM }
    ensures within { IfOk result (λ taken. taken.1 ≤ length room.new) }
    ensures taken { IfOk result (λ taken. TakesDatagram taken.0 (take taken.1 room.new) (N.log link.old) (N.log link.new)) }
    ensures none { IfErr result (λ turn. TakesNoDatagram turn (N.log link.old) (N.log link.new)) }
    ensures read_fault { IfErr result (λ turn. turn ≡ ControlTurn.ReadFault → Rose (N.faults link.old) (N.faults link.new)) }
    ensures later { N.faults link.old ≤ N.faults link.new }
{
    match link.take(room) {
        Ok(Taken::Datagram { from, len }) => Ok((from, len)),
        Ok(Taken::Nothing) => Err(ControlTurn::Nothing),
        Ok(Taken::End) => Err(ControlTurn::End),
        Err(_) => Err(ControlTurn::ReadFault),
    }
}

/// How a turn ends whose reply was sent, or not.
fn turn_after(sent: Result<(), Failed>) -> ControlTurn
    ensures { result ≡ turn_after (is_done sent) }
{
    match sent {
        Ok(()) => ControlTurn::Replied,
        Err(_) => ControlTurn::ReplyFault,
    }
}

impl<P: PortMaker> Server<P> {
    /// A server without a call, and its main hand, which has all parts of the table. Each interface of the configuration has an address
    /// of its family.
    pub fn start(
        alloc: Global,
        config: Config,
    ) -> Result<(Server<P>, Hand<Relay<P::In, P::Out>>), OutOfMemory>
    where
        P::In: Drop,
        P::Out: Drop,
        requires { AreFamilies config }
        ensures config { IfOk result (λ r. r.0.config ≡ config) }
        ensures between { IfOk result (λ r. IsBetween r.0.config r.0.turns r.1) }
        ensures nothing { IfOk result (λ r. made_by r.1 ≡ []) }
        ensures all { IfOk result (λ r. parts r.1 ≡ 1024) }
    {
        let (turns, hand) = start_table(alloc, &config)?;
        Ok((Server { config, turns }, hand))
    }

    /// The table, for the lanes.
    pub fn turns(&self) -> &Turns<Relay<P::In, P::Out>>
        ensures { result.now ≡ self.now.turns }
    {
        &self.turns
    }

    /// Takes one datagram from the link into the desk, and replies to it, in one turn of the board.
    ///
    /// A datagram without a frame gets no reply. Every other gets exactly one, to its source: the one that is kept for its cookie,
    /// or else the one that is due, which is then kept, also where its send fails. An offer leases pairs and opens their ports, and
    /// all of it is undone after a fault; what ends closes its ports. Where memory runs out, the reply says so, and nothing is done.
    /// `now` is in milliseconds; a moment before that of the board's last entry counts as that one. It may wait for the board's turn, and
    /// for those of boxes and cells.
    ///
    /// A datagram without a frame, and a take that gave none, make no entry, so the board's last moment stays; a repeat raises it.
    pub fn control_turn<N: ControlLink, K: KeySource, R: Wait>(
        &self,
        rt: &R,
        alloc: Global,
        hand: &mut Hand<Relay<P::In, P::Out>>,
        desk: &mut Desk<P::Out>,
        link: &mut N,
        ports: &mut P,
        keys: &mut K,
        now: u64,
    ) -> ControlTurn
        requires between { IsBetween self.now.config self.now.turns hand.old }
        requires open { OpensJust self.now.config (history_of hand.old) (P.log ports.old) }
        ensures same { IsSameHand hand.old hand.new }
        ensures between { IsBetween self.now.config self.now.turns hand.new }
        ensures safe { BoardSafe self.now.config (made_by hand.new) }
        ensures open { OpensJust self.now.config (history_of hand.new) (P.log ports.new) }
        ensures turned { Turned self.now.config hand.old hand.new now result (P.faults ports.old) (P.faults ports.new) (K.faults keys.old) (K.faults keys.new) (P.log ports.old) (P.log ports.new) (K.log keys.old) (K.log keys.new) (N.log link.old) (N.log link.new) }
        ensures read_fault { result ≡ ControlTurn.ReadFault → Rose (N.faults link.old) (N.faults link.new) }
        ensures reply_fault { result ≡ ControlTurn.ReplyFault → Rose (N.faults link.old) (N.faults link.new) }
        ensures ties { PortsFollowRows self.now.config (P.log ports.old) (P.log ports.new) (entries hand.old) (entries hand.new) }
        ensures later { (N.faults link.old ≤ N.faults link.new) × (P.faults ports.old ≤ P.faults ports.new) × (K.faults keys.old ≤ K.faults keys.new) }
    {
        let (from, len) = match take_datagram(link, desk.datagram.as_mut_slice()) {
            Ok((from, len)) => (from, len),
            Err(turn) => return turn,
        };
        let datagram = &desk.datagram.as_slice()[..len];
        let Some((cookie, body)) = split(datagram) else {
            return ControlTurn::Silent;
        };
        let request = Request {
            source: from,
            cookie,
            body,
            too_long: datagram.len() > LONGEST,
        };
        let arrived = Arrived {
            request,
            moment: now,
            alloc,
        };
        let mut at = Between {
            turns: &self.turns,
            config: &self.config,
            hand,
            ports,
            gone: &mut desk.gone,
        };
        turn_after(answer_datagram(rt, &mut at, link, keys, &arrived))
    }

    /// Ends all live calls, in order of their creation, and returns how many. Then no port of a pair is open. It may wait for turns;
    /// it takes no memory.
    /// It makes its entry where no call is live, too, and ends no history: entries may follow it.
    pub fn stop<R: Wait>(
        &self,
        rt: &R,
        hand: &mut Hand<Relay<P::In, P::Out>>,
        desk: &mut Desk<P::Out>,
        ports: &mut P,
    ) -> usize
        requires between { IsBetween self.now.config self.now.turns hand.old }
        requires open { OpensJust self.now.config (history_of hand.old) (P.log ports.old) }
        ensures same { IsSameHand hand.old hand.new }
        ensures between { IsBetween self.now.config self.now.turns hand.new }
        ensures makes { MakesTurn self.now.config hand.old hand.new (stop_entry (history_of hand.old)) }
        ensures count { result ≡ length (live (history_of hand.old)) }
        ensures shut { LogsHeld self.now.config (P.log ports.new) [] }
        ensures closes { Gained (P.log ports.old) (P.log ports.new) NoneOpened }
        ensures ties { PortsFollowRows self.now.config (P.log ports.old) (P.log ports.new) (entries hand.old) (entries hand.new) }
        ensures later { P.faults ports.old ≤ P.faults ports.new }
    {
        let mut at = Between {
            turns: &self.turns,
            config: &self.config,
            hand,
            ports,
            gone: &mut desk.gone,
        };
        stop_turn(rt, &mut at)
    }

    /// Makes a tick in one turn of the board: asks each live call, in order of their creation, whether it is due, ends each that is, and returns
    /// how many it ended.
    ///
    /// An answered call is due when its last answer and its last accepted packet are both at least the configuration's `timeout_ms` ago, and a
    /// call without an answer when it began at least `offer_timeout_ms` ago. `now` is in milliseconds; a moment before that of the board's last
    /// entry counts as that one. It may wait for the board's turn, and for those of boxes and cells; it takes no memory.
    pub fn timer_turn<R: Wait>(
        &self,
        rt: &R,
        hand: &mut Hand<Relay<P::In, P::Out>>,
        desk: &mut Desk<P::Out>,
        ports: &mut P,
        now: u64,
    ) -> usize
        requires between { IsBetween self.now.config self.now.turns hand.old }
        requires open { OpensJust self.now.config (history_of hand.old) (P.log ports.old) }
        ensures same { IsSameHand hand.old hand.new }
        ensures between { IsBetween self.now.config self.now.turns hand.new }
        ensures safe { BoardSafe self.now.config (made_by hand.new) }
        ensures open { OpensJust self.now.config (history_of hand.new) (P.log ports.new) }
        ensures ticks { Ticks self.now.config hand.old hand.new now result }
        ensures closes { Gained (P.log ports.old) (P.log ports.new) NoneOpened }
        ensures ties { PortsFollowRows self.now.config (P.log ports.old) (P.log ports.new) (entries hand.old) (entries hand.new) }
        ensures later { P.faults ports.old ≤ P.faults ports.new }
    {
        let mut at = Between {
            turns: &self.turns,
            config: &self.config,
            hand,
            ports,
            gone: &mut desk.gone,
        };
        tick_turn(rt, &mut at, now)
    }

    /// Closes the table by the hand that has all its parts, and returns what its places hold, in order. It takes no memory.
    ///
    /// The hand's list is then that of all steps of all places. With what each relay noted, protected and sent added to its outcome
    /// it is legal, and so safe. Where the places began with what an earlier list had left, it goes on from that one: both together
    /// are legal, and leave what the places hold now. Where what the board, the cells and the boxes keep goes together, so do the states
    /// that are returned: a node may begin with them.
    pub fn close(self, hand: Hand<Relay<P::In, P::Out>>) -> Vec<Part<P::In, P::Out>>
        requires table { IsHandOf self.turns hand }
        requires all { parts hand ≡ 1024 }
        requires idle { HasNoTurn hand }
        ensures length { length result.items ≡ length (starts hand) }
        ensures continued { (before : List Entry) → AreLeftBy self.config before (starts hand) → IsSoundAfter self.config before (entries hand) → (l : List Entry) × (map as_logged l ≡ made_by hand) × AreLeftBy self.config (continued self.config before l) result.items }
        ensures states { AreParts self.config (starts hand) → IsSound self.config (entries hand) → AreStanding self.config result.items (made_by hand) }
        ensures legal { AreParts self.config (starts hand) → IsSound self.config (entries hand) → (l : List Entry) × (map as_logged l ≡ made_by hand) × Legal self.config l × Safe self.config l × OutsAreTold (entries hand) l }
        ensures ins { AreParts self.config (starts hand) → IsSound self.config (entries hand) → InOrder (made_by hand) → InsAreTold self.config (entries hand) }
        ensures timed { AreParts self.config (starts hand) → IsSound self.config (entries hand) → AreTimed (entries hand) }
        ensures whole { AreWholeParts self.config (starts hand) → IsWholeNow self.config hand → AreWholeParts self.config result.items }
    {
        let Server { config: _, turns } = self;
        close_relay(turns, hand)
    }
}
