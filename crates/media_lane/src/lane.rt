ghost use Rattle.std.specs.Prelude.{◌≡◌, ◌<◌, ◌≤◌, ◌+◌};
ghost use Rattle.turn_table.specs.Hands.{HasNoTurn, starts};
ghost use Rattle.media_lane.specs.Starts.{HasLaneStarts, starts_props};

use crate::rooms::Rooms;
use relay_core::{Happening, Part, Relay};
use relay_outside::{Config, InEnd, OutEnd};
use turn_table::{Hand, Machine};

/// The hand of a lane: what a lane relays media with, but for the rooms that its packets stand in, which many lanes of a thread share.
#[derive(Drop)]
pub struct LaneHand<I: InEnd, O: OutEnd>
where
    Relay<I, O>: Machine<State = Part<I, O>, Event = Happening, Outcome = ()>,
{
    pub(crate) hand: Hand<Relay<I, O>>,
    /// What the relay is run with.
    pub(crate) config: Config,
    /// The lane's number, from 0.
    pub(crate) index: u32,
    /// How many lanes there are.
    pub(crate) lanes: u32,
    ghost idle: { HasNoTurn hand },
    ghost begins: { HasLaneStarts config (starts hand) } by { Prim.hlevel starts_props },
    ghost one_of: { index < lanes },
}

impl<I: InEnd, O: OutEnd> LaneHand<I, O> {
    ghost use Rattle.media_lane.specs.Lanes.{hand_in, config_in, index_in, lanes_in};

    /// That of the lane with this number, of this many lanes: a hand that holds no turn. Its table began with as many places as the parts
    /// of the configuration, each of its kind.
    pub fn new(hand: Hand<Relay<I, O>>, index: u32, lanes: u32, config: &Config) -> LaneHand<I, O>
        requires one_of { index < lanes }
        requires idle { HasNoTurn hand }
        requires begins { HasLaneStarts config.now (starts hand) }
        ensures hand { hand_in result ≡ hand }
        ensures config { config_in result ≡ config.now }
        ensures number { (index_in result ≡ index) × (lanes_in result ≡ lanes) }
    {
        LaneHand {
            hand,
            config: *config,
            index,
            lanes,
        }
    }

    /// The lane's number, from 0.
    pub fn index(&self) -> u32
        ensures { result ≡ index_in self.now }
    {
        self.index
    }

    /// The hand, which holds no turn.
    pub fn into_hand(self) -> Hand<Relay<I, O>>
        ensures hand { result ≡ hand_in self }
        ensures idle { HasNoTurn result }
    {
        let LaneHand { hand, .. } = self;
        hand
    }
}

/// A lane with rooms of its own: a hand of the table, and room for a datagram that is taken and for one that is sent.
#[derive(Drop)]
pub struct Lane<I: InEnd, O: OutEnd>
where
    Relay<I, O>: Machine<State = Part<I, O>, Event = Happening, Outcome = ()>,
{
    pub(crate) own: LaneHand<I, O>,
    /// Room for a datagram that is taken, and for the packet of the last relay, as it was sent.
    pub(crate) rooms: Rooms,
}

impl<I: InEnd, O: OutEnd> Lane<I, O> {
    ghost use Rattle.std.specs.Prelude.{[]};
    ghost use Rattle.media_lane.specs.Lanes.{hand_of, lane_config, index_of, lanes_of, sent_last};

    /// The lane with this number, of this many lanes, on a hand that holds no turn. The hand's table began with as many places as
    /// the parts of the configuration, each of its kind.
    pub fn new(hand: Hand<Relay<I, O>>, index: u32, lanes: u32, config: &Config) -> Lane<I, O>
        requires one_of { index < lanes }
        requires idle { HasNoTurn hand }
        requires begins { HasLaneStarts config.now (starts hand) }
        ensures hand { hand_of result ≡ hand }
        ensures config { lane_config result ≡ config.now }
        ensures number { (index_of result ≡ index) × (lanes_of result ≡ lanes) }
        ensures nothing_sent { sent_last result ≡ [] }
    {
        Lane {
            own: LaneHand::new(hand, index, lanes, config),
            rooms: Rooms::new(),
        }
    }

    /// The bytes that the last relay sent: none before the first, and where the last one's outcome was not `Sent`.
    pub fn sent_bytes(&self) -> &[u8]
        ensures { result.now ≡ sent_last self.now }
    {
        self.rooms.sent()
    }

    /// The lane's hand, which holds no turn.
    pub fn into_hand(self) -> Hand<Relay<I, O>>
        ensures hand { result ≡ hand_of self }
        ensures idle { HasNoTurn result }
    {
        let Lane { own, .. } = self;
        own.into_hand()
    }
}
