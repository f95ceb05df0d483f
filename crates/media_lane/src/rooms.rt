//! Where the packets of a lane stand, from the take to the send.
ghost use Rattle.std.specs.Prelude.{◌≡◌, ◌<◌, ◌≤◌, length, take};

use crate::relay::bytes_left;
use crate::take::take_from;
use call_cell::{Incoming, Outcome, PacketBuffer};
use port_pool::{BoxTake, TakeBuffer};
use relay_core::Part;
use relay_outside::{InEnd, OutEnd};
use rtp_packet::Half;

/// Two rooms for packets. In one stands what the last relay sent, at the front; the other one is free: a datagram is taken into it,
/// and relayed where it stands. With each relay they change parts, so that no byte of a packet moves between its take and its send.
/// With one room a take would write over what `sent_bytes` gives.
#[derive(Drop)]
pub struct Rooms {
    rooms: [PacketBuffer; 2],
    /// The number of the free one.
    free: usize,
    /// How many bytes the last relay sent.
    sent: usize,
    ghost one_of: { free < 2 },
    ghost within: { sent ≤ 2064 },
}

/// Puts these bytes at the front of a room.
fn put_front(room: &mut PacketBuffer, bytes: &[u8])
    requires { length bytes.now ≤ 2000 }
    ensures { take (length bytes.now) room.new ≡ bytes.now }
{
    room[..bytes.len()].copy_from_slice(bytes);
}

impl Rooms {
    ghost use Rattle.std.specs.Prelude.{[]};
    ghost use Rattle.call_cell.specs.LegHistories.{receipt_of};
    ghost use Rattle.relay_core.specs.PlaceHistories.{IsCellPart};
    ghost use Rattle.relay_core.specs.Steps.{Relates};
    ghost use Rattle.media_lane.specs.Starts.{IsPairPart};
    ghost use Rattle.media_lane.specs.Rooms.{front_in, last_in, sent_room};
    ghost use Rattle.media_lane.specs.Takes.{box_take_made};
    ghost use Rattle.media_lane.specs.Relays.{RelaysPart, bytes_sent};

    /// Two rooms, before the first relay.
    pub fn new() -> Rooms
        ensures { sent_room result ≡ [] }
    {
        Rooms {
            rooms: [[0; 2_064]; 2],
            free: 0,
            sent: 0,
        }
    }

    /// What the last relay sent.
    pub(crate) fn sent(&self) -> &[u8]
        ensures { result.now ≡ sent_room self.now }
    {
        &self.rooms[1 - self.free][..self.sent]
    }

    /// The front of the free room: the bytes of the last datagram that was taken stand there first.
    pub(crate) fn front(&self) -> &TakeBuffer
        ensures { result.now ≡ front_in self.now }
    {
        match self.rooms[self.free].first_chunk() {
            Some(front) => front,
            None => unreachable!(),
        }
    }

    /// Puts the bytes of a datagram at the front of the free room.
    pub(crate) fn put(&mut self, bytes: &[u8])
        requires { length bytes.now ≤ 2000 }
        ensures front { take (length bytes.now) (front_in self.new) ≡ bytes.now }
        ensures kept { sent_room self.new ≡ sent_room self.old }
    {
        put_front(&mut self.rooms[self.free], bytes);
    }

    /// Takes from a box, into the front of the free room.
    pub(crate) fn take_from<I: InEnd, O: OutEnd>(
        &mut self,
        part: &mut Part<I, O>,
        half: Half,
    ) -> BoxTake
        requires { IsPairPart part.old }
        ensures step { Relates I.log I.faults O.log O.faults part.old (box_take_made half result (front_in self.new)) part.new }
        ensures kept { sent_room self.new ≡ sent_room self.old }
    {
        let room = &mut self.rooms[self.free];
        match room.first_chunk_mut() {
            Some(front) => take_from(part, half, front),
            None => unreachable!(),
        }
    }

    /// Relays a packet that this take gave in a cell. Its bytes stand at the front of the free room, and what is sent of it after: that
    /// room is the last relay's then, and the other one free.
    pub(crate) fn relay_in<I: InEnd, O: OutEnd>(
        &mut self,
        part: &mut Part<I, O>,
        take: u64,
        packet: &Incoming,
        now: u64,
    ) -> Outcome
        requires cell { IsCellPart part.old }
        requires short { packet.now.len ≤ 2000 }
        ensures step { RelaysPart O.log O.faults (receipt_of take packet.now (front_in self.old)) now part.old (last_in self.new) result part.new }
        ensures sent { sent_room self.new ≡ bytes_sent result (last_in self.new) }
    {
        let room = &mut self.rooms[self.free];
        let outcome = match part {
            Part::Cell(cell) => cell.relay(packet, room, now),
            Part::Board(_) => unreachable!(),
            Part::Pair(_) => unreachable!(),
        };
        self.sent = bytes_left(outcome, room);
        self.free = 1 - self.free;
        outcome
    }
}
