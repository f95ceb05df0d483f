ghost use Rattle.std.specs.Prelude.{◌≡◌, ◌≤◌};

use call_cell::Incoming;
use port_pool::TakeBuffer;
use relay_outside::Addr;

/// A datagram that a take of a box gave: its source and bytes, the half that it was taken at, the box and the number of the take
/// among the box's events, and the leg that held the box then.
///
/// It can't be cloned, so it is relayed once.
#[derive(Drop)]
pub struct Receipt {
    /// The pair whose box it was taken from, from 0.
    pub(crate) pair: u32,
    /// The number of the take, from 0.
    pub(crate) take: u64,
    /// For whom it was taken, its half, source and length.
    pub(crate) packet: Incoming,
    /// The bytes, at the front.
    pub(crate) bytes: TakeBuffer,
    ghost short: { packet.len ≤ 2000 },
}

impl Receipt {
    ghost use Rattle.media_lane.specs.Lanes.{packet_of};

    /// Where the datagram came from: the address and the port of its sender, as the end gave them.
    pub fn source(&self) -> Addr
        ensures { result ≡ (packet_of self.now).source }
    {
        self.packet.source
    }

    /// The bytes of the datagram as it came, at most 2,000.
    pub fn bytes(&self) -> &[u8]
        ensures { result.now ≡ (packet_of self.now).bytes }
    {
        &self.bytes[..self.packet.len]
    }
}
