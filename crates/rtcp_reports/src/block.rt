ghost use Rattle.std.specs.Prelude.{◌≡◌, ◌+◌, ◌<◌, ◌≤◌, ◌^◌, length};
ghost use Rattle.rtp_packet.specs.Head.{u16_at, u32_at};
ghost use Rattle.rtcp_reports.specs.ReportBlocks.{signed_24, block_at};

/// The bytes of a report block (RFC 3550 section 6.4.1).
pub(crate) const BLOCK_SIZE: usize = 24;

/// A report block: what a receiver tells of the packets that it got from one source (RFC 3550 section 6.4.1). The times of
/// the last sender report, which end a block, are left out.
#[derive(Clone, Copy, PartialEq, Eq, Debug)]
pub struct Block {
    /// The synchronization source whose packets the block is about.
    pub ssrc: u32,
    /// Of 256 packets expected since the report before, how many were lost.
    pub fraction: u8,
    /// How many packets were lost since reception began, from -2^23 to 2^23 - 1. It is negative where duplicates came.
    pub lost: i32,
    /// The highest sequence number received, in the lower 16 bits, and in the upper 16 how often numbers began again.
    pub highest: u32,
    /// The interarrival jitter, in units of the media's RTP clock.
    pub jitter: u32,
}

fn read_u16(part: &[u8], place: usize) -> u16
    requires { place + 2 ≤ length part.now }
    ensures { result ≡ u16_at part.now place }
{
    u16::from(part[place]) * 256 + u16::from(part[place + 1])
}

fn read_u32(part: &[u8], place: usize) -> u32
    requires { place + 4 ≤ length part.now }
    ensures { result ≡ u32_at part.now place }
{
    u32::from(read_u16(part, place)) * 65_536 + u32::from(read_u16(part, place + 2))
}

/// The number with a sign that these 24 bits are, in two's complement.
fn signed_24(bits: u32) -> i32
    requires { bits < 2 ^ 24 }
    ensures { result ≡ signed_24 bits }
{
    if bits < 0x80_0000 {
        bits as i32
    } else {
        bits as i32 - 0x100_0000
    }
}

/// The block that stands at a place.
pub(crate) fn read_block(part: &[u8], place: usize) -> Block
    requires { place + 24 ≤ length part.now }
    ensures { result ≡ block_at part.now place }
{
    let lost = u32::from(part[place + 5]) * 65_536 + u32::from(read_u16(part, place + 6));
    Block {
        ssrc: read_u32(part, place),
        fraction: part[place + 4],
        lost: signed_24(lost),
        highest: read_u32(part, place + 8),
        jitter: read_u32(part, place + 12),
    }
}
