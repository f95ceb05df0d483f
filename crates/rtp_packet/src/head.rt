ghost use Rattle.std.specs.Prelude.{◌≡◌, ◌+◌, ◌≤◌, length, IfSome};
ghost use Rattle.rtp_packet.specs.Head.{u16_at, u32_at, extension_size, rtp_head, rtcp_ssrc};

/// The version of RTP that both RTP and RTCP packets carry (RFC 3550 section 5.1).
const VERSION: u8 = 2;

/// The bytes of an RTP head without contributing sources and without an extension.
const FIXED_HEAD: usize = 12;

/// The bytes of an RTCP packet that hold its first word and its sender's SSRC.
const CONTROL_HEAD: usize = 8;

/// The two flows of a media stream: media packets and the control packets that report on them (RFC 3550 section 1).
#[derive(Clone, Copy, PartialEq, Eq, Debug, Drop)]
pub enum Half {
    /// RTP: the media itself.
    Rtp,
    /// RTCP: reports, source descriptions and the like.
    Rtcp,
}

/// What the head of an RTP packet says (RFC 3550 section 5.1).
#[derive(Clone, Copy, PartialEq, Eq, Debug, Drop)]
pub struct RtpHead {
    /// The synchronization source that sent the packet.
    pub ssrc: u32,
    /// The sequence number.
    pub seq: u16,
    /// How many bytes stand before the payload: 12, 4 for each contributing source, and the extension.
    pub head: usize,
}

fn read_u16(packet: &[u8], place: usize) -> u16
    requires { place + 2 ≤ length packet.now }
    ensures { result ≡ u16_at packet.now place }
{
    u16::from(packet[place]) * 256 + u16::from(packet[place + 1])
}

fn read_u32(packet: &[u8], place: usize) -> u32
    requires { place + 4 ≤ length packet.now }
    ensures { result ≡ u32_at packet.now place }
{
    u32::from(read_u16(packet, place)) * 65_536 + u32::from(read_u16(packet, place + 2))
}

// The bytes of the extension that begins at `place`, after the contributing sources.
fn read_extension_size(packet: &[u8], place: usize) -> usize
    requires { place + 4 ≤ length packet.now }
    ensures { result ≡ extension_size packet.now place }
{
    4 + 4 * usize::from(read_u16(packet, place + 2))
}

/// The head of an RTP packet (RFC 3550 section 5.1). `None` exactly where the version isn't 2 or the packet is shorter
/// than its head: 12 bytes, 4 for each contributing source and, with the X bit, 4 and 4 for each word of the extension.
#[tactic(auto, unfolding(crate::specs::Head::rtp_head))]
pub fn rtp(packet: &[u8]) -> Option<RtpHead>
    ensures head { result ≡ rtp_head packet.now }
    ensures held { IfSome result (λ found. (12 ≤ found.head) × (found.head ≤ length packet.now)) }
{
    if packet.len() < FIXED_HEAD || packet[0] / 64 != VERSION {
        return None;
    }
    let sources_end = FIXED_HEAD + 4 * usize::from(packet[0] % 16);
    let mut head = sources_end;
    if packet[0] / 16 % 2 == 1 {
        if packet.len() < sources_end + 4 {
            return None;
        }
        head += read_extension_size(packet, sources_end);
    }
    if packet.len() < head {
        return None;
    }
    Some(RtpHead {
        ssrc: read_u32(packet, 8),
        seq: read_u16(packet, 2),
        head,
    })
}

/// The SSRC of the sender of an RTCP packet (RFC 3550 section 6.1), bytes 4 to 7. `None` exactly where the version isn't
/// 2, the second byte is no packet type of RTCP (192 to 223) or the packet has fewer than 8 bytes.
#[tactic(auto, unfolding(crate::specs::Head::rtcp_ssrc))]
pub fn rtcp(packet: &[u8]) -> Option<u32>
    ensures { result ≡ rtcp_ssrc packet.now }
{
    if packet.len() < CONTROL_HEAD || packet[0] / 64 != VERSION {
        return None;
    }
    match packet[1] {
        192..=223 => Some(read_u32(packet, 4)),
        _ => None,
    }
}
