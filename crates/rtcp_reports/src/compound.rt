ghost use Rattle.std.specs.Prelude.{◌≡◌, ◌↔◌, IsTrue, IsSome, IfSome};
ghost use Rattle.rtcp_reports.specs.Compound.{part_size, begins_with_part};
ghost use Rattle.rtcp_reports.specs.ReportBlocks.{last_report_block};

use crate::block::Block;
use crate::part::last_in_part;

/// The version of RTP that RTCP packets carry too (RFC 3550 section 6.4.1).
const VERSION: u8 = 2;

/// How long the part is that begins these bytes, where one does.
fn leading_part(bytes: &[u8]) -> Option<usize>
    ensures begins { IsSome result ↔ IsTrue (begins_with_part bytes.now) }
    ensures size { IfSome result (λ size. size ≡ part_size bytes.now) }
{
    if bytes.len() < 4 || bytes[0] / 64 != VERSION {
        return None;
    }
    let size = 4 + 4 * (usize::from(bytes[2]) * 256 + usize::from(bytes[3]));
    if size <= bytes.len() {
        Some(size)
    } else {
        None
    }
}

/// The last report block of a plain RTCP compound packet (RFC 3550 sections 6.1 and 6.4), `None` exactly where it has none.
///
/// The parts of the packet, which RFC 3550 calls its individual RTCP packets, begin at its first byte and then each after the
/// one before. A part is 4 bytes and 4 for each unit of its length field, has version 2 and lies wholly inside the packet; the
/// first that doesn't ends the parts. A sender report (packet type 200) or receiver report (201) has as many blocks of 24
/// bytes as its count says, after 28 or 8 bytes (sections 6.4.1 and 6.4.2), and they count only where they lie inside it.
pub fn last_block(packet: &[u8]) -> Option<Block>
    ensures { result ≡ last_report_block packet.now }
{
    let mut rest = packet;
    let mut last = None;
    'parts: while let Some(size) = leading_part(rest) {
        last = last_in_part(&rest[..size]).or(last);
        rest = &rest[size..];
    }
    last
}
