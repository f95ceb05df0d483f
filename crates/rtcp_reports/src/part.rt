ghost use Rattle.std.specs.Prelude.{◌≡◌, ◌≤◌, length};
ghost use Rattle.histories.specs.Words.{final};
ghost use Rattle.rtcp_reports.specs.ReportBlocks.{blocks_begin, report_blocks};

use crate::block::{BLOCK_SIZE, Block, read_block};

/// The packet types of a sender report and of a receiver report (RFC 3550 section 12.1).
const SENDER_REPORT: u8 = 200;

const RECEIVER_REPORT: u8 = 201;

/// Where a report's first block begins, by its packet type: in a sender report after the header, the sender's SSRC and what it
/// tells of its sending, in a receiver report after the header and the sender's SSRC. `None` for a packet that is no report.
fn blocks_begin(packet_type: u8) -> Option<usize>
    ensures { result ≡ blocks_begin packet_type }
{
    match packet_type {
        SENDER_REPORT => Some(28),
        RECEIVER_REPORT => Some(8),
        _ => None,
    }
}

/// The last report block of one RTCP packet of a compound. `None` exactly where it has none: where it is no report, says that
/// it has none, or is too short for one. Blocks that it says it has count only where they lie inside it.
pub(crate) fn last_in_part(part: &[u8]) -> Option<Block>
    requires { 4 ≤ length part.now }
    ensures { result ≡ final (report_blocks part.now) }
{
    let begin = blocks_begin(part[1])?;
    let room = part.len().saturating_sub(begin) / BLOCK_SIZE;
    let count = usize::from(part[0] % 32).min(room);
    if count == 0 {
        return None;
    }
    Some(read_block(part, begin + BLOCK_SIZE * (count - 1)))
}
