use crate::cases::none_failed;
use rtcp_reports::{Block, last_block};

const fn block(ssrc: u32, lost: i32) -> Block {
    Block {
        ssrc,
        fraction: 5,
        lost,
        highest: 65_636,
        jitter: 32,
    }
}

/// Packets with the source and the number lost of their last report block. The values stand in the packets at the places of
/// RFC 3550, figures of sections 6.4.1 and 6.4.2.
const LAST_BLOCKS: &[(&[u8], Option<(u32, i32)>)] = &[
    (
        b"\x81\xc9\x00\x07\x11\x11\x11\x11\x22\x22\x22\x22\x05\x00\x00\x03\x00\x01\x00\x64\x00\x00\x00\x20\x00\x00\x00\x00\x00\x00\x00\x00",
        Some((0x2222_2222, 3)),
    ),
    (
        b"\x81\xc9\x00\x07\x11\x11\x11\x11\x22\x22\x22\x22\x05\xff\xff\xff\x00\x01\x00\x64\x00\x00\x00\x20\x00\x00\x00\x00\x00\x00\x00\x00",
        Some((0x2222_2222, -1)),
    ),
    // cut, so that no part lies wholly inside
    (b"\x81\xc9\x00\x07\x11\x11\x11\x11", None),
    // of version 1
    (
        b"\x41\xc9\x00\x07\x11\x11\x11\x11\x22\x22\x22\x22\x05\x00\x00\x03\x00\x01\x00\x64\x00\x00\x00\x20\x00\x00\x00\x00\x00\x00\x00\x00",
        None,
    ),
    // a sender report, which says that it has two blocks and has room for one; a receiver report without one; a part that is cut
    (
        b"\x82\xc8\x00\x0c\x11\x11\x11\x11\x00\x00\x00\x00\x00\x00\x00\x00\x00\x00\x00\x00\x00\x00\x00\x00\x00\x00\x00\x00\
          \x33\x33\x33\x33\x05\x80\x00\x00\x00\x01\x00\x64\x00\x00\x00\x20\x00\x00\x00\x00\x00\x00\x00\x00\
          \x80\xc9\x00\x01\x11\x11\x11\x11\
          \x81\xc9\x00\x07\x11\x11\x11\x11\x22\x22\x22\x22\x05\x00\x00\x03\x00\x01\x00\x64\x00\x00\x00\x20\x00\x00\x00\x00",
        Some((0x3333_3333, -0x80_0000)),
    ),
    (b"", None),
];

fn other_block() -> Option<usize> {
    for (number, (packet, wanted)) in LAST_BLOCKS.iter().enumerate() {
        if last_block(packet) != wanted.map(|(ssrc, lost)| block(ssrc, lost)) {
            return Some(number);
        }
    }
    None
}

#[test]
fn last_report_blocks(rt: HostRuntime) {
    none_failed(&rt, "LAST_BLOCKS", other_block());
}
