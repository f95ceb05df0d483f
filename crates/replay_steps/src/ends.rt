//! Which end of a pair has a port.
ghost use Rattle.std.specs.Prelude.{◌≡◌, ◌<◌, ◌+◌, ◌*◌};
ghost use Rattle.replay_steps.specs.Arrivals.{HasEnd};

use relay_outside::{Config, Family, Ip};
use rtp_packet::Half;

/// The end of a pair that has a port, in the family of the address: the pair, and the half. `None`: no pair has it.
pub(crate) fn find_end(config: &Config, port: u16, source: Ip) -> Option<(u32, Half)>
    ensures { HasEnd config.now port source result }
{
    let first = config.first_port();
    let port = u32::from(port);
    let count = config.range_pairs();
    if port < first {
        return None;
    }
    let place = (port - first) / 2;
    if place >= count {
        return None;
    }
    let pair = match source.family() {
        Family::V4 => place,
        Family::V6 => count + place,
    };
    if pair >= config.pairs() {
        return None;
    }
    if (port - first) % 2 == 0 {
        Some((pair, Half::Rtp))
    } else {
        Some((pair, Half::Rtcp))
    }
}
