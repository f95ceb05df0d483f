ghost use Rattle.std.specs.Prelude.{◌≡◌, ◌<◌};
ghost use Rattle.port_pool.specs.Ports.{pair_count, port_address, place_in_family};

use relay_outside::{Addr, Config};
use rtp_packet::Half;

/// The place of a pair among those of its family, of which there are so many.
pub(crate) fn place_in_family(per_family: u32, pair: u32) -> u32
    ensures { result ≡ place_in_family per_family pair }
{
    if pair < per_family {
        pair
    } else {
        pair - per_family
    }
}

/// The address of the port of a pair's half, at the interface of the pair's family: RTP has the even port, and RTCP the next one (RFC 3550
/// section 11). Pairs are numbered from 0.
pub fn port_address(config: &Config, pair: u32, half: Half) -> Addr
    requires { pair < pair_count config.now }
    ensures { result ≡ port_address config.now pair half }
{
    prove!(config.port_max <= 65_535);
    let place = place_in_family(config.range_pairs(), pair);
    let even = config.first_port() + 2 * place;
    let port = match half {
        Half::Rtp => even,
        Half::Rtcp => even + 1,
    };
    Addr {
        ip: config.interface_of(config.pair_family(pair)),
        port: port as u16,
    }
}
