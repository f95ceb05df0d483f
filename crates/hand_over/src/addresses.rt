//! The pair of an address.
ghost use Rattle.std.specs.Prelude.{◌≡◌, ◌<◌, ℕ};
ghost use Rattle.relay_outside.specs.Settings.{AreFamilies, pair_count};
ghost use Rattle.rtp_packet.specs.declared.head.Half.TheVariants.{Rtp};
ghost use Rattle.port_pool.specs.Ports.{port_address, rtcp_address};
ghost use Rattle.relay_core.specs.Entries.{box_of};

use relay_outside::{Addr, Config, Ip};

/// The pair of which the port for RTP has this address.
pub(crate) fn pair_at(config: &Config, at: Addr) -> u32
    requires families { AreFamilies config.now }
    requires of_pair { (pair : ℕ) × (pair < pair_count config.now) × (at ≡ port_address config.now pair Rtp) }
    ensures { (pair : ℕ) → pair < pair_count config.now → at ≡ port_address config.now pair Rtp → result ≡ pair }
{
    let place = (u32::from(at.port) - config.first_port()) / 2;
    match at.ip {
        Ip::V4(_) => place,
        Ip::V6(_) => config.range_pairs() + place,
    }
}

/// The address of the port for RTCP of a pair, by that of its port for RTP.
pub(crate) fn rtcp_address(at: Addr) -> Addr
    requires { at.port < 65535 }
    ensures { result ≡ rtcp_address at }
{
    Addr {
        ip: at.ip,
        port: at.port + 1,
    }
}

/// The place of a pair's box, after the board and the cells.
pub(crate) fn box_place(config: &Config, pair: u32) -> usize
    ensures { result ≡ box_of config.now pair }
{
    config.max_sessions as usize + 1 + pair as usize
}
