use crate::address::{Family, Ip};

/// The flags of an offer or an answer that say whose packets are taken, and where packets go.
#[derive(Clone, Copy, PartialEq, Eq, Debug)]
pub struct Flags {
    /// `strict source`: once a source is learned, packets of any other are refused.
    pub strict: bool,
    /// `media handover`: a later source takes the place of the learned one.
    pub handover: bool,
    /// `asymmetric`: nothing is learned; packets go to the signalled address.
    pub asymmetric: bool,
}

/// What the relay is run with.
#[derive(Clone, Copy, PartialEq, Eq, Debug)]
pub struct Config {
    /// The address that is written into descriptions and on which ports are opened, of version 4.
    pub interface: Ip,
    /// The same of version 6, where there is one.
    pub interface6: Option<Ip>,
    /// The lowest port of the range for media.
    pub port_min: u16,
    /// The highest port of the range for media.
    pub port_max: u16,
    /// After how many milliseconds without a packet a committed call ends.
    pub timeout_ms: u64,
    /// After how many milliseconds an offer that was never answered ends.
    pub offer_timeout_ms: u64,
    /// How many calls may be live at a time.
    pub max_sessions: u32,
}

impl Config {
    ghost use Rattle.std.specs.Prelude.{◌≡◌, ◌≤◌};
    ghost use Rattle.relay_outside.specs.Settings.{first_port, range_pairs, pair_count, pair_family, interface_of};

    /// The address that is written into descriptions and on which ports are opened, for a family. `interface`, where there is no interface
    /// of version 6.
    pub fn interface_of(&self, family: Family) -> Ip
        ensures { result ≡ interface_of self.now family }
    {
        match family {
            Family::V4 => self.interface,
            Family::V6 => self.interface6.unwrap_or(self.interface),
        }
    }

    /// The first even port of the range; 65,536, where the range has only the last odd one.
    pub fn first_port(&self) -> u32
        ensures { result ≡ first_port self.now }
    {
        u32::from(self.port_min) + u32::from(self.port_min) % 2
    }

    /// How many pairs of ports the range holds: even ports whose next port is in it too.
    #[tactic(auto, unfolding(crate::specs::Settings::range_pairs))]
    pub fn range_pairs(&self) -> u32
        ensures count { result ≡ range_pairs self.now }
        ensures within { result ≤ 32768 }
    {
        (u32::from(self.port_max) + 1).saturating_sub(self.first_port()) / 2
    }

    /// How many pairs of ports there are: those of the range for each interface.
    #[tactic(auto, unfolding(crate::specs::Settings::pair_count))]
    pub fn pairs(&self) -> u32
        ensures count { result ≡ pair_count self.now }
        ensures within { result ≤ 65536 }
    {
        match self.interface6 {
            None => self.range_pairs(),
            Some(_) => 2 * self.range_pairs(),
        }
    }

    /// The family of the interface at which a pair has its ports: pairs are numbered from 0, those of version 4 first.
    pub fn pair_family(&self, pair: u32) -> Family
        ensures { result ≡ pair_family self.now pair }
    {
        if pair < self.range_pairs() {
            Family::V4
        } else {
            Family::V6
        }
    }
}
