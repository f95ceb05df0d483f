//! What a command line asks for.
use relay_outside::{Addr, Config};

/// What the words of `serve` say.
#[derive(Clone, Copy, PartialEq, Eq, Debug)]
pub struct Settings {
    /// What the relay is run with: its interface has version 4, the other one, if any, version 6, and its range of ports holds a pair.
    pub config: Config,
    /// Where the control link is bound.
    pub listen: Addr,
    /// After how many takes that gave a datagram or nothing the run ends.
    pub turns: u64,
    /// How many threads relay media, at most 16; 0: the one that answers commands does.
    pub threads: u32,
}

/// What the words of `replay` say.
#[derive(Clone, Copy, PartialEq, Eq, Debug)]
pub struct ReplaySettings {
    /// What the relay is replayed with: its interface has version 4, the other one, if any, version 6, and its range of ports holds a pair.
    pub config: Config,
    /// From which number the keys are drawn that the script doesn't give.
    pub seed: u64,
}

/// What the words of `load` say.
#[derive(Clone, Copy, PartialEq, Eq, Debug)]
pub struct LoadSettings {
    /// What the relay is run with: what `replay` without words is.
    pub config: Config,
    /// How many calls are made, 1 to 1,000.
    pub calls: u32,
    /// How many packets each side of a call sends, 1 to 1,000.
    pub packets: u32,
    /// How many lanes relay them, 1 to 16.
    pub lanes: u32,
    /// From which number the keys are drawn.
    pub seed: u64,
}

/// How a run of `serve` relays media, by its words.
#[derive(Clone, Copy, PartialEq, Eq, Debug)]
pub struct Media {
    /// How many threads relay it, at most 16; 0: the one that answers commands does.
    pub threads: u32,
    /// How many pairs of ports there are: those of the range for each interface.
    pub pairs: u32,
    /// How many pairs of ports the range holds: even ports whose next port is in it too.
    pub range_pairs: u16,
    /// The RTP port of the first pair: the first even port of the range.
    pub first_port: u16,
}

/// What a command line asks for.
#[derive(Clone, Copy, PartialEq, Eq, Debug)]
pub enum Task {
    /// To serve a SIP proxy.
    Serve(Settings),
    /// To replay a script.
    Replay(ReplaySettings),
    /// To relay generated calls.
    Load(LoadSettings),
}
