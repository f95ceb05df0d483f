//! A saved board as the records that are written of it, and back.
ghost use Rattle.state_values.specs.BoardParts.{ArePartsOf};

use crate::relays::RelaySaved;
use call_board::{BoardSaved, CallSaved};
use cookie_cache::CacheSaved;
use port_pool::PoolSaved;

/// What a saved board is written as: a value of each of these.
#[derive(Drop)]
pub struct BoardParts {
    /// What the relay is run with, its last moment and its counts.
    pub relay: RelaySaved,
    /// The port pairs.
    pub pool: PoolSaved,
    /// The live calls, in order of creation.
    pub calls: Vec<CallSaved>,
    /// The kept replies.
    pub replies: CacheSaved,
}

/// The records of a saved board. It takes no memory.
pub fn board_parts(saved: BoardSaved) -> BoardParts
    ensures { ArePartsOf saved result }
{
    let BoardSaved {
        config,
        moment,
        begun,
        drawn,
        calls,
        pool,
        replies,
    } = saved;
    let relay = RelaySaved {
        config,
        moment,
        begun,
        drawn,
    };
    BoardParts {
        relay,
        pool,
        calls,
        replies,
    }
}

/// The saved board of these records. It takes no memory.
pub fn board_of_parts(parts: BoardParts) -> BoardSaved
    ensures { ArePartsOf result parts }
{
    let BoardParts {
        relay,
        pool,
        calls,
        replies,
    } = parts;
    BoardSaved {
        config: relay.config,
        moment: relay.moment,
        begun: relay.begun,
        drawn: relay.drawn,
        calls,
        pool,
        replies,
    }
}
