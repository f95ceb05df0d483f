//! What a run prepares before its control turns.
ghost use Rattle.std.specs.Prelude.{◌≡◌, ◌*◌, ◌<◌, Some, IfOk};
ghost use Rattle.relay_outside.specs.Settings.{AreFamilies};
ghost use Rattle.relay_runs.specs.Preparations.{IsPreparedRun};
ghost use Rattle.relay_runs.specs.Threads.{due_in};
ghost use Rattle.relay_runs.specs.declared.lane_shares.Due.{Due};

use crate::lane_shares::{Due, LaneRoom};
use ng_server::{Desk, Server};
use relay_core::{Happening, Part, Relay};
use relay_outside::{Config, LaneShare, OutOfMemory, PortMaker};
use std::alloc::Global;
use turn_table::{Hand, Machine};

/// What a run has taken memory for when it begins: a server that has taken no turn yet, and what its control turns and its threads of media need.
pub(crate) struct Prepared<P: PortMaker>
where
    Relay<P::In, P::Out>: Machine<State = Part<P::In, P::Out>, Event = Happening, Outcome = ()>,
{
    /// The server. It has to be closed.
    pub(crate) server: Server<P>,
    /// The main hand, which has all parts of the table.
    pub(crate) hand: Hand<Relay<P::In, P::Out>>,
    /// The memory of a control turn.
    pub(crate) desk: Desk<P::Out>,
    /// The threads of media, and room for their lanes.
    pub(crate) room: LaneRoom<P::In, P::Out>,
}

impl<P: PortMaker> Prepared<P> {
    /// Takes the memory of a run with this configuration, of which each interface has an address of its family, and whose lanes are shared out so. Where it is known how many datagrams come, each thread has
    /// one lane, and knows how many come to that.
    pub(crate) fn reserve(
        alloc: Global,
        config: Config,
        share: LaneShare,
        due: Option<Due>,
    ) -> Result<Prepared<P>, OutOfMemory>
    where
        P::In: Drop,
        P::Out: Drop,
        requires { AreFamilies config }
        ensures prepared { IfOk result (λ prepared. IsPreparedRun config share.threads share.lanes prepared) }
        ensures due { (all : Due) → due ≡ Some all → 0 < share.threads → IfOk result (λ prepared. due_in prepared.room.threads.items ≡ all.pairs * all.packets) }
    {
        let desk = Desk::new(alloc)?;
        let room = LaneRoom::reserve(alloc, share, due)?;
        let (server, hand) = Server::start(alloc, config)?;
        Ok(Prepared {
            server,
            hand,
            desk,
            room,
        })
    }
}
