ghost use Rattle.std.specs.Prelude.{◌≡◌, ◌<◌, true, length, slice_index_or};
ghost use Rattle.call_cell.specs.declared.saved.LegSaved.{LegSaved};
ghost use Rattle.call_cell.specs.TakenEnds.{leased_address};

use crate::contexts::{Inbound, Outbound};
use crate::counts::Counts;
use crate::leg::leased_address;
use endpoint_learn::Learner;
use port_pool::{Holder, Lease, LegSignal};
use relay_outside::{Addr, Config};
use rtcp_reports::Block;

/// What a cell is saved as: all that it keeps but the out ends of its legs. Each such record is one of some cell.
#[derive(Drop)]
pub struct CellSaved {
    /// What the relay is run with.
    pub config: Config,
    /// The greatest moment that the cell was handed, in milliseconds.
    pub moment: u64,
    /// The call's number, while the cell holds one.
    pub call: Option<u64>,
    /// When the call's first offer was made, in milliseconds; that of an earlier call, while the cell holds none.
    pub began: u64,
    /// Whether an answer committed the call.
    pub is_committed: bool,
    /// When the last answer was committed, or the last packet accepted since then, in milliseconds; that of an earlier call, until an
    /// answer commits this one.
    pub active: u64,
    /// The call's legs, in lease order.
    pub legs: Vec<LegSaved>,
}

/// What a leg of a cell is saved as.
#[derive(Drop)]
pub struct LegSaved {
    /// The leg's identity.
    pub holder: Holder,
    /// The lease of its pair.
    pub lease: Lease,
    /// What was committed for it last.
    pub signal: Option<LegSignal>,
    /// Where packets of RTP go, from the first commit on.
    pub rtp: Option<Learner>,
    /// Where packets of RTCP go, from the first commit on.
    pub rtcp: Option<Learner>,
    /// The contexts of the inbound key, where there is one.
    pub inbound: Option<Inbound>,
    /// The contexts of its key for the suite with tags of 80 bits.
    pub tag80: Option<Outbound>,
    /// The contexts of its key for the suite with tags of 32 bits.
    pub tag32: Option<Outbound>,
    /// How many packets it accepted and sent.
    pub counts: Counts,
    /// The last report block from its side, where one came.
    pub report: Option<Block>,
}

impl CellSaved {
    /// Whether some cell is saved so: each record is one's.
    pub fn is_cell(&self) -> bool
        ensures { result ≡ true }
    {
        true
    }

    /// How many legs the record names.
    pub fn leg_count(&self) -> usize
        ensures { result ≡ length self.now.legs.items }
    {
        self.legs.len()
    }

    /// The address of the port for RTP of the leg at this place, from 0.
    pub fn leg_address(&self, index: usize) -> Addr
        requires { index < length self.now.legs.items }
        ensures { (d : LegSaved) → result ≡ leased_address self.now.config (slice_index_or self.now.legs.items index d).lease }
    {
        leased_address(&self.config, &self.legs[index].lease)
    }
}
