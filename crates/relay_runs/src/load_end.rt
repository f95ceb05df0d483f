//! How a load ends, and why it prints nothing.
ghost use Rattle.std.specs.Prelude.{◌≡◌};
ghost use Rattle.relay_runs.specs.Statuses.{load_status};

use crate::status::Status;

/// How a call of `load` ended.
#[derive(Clone, Copy, PartialEq, Eq, Debug)]
pub enum LoadEnd {
    /// Every packet was taken, and the line was printed.
    Finished,
    /// Every packet was taken. The sink met a fault and did not take the line.
    PrintFault,
    /// Out of memory before the first control turn. Nothing was printed.
    NotBegun,
    /// The calls were begun, and not all of it was done. Nothing was printed.
    CutShort(Shortfall),
}

/// Why a load that was begun printed nothing.
#[derive(Clone, Copy, PartialEq, Eq, Debug)]
pub enum Shortfall {
    /// A device has not kept the list of its calls, for want of memory.
    Untold,
    /// A reply is no success.
    ReplyFailed,
    /// Each reply is a success, and the control turns ended before the end of the control link, as where a take has no memory for its datagram.
    TakeFailed,
    /// The control turns found the end of the control link, but it gave not all datagrams, or the lanes took other packets than those of the calls.
    EndsDiffer,
}

impl LoadEnd {
    /// The status that tells of it.
    pub fn status(self) -> Status
        ensures { result ≡ load_status self }
    {
        match self {
            LoadEnd::Finished => Status::Ok,
            LoadEnd::PrintFault => Status::PrintFault,
            LoadEnd::NotBegun | LoadEnd::CutShort(_) => Status::OutOfMemory,
        }
    }
}
