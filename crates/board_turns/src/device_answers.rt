//! What the devices returned in the turn of a datagram.

use media_ports::DrawnList;
use port_pool::LegReports;

/// What the devices returned in the turn of a datagram. The board's entry records it: a proof takes it from here.
#[derive(Drop)]
pub enum DeviceAnswers {
    /// No device was called.
    Nothing,
    /// Out of memory.
    OutOfMemory,
    /// This many ports were opened, and the next could not be.
    PortFault(usize),
    /// This many ports were opened, and these keys drawn; the next draw failed.
    KeyFault(usize, DrawnList),
    /// This many ports were opened, and these keys drawn.
    Offered(usize, DrawnList),
    /// The call that was asked after was read: these are the reports of its legs.
    Report(LegReports),
    /// The call was read, and then memory ran out.
    ReportOutOfMemory(LegReports),
}
