use crate::receipt::Receipt;
use call_cell::Outcome;

/// The result of a try to receive.
#[derive(Drop)]
pub enum Received {
    /// A datagram of at most 2,000 bytes was taken.
    Got(Receipt),
    /// The box was closed, or its end had nothing.
    Nothing,
    /// Another hand had the box's turn; nothing was taken.
    Busy {
        /// How many events the box had made, as was seen just after.
        front: u64,
    },
    /// A datagram of more than 2,000 bytes was taken, and dropped.
    TooLong,
    /// The take of the end failed; its count of faults rose.
    TakeFault,
}

/// The result of a try to relay.
#[derive(Drop)]
pub enum Relayed {
    /// The packet was relayed, with this outcome. Its receipt is spent.
    Done(Outcome),
    /// Another hand had the cell's turn; nothing was relayed.
    Busy {
        /// How many events the cell had made, as was seen just after.
        front: u64,
        /// The receipt, unspent.
        receipt: Receipt,
    },
}

/// What came of the datagrams that a lane took. A count that has reached 2^64 - 1 stays there.
#[derive(Clone, Copy, PartialEq, Eq, Debug)]
pub struct Totals {
    /// The datagrams of at most 2,000 bytes that were taken.
    pub taken: u64,
    /// Those that were sent.
    pub sent: u64,
    /// Those that were not accepted.
    pub refused: u64,
    /// Those that were accepted and not sent.
    pub lost: u64,
}
