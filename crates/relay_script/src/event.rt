use call_cell::Outcome;
use ng_bencode::Text;
use relay_outside::Addr;

/// What a replay prints a line for.
#[derive(Drop)]
pub enum Printed {
    /// The reply to a datagram, and where it goes.
    Reply(Addr, Text),
    /// No reply was due.
    Silent,
    /// The take of the control link failed.
    ReadFault,
    /// The send of the control link failed.
    ReplyFault,
    /// A packet is received under this number.
    Took(u32),
    /// Nothing came: the port isn't open.
    Nothing,
    /// The packet filled 2,001 bytes.
    TooLong,
    /// The take of the port failed.
    TakeFault,
    /// What became of a packet.
    Relayed {
        /// Its outcome.
        outcome: Outcome,
        /// The bytes that were sent, where the outcome is that they were; no others are printed.
        bytes: Text,
    },
    /// How many calls a tick ended.
    Ended(usize),
    /// The number of the line that is not in the grammar, or names a receipt that isn't held.
    ScriptFault(u32),
}
