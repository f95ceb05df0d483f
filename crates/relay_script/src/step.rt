ghost use Rattle.std.specs.Prelude.{◌≡◌};
ghost use Rattle.relay_script.specs.declared.step.ParseFault.TheVariants.{OutOfMemory as out_of_memory};

use ng_bencode::{OutOfMemory, Text};
use relay_outside::{Addr, KeyAndSalt};

/// Which calls a line `fail` counts.
#[derive(Clone, Copy, PartialEq, Eq, Debug)]
pub enum FailKind {
    /// The port maker's `open`.
    Open,
    /// The key source's `draw`.
    Draw,
    /// The take of an in end for a line `take` or `packet`.
    Take,
    /// The take of the control link for a line `ng`.
    Read,
    /// The control link's `send`.
    Reply,
}

/// What one line of a script asks for. Counts and the numbers of receipts begin at 1.
#[derive(Drop)]
pub enum Step {
    /// Nothing: the line is empty or a comment.
    Skip,
    /// The clock is set to this moment, in milliseconds.
    At(u64),
    /// The next draw gives this key.
    Key(KeyAndSalt),
    /// The call of this kind with this number from now fails.
    Fail(FailKind, u32),
    /// Of the out end that the next open of this port makes, the send with this number fails.
    FailSend(u16, u32),
    /// A datagram of this source comes over the control link.
    Ng(Addr, Text),
    /// A packet of this source arrives at this port and is received.
    Take(u16, Addr, Text),
    /// The receipt of this number is relayed.
    Relay(u32),
    /// A packet of this source arrives at this port, is received and relayed.
    Packet(u16, Addr, Text),
    /// One tick: each live call that is due is ended.
    Tick,
}

/// Why a line was not read.
#[derive(Clone, Copy, PartialEq, Eq, Debug)]
pub enum ParseFault {
    /// The line is not in the grammar.
    NotInGrammar,
    /// There was no memory for the bytes of its datagram.
    OutOfMemory,
}

impl From<OutOfMemory> for ParseFault {
    ghost from_gives = { λ _ fault. fault ≡ out_of_memory };

    fn from(_refused: OutOfMemory) -> ParseFault {
        ParseFault::OutOfMemory
    }
}
