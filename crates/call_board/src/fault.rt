//! Why the board refuses an offer or an answer, and what a plan's fault and out of memory become.

ghost use Rattle.std.specs.Prelude.{◌≡◌};
ghost use Rattle.call_board.specs.declared.fault.BoardFault.TheVariants.{OutOfMemory as out_of_memory};
ghost use Rattle.call_board.specs.Plans.{board_fault};

use offer_answer::OaFault;
use relay_outside::OutOfMemory;

/// Why the board refuses an offer or an answer: the first that holds, in this order, but that memory may run out before any of them. Nothing
/// has changed then.
#[derive(Clone, Copy, Debug, PartialEq, Eq)]
pub enum BoardFault {
    /// No live call has the call-id of the answer.
    UnknownCall,
    /// The call is ending.
    Ending,
    /// A tag is no side's where it must be one's, or both tags of an answer are the same.
    UnknownTag,
    /// The last offer was made by the other side.
    OtherSide,
    /// The number of sections isn't that of the offer, or less than that of the last committed one.
    MediaCount,
    /// An address of an active section is of another family than its side's leg, or its addresses are of two.
    Family,
    /// A section with SRTP has no crypto line that can be used (RFC 4568).
    NoCrypto,
    /// As many calls are live as may be.
    SessionLimit,
    /// Of some family fewer port pairs are free than the offer demands.
    NoPair,
    /// Out of memory.
    OutOfMemory,
}

impl From<OaFault> for BoardFault {
    ghost from_gives = { λ fault refused. refused ≡ board_fault fault };

    fn from(fault: OaFault) -> BoardFault {
        match fault {
            OaFault::UnknownTag => BoardFault::UnknownTag,
            OaFault::OtherSide => BoardFault::OtherSide,
            OaFault::MediaCount => BoardFault::MediaCount,
            OaFault::Family => BoardFault::Family,
            OaFault::NoCrypto => BoardFault::NoCrypto,
            OaFault::OutOfMemory => BoardFault::OutOfMemory,
        }
    }
}

impl From<OutOfMemory> for BoardFault {
    ghost from_gives = { λ _ refused. refused ≡ out_of_memory };

    fn from(_refused: OutOfMemory) -> BoardFault {
        BoardFault::OutOfMemory
    }
}
