//! Why an offer or an answer is refused, and how out of memory becomes it.

ghost use Rattle.std.specs.Prelude.{◌≡◌};
ghost use Rattle.offer_answer.specs.declared.fault.OaFault.TheVariants.{OutOfMemory as out_of_memory};

use relay_outside::OutOfMemory;

/// Why an offer or an answer is refused.
#[derive(Clone, Copy, Debug, PartialEq, Eq)]
pub enum OaFault {
    /// A tag is no side's where it must be one's, or both tags of an answer are the same.
    UnknownTag,
    /// The last offer was made by the other side.
    OtherSide,
    /// The number of sections isn't that of the offer, or less than that of the last committed one.
    MediaCount,
    /// An address of an active section is of another family than its side's leg, or its addresses are of two.
    Family,
    /// A section with SRTP has no crypto line that can be used (RFC 4568).
    NoCrypto,
    /// Out of memory. The dialog is as before.
    OutOfMemory,
}

impl From<OutOfMemory> for OaFault {
    ghost from_gives = { λ _ fault. fault ≡ out_of_memory };

    fn from(_refused: OutOfMemory) -> OaFault {
        OaFault::OutOfMemory
    }
}
