// Why a packet is not protected or not taken.

use thiserror::Error;

/// Why a received packet is refused (RFC 3711, section 3.3). No byte of it has changed then.
#[derive(Clone, Copy, Debug, PartialEq, Eq, Drop, Error)]
pub enum UnprotectFault {
    /// It has fewer bytes than its head and its tag.
    #[error("the packet is too short")]
    Short,
    /// Its tag is not that of its bytes.
    #[error("the packet is not authentic")]
    NotAuthentic,
    /// Its index lies before the replay window, or no index can be told.
    #[error("the packet is too old")]
    TooOld,
    /// A packet with its index was taken before.
    #[error("the packet was received before")]
    Replayed,
    /// It is of a new source, and as many sources as are kept are known.
    #[error("too many sources")]
    TooManySources,
}

/// Why a packet is not protected (RFC 3711, sections 3.3.1 and 9.2). No byte of it has changed then.
#[derive(Clone, Copy, Debug, PartialEq, Eq, Drop, Error)]
pub enum ProtectFault {
    /// Its index lies before the window of the indices that were used, or before the first.
    #[error("the packet is too old")]
    TooOld,
    /// A packet with its index was protected before.
    #[error("the packet's index was used before")]
    IndexUsed,
    /// It is of a new source, and as many sources as are kept are known.
    #[error("too many sources")]
    TooManySources,
    /// The key has protected as many packets as it may.
    #[error("the key is spent")]
    KeySpent,
}
