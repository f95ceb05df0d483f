/// The packet index that a sequence number most likely stands for (RFC 3711 section 3.3.1).
#[derive(Clone, Copy, PartialEq, Eq, Debug, Drop)]
pub enum Near {
    /// This index, below 2^48.
    At(u64),
    /// The nearest number is negative: the packet came before the stream's first.
    Below,
    /// The nearest number is 2^48 or more: all indices of the key are spent.
    Beyond,
}

/// Whether an index may be taken (RFC 3711 section 3.3.2).
#[derive(Clone, Copy, PartialEq, Eq, Debug, Drop)]
pub enum Fresh {
    /// It wasn't noted and isn't too old.
    Yes,
    /// It lies 128 or more behind the greatest noted index.
    TooOld,
    /// It isn't too old and was noted.
    Used,
}
