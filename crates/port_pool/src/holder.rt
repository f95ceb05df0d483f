/// A side of a call: one of its two monologues (RFC 3264 names them offerer and answerer; these change with each offer).
#[derive(Clone, Copy, PartialEq, Eq, Debug)]
pub enum Side {
    /// The side that made the call's first offer.
    A,
    /// The other side.
    B,
}

/// Who holds a port pair: one leg of one call, in one lease of the pair.
#[derive(Clone, Copy, PartialEq, Eq, Debug)]
pub struct Holder {
    /// The cell of the call, from 1.
    pub cell: u32,
    /// The call's number; no two calls share a number.
    pub call: u64,
    /// The section of the description, from 0.
    pub section: u8,
    /// The side.
    pub side: Side,
    /// The pair's number, from 0.
    pub pair: u32,
    /// Which lease of the pair it is, from 1.
    pub generation: u64,
}
