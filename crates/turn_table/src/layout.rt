//! Where the places lie, so that those with one number modulo 960 lie side by side.
//!
//! The spots are 960 columns of as many rows each, one column after the other. A place is in the column of its number
//! modulo 960, a number that has most small ones as divisors: so what a thread visits that takes each 960th place, or each second, third or fourth,
//! are whole columns, which it reads one after the other.
//!
//! A spot has 32 bytes of words and 32 of slots, and the rows are an even number. So two rows of a column share a cache line of 64 bytes, where the
//! memory begins at a multiple of 64 bytes or 16 bytes behind one, as an allocator gives large blocks, and no two columns do.
ghost use Rattle.std.specs.Prelude.{◌≡◌, ◌*◌, ◌^◌, ◌<◌, ◌≤◌};
ghost use Rattle.turn_table.specs.Layout.{column_rows, spot_of, place_at};

/// How many rows there are for this many places.
pub(crate) fn row_count(places: usize) -> usize
    requires { places < 2 ^ 59 }
    ensures { result ≡ column_rows places }
{
    (places + 1919) / 1920 * 2
}

/// The spot of a place.
pub(crate) fn spot(rows: usize, place: usize) -> usize
    requires rows { rows ≤ 2 ^ 50 }
    requires place { place < 960 * rows }
    ensures value { result ≡ spot_of rows place }
    ensures low { result < 960 * rows }
{
    place % 960 * rows + place / 960
}

/// The place of a spot. A spot is spare where there is no such place.
pub(crate) fn place(rows: usize, spot: usize) -> usize
    requires rows { rows ≤ 2 ^ 50 }
    requires spot { spot < 960 * rows }
    ensures { result ≡ place_at rows spot }
{
    spot / rows + 960 * (spot % rows)
}
