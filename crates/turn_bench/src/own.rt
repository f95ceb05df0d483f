/// Where the threads of a measurement make their turns.
#[derive(Clone, Copy)]
pub(crate) enum Own {
    /// Each at a place of its own, next to the others'.
    Apart,
    /// Each at a place of its own, 16 places from the others'.
    Spread,
    /// All at one place.
    Together,
}
