use std::marker::PhantomData;
use turn_table::{Machine, Said};

/// A state that a turn, or a lock, lets change.
pub(crate) trait Load: Drop {
    /// A state that was not changed yet.
    fn new() -> Self;

    /// Changes eight bytes of it.
    fn touch(&mut self);
}

/// Eight bytes.
#[derive(Drop)]
pub(crate) struct Small {
    count: u64,
}

impl Load for Small {
    fn new() -> Small {
        Small { count: 0 }
    }

    fn touch(&mut self) {
        self.count = self.count.wrapping_add(1);
    }
}

/// 1,024 bytes.
#[derive(Drop)]
pub(crate) struct Large {
    counts: [u64; 128],
}

impl Load for Large {
    fn new() -> Large {
        Large { counts: [0; 128] }
    }

    fn touch(&mut self) {
        self.counts[0] = self.counts[0].wrapping_add(1);
    }
}

/// The machine whose states are of this type, and whose one event is any change.
pub(crate) struct Loaded<L> {
    load: PhantomData<L>,
}

impl<L: Load> Machine for Loaded<L> {
    type State = L;

    type Event = ();

    type Outcome = ();

    ghost relates = { λ before event outcome after. Unit {0} };

    ghost reserved = { λ event. ⊥ };
}

/// Says the one event.
pub(crate) struct Touched;

impl<L: Load> Said<Loaded<L>> for Touched {
    ghost event = { tt };

    ghost outcome = { tt };
}
