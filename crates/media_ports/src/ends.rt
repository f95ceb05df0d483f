ghost use Rattle.std.specs.Prelude.{◌≡◌, ◌<◌, ◌↔◌, ◌++◌, [], length, IfOk, IsSome};
ghost use Rattle.std.specs.Option.{option_to_list};
ghost use Rattle.media_ports.specs.Ends.{with_ends};

use relay_outside::OutOfMemory;
use std::alloc::Global;
use std::collections::VecDeque;
use std::marker::Model;

/// The ends of the two ports of an opened pair.
#[derive(Drop)]
pub struct PairEnds<I, O> {
    /// What the port for RTP receives by.
    pub rtp_in: I,
    /// What the port for RTP sends by.
    pub rtp_out: O,
    /// What the port for RTCP receives by.
    pub rtcp_in: I,
    /// What the port for RTCP sends by.
    pub rtcp_out: O,
}

/// The ends of opened pairs in the order of their leases, with room for a number of pairs. Contracts see the list and the
/// room.
#[derive(Drop)]
pub struct OpenedPairs<I, O> {
    pairs: VecDeque<PairEnds<I, O>>,
}

impl<I, O> Model for OpenedPairs<I, O> {
    ghost use Rattle.std.specs.VecDeque.{deque_capacity};
    ghost use Rattle.media_ports.specs.Ends.{EndsList};

    ghost Value = { EndsList I O };

    ghost view = { λ opened. record { list = opened.pairs.items; room = deque_capacity opened.pairs } };
}

impl<I, O> OpenedPairs<I, O> {
    /// No pair yet, with capacity for this many.
    pub fn with_room(alloc: Global, room: usize) -> Result<OpenedPairs<I, O>, OutOfMemory>
        ensures { IfOk result (λ opened. opened ≡ record { list = []; room = room }) }
    {
        let pairs = VecDeque::with_capacity(alloc, room)?;
        Ok(OpenedPairs { pairs })
    }

    /// How many pairs there are.
    pub fn len(&self) -> usize
        ensures { result ≡ length self.now.list }
    {
        self.pairs.len()
    }

    /// Adds the ends of a pair after the others. It takes no memory.
    pub(crate) fn push(&mut self, ends: PairEnds<I, O>)
        requires { length self.old.list < self.old.room }
        ensures { self.new ≡ with_ends self.old ends }
    {
        self.pairs.push_back_reserved(ends);
    }

    /// Gives the ends of the earliest pair that is left. `None`: none is left.
    pub fn pop(&mut self) -> Option<PairEnds<I, O>>
        ensures list { self.old.list ≡ option_to_list result ++ self.new.list }
        ensures left { IsSome result ↔ (0 < length self.old.list) }
        ensures room { self.new.room ≡ self.old.room }
    {
        self.pairs.pop_front()
    }

    /// Gives the memory back, when no pair is left.
    pub fn destroy_empty(self)
        requires { self.list ≡ [] }
    {
        let OpenedPairs { pairs } = self;
        pairs.destroy_empty();
    }
}
