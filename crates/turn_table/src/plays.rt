//! The kinds of atomic step that a hand makes, each with what it tells: `specs/Steps.antt`.
ghost use Rattle.turn_table.specs.Invariant.{spent_view};
ghost use Rattle.turn_table.specs.Steps.{marked, looked, count_read, put_back, emptied, reached, finished, freed, surveyed, cut_left, cut_right, glued};

use crate::cased::Slot;
use crate::machine::{Machine, Said};
use crate::view::View;
use atomic_table::{Join, Play, Split};
use std::marker::PhantomData;

/// The compare-exchange of a place's mark, from 0 to 1.
pub(crate) struct Mark<M> {
    of: PhantomData<M>,
}

impl<M: Machine> Play<Slot<M::State>, View<M::State, M::Event, M::Outcome>> for Mark<M> {
    ghost then = { marked M.relates M.reserved };
}

/// The load of a place's count by a hand that lost.
pub(crate) struct Look;

impl<S, E, O> Play<Slot<S>, View<S, E, O>> for Look {
    ghost then = { looked };
}

/// The load of a place's count by the hand that has its mark.
pub(crate) struct Count<M> {
    of: PhantomData<M>,
}

impl<M: Machine> Play<Slot<M::State>, View<M::State, M::Event, M::Outcome>> for Count<M> {
    ghost then = { count_read M.relates M.reserved };
}

/// The store of 0 into the mark of a place whose numbers are spent.
pub(crate) struct Return;

impl<S, E, O> Play<Slot<S>, View<S, E, O>> for Return {
    ghost then = { put_back };
}

/// The load at which the slot goes home, emptied.
pub(crate) struct Empty;

impl<S, E, O> Play<Slot<S>, View<S, E, O>> for Empty {
    ghost then = { emptied };
}

/// The load at which the empty slot is fetched.
pub(crate) struct Reach;

impl<S, E, O> Play<Slot<S>, View<S, E, O>> for Reach {
    ghost then = { reached };
}

/// The store of the raised count, which makes the event.
pub(crate) struct Finish<M, X> {
    of: PhantomData<(M, X)>,
}

impl<M: Machine, X: Said<M>> Play<Slot<M::State>, View<M::State, M::Event, M::Outcome>>
    for Finish<M, X> {
    ghost then = { finished X.event X.outcome };
}

/// The store of 0 into the mark after an event.
pub(crate) struct Free;

impl<S, E, O> Play<Slot<S>, View<S, E, O>> for Free {
    ghost then = { freed };
}

/// The load by which a hand with all parts knows each history.
pub(crate) struct Survey;

impl<S, E, O> Play<Slot<S>, View<S, E, O>> for Survey {
    ghost then = { surveyed };
}

/// A new hand gets one part.
pub(crate) struct Cut;

impl<S, E, O> Split<View<S, E, O>> for Cut {
    ghost left = { cut_left };

    ghost right = { cut_right };
}

/// One hand takes in another.
pub(crate) struct Glue;

impl<S, E, O> Join<View<S, E, O>> for Glue {
    ghost both = { glued };

    ghost spent = { spent_view };
}
