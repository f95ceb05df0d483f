//! Where its states may be sent to another thread, a table may be shared among threads, and its hands and turns be moved to them.
use crate::hands::{Hand, Turn, Turns};
use crate::machine::Machine;

fn is_sync<T: Sync>() {}

fn is_send<T: Send>() {}

/// That it checks is the proof.
pub(crate) fn may_cross_threads<M: Machine>()
where
    M::State: Send,
{
    is_sync::<Turns<M>>();
    is_send::<Turns<M>>();
    is_send::<Hand<M>>();
    is_send::<Turn<M>>();
}
