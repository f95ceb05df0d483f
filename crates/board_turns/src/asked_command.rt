//! A command as a datagram asks it.
ghost use Rattle.std.specs.Prelude.{◌≡◌};

use control_messages::Request;
use std::alloc::Global;

/// A command that is to be carried out.
///
/// Memory is a field here and not in `BoardTurn`: that a tick and a stop take none follows from
/// their types.
#[derive(Drop)]
pub struct AskedCommand<'a, T> {
    /// The datagram that asks it.
    pub request: &'a Request<'a>,
    /// What it asks, as read from the datagram's body.
    pub input: &'a T,
    /// Where memory for it and for its reply comes from.
    pub alloc: Global,
}

impl<'a, T> AskedCommand<'a, T> {
    /// The same datagram's command, whose input is this.
    pub fn with<U>(&self, input: &'a U) -> AskedCommand<'a, U>
        ensures request { result.request ≡ self.now.request }
        ensures input { result.input.now ≡ input.now }
    {
        AskedCommand {
            request: self.request,
            input,
            alloc: self.alloc,
        }
    }
}
