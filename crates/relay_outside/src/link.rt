ghost use Rattle.std.specs.Prelude.{◌≡◌, ℕ, ◌<◌, Option, List, length};
ghost use Rattle.relay_outside.specs.DeviceLogs.{Gains, HasCause, is_done};

use crate::address::Addr;
use crate::answers::{Failed, Taken};
use crate::calls::Copied;

/// What a take of a control link gave.
#[derive(Drop)]
pub enum LinkGiven {
    /// A datagram: its source, and the bytes that it filled.
    Datagram {
        /// Where it came from.
        from: Addr,
        /// The bytes at the front of the buffer.
        bytes: Copied,
    },
    /// Nothing was there.
    Nothing,
    /// The link will give no more.
    End,
    /// The take failed.
    Failed,
}

/// A call of a control link, with what it was given and what it answered.
#[derive(Drop)]
pub enum LinkCall {
    /// The link was bound to an address, or the bind failed.
    Bind {
        /// The address.
        at: Addr,
        /// Whether it returned Ok.
        done: bool,
    },
    /// A datagram was asked for.
    Take {
        /// How many bytes the buffer held.
        room: usize,
        /// What the take gave.
        given: LinkGiven,
    },
    /// A datagram was sent, or the send failed.
    Send {
        /// Where to.
        to: Addr,
        /// The bytes.
        bytes: Copied,
        /// Whether it returned Ok.
        done: bool,
    },
}

/// The socket of the ng control protocol: it takes commands and sends replies.
pub trait ControlLink {
    ghost use Rattle.std.specs.Prelude.{◌≡◌, ℕ, ◌<◌, Option, List, length};
    ghost use Rattle.relay_outside.specs.DeviceLogs.{Gains, HasCause, is_done};
    ghost use Rattle.relay_outside.specs.Link.{FitsRoom, link_given};
    ghost use Rattle.relay_outside.specs.declared.link.LinkCall.{LinkCall};
    ghost use Rattle.relay_outside.specs.declared.link.LinkCall.TheVariants.{Bind, Take, Send};

    /// The calls since the link was made, where it logs them.
    ghost log: { Self → Option (List LinkCall) };

    /// The count of faults.
    ghost faults: { Self → ℕ };

    /// Binds the link to this local address.
    fn bind(&mut self, at: Addr) -> Result<(), Failed>
        ensures log { Gains (log self.old) (log self.new) (Bind at (is_done result)) }
        ensures cause { HasCause (faults self.old) (faults self.new) result };

    /// Takes one datagram into the front of the buffer, cut at the buffer's length.
    /// What stands behind that, and in the whole buffer where nothing was taken, is left open:
    /// callers read the front alone. A link may give more after its end; the program takes nothing
    /// after it.
    fn take(&mut self, buf: &mut [u8]) -> Result<Taken, Failed>
        requires { 0 < length buf.old }
        ensures within { FitsRoom result (length buf.old) }
        ensures log { Gains (log self.old) (log self.new) (Take (length buf.old) (link_given result buf.new)) }
        ensures cause { HasCause (faults self.old) (faults self.new) result };

    /// Sends one datagram.
    fn send(&mut self, to: Addr, bytes: &[u8]) -> Result<(), Failed>
        ensures log { Gains (log self.old) (log self.new) (Send to bytes.now (is_done result)) }
        ensures cause { HasCause (faults self.old) (faults self.new) result };
}
