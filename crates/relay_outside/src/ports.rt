use crate::address::Addr;
use crate::answers::Failed;
use crate::calls::{CallList, Copied};

/// What a take of an in end gave.
#[derive(Drop)]
pub enum InGiven {
    /// A datagram: its source, and the bytes that it filled.
    Datagram {
        /// Where it came from.
        from: Addr,
        /// The bytes at the front of the buffer.
        bytes: Copied,
    },
    /// Nothing was there.
    Nothing,
    /// The take failed.
    Failed,
}

/// A call of an in end.
#[derive(Drop)]
pub enum InCall {
    /// A datagram was asked for.
    Take {
        /// How many bytes the buffer held.
        room: usize,
        /// What the take gave.
        given: InGiven,
    },
}

/// A call of an out end.
#[derive(Drop)]
pub enum OutCall {
    /// A datagram was sent, or the send failed.
    Send {
        /// Where to.
        to: Addr,
        /// The bytes.
        bytes: Copied,
        /// Whether it returned Ok.
        done: bool,
    },
}

/// The receiving end of an open port.
pub trait InEnd {
    ghost use Rattle.std.specs.Prelude.{ℕ, ◌<◌, length};
    ghost use Rattle.relay_outside.specs.DeviceLogs.{EndLog, EndGains, HasCause};
    ghost use Rattle.relay_outside.specs.Ports.{FitsTake, in_given};
    ghost use Rattle.relay_outside.specs.declared.ports.InCall.{InCall};
    ghost use Rattle.relay_outside.specs.declared.ports.InCall.TheVariants.{Take};

    /// The address that the end was opened for, and its calls since then, where it logs them.
    ghost log: { Self → EndLog InCall };

    /// The count of faults.
    ghost faults: { Self → ℕ };

    /// Takes one datagram into the front of the buffer, cut at the buffer's length: its source and how
    /// many bytes it filled. `None`: nothing was there at this call.
    /// What stands behind that, and in the whole buffer where nothing was taken, is left open: callers
    /// read the front alone.
    fn take(&mut self, buf: &mut [u8]) -> Result<Option<(Addr, usize)>, Failed>
        requires { 0 < length buf.old }
        ensures within { FitsTake result (length buf.old) }
        ensures log { EndGains (log self.old) (log self.new) (Take (length buf.old) (in_given result buf.new)) }
        ensures cause { HasCause (faults self.old) (faults self.new) result };
}

/// The sending end of an open port.
pub trait OutEnd {
    ghost use Rattle.std.specs.Prelude.{ℕ};
    ghost use Rattle.relay_outside.specs.DeviceLogs.{EndLog, EndGains, HasCause, is_done};
    ghost use Rattle.relay_outside.specs.declared.ports.OutCall.{OutCall};
    ghost use Rattle.relay_outside.specs.declared.ports.OutCall.TheVariants.{Send};

    /// The address that the end was opened for, and its calls since then, where it logs them.
    ghost log: { Self → EndLog OutCall };

    /// The count of faults.
    ghost faults: { Self → ℕ };

    /// Sends one datagram from the port.
    fn send(&mut self, to: Addr, bytes: &[u8]) -> Result<(), Failed>
        ensures log { EndGains (log self.old) (log self.new) (Send to bytes.now (is_done result)) }
        ensures cause { HasCause (faults self.old) (faults self.new) result };
}

/// A call of a port maker.
#[derive(Drop)]
pub enum PortCall {
    /// A port was opened, or the opening failed.
    Open {
        /// Its local address.
        at: Addr,
        /// Whether it returned Ok.
        done: bool,
    },
    /// A port was closed and its ends were given back.
    /// It carries the logs of both ends, so the joined lists of an address need no store of their own.
    Close {
        /// Its local address.
        at: Addr,
        /// The log of its in end.
        taken: CallList<InCall>,
        /// The log of its out end.
        sent: CallList<OutCall>,
    },
}

/// What opens and closes the ports of media.
pub trait PortMaker {
    ghost use Rattle.std.specs.Prelude.{◌≡◌, ℕ, ◌≤◌, Option, List, IfOk};
    ghost use Rattle.relay_outside.specs.DeviceLogs.{Gains, HasCause, IsOpenedFor, WhereLogged, is_done};
    ghost use Rattle.relay_outside.specs.Ports.{IsOpen};
    ghost use Rattle.relay_outside.specs.declared.ports.PortCall.{PortCall};
    ghost use Rattle.relay_outside.specs.declared.ports.PortCall.TheVariants.{Open, Close};

    /// The receiving end of a port.
    type In: InEnd;

    /// The sending end of a port.
    type Out: OutEnd;

    /// The calls since the maker was made, where it logs them. They say which addresses are open, and
    /// for each address what the ends that were given back took and sent.
    ghost log: { Self → Option (List PortCall) };

    /// The count of faults.
    ghost faults: { Self → ℕ };

    /// Opens an address that isn't open. Its ends are opened for it, and have not been called.
    fn open(&mut self, at: Addr) -> Result<(Self::In, Self::Out), Failed>
        requires { WhereLogged (log self.old) (λ calls. IsOpen calls at → ⊥) }
        ensures log { Gains (log self.old) (log self.new) (Open at (is_done result)) }
        ensures receiving { IfOk result (λ ends. IsOpenedFor at (Self.In.log ends.0)) }
        ensures sending { IfOk result (λ ends. IsOpenedFor at (Self.Out.log ends.1)) }
        ensures cause { HasCause (faults self.old) (faults self.new) result };

    /// Closes an open address and takes its ends back: those that were opened for it. It can't fail.
    /// Ends that were never called, as after an offer that was undone, add nothing to the joined lists
    /// of the address.
    fn close(&mut self, at: Addr, receiving: Self::In, sending: Self::Out)
        requires open { WhereLogged (log self.old) (λ calls. IsOpen calls at) }
        requires ends { ((Self.In.log receiving).at ≡ at) × ((Self.Out.log sending).at ≡ at) }
        ensures log { Gains (log self.old) (log self.new) (Close at (Self.In.log receiving).calls (Self.Out.log sending).calls) }
        ensures later { faults self.old ≤ faults self.new };
}
