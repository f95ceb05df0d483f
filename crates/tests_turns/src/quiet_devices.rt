//! Devices to which nothing comes, and a control link that is asked one thing. They hold no memory of their own, and tell no list of their
//! calls. An end of a port tells the address that it was opened for.
ghost use Rattle.std.specs.Prelude.{None};

use relay_outside::{Addr, ControlLink, Failed, InEnd, Ip, KeySource, OutEnd, PortMaker, Taken};

/// An in end at which nothing is.
#[derive(Drop)]
pub(crate) struct Quiet {
    pub(crate) at: Addr,
}

impl InEnd for Quiet {
    ghost log = { λ end. record { at = end.at; calls = None } };

    ghost faults = { λ end. 0 };

    fn take(&mut self, _buf: &mut [u8]) -> Result<Option<(Addr, usize)>, Failed> {
        Ok(None)
    }
}

/// An out end that no packet leaves.
#[derive(Drop)]
pub(crate) struct Mute {
    at: Addr,
}

impl OutEnd for Mute {
    ghost log = { λ end. record { at = end.at; calls = None } };

    ghost faults = { λ end. 0 };

    fn send(&mut self, _to: Addr, _bytes: &[u8]) -> Result<(), Failed> {
        Ok(())
    }
}

/// A maker of such ends.
#[derive(Drop)]
pub(crate) struct QuietPorts;

impl PortMaker for QuietPorts {
    type In = Quiet;

    type Out = Mute;

    ghost log = { λ maker. None };

    ghost faults = { λ maker. 0 };

    fn open(&mut self, at: Addr) -> Result<(Quiet, Mute), Failed> {
        Ok((Quiet { at }, Mute { at }))
    }

    fn close(&mut self, _at: Addr, _receiving: Quiet, _sending: Mute) {}
}

/// A key source that gives one key.
#[derive(Drop)]
pub(crate) struct SameKey;

impl KeySource for SameKey {
    ghost log = { λ keys. None };

    ghost faults = { λ keys. 0 };

    fn draw(&mut self) -> Result<[u8; 30], Failed> {
        Ok([0; 30])
    }
}

/// The proxy that asks.
const PROXY: Addr = Addr {
    ip: Ip::V4([192, 0, 2, 9]),
    port: 5060,
};

/// A control link that gives one datagram of the proxy, and looks at the replies.
#[derive(Drop)]
pub(crate) struct OneAsked<'a> {
    asked: &'a [u8],
    reply: &'a [u8],
    is_replied: bool,
}

impl<'a> OneAsked<'a> {
    /// A link that gives this datagram, and is to send this reply.
    pub(crate) fn new(asked: &'a [u8], reply: &'a [u8]) -> OneAsked<'a> {
        OneAsked {
            asked,
            reply,
            is_replied: false,
        }
    }

    /// Whether the last reply was that one, and went to the proxy.
    pub(crate) fn is_replied(&self) -> bool {
        self.is_replied
    }
}

impl<'a> ControlLink for OneAsked<'a> {
    ghost log = { λ link. None };

    ghost faults = { λ link. 0 };

    fn bind(&mut self, _at: Addr) -> Result<(), Failed> {
        Ok(())
    }

    fn take(&mut self, buf: &mut [u8]) -> Result<Taken, Failed> {
        let len = self.asked.len().min(buf.len());
        buf[..len].copy_from_slice(&self.asked[..len]);
        Ok(Taken::Datagram { from: PROXY, len })
    }

    fn send(&mut self, to: Addr, bytes: &[u8]) -> Result<(), Failed> {
        self.is_replied = to == PROXY && bytes == self.reply;
        Ok(())
    }
}
