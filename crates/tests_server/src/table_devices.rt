//! Devices that give what stands in tables, and compare what they are given with tables at once. They hold no memory of their own, and
//! tell no list of their calls.
ghost use Rattle.std.specs.Prelude.{◌≡◌, ◌≤◌, None, IsTrue, IfSome, length};
ghost use Rattle.relay_outside.specs.DeviceLogs.{Rose};

use relay_outside::{
    Addr, ControlLink, Failed, InEnd, Ip, KeySource, LineRead, LineSink, LineSource, OutEnd,
    PortMaker, Taken, Timer,
};

/// The proxy that asks.
pub(crate) const PROXY: Addr = Addr {
    ip: Ip::V4([192, 0, 2, 10]),
    port: 5060,
};

/// A source or a target, and the bytes that come from there or go there.
pub(crate) type Datagram = (Addr, &'static [u8]);

/// The calls of a device, counted from 1, and the number of the one that fails.
#[derive(Drop)]
struct Calls {
    failing: u64,
    made: u64,
    faults: u64,
}

impl Calls {
    /// Calls of which that with this number fails: where it is 0 none does.
    fn new(failing: u64) -> Calls {
        Calls {
            failing,
            made: 0,
            faults: 0,
        }
    }

    /// Counts a call, and says whether it fails.
    fn fails(&mut self) -> bool
        ensures later { self.old.faults ≤ self.new.faults }
        ensures cause { IsTrue result → Rose self.old.faults self.new.faults }
    {
        self.made = self.made.saturating_add(1);
        if self.made == self.failing {
            self.faults = self.faults.saturating_add(1);
            return true;
        }
        false
    }
}

/// Copies to the front of the buffer as many of the bytes as it holds, and says how many.
pub(crate) fn fill(buf: &mut [u8], bytes: &[u8]) -> usize
    ensures { result ≤ length buf.old }
{
    let len = bytes.len().min(buf.len());
    buf[..len].copy_from_slice(&bytes[..len]);
    len
}

/// The offer of one of many calls, whose number stands in the cookie and in the call-id.
const NUMBERED: &[u8] =
    b"1_0000 d7:call-id4:00007:command5:offer8:from-tag1:a3:sdp89:v=0\r\no=- 1 1 IN IP4 192.0.2.10\r\ns=-\r\nc=IN IP4 192.0.2.10\r\nt=0 0\r\nm=audio 6000 RTP/AVP 0\r\ne";

/// The last four digits of a number.
fn digits(number: u16) -> [u8; 4] {
    [
        b'0' + (number / 1000 % 10) as u8,
        b'0' + (number / 100 % 10) as u8,
        b'0' + (number / 10 % 10) as u8,
        b'0' + (number % 10) as u8,
    ]
}

/// Fills the buffer with the offer of the call of this number.
fn fill_numbered(buf: &mut [u8], number: u16) -> usize
    ensures { result ≤ length buf.old }
{
    let len = fill(buf, NUMBERED);
    if len >= 23 {
        let digits = digits(number);
        buf[2..6].copy_from_slice(&digits);
        buf[19..23].copy_from_slice(&digits);
    }
    len
}

/// A control link that gives a list of datagrams, then the offers of this many calls, and then the end. Of the replies it keeps
/// whether the last one is that which is wanted.
#[derive(Drop)]
pub(crate) struct TableLink {
    calls: Calls,
    list: &'static [&'static [u8]],
    next: usize,
    offers: u16,
    offered: u16,
    reply: Option<&'static [u8]>,
    is_answered: bool,
    bound: Option<Addr>,
}

impl TableLink {
    /// A link that was not called yet. Where no reply is wanted, each one is too many.
    pub(crate) fn new(
        list: &'static [&'static [u8]],
        offers: u16,
        reply: Option<&'static [u8]>,
        failing: u64,
    ) -> TableLink {
        TableLink {
            calls: Calls::new(failing),
            list,
            next: 0,
            offers,
            offered: 0,
            reply,
            is_answered: reply.is_none(),
            bound: None,
        }
    }

    /// Whether the last reply was that which is wanted, and went to the proxy.
    pub(crate) fn is_answered(&self) -> bool {
        self.is_answered
    }

    /// Where the link was bound.
    pub(crate) fn bound(&self) -> Option<Addr> {
        self.bound
    }

    /// Fills the buffer with the next datagram.
    fn give(&mut self, buf: &mut [u8]) -> Option<usize>
        ensures same { self.new.calls ≡ self.old.calls }
        ensures within { IfSome result (λ len. len ≤ length buf.old) }
    {
        if let Some(datagram) = self.list.get(self.next) {
            self.next += 1;
            return Some(fill(buf, *datagram));
        }
        if self.offered >= self.offers {
            return None;
        }
        let number = self.offered;
        self.offered += 1;
        Some(fill_numbered(buf, number))
    }
}

impl ControlLink for TableLink {
    ghost log = { λ link. None };

    ghost faults = { λ link. link.calls.faults };

    fn bind(&mut self, at: Addr) -> Result<(), Failed> {
        if self.calls.fails() {
            return Err(Failed);
        }
        self.bound = Some(at);
        Ok(())
    }

    fn take(&mut self, buf: &mut [u8]) -> Result<Taken, Failed> {
        if self.calls.fails() {
            return Err(Failed);
        }
        match self.give(buf) {
            Some(len) => Ok(Taken::Datagram { from: PROXY, len }),
            None => Ok(Taken::End),
        }
    }

    fn send(&mut self, to: Addr, bytes: &[u8]) -> Result<(), Failed> {
        if self.calls.fails() {
            return Err(Failed);
        }
        self.is_answered = match self.reply {
            Some(reply) => to == PROXY && bytes == reply,
            None => false,
        };
        Ok(())
    }
}

/// What is to come to a port, and what is to leave from it.
#[derive(Clone, Copy)]
pub(crate) struct TablePort {
    /// Its local address.
    pub(crate) at: Addr,
    /// What its takes give in turn.
    pub(crate) comes: &'static [Datagram],
    /// What is sent from it in turn.
    pub(crate) goes: &'static [Datagram],
}

/// The in end of a port.
#[derive(Drop)]
pub(crate) struct TableIn {
    at: Addr,
    comes: &'static [Datagram],
    next: usize,
}

impl InEnd for TableIn {
    ghost log = { λ end. record { at = end.at; calls = None } };

    ghost faults = { λ end. 0 };

    fn take(&mut self, buf: &mut [u8]) -> Result<Option<(Addr, usize)>, Failed> {
        let Some((from, bytes)) = self.comes.get(self.next) else {
            return Ok(None);
        };
        self.next += 1;
        Ok(Some((*from, fill(buf, *bytes))))
    }
}

/// The out end of a port: it keeps whether each datagram was the next that is to leave.
#[derive(Drop)]
pub(crate) struct TableOut {
    at: Addr,
    goes: &'static [Datagram],
    next: usize,
    is_wanted: bool,
}

impl TableOut {
    /// Whether all left that was to leave, and no more.
    fn is_done(&self) -> bool {
        self.is_wanted && self.next == self.goes.len()
    }
}

impl OutEnd for TableOut {
    ghost log = { λ end. record { at = end.at; calls = None } };

    ghost faults = { λ end. 0 };

    fn send(&mut self, to: Addr, bytes: &[u8]) -> Result<(), Failed> {
        let Some((target, wanted)) = self.goes.get(self.next) else {
            self.is_wanted = false;
            return Ok(());
        };
        self.next += 1;
        self.is_wanted = self.is_wanted && to == *target && bytes == *wanted;
        Ok(())
    }
}

/// A port maker: nothing comes to the ports that its table leaves out, and nothing is to leave from them. It keeps whether those of
/// the table were opened in its order, and whether each was closed with its own ends, when all had left that was to leave.
#[derive(Drop)]
pub(crate) struct TablePorts {
    table: &'static [TablePort],
    next: usize,
    opened: u64,
    closed: u64,
    is_wanted: bool,
}

impl TablePorts {
    /// A maker that was not called yet.
    pub(crate) fn new(table: &'static [TablePort]) -> TablePorts {
        TablePorts {
            table,
            next: 0,
            opened: 0,
            closed: 0,
            is_wanted: true,
        }
    }

    /// How many ports were opened and closed, where those of the table were opened and each was closed as it should.
    pub(crate) fn counts(&self) -> Option<(u64, u64)> {
        if self.is_wanted && self.next == self.table.len() {
            Some((self.opened, self.closed))
        } else {
            None
        }
    }

    /// What is to come to this port and to leave from it.
    fn find(&mut self, at: Addr) -> TablePort {
        if let Some(port) = self.table.get(self.next)
            && port.at == at
        {
            self.next += 1;
            return *port;
        }
        TablePort {
            at,
            comes: &[],
            goes: &[],
        }
    }
}

impl PortMaker for TablePorts {
    type In = TableIn;

    type Out = TableOut;

    ghost log = { λ maker. None };

    ghost faults = { λ maker. 0 };

    fn open(&mut self, at: Addr) -> Result<(TableIn, TableOut), Failed> {
        let TablePort { comes, goes, .. } = self.find(at);
        self.opened = self.opened.saturating_add(1);
        let receiving = TableIn { at, comes, next: 0 };
        let sending = TableOut {
            at,
            goes,
            next: 0,
            is_wanted: true,
        };
        Ok((receiving, sending))
    }

    fn close(&mut self, at: Addr, receiving: TableIn, sending: TableOut) {
        let is_own = receiving.at == at && sending.at == at;
        self.is_wanted = self.is_wanted && is_own && sending.is_done();
        self.closed = self.closed.saturating_add(1);
    }
}

/// A key source that gives one key.
#[derive(Drop)]
pub(crate) struct SameKey;

impl KeySource for SameKey {
    ghost log = { λ keys. None };

    ghost faults = { λ keys. 0 };

    fn draw(&mut self) -> Result<[u8; 30], Failed> {
        Ok([0; 30])
    }
}

/// A timer that gives a list of moments and then the last one again, or 0 where the list is empty.
#[derive(Drop)]
pub(crate) struct TableTimer {
    moments: &'static [u64],
}

impl TableTimer {
    /// A timer that was not asked yet.
    pub(crate) fn new(moments: &'static [u64]) -> TableTimer {
        TableTimer { moments }
    }
}

impl Timer for TableTimer {
    ghost log = { λ timer. None };

    fn now(&mut self) -> u64 {
        let Some((first, rest)) = self.moments.split_first() else {
            return 0;
        };
        if !rest.is_empty() {
            self.moments = rest;
        }
        *first
    }
}

/// The lines of a script, of whose reads one may fail.
#[derive(Drop)]
pub(crate) struct TableLines {
    calls: Calls,
    lines: &'static [&'static [u8]],
    next: usize,
}

impl TableLines {
    /// Lines of which none was read yet.
    pub(crate) fn new(lines: &'static [&'static [u8]], failing: u64) -> TableLines {
        TableLines {
            calls: Calls::new(failing),
            lines,
            next: 0,
        }
    }
}

impl LineSource for TableLines {
    ghost log = { λ lines. None };

    ghost faults = { λ lines. lines.calls.faults };

    fn line(&mut self, buf: &mut [u8]) -> Result<LineRead, Failed> {
        if self.calls.fails() {
            return Err(Failed);
        }
        let Some(line) = self.lines.get(self.next) else {
            return Ok(LineRead::End);
        };
        self.next += 1;
        Ok(LineRead::Text {
            len: fill(buf, *line),
        })
    }
}

/// A sink that keeps whether each line is the next that is to be printed, or begins as that does.
#[derive(Drop)]
pub(crate) struct TableSink {
    calls: Calls,
    lines: &'static [&'static [u8]],
    next: usize,
    are_beginnings: bool,
    is_wanted: bool,
}

impl TableSink {
    /// A sink that has written nothing yet.
    pub(crate) fn new(
        lines: &'static [&'static [u8]],
        are_beginnings: bool,
        failing: u64,
    ) -> TableSink {
        TableSink {
            calls: Calls::new(failing),
            lines,
            next: 0,
            are_beginnings,
            is_wanted: true,
        }
    }

    /// Whether just the lines that were to be printed were given to it, each by a call of its own.
    pub(crate) fn is_printed(&self) -> bool {
        self.is_wanted && self.next == self.lines.len()
    }

    /// Looks at a line.
    fn look(&mut self, line: &[u8])
        ensures { self.new.calls ≡ self.old.calls }
    {
        let Some(wanted) = self.lines.get(self.next) else {
            self.is_wanted = false;
            return;
        };
        self.next += 1;
        let is_so = if self.are_beginnings {
            line.starts_with(*wanted)
        } else {
            line == *wanted
        };
        self.is_wanted = self.is_wanted && is_so;
    }
}

impl LineSink for TableSink {
    ghost log = { λ sink. None };

    ghost faults = { λ sink. sink.calls.faults };

    fn write(&mut self, line: &[u8]) -> Result<(), Failed> {
        self.look(line);
        if self.calls.fails() {
            return Err(Failed);
        }
        Ok(())
    }
}
