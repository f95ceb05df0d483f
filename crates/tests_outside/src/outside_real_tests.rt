ghost use Rattle.std.specs.Prelude.{◌≡◌};

use outside_real::{
    ChaChaKeys, ClockStart, LinkFault, Readiness, StdLines, StdSink, StopPipe, SystemClock,
    SystemTimer, UdpIn, UdpLink, UdpMaker, UdpOut, addr_of, passes_by_itself, socket_addr,
};
use relay_outside::{
    Addr, Clock, ControlLink, InEnd, Ip, KeySource, LaneShare, LineRead, LineSink, LineSource,
    OutEnd, PortMaker, Taken, Timer,
};
use std::alloc::Global;
use std::fs::File;
use std::io::{self, BufReader, ErrorKind, Read, Write};
use std::net::Net;
use std::process::Abort;
use std::time::Duration;

/// The port of the control socket, and of each port that stands alone.
const PORT: u16 = 22_391;

/// How long a wait lasts at most that is to find something, in milliseconds.
const LONG: u32 = 2_000;

/// How long a wait lasts that is to find nothing, in milliseconds.
const SHORT: u32 = 5;

/// An address of the loopback network, with this last byte.
fn local(host: u8) -> Addr {
    at_port(host, PORT)
}

/// An address of the loopback network, with this last byte and this port.
fn at_port(host: u8, port: u16) -> Addr {
    Addr {
        ip: Ip::V4([127, 0, 0, host]),
        port,
    }
}

/// The number for which the control socket and the pipe's end stand among the hints of pairs.
const NO_PAIR: u32 = u32::MAX;

/// The hints of two threads, whose range begins at the port and has eight pairs.
fn hints(alloc: Global) -> Readiness {
    hints_of(alloc, 2, StopPipe::none())
}

/// The hints of so many threads, whose range begins at the port and has eight pairs.
fn hints_of(alloc: Global, threads: u32, stop: StopPipe) -> Readiness {
    Readiness::new(alloc, LaneShare::of_pairs(threads, 8), PORT, 8, 8, stop)
}

#[test]
fn a_datagram_goes_over_loopback(rt: HostRuntime) {
    let mut one = UdpLink::waiting(&rt, StopPipe::none(), SHORT);
    let mut two = UdpLink::waiting(&rt, StopPipe::none(), SHORT);
    let mut buf = [0; 16];
    assert!(rt; one.take(&mut buf).is_err(), "not bound yet");
    assert!(rt; one.bind(local(77)).is_ok());
    assert!(rt; two.bind(local(78)).is_ok());
    assert!(rt; two.send(local(77), b"ping").is_ok());
    let ping = Taken::Datagram {
        from: local(78),
        len: 4,
    };
    assert!(rt; one.take(&mut buf) == Ok(ping));
    assert!(rt; &buf[..4] == b"ping".as_slice());
    assert!(rt; one.take(&mut buf) == Ok(Taken::Nothing));
}

#[test]
fn an_address_in_use_can_not_be_bound(rt: HostRuntime) {
    let mut one = UdpLink::waiting(&rt, StopPipe::none(), SHORT);
    let mut two = UdpLink::waiting(&rt, StopPipe::none(), SHORT);
    assert!(rt; one.bind(local(79)).is_ok());
    assert!(rt; two.fault().is_none());
    assert!(rt; two.bind(local(79)).is_err());
    assert!(rt; two.send(local(79), b"ping").is_err());
    let Some(LinkFault::Bind { at, error }) = two.fault() else {
        panic!(rt; "not log");
    };
    assert!(rt; at == local(79) && error.kind() == ErrorKind::AddrInUse);
    assert!(rt; one.fault().is_none());
}

/// Takes what may be moved to another thread, and nothing else.
fn movable<T: Send>(_end: &T) {}

/// The ends of a port that is opened.
fn open<R: Net>(rt: &impl Abort, maker: &mut UdpMaker<R>, at: Addr) -> (UdpIn, UdpOut)
    ensures { ((⟦<UdpIn as InEnd>⟧.log result.0).at ≡ at) × ((⟦<UdpOut as OutEnd>⟧.log result.1).at ≡ at) }
{
    let Ok(ends) = maker.open(at) else {
        panic!(rt; "not opened");
    };
    movable(&ends);
    ends
}

/// Whether a take gives this.
fn takes(end: &mut UdpIn, buf: &mut [u8; 4], wanted: Option<(Addr, usize)>) -> bool
    ensures { (⟦<UdpIn as InEnd>⟧.log end.new).at ≡ (⟦<UdpIn as InEnd>⟧.log end.old).at }
{
    end.take(buf) == Ok(wanted)
}

#[test]
fn a_packet_goes_from_port_to_port(rt: HostRuntime) {
    let readiness = hints_of(rt.alloc(), 0, StopPipe::none());
    let mut maker = UdpMaker::new(&rt, &readiness);
    let (one, two) = (local(80), local(81));
    let (mut one_in, mut one_out) = open(&rt, &mut maker, one);
    let (mut two_in, two_out) = open(&rt, &mut maker, two);
    let mut buf = [0; 4];
    assert!(rt; takes(&mut two_in, &mut buf, None), "a take doesn't wait");
    assert!(rt; one_out.send(two, b"one").is_ok());
    assert!(rt; one_out.send(two, b"longer").is_ok());
    assert!(rt; takes(&mut two_in, &mut buf, Some((one, 3))));
    assert!(rt; &buf[..3] == b"one".as_slice());
    assert!(rt;
        takes(&mut two_in, &mut buf, Some((one, 4))),
        "cut at the buffer"
    );
    assert!(rt; buf == *b"long");
    assert!(rt; takes(&mut two_in, &mut buf, None));
    assert!(rt;
        takes(&mut one_in, &mut buf, None),
        "its own sends don't come back"
    );
    maker.close(one, one_in, one_out);
    maker.close(two, two_in, two_out);
}

#[test]
fn a_take_asks_where_the_system_told_of_a_datagram(rt: HostRuntime) {
    let readiness = hints(rt.alloc());
    let clock = SystemClock::new(&rt, &readiness, ClockStart::read(&rt));
    let mut maker = UdpMaker::new(&rt, &readiness);
    let at = at_port(98, PORT + 1);
    let (mut receiving, mut sending) = open(&rt, &mut maker, at);
    let mut buf = [0; 4];
    assert!(rt; takes(&mut receiving, &mut buf, None), "it asks at first");
    assert!(rt; sending.send(at, b"one").is_ok());
    assert!(rt; takes(&mut receiving, &mut buf, None), "not log yet");
    assert!(rt; is_ready(&clock, 0, LONG, 0));
    assert!(rt; takes(&mut receiving, &mut buf, Some((at, 3))));
    maker.close(at, receiving, sending);
}

#[test]
fn a_port_is_free_once_it_is_closed(rt: HostRuntime) {
    let readiness = hints(rt.alloc());
    let mut maker = UdpMaker::new(&rt, &readiness);
    let mut other = UdpMaker::new(&rt, &readiness);
    let at = local(82);
    let (receiving, sending) = open(&rt, &mut maker, at);
    assert!(rt; other.open(at).is_err(), "in use");
    maker.close(at, receiving, sending);
    let (receiving, sending) = open(&rt, &mut other, at);
    other.close(at, receiving, sending);
}

#[test]
fn an_address_of_the_other_family_can_not_be_sent_to(rt: HostRuntime) {
    let readiness = hints(rt.alloc());
    let mut maker = UdpMaker::new(&rt, &readiness);
    let at = local(83);
    let (receiving, mut sending) = open(&rt, &mut maker, at);
    let six = Addr {
        ip: Ip::V6([0, 0, 0, 0, 0, 0, 0, 0, 0, 0, 0, 0, 0, 0, 0, 1]),
        port: 22_391,
    };
    assert!(rt; sending.send(six, b"lost").is_err());
    maker.close(at, receiving, sending);
}

/// Whether the thread is told this pair, and no other, within this many milliseconds.
fn is_ready(clock: &impl Clock, thread: u32, millis: u32, pair: u32) -> bool {
    let mut pairs = [7; 4];
    clock.ready(thread, millis, &mut pairs) == 1 && pairs[..2] == [pair, 7]
}

/// Whether the thread is told nothing within a few milliseconds.
fn is_idle(clock: &impl Clock, thread: u32) -> bool {
    clock.ready(thread, SHORT, &mut [0; 4]) == 0
}

#[test]
fn a_thread_is_told_the_pairs_of_its_own_lanes(rt: HostRuntime) {
    let readiness = hints(rt.alloc());
    let clock = SystemClock::new(&rt, &readiness, ClockStart::read(&rt));
    let mut maker = UdpMaker::new(&rt, &readiness);
    let (first, second) = (at_port(85, PORT + 3), at_port(85, PORT + 4));
    let (mut one_in, mut one_out) = open(&rt, &mut maker, first);
    let (two_in, two_out) = open(&rt, &mut maker, second);
    let mut buf = [0; 4];
    assert!(rt; is_idle(&clock, 0) && is_idle(&clock, 1));
    assert!(rt; one_out.send(first, b"one").is_ok());
    assert!(rt; is_ready(&clock, 0, LONG, 1), "beside pair 0");
    assert!(rt; is_ready(&clock, 0, LONG, 1), "until it is taken");
    assert!(rt; is_idle(&clock, 1));
    assert!(rt; takes(&mut one_in, &mut buf, Some((first, 3))));
    assert!(rt; is_idle(&clock, 0));
    assert!(rt; one_out.send(second, b"two").is_ok());
    assert!(rt; is_ready(&clock, 1, LONG, 2));
    maker.close(second, two_in, two_out);
    assert!(rt; is_idle(&clock, 0) && is_idle(&clock, 1), "after its close");
    maker.close(first, one_in, one_out);
}

#[test]
fn a_pair_is_told_for_each_of_its_sockets(rt: HostRuntime) {
    let readiness = hints_of(rt.alloc(), 0, StopPipe::none());
    let clock = SystemClock::new(&rt, &readiness, ClockStart::read(&rt));
    let mut maker = UdpMaker::new(&rt, &readiness);
    let (first, second) = (at_port(86, PORT + 4), at_port(86, PORT + 5));
    let (mut one_in, mut one_out) = open(&rt, &mut maker, first);
    let (two_in, two_out) = open(&rt, &mut maker, second);
    assert!(rt; one_out.send(first, b"one").is_ok());
    assert!(rt; one_out.send(second, b"two").is_ok());
    let mut pairs = [7; 4];
    assert!(rt;
        clock.ready(0, LONG, &mut pairs) == 2,
        "no thread counts as one"
    );
    assert!(rt; pairs == [2, 2, 7, 7]);
    assert!(rt; clock.ready(0, LONG, &mut [0; 1]) == 1);
    assert!(rt; clock.ready(0, SHORT, &mut []) == 0);
    assert!(rt; takes(&mut one_in, &mut [0; 4], Some((first, 3))));
    assert!(rt; is_ready(&clock, 0, LONG, 2));
    maker.close(first, one_in, one_out);
    maker.close(second, two_in, two_out);
}

#[test]
fn sockets_are_told_in_turn_where_they_are_too_many(rt: HostRuntime) {
    let readiness = hints_of(rt.alloc(), 1, StopPipe::none());
    let clock = SystemClock::new(&rt, &readiness, ClockStart::read(&rt));
    let mut maker = UdpMaker::new(&rt, &readiness);
    let mut ends = Vec::new(rt.alloc());
    for port in PORT..PORT + 70 {
        let at = at_port(97, port);
        let (receiving, mut sending) = open(&rt, &mut maker, at);
        assert!(rt; sending.send(at, b"one").is_ok());
        assert!(rt; ends.push((receiving, sending)).is_ok());
    }
    let (mut first, mut second) = ([NO_PAIR; 70], [NO_PAIR; 70]);
    assert!(rt; clock.ready(0, LONG, &mut first) == 64);
    assert!(rt; clock.ready(0, LONG, &mut second) == 64);
    for pair in 0..35 {
        assert!(rt; first.contains(&pair) || second.contains(&pair));
    }
}

/// Whether a wait of the thread gives nothing although its time isn't up.
fn gives_up(clock: &impl Clock, thread: u32) -> bool {
    let start = clock.now();
    let count = clock.ready(thread, LONG, &mut [0; 4]);
    count == 0 && clock.now() < start.saturating_add(u64::from(LONG))
}

#[test]
fn a_thread_without_a_set_is_told_nothing(rt: HostRuntime) {
    let readiness = hints(rt.alloc());
    let clock = SystemClock::new(&rt, &readiness, ClockStart::read(&rt));
    assert!(rt; gives_up(&clock, 2) && !gives_up(&clock, 1));
}

#[test]
fn a_set_that_lacks_something_tells_nothing(rt: HostRuntime) {
    let Ok((reading, _writing)) = io::pipe(&rt) else {
        panic!(rt; "no pipe");
    };
    let stop = StopPipe::of(&reading);
    drop(reading);
    // (what is closed can't be watched)
    let readiness = hints_of(rt.alloc(), 1, stop);
    let clock = SystemClock::new(&rt, &readiness, ClockStart::read(&rt));
    let mut maker = UdpMaker::new(&rt, &readiness);
    let at = at_port(96, PORT);
    let (receiving, mut sending) = open(&rt, &mut maker, at);
    assert!(rt; sending.send(at, b"one").is_ok());
    assert!(rt; gives_up(&clock, 0) && gives_up(&clock, 0));
    maker.close(at, receiving, sending);
}

#[test]
fn a_command_wakes_the_first_thread(rt: HostRuntime) {
    let readiness = hints(rt.alloc());
    let clock = SystemClock::new(&rt, &readiness, ClockStart::read(&rt));
    let mut link = UdpLink::watched(&rt, StopPipe::none(), &readiness);
    let mut peer = UdpLink::waiting(&rt, StopPipe::none(), LONG);
    let mut buf = [0; 4];
    assert!(rt; link.bind(local(87)).is_ok());
    assert!(rt; peer.bind(local(88)).is_ok());
    assert!(rt; link.take(&mut buf) == Ok(Taken::Nothing));
    assert!(rt; is_idle(&clock, 0));
    assert!(rt; peer.send(local(87), b"ping").is_ok());
    assert!(rt; is_ready(&clock, 0, LONG, NO_PAIR));
    assert!(rt; is_idle(&clock, 1));
    let ping = Taken::Datagram {
        from: local(88),
        len: 4,
    };
    assert!(rt; link.take(&mut buf) == Ok(ping));
    assert!(rt; is_idle(&clock, 0));
    assert!(rt; link.send(local(88), b"pong").is_ok());
    let pong = Taken::Datagram {
        from: local(87),
        len: 4,
    };
    assert!(rt; peer.take(&mut buf) == Ok(pong));
}

#[test]
fn the_end_of_its_pipe_ends_a_link(rt: HostRuntime) {
    let Ok((reading, writing)) = io::pipe(&rt) else {
        panic!(rt; "no pipe");
    };
    let mut link = UdpLink::waiting(&rt, StopPipe::of(&reading), SHORT);
    let mut peer = UdpLink::waiting(&rt, StopPipe::none(), SHORT);
    let mut buf = [0; 4];
    assert!(rt; link.bind(local(89)).is_ok());
    assert!(rt; peer.bind(local(90)).is_ok());
    assert!(rt; link.take(&mut buf) == Ok(Taken::Nothing));
    assert!(rt; peer.send(local(89), b"ping").is_ok());
    let ping = Taken::Datagram {
        from: local(90),
        len: 4,
    };
    assert!(rt; link.take(&mut buf) == Ok(ping));
    assert!(rt; (&writing).write_all(b"it stands for nothing").is_ok());
    assert!(rt; link.take(&mut buf) == Ok(Taken::Nothing));
    assert!(rt; peer.send(local(89), b"late").is_ok());
    drop(writing);
    assert!(rt;
        link.take(&mut buf) == Ok(Taken::End),
        "before the datagram"
    );
    assert!(rt; link.take(&mut buf) == Ok(Taken::End), "and from then on");
    assert!(rt; &buf == b"ping");
}

#[test]
fn the_end_of_its_pipe_ends_each_wait(rt: HostRuntime) {
    let Ok((reading, writing)) = io::pipe(&rt) else {
        panic!(rt; "no pipe");
    };
    let stop = StopPipe::of(&reading);
    let readiness = hints_of(rt.alloc(), 2, stop);
    let clock = SystemClock::new(&rt, &readiness, ClockStart::read(&rt));
    let mut watched = UdpLink::watched(&rt, stop, &readiness);
    let mut waiting = UdpLink::waiting(&rt, stop, 60_000);
    let mut buf = [0; 4];
    assert!(rt; watched.bind(local(91)).is_ok());
    assert!(rt; waiting.bind(local(92)).is_ok());
    assert!(rt; is_idle(&clock, 0) && is_idle(&clock, 1));
    assert!(rt; watched.take(&mut buf) == Ok(Taken::Nothing));
    drop(writing);
    assert!(rt; is_ready(&clock, 0, LONG, NO_PAIR) && is_ready(&clock, 1, LONG, NO_PAIR));
    assert!(rt; watched.take(&mut buf) == Ok(Taken::End));
    assert!(rt; waiting.take(&mut buf) == Ok(Taken::End), "within a minute");
}

#[test]
fn what_is_no_pipe_never_ends_a_link(rt: HostRuntime) {
    let Ok(nothing) = File::open(&rt, "/dev/null") else {
        panic!(rt; "no /dev/null");
    };
    let mut link = UdpLink::waiting(&rt, StopPipe::of(&nothing), SHORT);
    let mut closed = UdpLink::waiting(&rt, StopPipe::of(&-1), SHORT);
    let mut buf = [0; 4];
    assert!(rt; link.bind(local(93)).is_ok());
    assert!(rt; closed.bind(local(94)).is_ok());
    assert!(rt; link.take(&mut buf) == Ok(Taken::Nothing));
    assert!(rt; closed.take(&mut buf) == Ok(Taken::Nothing));
}

#[test]
fn addresses_of_both_families_stay_the_same(rt: HostRuntime) {
    let six = Addr {
        ip: Ip::V6([32, 1, 13, 184, 0, 0, 0, 0, 0, 0, 0, 0, 0, 0, 0, 7]),
        port: 30_000,
    };
    assert!(rt; addr_of(socket_addr(local(84))) == local(84));
    assert!(rt; addr_of(socket_addr(six)) == six);
}

/// How long the clocks are looked at, in milliseconds, and how long that may take on a busy machine.
const LOOKED: u32 = 300;

/// Whether this many milliseconds of a clock may have gone by in that time.
fn went_by(from: u64, to: u64) -> bool {
    (u64::from(LOOKED)..60_000).contains(&to.saturating_sub(from))
}

#[test]
fn the_clocks_go_forward_in_milliseconds(rt: HostRuntime) {
    let start = ClockStart::read(&rt);
    let mut timer = SystemTimer::new(&rt, start);
    let readiness = hints(rt.alloc());
    let clock = SystemClock::new(&rt, &readiness, start);
    let mut link = UdpLink::waiting(&rt, StopPipe::none(), LOOKED);
    assert!(rt; link.bind(local(95)).is_ok());
    let (first, clock_first) = (timer.now(), clock.now());
    assert!(rt; clock_first.abs_diff(first) < 60_000);
    assert!(rt; link.take(&mut [0; 1]) == Ok(Taken::Nothing));
    assert!(rt; link.take(&mut [0; 1]) == Ok(Taken::Nothing));
    assert!(rt; went_by(first, timer.now()) && went_by(clock_first, clock.now()));
}

/// Clocks that show these seconds.
#[derive(Drop)]
struct Shows {
    wall: u64,
    steady: u64,
}

impl std::rt::Clock for Shows {
    fn monotonic(&self) -> io::Result<Duration> {
        Ok(Duration::from_secs(self.steady))
    }

    fn since_1970(&self) -> io::Result<Duration> {
        Ok(Duration::from_secs(self.wall))
    }
}

#[test]
fn moments_are_the_wall_clock_at_the_start_and_steady_time_since(rt: HostRuntime) {
    let first = Shows {
        wall: 1_700_000_000,
        steady: 50,
    };
    let set_back = Shows {
        wall: 1_699_996_403,
        steady: 53,
    };
    let mut timer = SystemTimer::new(&set_back, ClockStart::read(&first));
    assert!(rt; timer.now() == 1_700_000_003_000, "a jump changes nothing");
    let mut second = SystemTimer::new(&set_back, ClockStart::read(&set_back));
    assert!(rt; second.now() == 1_699_996_403_000, "a start reads it");
}

/// Linux's errors of reads, by their numbers, and whether each passes by itself.
const ERRORS: &[(i32, bool)] = &[
    // EINTR, EAGAIN, ENOMEM, ENOBUFS
    (4, true),
    (11, true),
    (12, true),
    (105, true),
    // ENETDOWN, ENETUNREACH, ECONNRESET, ETIMEDOUT, ECONNREFUSED, EHOSTDOWN, EHOSTUNREACH
    (100, true),
    (101, true),
    (104, true),
    (110, true),
    (111, true),
    (112, true),
    (113, true),
    // ENONET, EMSGSIZE, ENOPROTOOPT, EOPNOTSUPP
    (64, true),
    (90, true),
    (92, true),
    (95, true),
    // EIO, EBADF, EACCES, EFAULT, EINVAL, ENOTSOCK, ENOTCONN
    (5, false),
    (9, false),
    (13, false),
    (14, false),
    (22, false),
    (88, false),
    (107, false),
];

#[test]
fn some_errors_of_reads_pass_by_themselves(rt: HostRuntime) {
    for (number, passes) in ERRORS {
        assert!(rt; passes_by_itself(&io::Error::from_raw_os_error(*number)) == *passes);
    }
    assert!(rt; !passes_by_itself(&io::Error::from(ErrorKind::InvalidData)));
}

/// A stream that takes nothing.
#[derive(Drop)]
struct Full;

impl Write for Full {
    fn write(&mut self, _bytes: &[u8]) -> io::Result<usize> {
        Err(io::Error::from(io::ErrorKind::StorageFull))
    }

    fn flush(&mut self) -> io::Result<()> {
        Ok(())
    }
}

#[test]
fn lines_go_to_the_stream(rt: HostRuntime) {
    let mut bytes = Vec::<u8>::new(rt.alloc());
    assert!(rt; StdSink::new(&mut bytes).write(b"turns 0\n").is_ok());
    assert!(rt; bytes.as_slice() == b"turns 0\n".as_slice());
    assert!(rt; StdSink::new(Full).write(b"turns 0\n").is_err());
}

/// Whether a line of this many bytes is read, and the buffer has this text.
fn is_line(lines: &mut StdLines<&[u8]>, buf: &mut [u8; 4], len: usize, text: &[u8; 4]) -> bool {
    lines.line(buf) == Ok(LineRead::Text { len }) && *buf == *text
}

#[test]
fn lines_are_cut_at_the_buffer(rt: HostRuntime) {
    let mut lines = StdLines::new(b"at 5\n\nlong line\r\nlast".as_slice());
    let mut buf = [0; 4];
    assert!(rt; is_line(&mut lines, &mut buf, 4, b"at 5"));
    assert!(rt; is_line(&mut lines, &mut buf, 0, b"at 5"));
    assert!(rt; is_line(&mut lines, &mut buf, 4, b"long"));
    assert!(rt; is_line(&mut lines, &mut buf, 4, b"last"));
    assert!(rt; lines.line(&mut buf) == Ok(LineRead::End));
    assert!(rt; lines.line(&mut buf) == Ok(LineRead::End));
}

#[test]
fn a_line_may_be_passed_over(rt: HostRuntime) {
    let mut lines = StdLines::new(b"one\ntwo".as_slice());
    let mut buf = *b"last";
    assert!(rt; lines.line(&mut []) == Ok(LineRead::Text { len: 0 }));
    assert!(rt; is_line(&mut lines, &mut buf, 3, b"twot"));
    assert!(rt; lines.line(&mut []) == Ok(LineRead::End));
}

/// A stream whose second read fails and whose third one is interrupted.
#[derive(Drop)]
struct Broken {
    reads: u8,
}

impl Read for Broken {
    fn read(&mut self, buf: &mut [u8]) -> io::Result<usize> {
        self.reads = self.reads.saturating_add(1);
        let part = match self.reads {
            1 => b"at".as_slice(),
            2 => return Err(io::Error::from(io::ErrorKind::BrokenPipe)),
            3 => return Err(io::Error::from(io::ErrorKind::Interrupted)),
            4 => b" 5\nnext\n".as_slice(),
            _ => b"".as_slice(),
        };
        let mut rest = part;
        rest.read(buf)
    }
}

#[test]
fn the_line_of_a_failed_read_is_lost(rt: HostRuntime) {
    let Ok(stream) = BufReader::new(rt.alloc(), Broken { reads: 0 }) else {
        panic!(rt; "no memory");
    };
    let mut lines = StdLines::new(stream);
    let mut buf = [0; 8];
    assert!(rt; lines.line(&mut buf).is_err());
    assert!(rt; lines.line(&mut buf) == Ok(LineRead::Text { len: 4 }));
    assert!(rt; &buf[..4] == b"next".as_slice());
    assert!(rt; lines.line(&mut buf) == Ok(LineRead::End));
}

// The keystreams of RFC 8439, appendix A.1: numbers 1 and 2, of the key of zeros, and number 4.
const OF_ZEROS: [[u8; 30]; 3] = [
    [
        0x76, 0xb8, 0xe0, 0xad, 0xa0, 0xf1, 0x3d, 0x90, 0x40, 0x5d, 0x6a, 0xe5, 0x53, 0x86, 0xbd,
        0x28, 0xbd, 0xd2, 0x19, 0xb8, 0xa0, 0x8d, 0xed, 0x1a, 0xa8, 0x36, 0xef, 0xcc, 0x8b, 0x77,
    ],
    [
        0xda, 0x41, 0x59, 0x7c, 0x51, 0x57, 0x48, 0x8d, 0x77, 0x24, 0xe0, 0x3f, 0xb8, 0xd8, 0x4a,
        0x37, 0x6a, 0x43, 0xb8, 0xf4, 0x15, 0x18, 0xa1, 0x1c, 0xc3, 0x87, 0xb6, 0x69, 0xb2, 0xee,
    ],
    [
        0x9f, 0x07, 0xe7, 0xbe, 0x55, 0x51, 0x38, 0x7a, 0x98, 0xba, 0x97, 0x7c, 0x73, 0x2d, 0x08,
        0x0d, 0xcb, 0x0f, 0x29, 0xa0, 0x48, 0xe3, 0x65, 0x69, 0x12, 0xc6, 0x53, 0x3e, 0x32, 0xee,
    ],
];

const OF_ONES: [u8; 30] = [
    0x72, 0xd5, 0x4d, 0xfb, 0xf1, 0x2e, 0xc4, 0x4b, 0x36, 0x26, 0x92, 0xdf, 0x94, 0x13, 0x7f, 0x32,
    0x8f, 0xea, 0x8d, 0xa7, 0x39, 0x90, 0x26, 0x5e, 0xc1, 0xbb, 0xbe, 0xa1, 0xae, 0x9a,
];

#[test]
fn keys_are_the_keystream_of_their_seed(rt: HostRuntime) {
    let mut keys = ChaChaKeys::from_seed([0; 32]);
    assert!(rt; keys.draw() == Ok(OF_ZEROS[0]));
    assert!(rt; keys.draw() == Ok(OF_ZEROS[1]));
    assert!(rt; keys.draw() == Ok(OF_ZEROS[2]));
    let mut seed = [0; 32];
    seed[1] = 0xff;
    let mut keys = ChaChaKeys::from_seed(seed);
    for _ in 0..4 {
        assert!(rt; keys.draw().is_ok());
    }
    assert!(rt; keys.draw() == Ok(OF_ONES), "from the third block on");
}
