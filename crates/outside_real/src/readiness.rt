ghost use Rattle.std.specs.Prelude.{◌≡◌, ◌+◌, ◌-◌, ◌≤◌, length};
ghost use Rattle.relay_outside.specs.Settings.{ip_family};
ghost use Rattle.outside_real.specs.Sockets.{first_socket};

use crate::stop::StopPipe;
use libc::net::{EPOLL_CLOEXEC, EPOLL_CTL_ADD, EPOLLIN, epoll_create1};
use os::EpollEvent;
use relay_outside::{Addr, Family, LaneShare};
use std::alloc::Global;
use std::net::UdpSocket;
use std::os::fd::AsRawFd;
use std::sync::Arc;
use std::sync::atomic::{AtomicBool, AtomicU32, AtomicU64, Ordering};
use std::time::Duration;
use std::{rt, thread};

/// How long a wait lasts at most where the system can't tell all that is readable, in milliseconds.
const BLIND_MILLIS: u32 = 2;

/// How many sockets one wait tells at most.
const EVENTS: usize = 64;

/// How many milliseconds a second has.
const SECOND: u32 = 1_000;

/// The number that no pair has, which stands for the control socket and for the pipe whose end stops the program.
const NO_PAIR: u32 = u32::MAX;

/// How many pairs there are at most: half as many as there are ports, for each family.
const MOST_PAIRS: u32 = 65_536;

/// Under which the control socket is watched: the number of no media socket.
const CONTROL: u64 = 1 << 32;

/// Under which the pipe is watched.
const PIPE: u64 = 1 << 33;

/// For each of the first sockets, by their numbers, a bit: whether the system told since the last take that a datagram stands there.
#[derive(Drop)]
struct HintBits {
    /// Each has the bits of 64 sockets.
    words: Vec<AtomicU64>,
}

impl HintBits {
    /// Bits for so many sockets or some more, none of which is set; `None` where there is no memory.
    fn new(alloc: Global, sockets: usize) -> Option<HintBits> {
        let count = sockets.div_ceil(64);
        let mut words = Vec::with_capacity(alloc, count).ok()?;
        for _ in 0..count {
            words.push(AtomicU64::new(0)).ok()?;
        }
        Some(HintBits { words })
    }

    /// Sets the bit of this socket, if it has one.
    fn set(&self, socket: u32) {
        if let Some(word) = self.words.get((socket / 64) as usize) {
            word.fetch_or(1 << (socket % 64), Ordering::SeqCst);
        }
    }

    /// Clears the bit of this socket, and returns whether it was set. A socket without one counts as if it always were.
    fn take(&self, socket: u32) -> bool {
        let Some(word) = self.words.get((socket / 64) as usize) else {
            return true;
        };
        let bit = 1 << (socket % 64);
        word.load(Ordering::SeqCst) & bit != 0 && word.fetch_and(!bit, Ordering::SeqCst) & bit != 0
    }
}

/// A set of sockets of which the system tells those that are readable, as long as they are (epoll,
/// level-triggered). A media socket's number is twice its pair's, and one more at the odd port. The set's descriptor is closed where it is
/// dropped.
struct EventSet {
    descriptor: i32,
    /// Whether the system tells of each socket that was to be in the set, and the pipe hasn't ended.
    complete: AtomicBool,
    /// At which sockets a datagram stands.
    hinted: HintBits,
    /// When the last wait ended, in milliseconds from any moment.
    moment: AtomicU32,
}

impl Drop for EventSet {
    fn drop(self) {
        let EventSet {
            descriptor,
            complete: _,
            hinted: _,
            moment: _,
        } = self;
        libc::close(descriptor);
    }
}

impl EventSet {
    /// An empty set, with room for the hints of so many sockets; `None` where the system refuses it or there is no memory.
    fn new(alloc: Global, sockets: usize) -> Option<EventSet> {
        let hinted = HintBits::new(alloc, sockets)?;
        let descriptor = epoll_create1(EPOLL_CLOEXEC);
        if descriptor < 0 {
            return None;
        }
        Some(EventSet {
            descriptor,
            complete: AtomicBool::new(true),
            hinted,
            moment: AtomicU32::new(0),
        })
    }

    /// Adds a socket or another descriptor under this number, with the events to watch for besides its end and its
    /// errors. If the system refuses it, the set isn't complete from then on.
    fn add(&self, descriptor: i32, events: u32, number: u64) {
        let added = os::epoll_ctl(self.descriptor, EPOLL_CTL_ADD, descriptor, events, number);
        if added < 0 {
            self.complete.store(false, Ordering::SeqCst);
        }
    }

    /// Notes what the system told of the socket or the pipe with this number, and returns the pair that it belongs to. Once the pipe
    /// has ended, nothing is left to hints.
    fn note(&self, number: u64) -> u32 {
        if number == PIPE {
            self.complete.store(false, Ordering::SeqCst);
        }
        let Ok(socket) = u32::try_from(number) else {
            return NO_PAIR;
        };
        self.hinted.set(socket);
        socket / 2
    }

    /// Waits until a socket is readable, for at most this many milliseconds, and writes the pairs of those that are to
    /// the front of the buffer: how many they are. In a set that isn't complete the wait is a rest, and they are none.
    fn wait(&self, clock: &impl rt::Clock, millis: u32, pairs: &mut [u32]) -> usize
        ensures within { result ≤ length pairs.new }
        ensures most { result ≤ 64 }
    {
        if !self.complete.load(Ordering::SeqCst) {
            rest(clock, millis);
            return 0;
        }
        let timeout = i32::try_from(millis).unwrap_or(i32::MAX);
        let mut events = [EpollEvent { events: 0, data: 0 }; EVENTS];
        let room = pairs.len().min(EVENTS);
        let count = os::epoll_wait(self.descriptor, &mut events[..room], timeout);
        if count == 0 && os::errno() != 0 {
            rest(clock, millis);
        }
        for (pair, event) in pairs.iter_mut().zip(&events[..count]) {
            *pair = self.note(event.data);
        }
        count
    }

    /// Notes when a wait ended, in milliseconds.
    fn note_moment(&self, moment: u32) {
        if self.moment.load(Ordering::SeqCst) != moment {
            self.moment.store(moment, Ordering::SeqCst);
        }
    }
}

/// In which second of its own a socket is at this moment. The seconds of sockets begin at different milliseconds, so that they aren't all
/// asked at once.
fn second_of(socket: u32, moment: u32) -> u32 {
    moment.wrapping_add(socket % SECOND) / SECOND
}

/// Whether the system is to be asked for a datagram of a socket: where it told of one there since it was asked last, where it wasn't
/// asked in the second of its thread's last wait, or where it can't tell.
#[derive(Drop)]
pub(crate) struct Hints {
    /// The set in which the socket is watched; none where nothing is left to hints.
    set: Option<Arc<EventSet, Global>>,
    /// The socket's number there.
    socket: u32,
    /// In which of its seconds it was asked last.
    asked: Option<u32>,
}

impl Hints {
    /// Whether the system is to be asked now.
    pub(crate) fn are_due(&mut self) -> bool {
        let Some(set) = &self.set else {
            return true;
        };
        let second = Some(second_of(self.socket, set.moment.load(Ordering::SeqCst)));
        if set.hinted.take(self.socket)
            || self.asked != second
            || !set.complete.load(Ordering::SeqCst)
        {
            self.asked = second;
            return true;
        }
        false
    }
}

/// Sleeps for this many milliseconds, and for no more than 2.
fn rest(clock: &impl rt::Clock, millis: u32) {
    let millis = millis.min(BLIND_MILLIS);
    thread::sleep(clock, Duration::from_millis(u64::from(millis)));
}

/// At which ports sockets are readable, thread by thread, as the system tells it. It is a hint, on which rests how long a thread
/// sleeps, which of its lanes it sweeps, and whether a take asks the system. The first take of a port in each second asks it without a hint.
///
/// Maker, clock and link share it by reference. Nothing of it fails: where the system refuses a set or a socket, each of
/// that thread's waits returns 0, within 2 ms. So the thread knows by the clock that the time was not up, and looks at all
/// its ports, often enough, and the processor mostly idles.
/// A socket leaves its set by itself once all its descriptors are closed.
#[derive(Drop)]
pub struct Readiness {
    pub(crate) alloc: Global,
    /// The sets of the first threads: of all, or of those before the first one that was refused.
    sets: Vec<Arc<EventSet, Global>>,
    share: LaneShare,
    first_port: u16,
    range_pairs: u16,
}

impl Readiness {
    /// A set for each thread of the share, with the pipe's end in it and no socket yet; no thread counts as one, whose set
    /// has all pairs. The first port is the even one of the range's first pair. With R pairs in the range (`range_pairs`), pair n below R has the
    /// ports `first_port + 2 * n` and the next, of version 4, and pair R + n the same ports of version 6. A pair's sockets stand in the set of the
    /// thread that has its lane. Each set has room for hints of so many pairs, of 65,536 at most; a socket without room, or of a port that isn't
    /// in the range, is asked without one.
    pub fn new(
        alloc: Global,
        share: LaneShare,
        first_port: u16,
        range_pairs: u16,
        pairs: u32,
        stop: StopPipe,
    ) -> Readiness {
        let sockets = 2 * pairs.min(MOST_PAIRS) as usize;
        let mut sets = Vec::new(alloc);
        for _ in 0..share.threads.max(1) {
            let Some(set) = EventSet::new(alloc, sockets) else {
                break;
            };
            if let Some(pipe) = stop.descriptor() {
                set.add(pipe, 0, PIPE);
            }
            let Ok(set) = Arc::new(alloc, set) else {
                break;
            };
            if sets.push(set).is_err() {
                break;
            }
        }
        Readiness {
            alloc,
            sets,
            share,
            first_port,
            range_pairs,
        }
    }

    /// The set of a thread, where there is one.
    fn set_of(&self, thread: u32) -> Option<&Arc<EventSet, Global>> {
        self.sets.get(usize::try_from(thread).ok()?)
    }

    /// The number of the media socket at this address: twice its pair's, and one more at the odd port; as of the first port, where its own
    /// stands below.
    fn number_of(&self, at: Addr) -> u32
        ensures { result ≡ first_socket (ip_family at.ip) self.now.range_pairs + (at.port - self.now.first_port) }
    {
        let distance = u32::from(at.port.saturating_sub(self.first_port));
        match at.ip.family() {
            Family::V4 => distance,
            Family::V6 => 2 * u32::from(self.range_pairs) + distance,
        }
    }

    /// Whether no other socket of the range has this one's number.
    fn is_in_range(&self, port: u16) -> bool {
        let distance = u32::from(port.saturating_sub(self.first_port));
        self.first_port <= port && distance < 2 * u32::from(self.range_pairs)
    }

    /// Watches a media socket that is bound to this address, in the set of the thread that has the lane of its pair; of the first thread where
    /// there is no lane. Where no thread relays media, a sweep asks at all ports, and no hint says at which.
    pub(crate) fn watch(&self, socket: &UdpSocket, at: Addr) -> Hints {
        let number = self.number_of(at);
        let lane = self.share.lane_of(number / 2).unwrap_or(0);
        let mut hints = Hints {
            set: None,
            socket: number,
            asked: None,
        };
        if let Some(set) = self.set_of(self.share.thread_of(lane)) {
            set.add(socket.as_raw_fd(), EPOLLIN, u64::from(number));
            if self.share.threads > 0 && self.is_in_range(at.port) {
                hints.set = Arc::try_clone(set).ok();
            }
        }
        hints
    }

    /// Watches the control socket in the set of thread 0, under the number that no pair has.
    pub(crate) fn watch_control(&self, socket: &UdpSocket) {
        if let Some(set) = self.set_of(0) {
            set.add(socket.as_raw_fd(), EPOLLIN, CONTROL);
        }
    }

    /// Waits until a socket of the thread's pairs is readable, for at most this many milliseconds, and writes the numbers of
    /// these pairs to the front of the buffer, 64 at most: how many they are. A pair stands there twice where both its
    /// sockets are readable. The greatest number, which no pair has, stands there for the control socket, and for the pipe's
    /// end, after which a wait is a rest.
    ///
    /// 0 says that the time is up, or, where it isn't, that a signal came or that the system can't tell. Where it can't tell of
    /// each socket, or the thread has no set, a wait always returns 0, and lasts 2 ms at most.
    pub(crate) fn wait(
        &self,
        clock: &impl rt::Clock,
        thread: u32,
        millis: u32,
        pairs: &mut [u32],
    ) -> usize
        ensures within { result ≤ length pairs.new }
        ensures most { result ≤ 64 }
    {
        match self.set_of(thread) {
            Some(set) => set.wait(clock, millis, pairs),
            None => {
                rest(clock, millis);
                0
            }
        }
    }

    /// Notes the moment, in milliseconds, at which a wait of a thread ended.
    pub(crate) fn note_moment(&self, thread: u32, now: u64) {
        if let Some(set) = self.set_of(thread) {
            set.note_moment((now % (1 << 32)) as u32);
        }
    }
}
