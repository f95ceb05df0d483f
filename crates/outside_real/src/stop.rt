use libc::net::{POLLHUP, POLLIN, poll};
use libc::types::pollfd;
use std::net::UdpSocket;
use std::os::fd::AsRawFd;

/// A pipe whose end stops the program: it ends once its writing end is closed everywhere. What is written to it stands for
/// nothing, and isn't read.
///
/// It may be no pipe: then it never ends, and nor does one that the system tells nothing of. None of that is a fault.
#[derive(Clone, Copy)]
pub struct StopPipe {
    /// The number of its reading end.
    descriptor: Option<i32>,
}

impl StopPipe {
    /// Standard input where it is a pipe when this is called, one with a name too; else no pipe. So `/dev/null`, a file, a
    /// terminal and a socket never stop the program.
    pub fn standard_input() -> StopPipe {
        StopPipe::at(libc::STDIN_FILENO)
    }

    /// The pipe that has this reading end, which stays open as long as this is used; no pipe where it isn't one.
    pub fn of(end: &impl AsRawFd) -> StopPipe {
        StopPipe::at(end.as_raw_fd())
    }

    /// No pipe.
    pub fn none() -> StopPipe {
        StopPipe { descriptor: None }
    }

    /// The pipe under this number.
    fn at(descriptor: i32) -> StopPipe {
        StopPipe {
            descriptor: is_pipe(descriptor).then_some(descriptor),
        }
    }

    /// The number of the pipe's reading end, where there is a pipe.
    pub(crate) fn descriptor(&self) -> Option<i32> {
        self.descriptor
    }

    /// Waits until the pipe has ended or something stands at the socket, for at most this many milliseconds: whether the
    /// pipe has ended. A signal ends the wait too, and so does a system that can't tell.
    pub(crate) fn ends_within(&self, socket: &UdpSocket, millis: u32) -> bool {
        let end = self.descriptor.unwrap_or(NOTHING);
        let mut asked = [question(end, 0), question(socket.as_raw_fd(), POLLIN)];
        let timeout = i32::try_from(millis).unwrap_or(i32::MAX);
        poll(&mut asked, timeout) > 0 && asked[0].revents & POLLHUP != 0
    }
}

/// The number that poll passes over.
const NOTHING: i32 = -1;

/// What poll is asked of a descriptor. That a pipe ended is told without being asked.
fn question(descriptor: i32, events: i16) -> pollfd {
    pollfd {
        fd: descriptor,
        events,
        revents: 0,
    }
}

/// Whether a pipe is open under the number: advice on its bytes is refused for that reason (POSIX).
fn is_pipe(descriptor: i32) -> bool {
    libc::posix_fadvise(descriptor, 0, 0, libc::POSIX_FADV_NORMAL) == libc::ESPIPE
}
