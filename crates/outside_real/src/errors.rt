use std::io::{Error, ErrorKind};

/// Linux's numbers of errors that pass by themselves and have no kind of their own: that the system had no buffer (`ENOBUFS`), and what an
/// ICMP message of an earlier datagram may be told as (`ENONET`, `EMSGSIZE`, `ENOPROTOOPT`, `EOPNOTSUPP`, `EHOSTDOWN`).
const UNNAMED: [i32; 6] = [64, 90, 92, 95, 105, 112];

/// Whether an error of a read of a bound UDP socket passes by itself, so that a later read may give a datagram: nothing came in time
/// (`EAGAIN`, `ETIMEDOUT`), a signal came (`EINTR`), the system had no memory (`ENOMEM`, `ENOBUFS`), the network is down (`ENETDOWN`), or an earlier datagram of
/// this socket reached nobody or found no way (ICMP, told as `ECONNREFUSED`, `ECONNRESET`, `EHOSTUNREACH`, `ENETUNREACH` and the like).
///
/// Of any other, such as that there is no socket under the number (`EBADF`, `ENOTSOCK`), no later read is better.
pub fn passes_by_itself(error: &Error) -> bool {
    match error.kind() {
        ErrorKind::WouldBlock | ErrorKind::TimedOut | ErrorKind::Interrupted => true,
        ErrorKind::ConnectionRefused | ErrorKind::ConnectionReset => true,
        ErrorKind::HostUnreachable | ErrorKind::NetworkUnreachable | ErrorKind::NetworkDown => true,
        ErrorKind::OutOfMemory => true,
        _ => error
            .raw_os_error()
            .is_some_and(|number| UNNAMED.contains(&number)),
    }
}
