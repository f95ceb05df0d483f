//! The sending of replies.
ghost use Rattle.std.specs.Prelude.{◌≤◌, ◌∷◌, ◌++◌};
ghost use Rattle.relay_outside.specs.DeviceLogs.{HasCause};
ghost use Rattle.cookie_cache.specs.Keepings.{IsCookie};
ghost use Rattle.call_board.specs.Replies.{fault_datagram};
ghost use Rattle.ng_server.specs.SentReplies.{SendsOnce};

use control_messages::{Request, error_into};
use ng_reply::ErrorCode;
use relay_outside::{Addr, ControlLink, Failed};

/// Sends a reply.
pub(crate) fn send<N: ControlLink>(link: &mut N, to: Addr, bytes: &[u8]) -> Result<(), Failed>
    ensures sent { SendsOnce to bytes.now result (N.log link.old) (N.log link.new) }
    ensures cause { HasCause (N.faults link.old) (N.faults link.new) result }
{
    link.send(to, bytes)
}

/// Replies to a request that memory ran out, without taking any.
pub(crate) fn send_shortage<N: ControlLink>(link: &mut N, request: &Request) -> Result<(), Failed>
    requires { IsCookie request.now.cookie.now }
    ensures sent { SendsOnce request.now.source (fault_datagram request.now.cookie.now request.now.body.now ErrorCode.E17) result (N.log link.old) (N.log link.new) }
    ensures cause { HasCause (N.faults link.old) (N.faults link.new) result }
{
    let mut out = [0; 512];
    let len = error_into(request, ErrorCode::E17, &mut out);
    send(link, request.source, &out[..len])
}
