//! The reply to a datagram, sent and kept.
ghost use Rattle.std.specs.Prelude.{◌≡◌};
ghost use Rattle.relay_outside.specs.declared.settings.Config.{Config};
ghost use Rattle.relay_outside.specs.DeviceLogs.{HasCause};
ghost use Rattle.cookie_cache.specs.Keepings.{IsCookie};
ghost use Rattle.cookie_cache.specs.Caches.{HasSparePlace};
ghost use Rattle.call_board.specs.Boards.{BoardMatches};
ghost use Rattle.call_board.specs.Shapes.{board_shape};
ghost use Rattle.call_board.specs.Views.{View};
ghost use Rattle.ng_server.specs.SentReplies.{SendsOnce};
ghost use Rattle.ng_server.specs.Requests.{datagram_to_send, with_kept};

use crate::sent_reply::{send, send_shortage};
use call_board::Board;
use control_messages::Request;
use ng_bencode::Text;
use relay_outside::{ControlLink, Failed};

/// Sends the reply to a request to its source, and keeps it, in the room that was made for it; where there is none, it sends
/// the error that says out of memory.
pub(crate) fn reply_to<N: ControlLink>(
    board: &mut Board,
    link: &mut N,
    request: &Request,
    moment: u64,
    cookie: Text,
    reply: Option<Text>,
) -> Result<(), Failed>
    requires cookie { IsCookie request.now.cookie.now × (cookie.list ≡ request.now.cookie.now) }
    requires place { HasSparePlace board.old.replies }
    ensures sent { SendsOnce request.now.source (datagram_to_send request.now.cookie.now request.now.body.now reply) result (N.log link.old) (N.log link.new) }
    ensures kept { (config : Config) (v : View) → BoardMatches config board.old v → BoardMatches config board.new (with_kept request.now moment reply v) }
    ensures shape { board_shape board.new ≡ board_shape board.old }
    ensures cause { HasCause (N.faults link.old) (N.faults link.new) result }
{
    let Some(reply) = reply else {
        return send_shortage(link, request);
    };
    let sent = send(link, request.source, reply.as_slice());
    board.keep_reply(request.source, cookie, reply, moment);
    sent
}
