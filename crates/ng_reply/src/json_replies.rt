//! Replies in JSON that are written without taking memory.
ghost use Rattle.std.specs.Prelude.{◌≡◌, ◌+◌, ◌*◌, ◌<◌, ◌≤◌, ◌^◌, ◌++◌, length, take};
ghost use Rattle.ng_json.specs.JsonText.{json_text};
ghost use Rattle.ng_reply.specs.Replies.{sdp_reply, json_error_datagram};

use crate::code::ErrorCode;
use crate::error::put;
use crate::words::code_text;
use ng_bencode::Text;
use ng_json::put_bytes;

/// How many bytes of room the JSON reply with a description of this length needs: no byte of it takes more than six, as `\u0000` does.
pub fn sdp_json_len(sdp_len: usize) -> usize
    requires { sdp_len < 2 ^ 40 }
    ensures { result ≡ 6 * sdp_len + 64 }
{
    6 * sdp_len + 64
}

/// Writes the JSON reply with a description after `out`, in room that was reserved for `sdp_json_len` bytes. It takes no memory.
pub fn sdp_json_into(sdp: &[u8], out: &mut Text)
    requires small { length sdp.now < 2 ^ 40 }
    requires room { 6 * length sdp.now + 64 ≤ out.old.spare }
    ensures written { out.new.list ≡ out.old.list ++ json_text (sdp_reply sdp.now) }
    ensures room { out.old.spare ≤ out.new.spare + (6 * length sdp.now + 64) }
{
    out.extend(b"{\"result\":\"ok\",\"sdp\":");
    put_bytes(out, sdp);
    out.push(b'}');
}

/// Writes the datagram of an error in JSON, the cookie, a space and the reply, and returns its length.
/// It takes no memory. What stands in `out` after the datagram is left open.
pub fn fixed_json_error(cookie: &[u8], code: ErrorCode, out: &mut [u8; 512]) -> usize
    requires some { 0 < length cookie.now }
    requires short { length cookie.now ≤ 255 }
    ensures within { result ≤ 512 }
    ensures datagram { take result out.new ≡ json_error_datagram cookie.now code }
{
    let words = code_text(code);
    let at = put(out, 0, cookie);
    let at = put(out, at, b" {\"error-reason\":\"");
    let at = put(out, at, words.as_slice());
    put(out, at, b"\",\"result\":\"error\"}")
}
