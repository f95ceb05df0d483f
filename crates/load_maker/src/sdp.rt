//! The descriptions that the two sides of a call signal.
ghost use Rattle.std.specs.Prelude.{◌≡◌, ◌≤◌, ◌++◌, length, take, codes, IfOk, OnOk};
ghost use Rattle.sdes_lines.specs.CryptoLine.{line_text};
ghost use Rattle.sdes_lines.specs.declared.crypto_line.Suite.TheVariants.{Tag80};
ghost use Rattle.load_maker.specs.Calls.{signalled_port, answer_key, answer_end, side_a_sdp, answered_sdp};

use crate::text::{put, put_number};
use ng_bencode::Text;
use relay_outside::{KeyAndSalt, OutOfMemory};
use sdes_lines::{CryptoLine, Suite, write_line};
use std::alloc::Global;

/// The port that both sides of a call signal for RTP.
pub(crate) fn media_port(call: u32) -> u16
    requires { call ≤ 1000 }
    ensures { result ≡ signalled_port call }
{
    10_000 + 2 * (call as u16)
}

/// Side B's master key and salt.
pub(crate) fn answer_key(call: u32) -> KeyAndSalt
    ensures { result ≡ answer_key call }
{
    [(call % 256) as u8; 30]
}

/// Side A's description.
pub(crate) fn offered_sdp(alloc: Global, call: u32) -> Result<Text, OutOfMemory>
    requires { call ≤ 1000 }
    ensures { IfOk result (λ sdp. sdp.list ≡ side_a_sdp call) }
{
    let mut sdp = Text::new(alloc);
    put(
        &mut sdp,
        b"v=0\r\no=alice 1 1 IN IP4 192.0.2.10\r\ns=-\r\nc=IN IP4 192.0.2.10\r\nt=0 0\r\nm=audio ",
    )?;
    put_number(&mut sdp, u32::from(media_port(call)))?;
    put(
        &mut sdp,
        b" RTP/AVP 0 8\r\na=rtpmap:0 PCMU/8000\r\na=sendrecv\r\n",
    )?;
    Ok(sdp)
}

/// Side B's description.
pub(crate) fn answered_sdp(alloc: Global, call: u32, protected: bool) -> Result<Text, OutOfMemory>
    requires { call ≤ 1000 }
    ensures { IfOk result (λ sdp. sdp.list ≡ answered_sdp call protected) }
{
    let mut sdp = Text::new(alloc);
    put(
        &mut sdp,
        b"v=0\r\no=bob 2 2 IN IP4 198.51.100.20\r\ns=-\r\nc=IN IP4 198.51.100.20\r\nt=0 0\r\nm=audio ",
    )?;
    put_number(&mut sdp, u32::from(media_port(call)))?;
    put_answer_end(&mut sdp, call, protected)?;
    Ok(sdp)
}

/// Puts what follows the port in side B's description.
fn put_answer_end(sdp: &mut Text, call: u32, protected: bool) -> Result<(), OutOfMemory>
    ensures { OnOk result (sdp.new.list ≡ sdp.old.list ++ answer_end call protected) }
{
    if !protected {
        return put(sdp, b" RTP/AVP 0\r\n");
    }
    let mut line = [0; 96];
    let size = write_key(call, &mut line);
    put(sdp, b" RTP/SAVP 0\r\n")?;
    put(sdp, &line[..size])?;
    put(sdp, b"\r\n")
}

/// Writes the crypto line with side B's key at the front of the buffer, and returns its length.
fn write_key(call: u32, out: &mut [u8; 96]) -> usize
    ensures within { result ≤ 96 }
    ensures line { take result out.new ≡ line_text 1 Tag80 (answer_key call) }
{
    let line = CryptoLine {
        tag: 1,
        suite: Suite::Tag80,
        key: answer_key(call),
    };
    write_line(&line, out)
}
