//! Writing a line of what a replay prints.
ghost use Rattle.std.specs.Prelude.{◌≡◌, ◌+◌, ◌≤◌, ◌++◌, ◌∷◌, [], ℕ, length, codes, decimal, IfOk, OnOk};
ghost use Rattle.hex.specs.Hex.{encode_lower};
ghost use Rattle.relay_script.specs.EventLines.{event_of, ip_text, addr_text, shown_byte, shown_text, refused_name, lost_name, outcome_line, printed_line};

use crate::event::Printed;
use call_cell::{Lost, Outcome, Refused};
use itoa::Buffer;
use ng_bencode::{OutOfMemory, Text};
use relay_outside::{Addr, Ip};
use sdp_text::{Host, host_text};
use std::alloc::Global;

/// Puts bytes after the line.
fn put(line: &mut Text, bytes: &[u8]) -> Result<(), OutOfMemory>
    ensures { OnOk result (line.new.list ≡ line.old.list ++ bytes.now) }
{
    line.reserve(bytes.len())?;
    line.extend(bytes);
    Ok(())
}

fn put_number(line: &mut Text, number: u64) -> Result<(), OutOfMemory>
    ensures { OnOk result (line.new.list ≡ line.old.list ++ decimal number) }
{
    let mut buffer = Buffer::new();
    put(line, buffer.format(number).as_bytes())
}

/// A word and a number.
fn put_counted(line: &mut Text, word: &[u8], number: u64) -> Result<(), OutOfMemory>
    requires { line.old.list ≡ [] }
    ensures { OnOk result (line.new.list ≡ word.now ++ decimal number) }
{
    put(line, word)?;
    put_number(line, number)
}

/// A word and a name.
fn put_named(line: &mut Text, word: &[u8], name: &[u8]) -> Result<(), OutOfMemory>
    requires { line.old.list ≡ [] }
    ensures { OnOk result (line.new.list ≡ word.now ++ name.now) }
{
    put(line, word)?;
    put(line, name)
}

fn put_ip(line: &mut Text, ip: Ip) -> Result<(), OutOfMemory>
    ensures { OnOk result (line.new.list ≡ line.old.list ++ ip_text ip) }
{
    match ip {
        Ip::V4(bytes) => put(line, host_text(&Host::V4(bytes)).as_slice()),
        Ip::V6(bytes) => put_bracketed(line, host_text(&Host::V6(bytes)).as_slice()),
    }
}

fn put_bracketed(line: &mut Text, text: &[u8]) -> Result<(), OutOfMemory>
    ensures { OnOk result (line.new.list ≡ line.old.list ++ (91 ∷ text.now ++ 93 ∷ [])) }
{
    put(line, b"[")?;
    put(line, text)?;
    put(line, b"]")
}

fn put_addr(line: &mut Text, addr: Addr) -> Result<(), OutOfMemory>
    ensures { OnOk result (line.new.list ≡ line.old.list ++ addr_text addr) }
{
    put_ip(line, addr.ip)?;
    put(line, b":")?;
    put_number(line, u64::from(addr.port))
}

/// Two hexadecimal digits in lower case.
fn push_pair(line: &mut Text, byte: u8)
    requires { 2 ≤ line.old.spare }
    ensures list { line.new.list ≡ line.old.list ++ encode_lower (byte ∷ []) }
    ensures room { line.old.spare ≤ line.new.spare + 2 }
{
    let mut digits = [0; 2];
    let _ = hex::encode_to_slice([byte], &mut digits);
    line.extend(&digits);
}

fn put_hex(line: &mut Text, bytes: &[u8]) -> Result<(), OutOfMemory>
    ensures { OnOk result (line.new.list ≡ line.old.list ++ encode_lower bytes.now) }
{
    let Some(len) = bytes.len().checked_mul(2) else {
        return Err(OutOfMemory);
    };
    line.reserve(len)?;
    for byte in bytes {
        push_pair(line, *byte);
    }
    Ok(())
}

/// A byte of a reply.
fn push_shown(line: &mut Text, byte: u8)
    requires { 4 ≤ line.old.spare }
    ensures list { line.new.list ≡ line.old.list ++ shown_byte byte }
    ensures room { line.old.spare ≤ line.new.spare + 4 }
{
    if byte == b'\\' {
        line.extend(b"\\\\");
    } else if byte >= b' ' && byte <= b'~' {
        line.push(byte);
    } else {
        line.extend(b"\\x");
        push_pair(line, byte);
    }
}

fn put_shown(line: &mut Text, bytes: &[u8]) -> Result<(), OutOfMemory>
    ensures { OnOk result (line.new.list ≡ line.old.list ++ shown_text bytes.now) }
{
    let Some(len) = bytes.len().checked_mul(4) else {
        return Err(OutOfMemory);
    };
    line.reserve(len)?;
    for byte in bytes {
        push_shown(line, *byte);
    }
    Ok(())
}

fn put_reply(line: &mut Text, to: Addr, bytes: &[u8]) -> Result<(), OutOfMemory>
    requires { line.old.list ≡ [] }
    ensures { OnOk result (line.new.list ≡ codes "reply " ++ addr_text to ++ codes " t:" ++ shown_text bytes.now) }
{
    put(line, b"reply ")?;
    put_addr(line, to)?;
    put(line, b" t:")?;
    put_shown(line, bytes)
}

fn put_sent(line: &mut Text, port: u16, to: Addr, bytes: &[u8]) -> Result<(), OutOfMemory>
    requires { line.old.list ≡ [] }
    ensures { OnOk result (line.new.list
        ≡ codes "sent " ++ decimal port ++ codes " " ++ addr_text to ++ codes " x:" ++ encode_lower bytes.now) }
{
    put_counted(line, b"sent ", u64::from(port))?;
    put(line, b" ")?;
    put_addr(line, to)?;
    put(line, b" x:")?;
    put_hex(line, bytes)
}

fn refused_name(refused: Refused) -> &'static [u8]
    ensures { result.now ≡ refused_name refused }
{
    match refused {
        Refused::Stale => b"Stale",
        Refused::NotAnswered => b"NotAnswered",
        Refused::Malformed => b"Malformed",
        Refused::WrongSource => b"WrongSource",
        Refused::Short => b"Short",
        Refused::NotAuthentic => b"NotAuthentic",
        Refused::TooOld => b"TooOld",
        Refused::Replayed => b"Replayed",
        Refused::TooManySources => b"TooManySources",
    }
}

fn lost_name(lost: Lost) -> &'static [u8]
    ensures { result.now ≡ lost_name lost }
{
    match lost {
        Lost::Hold => b"Hold",
        Lost::OutTooOld => b"OutTooOld",
        Lost::IndexUsed => b"IndexUsed",
        Lost::OutSources => b"OutSources",
        Lost::KeySpent => b"KeySpent",
        Lost::SendFault { .. } => b"SendFault",
    }
}

fn put_outcome(line: &mut Text, outcome: Outcome, bytes: &[u8]) -> Result<(), OutOfMemory>
    requires { line.old.list ≡ [] }
    ensures { OnOk result (line.new.list ≡ outcome_line outcome bytes.now) }
{
    match outcome {
        Outcome::Refused(refused) => put_named(line, b"refused ", refused_name(refused)),
        Outcome::Lost(lost) => put_named(line, b"lost ", lost_name(lost)),
        Outcome::Sent { port, to, .. } => put_sent(line, port, to, bytes),
    }
}

fn put_event(line: &mut Text, event: &Printed) -> Result<(), OutOfMemory>
    requires { line.old.list ≡ [] }
    ensures { OnOk result (line.new.list ≡ printed_line (event_of event.now)) }
{
    match event {
        Printed::Reply(to, bytes) => put_reply(line, *to, bytes.as_slice()),
        Printed::Silent => put(line, b"silent"),
        Printed::ReadFault => put(line, b"read-fault"),
        Printed::ReplyFault => put(line, b"reply-fault"),
        Printed::Took(receipt) => put_counted(line, b"took ", u64::from(*receipt)),
        Printed::Nothing => put(line, b"nothing"),
        Printed::TooLong => put(line, b"too-long"),
        Printed::TakeFault => put(line, b"take-fault"),
        Printed::Relayed { outcome, bytes } => put_outcome(line, *outcome, bytes.as_slice()),
        Printed::Ended(calls) => put_counted(line, b"ended ", *calls as u64),
        Printed::ScriptFault(number) => {
            put_counted(line, b"script fault: line ", u64::from(*number))
        }
    }
}

/// The line that an event is printed as, without a line feed.
pub fn print(alloc: Global, event: &Printed) -> Result<Text, OutOfMemory>
    ensures { IfOk result (λ line. line.list ≡ printed_line (event_of event.now)) }
{
    let mut line = Text::new(alloc);
    put_event(&mut line, event)?;
    Ok(line)
}
