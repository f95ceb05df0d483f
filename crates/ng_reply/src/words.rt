//! The text of an error, written without taking memory.
ghost use Rattle.std.specs.Prelude.{◌≡◌, ◌+◌, ◌≤◌, ◌++◌, ℕ, List, [], length, take, decimal};
ghost use Rattle.ng_reply.specs.Texts.{key_text, part_text, head_text, code_text};

use crate::code::{ErrorCode, SdpPart};
use itoa::Buffer;
use ng_command::KeyName;
use std::marker::Model;

/// A short text: at most 96 bytes.
#[derive(Drop)]
pub(crate) struct Words {
    bytes: [u8; 96],
    len: usize,
}

impl Model for Words {
    ghost Value = { List ℕ };

    ghost view = { λ words. take words.len words.bytes };

    ghost invariant = { λ words. words.len ≤ 96 };
}

impl Words {
    fn new() -> Words
        ensures { result ≡ [] }
    {
        Words {
            bytes: [0; 96],
            len: 0,
        }
    }

    fn put(&mut self, text: &[u8])
        requires { length self.old + length text.now ≤ 96 }
        ensures { self.new ≡ self.old ++ text.now }
    {
        let end = self.len + text.len();
        self.bytes[self.len..end].copy_from_slice(text);
        self.len = end;
    }

    fn put_number(&mut self, number: u32)
        requires { length self.old ≤ 50 }
        ensures { self.new ≡ self.old ++ decimal number }
    {
        let mut buffer = Buffer::new();
        self.put(buffer.format(number).as_bytes());
    }

    pub(crate) fn as_slice(&self) -> &[u8]
        ensures text { result.now ≡ self.now }
        ensures short { length result.now ≤ 96 }
    {
        &self.bytes[..self.len]
    }
}

/// The text of an error.
pub(crate) fn code_text(code: ErrorCode) -> Words
    ensures { result ≡ code_text code }
{
    let mut words = Words::new();
    words.put(head_of(code));
    match code {
        ErrorCode::E4(key) => words.put(key_text(key)),
        ErrorCode::E5(key) => words.put(key_text(key)),
        ErrorCode::E6(line) => put_part(&mut words, SdpPart::Line(line)),
        ErrorCode::E7(part) => put_part(&mut words, part),
        _ => {}
    }
    words
}

fn put_part(words: &mut Words, part: SdpPart)
    requires { length words.old ≤ 40 }
    ensures { words.new ≡ words.old ++ part_text part }
{
    match part {
        SdpPart::Line(line) => {
            words.put(b"line ");
            words.put_number(line);
        }
        SdpPart::Media(section) => {
            words.put(b"media ");
            words.put_number(section);
        }
    }
}

/// What the text of an error begins with, before a key or a place of a description.
fn head_of(code: ErrorCode) -> &'static [u8]
    ensures text { result.now ≡ head_text code }
    ensures short { length result.now ≤ 40 }
{
    match code {
        ErrorCode::E1 => b"malformed dictionary",
        ErrorCode::E2 => b"no command",
        ErrorCode::E3 => b"unrecognized command",
        ErrorCode::E4(_) => b"missing or wrong key: ",
        ErrorCode::E5(_) => b"unsupported option: ",
        ErrorCode::E6(_) => b"malformed SDP: ",
        ErrorCode::E7(_) => b"unsupported SDP: ",
        ErrorCode::E8 => b"no usable crypto",
        ErrorCode::E9 => b"unknown call-id",
        ErrorCode::E10 => b"unknown tag",
        ErrorCode::E11 => b"offer open on the other side",
        ErrorCode::E12 => b"media count differs",
        ErrorCode::E13 => b"no free port pair",
        ErrorCode::E14 => b"session limit reached",
        ErrorCode::E15 => b"port fault",
        ErrorCode::E16 => b"key source fault",
        ErrorCode::E17 => b"out of memory",
        ErrorCode::E18 => b"datagram too long",
        ErrorCode::E19 => b"call is ending",
        ErrorCode::E20 => b"address family differs",
    }
}

/// A key as it is written.
fn key_text(key: KeyName) -> &'static [u8]
    ensures text { result.now ≡ key_text key }
    ensures short { length result.now ≤ 40 }
{
    match key {
        KeyName::CallId => b"call-id",
        KeyName::FromTag => b"from-tag",
        KeyName::ToTag => b"to-tag",
        KeyName::Sdp => b"sdp",
        KeyName::Flags => b"flags",
        KeyName::Replace => b"replace",
        KeyName::TransportProtocol => b"transport protocol",
        KeyName::ReceivedFrom => b"received from",
        KeyName::Limit => b"limit",
        KeyName::DeleteDelay => b"delete delay",
        KeyName::AddressFamily => b"address family",
        KeyName::RtcpMux => b"rtcp-mux",
        KeyName::Ice => b"ICE",
        KeyName::Dtls => b"DTLS",
        KeyName::RecordCall => b"record call",
        KeyName::Codec => b"codec",
        KeyName::Tls => b"UDP/TLS",
    }
}
