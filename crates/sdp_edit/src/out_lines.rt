//! The lines that are written.

ghost use Rattle.std.specs.Prelude.{◌≡◌, ◌+◌, ◌≤◌, ◌<◌, ◌^◌, [], ◌++◌, length, take};
ghost use Rattle.sdes_lines.specs.CryptoLine.{line_text, IsTag};
ghost use Rattle.sdp_edit.specs.Texts.{with_end};

use sdes_lines::{CryptoLine, write_line};
use sdp_text::Bytes;
use std::marker::Model;

/// A short text that stands in a line in place of another one.
#[derive(Drop)]
pub(crate) struct Inserted {
    bytes: [u8; 96],
    len: usize,
}

impl Model for Inserted {
    ghost use Rattle.std.specs.Prelude.{List, ℕ, take, ◌≤◌};

    ghost Value = { List ℕ };

    ghost view = { λ text. take text.len text.bytes };

    ghost invariant = { λ text. text.len ≤ 96 };
}

impl Inserted {
    /// The empty text.
    pub(crate) fn new() -> Self
        ensures { result ≡ [] }
    {
        Inserted {
            bytes: [0; 96],
            len: 0,
        }
    }

    /// Adds bytes at the end.
    pub(crate) fn push(&mut self, text: &[u8])
        requires { length self.old + length text.now ≤ 96 }
        ensures { self.new ≡ self.old ++ text.now }
    {
        let end = self.len + text.len();
        self.bytes[self.len..end].copy_from_slice(text);
        self.len = end;
    }

    /// The text of a crypto line.
    fn of_key(key: &CryptoLine) -> Self
        requires { IsTag key.now.tag }
        ensures text { result ≡ line_text key.now.tag key.now.suite key.now.key }
        ensures short { length result ≤ 90 }
    {
        let mut bytes = [0; 96];
        let len = write_line(key, &mut bytes);
        Inserted { bytes, len }
    }

    /// The bytes of the text.
    fn as_slice(&self) -> &[u8]
        ensures text { result.now ≡ self.now }
        ensures short { length self.now ≤ 96 }
    {
        &self.bytes[..self.len]
    }
}

/// A line to be written, with its end: a part of a line that was read, a text inserted after it, and
/// another part of that line.
#[derive(Drop)]
pub(crate) struct OutLine<'a> {
    head: &'a [u8],
    inserted: Inserted,
    tail: &'a [u8],
}

impl<'a> Model for OutLine<'a> {
    ghost use Rattle.std.specs.Prelude.{List, ℕ, ◌++◌, ◌+◌, ◌<◌, ◌^◌, length};
    ghost use Rattle.sdp_edit.specs.Texts.{with_end};

    ghost Value = { List ℕ };

    ghost view = { λ line. with_end (line.head.now ++ line.inserted ++ line.tail.now) };

    ghost invariant = { λ line. length line.head.now + length line.tail.now < 2 ^ 63 };
}

impl<'a> OutLine<'a> {
    /// A line as it was read.
    pub(crate) fn whole(line: &'a [u8]) -> Self
        ensures { result ≡ with_end line.now }
    {
        OutLine {
            head: line,
            inserted: Inserted::new(),
            tail: &line[line.len()..],
        }
    }

    /// Two parts of a line that was read, with a text inserted between them.
    pub(crate) fn around(head: &'a [u8], inserted: Inserted, tail: &'a [u8]) -> Self
        requires { length head.now + length tail.now < 2 ^ 63 }
        ensures { result ≡ with_end (head.now ++ inserted ++ tail.now) }
    {
        OutLine {
            head,
            inserted,
            tail,
        }
    }

    /// A line of an inserted text alone.
    pub(crate) fn inserted(text: Inserted) -> Self
        ensures { result ≡ with_end text }
    {
        OutLine {
            head: &[],
            inserted: text,
            tail: &[],
        }
    }

    /// A crypto line.
    #[tactic(auto, unfolding(crate::specs::Texts::with_end))]
    pub(crate) fn key(key: &CryptoLine) -> Self
        requires { IsTag key.now.tag }
        ensures text { result ≡ with_end (line_text key.now.tag key.now.suite key.now.key) }
        ensures short { length result ≤ 92 }
    {
        OutLine::inserted(Inserted::of_key(key))
    }

    /// Its length in bytes, with its end.
    #[tactic(auto, unfolding(crate::specs::Texts::with_end))]
    pub(crate) fn len(&self) -> usize
        ensures { result ≡ length self.now }
    {
        self.head.len() + self.inserted.as_slice().len() + self.tail.len() + 2
    }

    /// Writes it, with its end, after what `out` holds.
    #[tactic(auto, unfolding(crate::specs::Texts::with_end))]
    pub(crate) fn write_into(&self, out: &mut Bytes)
        requires { length self.now ≤ out.old.spare }
        ensures list { out.new.list ≡ out.old.list ++ self.now }
        ensures spare { out.old.spare ≤ out.new.spare + length self.now }
    {
        out.extend(self.head);
        out.extend(self.inserted.as_slice());
        out.extend(self.tail);
        out.extend(b"\r\n");
    }
}
