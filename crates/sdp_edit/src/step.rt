//! One line's part of the edited text.

ghost use Rattle.std.specs.Prelude.{◌≡◌, ℕ, ◌+◌, ◌-◌, ◌≤◌, ◌<◌, ◌^◌, List, [], ◌∷◌, ◌++◌, length, drop, slice_get, Some};
ghost use Rattle.sdp_edit.specs.Images.{Suits};
ghost use Rattle.sdp_edit.specs.Places.{line_place};
ghost use Rattle.sdp_edit.specs.EditedText.{image_text, added_connection, added_mux, key_lines, added_keys, edited_line, KeysHaveTags, SectionHasTags, HaveTags};
ghost use Rattle.sdp_edit.specs.Steps.{text_or_none, step_text};

use crate::ahead::{begins_with_title, connection_follows, ends_section};
use crate::edits::{Edit, SectionEdit};
use crate::image::{Image, edit_at, image_of};
use crate::out_lines::OutLine;
use crate::place::Place;
use crate::text::{connection_line, media_line, origin_line};
use sdes_lines::CryptoLine;
use sdp_text::{Bytes, Sdp};

/// What becomes of a line, and the lines that are added after it: up to five lines to be written, in order.
#[derive(Drop)]
pub(crate) struct Step<'a> {
    image: Option<OutLine<'a>>,
    connection: Option<OutLine<'a>>,
    mux: Option<OutLine<'a>>,
    first_key: Option<OutLine<'a>>,
    second_key: Option<OutLine<'a>>,
    /// The place after the line.
    pub(crate) here: Place,
}

#[tactic(auto, unfolding(crate::specs::EditedText::image_text))]
fn image_line<'a>(image: &Image, line: &'a [u8]) -> Option<OutLine<'a>>
    requires { Suits image.now line.now }
    ensures text { text_or_none result ≡ image_text image.now line.now }
    ensures short { length (text_or_none result) ≤ length line.now + 50 }
{
    match image {
        Image::Dropped => None,
        Image::Kept => Some(OutLine::whole(line)),
        Image::Media(edit) => Some(media_line(edit, line)),
        Image::Connection(host) => Some(connection_line(host)),
        Image::Origin(host) => Some(origin_line(host, line)),
    }
}

// The `c=` line of a section that has none, where the lines before `next` are the section's head.
#[tactic(auto, unfolding(crate::specs::EditedText::added_connection))]
fn added_connection<'a>(
    sdp: &Sdp,
    section: Option<SectionEdit>,
    is_head: bool,
    next: usize,
) -> Option<OutLine<'a>>
    ensures text { text_or_none result ≡ added_connection section is_head (drop next sdp.now) }
    ensures short { length (text_or_none result) ≤ 50 }
{
    let edit = section?;
    if is_head && !begins_with_title(sdp, next) && !connection_follows(sdp, next) {
        Some(connection_line(&edit.address))
    } else {
        None
    }
}

// The `a=rtcp-mux` line of a section that ends before the line `next`, where the edit has one.
#[tactic(auto, unfolding(crate::specs::EditedText::added_mux, crate::specs::Texts::with_end))]
fn added_mux<'a>(sdp: &Sdp, section: Option<SectionEdit>, next: usize) -> Option<OutLine<'a>>
    ensures text { text_or_none result ≡ added_mux section (drop next sdp.now) }
    ensures short { length (text_or_none result) ≤ 12 }
{
    let edit = section?;
    if edit.mux && ends_section(sdp, next) {
        Some(OutLine::whole(b"a=rtcp-mux"))
    } else {
        None
    }
}

#[tactic(auto, unfolding(crate::specs::EditedText::key_lines))]
fn key_line<'a>(key: Option<CryptoLine>) -> Option<OutLine<'a>>
    requires { KeysHaveTags (key ∷ []) }
    ensures text { text_or_none result ≡ key_lines (key ∷ []) }
    ensures short { length (text_or_none result) ≤ 92 }
{
    match key {
        None => None,
        Some(key) => Some(OutLine::key(&key)),
    }
}

// The crypto lines of a section that ends before the line `next`.
#[tactic(auto, unfolding(crate::specs::EditedText::added_keys))]
fn added_keys<'a>(
    sdp: &Sdp,
    section: Option<SectionEdit>,
    next: usize,
) -> (Option<OutLine<'a>>, Option<OutLine<'a>>)
    requires { SectionHasTags section }
    ensures text { text_or_none result.0 ++ text_or_none result.1 ≡ added_keys section (drop next sdp.now) }
    ensures short { length (text_or_none result.0) + length (text_or_none result.1) ≤ 184 }
{
    let Some(edit) = section else {
        return (None, None);
    };
    if !ends_section(sdp, next) {
        return (None, None);
    }
    (key_line(edit.crypto[0]), key_line(edit.crypto[1]))
}

/// What is written for the line at `index`, which stands at `place`.
#[tactic(auto, unfolding(crate::specs::EditedText::edited_line))]
pub(crate) fn edited_line<'a>(sdp: &'a Sdp, edit: &Edit, place: Place, index: usize) -> Step<'a>
    requires inside { index < length sdp.now }
    requires few { place.section < 2 ^ 64 - 1 }
    requires small { index < 2 ^ 64 - 1 }
    requires tags { HaveTags edit.now.sections.list }
    ensures text { (before : List (List ℕ)) (line : List ℕ) → place ≡ line_place before → slice_get sdp.now index ≡ Some line
        → step_text result ≡ edited_line edit.now before line (drop (index + 1) sdp.now) }
    ensures here { (before : List (List ℕ)) (line : List ℕ) → place ≡ line_place before → slice_get sdp.now index ≡ Some line
        → result.here ≡ line_place (line ∷ before) }
    ensures short { (line : List ℕ) → slice_get sdp.now index ≡ Some line → length (step_text result) ≤ length line + 296 }
{
    let line = sdp.line(index);
    let here = place.after(line);
    let image = image_line(&image_of(edit, place, line), line);
    let section = edit_at(edit.sections.as_slice(), here.section);
    let connection = added_connection(sdp, section, here.is_head, index + 1);
    let mux = added_mux(sdp, section, index + 1);
    let (first_key, second_key) = added_keys(sdp, section, index + 1);
    Step {
        image,
        connection,
        mux,
        first_key,
        second_key,
        here,
    }
}

fn line_len(line: &Option<OutLine>) -> usize
    ensures { result ≡ length (text_or_none line.now) }
{
    match line {
        None => 0,
        Some(line) => line.len(),
    }
}

fn put_line(line: &Option<OutLine>, out: &mut Bytes)
    requires { length (text_or_none line.now) ≤ out.old.spare }
    ensures list { out.new.list ≡ out.old.list ++ text_or_none line.now }
    ensures spare { out.old.spare ≤ out.new.spare + length (text_or_none line.now) }
{
    if let Some(line) = line {
        line.write_into(out);
    }
}

impl<'a> Step<'a> {
    /// How many bytes are written.
    pub(crate) fn len(&self) -> usize
        requires { length (step_text self.now) < 2 ^ 64 }
        ensures { result ≡ length (step_text self.now) }
    {
        let keys = line_len(&self.first_key) + line_len(&self.second_key);
        line_len(&self.image) + line_len(&self.connection) + line_len(&self.mux) + keys
    }

    /// Writes them after what `out` holds.
    pub(crate) fn write_into(&self, out: &mut Bytes)
        requires { length (step_text self.now) ≤ out.old.spare }
        ensures list { out.new.list ≡ out.old.list ++ step_text self.now }
        ensures spare { out.old.spare ≤ out.new.spare + length (step_text self.now) }
    {
        put_line(&self.image, out);
        put_line(&self.connection, out);
        put_line(&self.mux, out);
        put_line(&self.first_key, out);
        put_line(&self.second_key, out);
    }
}
