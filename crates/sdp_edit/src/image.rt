//! What becomes of a line.

ghost use Rattle.std.specs.Prelude.{◌≡◌, ◌-◌, ◌<◌, ◌^◌};
ghost use Rattle.sdp_edit.specs.Images.{edit_at, media_image, connection_image, origin_image, lacks_feedback, drops_feedback, attribute_image, image_of, Suits};

use crate::attribute::{is_feedback, is_mux_attribute, is_removed};
use crate::edits::{Edit, SectionEdit};
use crate::place::{Place, is_connection, is_media, is_origin};
use sdp_text::{Host, Proto};

/// What becomes of a line.
#[derive(Clone, Copy)]
pub(crate) enum Image {
    /// It isn't written.
    Dropped,
    /// It is written as it is.
    Kept,
    /// An `m=` line with the edit's port and protocol.
    Media(SectionEdit),
    /// A `c=` line with this address.
    Connection(Host),
    /// An `o=` line with this address.
    Origin(Host),
}

/// The edit of the section with this number, from 1; 0 stands for the lines before the first section.
pub(crate) fn edit_at(edits: &[SectionEdit], number: usize) -> Option<SectionEdit>
    ensures { result ≡ edit_at edits.now number }
{
    if number == 0 || number > edits.len() {
        None
    } else {
        Some(edits[number - 1])
    }
}

fn media_image(edit: Option<SectionEdit>) -> Image
    ensures { result ≡ media_image edit }
{
    match edit {
        None => Image::Kept,
        Some(edit) => Image::Media(edit),
    }
}

fn connection_image(edit: &Edit, has_connection: bool, section: Option<SectionEdit>) -> Image
    ensures { result ≡ connection_image edit.now has_connection section }
{
    match section {
        None if edit.replace_session => Image::Connection(edit.address),
        None => Image::Kept,
        Some(_) if has_connection => Image::Dropped,
        Some(section) => Image::Connection(section.address),
    }
}

fn origin_image(edit: &Edit, has_origin: bool) -> Image
    ensures { result ≡ origin_image edit.now has_origin }
{
    if edit.replace_origin && !has_origin {
        Image::Origin(edit.address)
    } else {
        Image::Kept
    }
}

fn drops_feedback(edit: Option<SectionEdit>) -> bool
    ensures { result ≡ drops_feedback edit }
{
    match edit {
        None => false,
        Some(edit) => matches!(edit.proto, Proto::Avp | Proto::Savp),
    }
}

fn attribute_image(edit: Option<SectionEdit>, line: &[u8]) -> Image
    ensures { result ≡ attribute_image edit line.now }
{
    if is_removed(line)
        || (edit.is_some() && is_mux_attribute(line))
        || (drops_feedback(edit) && is_feedback(line))
    {
        Image::Dropped
    } else {
        Image::Kept
    }
}

/// What becomes of a line at a place.
#[tactic(auto, unfolding(crate::specs::Images::image_of))]
pub(crate) fn image_of(edit: &Edit, place: Place, line: &[u8]) -> Image
    requires { place.section < 2 ^ 64 - 1 }
    ensures image { result ≡ image_of edit.now place line.now }
    ensures suits { Suits result line.now }
{
    let edits = edit.sections.as_slice();
    if is_media(line) {
        return media_image(edit_at(edits, place.section + 1));
    }
    let section = edit_at(edits, place.section);
    if is_connection(line) {
        connection_image(edit, place.has_connection, section)
    } else if is_origin(line) {
        origin_image(edit, place.has_origin)
    } else {
        attribute_image(section, line)
    }
}
