//! The edited text of a description, and its length.

ghost use Rattle.std.specs.Prelude.{◌≡◌, ◌+◌, ◌^◌, ◌<◌, ◌≤◌, ◌++◌, length, IfOk};
ghost use Rattle.sdp_edit.specs.EditedText.{edited, HaveTags};

use crate::edits::Edit;
use crate::place::Place;
use crate::step::edited_line;
use sdp_text::{Bytes, OutOfMemory, Sdp};
use std::alloc::Global;

/// The length of the edited text in bytes.
pub fn edit_len(sdp: &Sdp, edit: &Edit) -> usize
    requires { HaveTags edit.now.sections.list }
    ensures length { result ≡ length (edited sdp.now edit.now) }
    ensures small { result < 2 ^ 40 }
{
    let mut place = Place::start();
    let mut length = 0;
    for index in 0..sdp.line_count() {
        let step = edited_line(sdp, edit, place, index);
        length += step.len();
        place = step.here;
    }
    length
}

/// Writes the edited text after what `out` holds. It needs spare room of `edit_len`.
pub fn edit_into(sdp: &Sdp, edit: &Edit, out: &mut Bytes)
    requires tags { HaveTags edit.now.sections.list }
    requires room { length (edited sdp.now edit.now) ≤ out.old.spare }
    ensures list { out.new.list ≡ out.old.list ++ edited sdp.now edit.now }
    ensures spare { out.old.spare ≤ out.new.spare + length (edited sdp.now edit.now) }
{
    let mut place = Place::start();
    for index in 0..sdp.line_count() {
        let step = edited_line(sdp, edit, place, index);
        step.write_into(out);
        place = step.here;
    }
}

/// The edited text.
pub fn edit(alloc: Global, sdp: &Sdp, edit: &Edit) -> Result<Bytes, OutOfMemory>
    requires { HaveTags edit.now.sections.list }
    ensures { IfOk result (λ text. text.list ≡ edited sdp.now edit.now) }
{
    let mut out = Bytes::new(alloc);
    out.reserve(edit_len(sdp, edit))?;
    edit_into(sdp, edit, &mut out);
    Ok(out)
}
