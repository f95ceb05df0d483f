//! What the lines after a line say of it.

ghost use Rattle.std.specs.Prelude.{◌≡◌, drop};
ghost use Rattle.std.specs.Option.{option_copied};
ghost use Rattle.sdp_edit.specs.Places.{ends_section, begins_with_title, connection_follows};

use crate::place::{is_connection, is_media, is_title};
use sdp_text::Sdp;

/// Whether the section ends before the line at `index`.
pub(crate) fn ends_section(sdp: &Sdp, index: usize) -> bool
    ensures { result ≡ ends_section (drop index sdp.now) }
{
    index >= sdp.line_count() || is_media(sdp.line(index))
}

/// Whether an `i=` line stands at `index`.
pub(crate) fn begins_with_title(sdp: &Sdp, index: usize) -> bool
    ensures { result ≡ begins_with_title (drop index sdp.now) }
{
    index < sdp.line_count() && is_title(sdp.line(index))
}

/// Whether the section has a `c=` line from `index` on.
pub(crate) fn connection_follows(sdp: &Sdp, index: usize) -> bool
    ensures { result ≡ connection_follows (drop index sdp.now) }
{
    for at in index..sdp.line_count() {
        let line = sdp.line(at);
        if is_media(line) {
            return false;
        }
        if is_connection(line) {
            return true;
        }
    }
    false
}
