ghost use Rattle.std.specs.Prelude.{◌≡◌, List, IfSome, IfNone};
ghost use Rattle.replay_window.specs.declared.window.Window.{Window};
ghost use Rattle.srtp_sources.specs.SavedWindowLists.{FitsWindows, saved_windows};

use crate::parts::{part_at, put_part};
use replay_window::Window;

/// The saved form of 32 windows, one after another.
pub(crate) fn save_windows(windows: &[Window; 32]) -> [u8; 800]
    ensures fits { FitsWindows windows.now }
    ensures saved { result ≡ saved_windows windows.now }
{
    let mut bytes = [0; 800];
    'places: for place in 0..32 {
        put_part(&mut bytes, 25 * place, &windows[place].save());
    }
    bytes
}

/// The 32 windows of a saved form; None where it is that of no windows.
pub(crate) fn load_windows(bytes: &[u8; 800]) -> Option<[Window; 32]>
    ensures some { IfSome result (λ windows. FitsWindows windows × (saved_windows windows ≡ bytes.now)) }
    ensures none { IfNone result ((windows : List Window) → FitsWindows windows → saved_windows windows ≡ bytes.now → ⊥) }
{
    let mut windows: [Window; 32] = std::array::from_fn(|_| Window::new());
    'places: for place in 0..32 {
        windows[place] = window_at(bytes, place)?;
    }
    Some(windows)
}

ghost use Rattle.std.specs.Prelude.{◌*◌, ◌<◌, take, drop};
ghost use Rattle.replay_window.specs.SavedWindows.{FitsWindow, saved_window};

// The window whose saved form stands at `place`.
fn window_at(bytes: &[u8; 800], place: usize) -> Option<Window>
    requires { place < 32 }
    ensures some { IfSome result (λ window. FitsWindow window × (saved_window window ≡ take 25 (drop (25 * place) bytes.now))) }
    ensures none { IfNone result ((window : Window) → FitsWindow window → saved_window window ≡ take 25 (drop (25 * place) bytes.now) → ⊥) }
{
    let part: [u8; 25] = part_at(bytes, 25 * place);
    Window::load(&part)
}
