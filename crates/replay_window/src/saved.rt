// The saved form of a window.

ghost use Rattle.std.specs.Prelude.{◌≡◌, ◌^◌, ◌<◌, ◌∷◌, ◌++◌};
ghost use Rattle.std.specs.Int.{w64, w128, to_be_bytes};
ghost use Rattle.replay_window.specs.declared.window.Window.{Window};
ghost use Rattle.replay_window.specs.SavedWindows.{FitsWindow, saved_window};

use crate::window::Window;

/// A flag, an index and bits as bytes, the highest byte first.
pub(crate) fn written(flag: u8, index: u64, bits: u128) -> [u8; Window::SAVED]
    ensures { result ≡ flag ∷ (to_be_bytes w64 index ++ to_be_bytes w128 bits) }
{
    let i = index.to_be_bytes();
    let b = bits.to_be_bytes();
    [
        flag, i[0], i[1], i[2], i[3], i[4], i[5], i[6], i[7], //
        b[0], b[1], b[2], b[3], b[4], b[5], b[6], b[7], //
        b[8], b[9], b[10], b[11], b[12], b[13], b[14], b[15],
    ]
}

/// The flag, the index and the bits that stand in these bytes.
pub(crate) fn read(bytes: &[u8; Window::SAVED]) -> (u8, u64, u128)
    ensures parts { bytes.now ≡ result.0 ∷ (to_be_bytes w64 result.1 ++ to_be_bytes w128 result.2) }
    ensures index { result.1 < 2 ^ 64 }
    ensures bits { result.2 < 2 ^ 128 }
{
    let b = bytes;
    let index = u64::from_be_bytes([b[1], b[2], b[3], b[4], b[5], b[6], b[7], b[8]]);
    let high = u64::from_be_bytes([b[9], b[10], b[11], b[12], b[13], b[14], b[15], b[16]]);
    let low = u64::from_be_bytes([b[17], b[18], b[19], b[20], b[21], b[22], b[23], b[24]]);
    let bits = u128::from(high) * 18_446_744_073_709_551_616 + u128::from(low);
    (b[0], index, bits)
}

/// Theorem (no run-time code): two windows that are saved alike are one window, so a window that is loaded stands for all
/// lists of indices for which the saved one stood.
pub fn saved_windows_differ()
    ensures { (a b : Window) → FitsWindow a → FitsWindow b → saved_window a ≡ saved_window b → a ≡ b }
{}
