use crate::cases::none_failed;
use replay_window::{Fresh, Near, Window};

const LAST: u64 = 281_474_976_710_655;

/// What was noted, a number, and the index that is nearest.
const NEAREST: &[(Option<u64>, u16, Near)] = &[
    (None, 7, Near::At(7)),
    (Some(65_535), 0, Near::At(65_536)),
    (Some(0), 65_535, Near::Below),
    (Some(32_768), 0, Near::At(0)),
    (Some(32_767), 65_535, Near::At(65_535)),
    (Some(LAST), 0, Near::Beyond),
    (Some(65_536), 65_535, Near::At(65_535)),
    (Some(65_536 + 32_768), 0, Near::At(65_536)),
    (Some(65_536 + 32_769), 0, Near::At(131_072)),
    (Some(65_536 + 32_767), 65_535, Near::At(131_071)),
    (Some(65_536 + 32_766), 65_535, Near::At(65_535)),
    (Some(LAST), 65_535, Near::At(LAST)),
];

/// Whether a window that noted this finds that index nearest to the number.
fn is_nearest(noted: Option<u64>, seq: u16, wanted: Near) -> bool {
    let mut window = Window::new();
    if let Some(index) = noted {
        if index > LAST {
            return false;
        }
        window.note(index);
    }
    window.near(seq) == wanted
}

fn other_nearest() -> Option<usize> {
    for (number, (noted, seq, wanted)) in NEAREST.iter().enumerate() {
        if !is_nearest(*noted, *seq, *wanted) {
            return Some(number);
        }
    }
    None
}

#[test]
fn the_nearest_index(rt: HostRuntime) {
    none_failed(&rt, "NEAREST", other_nearest());
}

/// Indices round one that was noted.
const ALONE: &[(u64, Fresh)] = &[
    (872, Fresh::TooOld),
    (873, Fresh::Yes),
    (999, Fresh::Yes),
    (1000, Fresh::Used),
    (1001, Fresh::Yes),
    (1128, Fresh::Yes),
];

/// Indices round three that were noted.
const LATER: &[(u64, Fresh)] = &[
    (873, Fresh::TooOld),
    (882, Fresh::TooOld),
    (883, Fresh::Yes),
    (1000, Fresh::Used),
    (1001, Fresh::Yes),
    (1010, Fresh::Used),
];

fn other_fresh(window: &Window, answers: &[(u64, Fresh)]) -> Option<usize> {
    for (number, (index, wanted)) in answers.iter().enumerate() {
        if *index > LAST || window.fresh(*index) != *wanted {
            return Some(number);
        }
    }
    None
}

#[test]
fn fresh_indices(rt: HostRuntime) {
    let mut window = Window::new();
    assert!(rt; window.fresh(0) == Fresh::Yes);
    window.note(1000);
    none_failed(&rt, "ALONE", other_fresh(&window, ALONE));
    window.note(873);
    window.note(1010);
    none_failed(&rt, "LATER", other_fresh(&window, LATER));
    window.note(1_000_000);
    assert!(rt; window.fresh(1010) == Fresh::TooOld && window.fresh(999_999) == Fresh::Yes);
}

#[test]
fn memory_of_a_window(rt: HostRuntime) {
    assert!(rt; std::mem::size_of::<Window>() <= 32);
}

#[test]
fn a_window_there_and_back(rt: HostRuntime) {
    let mut window = Window::new();
    assert!(rt; window.save() == [0; 25]);
    window.note(1000);
    window.note(998);
    let bytes = window.save();
    // 1,000 is 0x3e8, and bits 0 and 2 are set.
    assert!(rt; bytes[0] == 1 && bytes[7] == 3 && bytes[8] == 0xe8 && bytes[24] == 5);
    let Some(loaded) = Window::load(&bytes) else {
        panic!(rt; "no window is saved so");
    };
    none_failed(&rt, "BACK", other_fresh(&loaded, BACK));
    assert!(rt; loaded.save() == bytes);
}

/// Indices round two that were noted before a window was saved.
const BACK: &[(u64, Fresh)] = &[
    (872, Fresh::TooOld),
    (997, Fresh::Yes),
    (998, Fresh::Used),
    (999, Fresh::Yes),
    (1000, Fresh::Used),
];

/// A byte that is none of a window that noted 1,000 and 998, or of one that noted nothing: whether something was noted, its
/// place and its value.
const NO_BYTES: &[(bool, usize, u8)] = &[
    (true, 0, 0),
    (true, 0, 2),
    (true, 2, 1),
    (false, 8, 1),
    (false, 24, 1),
];

fn loaded_wrongly() -> Option<usize> {
    for (number, (noted, place, byte)) in NO_BYTES.iter().enumerate() {
        let mut window = Window::new();
        if *noted {
            window.note(1000);
            window.note(998);
        }
        let mut bytes = window.save();
        if *place >= 25 {
            return Some(number);
        }
        bytes[*place] = *byte;
        if Window::load(&bytes).is_some() {
            return Some(number);
        }
    }
    None
}

#[test]
fn bytes_of_no_window(rt: HostRuntime) {
    none_failed(&rt, "NO_BYTES", loaded_wrongly());
}
