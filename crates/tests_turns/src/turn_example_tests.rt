ghost use Rattle.std.specs.Prelude.{◌≡◌, ◌+◌, ◌%◌, IfOk, Some};

use turn_example::{End, Outcome, open_box, try_take};

// It gives the numbers from `next` on, modulo 256.
#[derive(Drop)]
struct Numbers {
    next: u8,
}

impl End for Numbers {
    ghost gives = { λ before given after. (given ≡ Some before.next) × (after.next ≡ (before.next + 1) % 256) };

    fn take(&mut self) -> Option<u8> {
        let number = self.next;
        self.next = number.wrapping_add(1);
        Some(number)
    }
}

mod two_boxes;

use two_boxes::begin;

#[test]
fn a_box_gives_what_its_end_gives(rt: HostRuntime) {
    let Some((turns, mut main)) = begin(rt.alloc()) else {
        panic!(rt; "no memory");
    };
    let mut lane = turns.split_hand(&mut main);
    let shut = try_take(&turns, &mut lane, 1);
    let none = open_box(&rt, &turns, &mut main, 1, Numbers { next: 255 });
    let first = try_take(&turns, &mut lane, 1);
    let second = try_take(&turns, &mut main, 1);
    let former = open_box(&rt, &turns, &mut main, 1, Numbers { next: 40 });
    let third = try_take(&turns, &mut lane, 1);
    let other = try_take(&turns, &mut lane, 2);
    turns.join_hand(&mut main, lane);
    drop(turns.close(main));
    assert!(rt; none.is_none() && former.is_some_and(|end| end.next == 1));
    assert!(rt; shut == Ok(Outcome::Shut) && other == Ok(Outcome::Shut));
    assert!(rt; first == Ok(Outcome::Gave(Some(255))) && second == Ok(Outcome::Gave(Some(0))));
    assert!(rt; third == Ok(Outcome::Gave(Some(40))));
}
