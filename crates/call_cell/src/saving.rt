ghost use Rattle.std.specs.Prelude.{◌≡◌, ◌<◌, ◌+◌, ◌∷◌, List, None, map, vec_len, IfOk};
ghost use Rattle.call_cell.specs.declared.leg.Leg.{Leg};
ghost use Rattle.call_cell.specs.SavedCells.{saved_leg, AreEmptied};

use crate::leg::Leg;
use crate::saved::LegSaved;
use relay_outside::OutOfMemory;

/// What the first leg is saved as, which leaves the list.
fn save_first<O>(legs: &mut Vec<Leg<O>>) -> LegSaved
    requires some { 0 < vec_len legs.old }
    requires emptied { AreEmptied legs.old.items }
    ensures first { map (λ (leg : Leg O). saved_leg leg) legs.old.items ≡ result ∷ map (λ (leg : Leg O). saved_leg leg) legs.new.items }
    ensures emptied { AreEmptied legs.new.items }
    ensures count { vec_len legs.new + 1 ≡ vec_len legs.old }
{
    legs.remove(0).into_saved()
}

/// Lets legs go whose ends were taken.
pub(crate) fn let_go<O>(legs: Vec<Leg<O>>)
    requires { AreEmptied legs.items }
{
    let mut legs = legs;
    for _ in 0..legs.len() {
        let _ = save_first(&mut legs);
    }
    legs.destroy_empty();
}

/// What the legs are saved as, in their order.
pub(crate) fn save_legs<O>(legs: Vec<Leg<O>>) -> Result<Vec<LegSaved>, OutOfMemory>
    requires { AreEmptied legs.items }
    ensures { IfOk result (λ saved. saved.items ≡ map (λ (leg : Leg O). saved_leg leg) legs.items) }
{
    let mut legs = legs;
    let mut saved = match Vec::with_capacity(*legs.allocator(), legs.len()) {
        Ok(saved) => saved,
        Err(_) => {
            let_go(legs);
            return Err(OutOfMemory);
        }
    };
    for _ in 0..legs.len() {
        saved.push_reserved(save_first(&mut legs));
    }
    legs.destroy_empty();
    Ok(saved)
}
