ghost use Rattle.std.specs.Prelude.{◌≡◌, map, IfOk};
ghost use Rattle.call_cell.specs.declared.leg.Leg.{Leg};
ghost use Rattle.call_cell.specs.SavedCells.{saved_leg, AreEmptied};

use crate::leg::Leg;
use crate::saved::LegSaved;
use crate::saving::let_go;
use relay_outside::OutOfMemory;
use std::alloc::Global;

/// The legs that were saved so, in their order, without their out ends.
pub(crate) fn load_legs<O>(alloc: Global, saved: Vec<LegSaved>) -> Result<Vec<Leg<O>>, OutOfMemory>
    ensures saved { IfOk result (λ legs. map (λ (leg : Leg O). saved_leg leg) legs.items ≡ saved.items) }
    ensures emptied { IfOk result (λ legs. AreEmptied legs.items) }
{
    let mut legs = Vec::with_capacity(alloc, saved.len())?;
    for one in saved {
        match Leg::from_saved(alloc, one) {
            Ok(leg) => legs.push_reserved(leg),
            Err(cause) => {
                let_go(legs);
                return Err(cause);
            }
        }
    }
    Ok(legs)
}
