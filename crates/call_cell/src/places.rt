ghost use Rattle.std.specs.Prelude.{◌≡◌, IfOk};
ghost use Rattle.call_cell.specs.Parts.{boxed_in};

use relay_outside::OutOfMemory;
use std::alloc::Global;

/// What stands in a place on the heap, where there is one.
pub(crate) fn unboxed<T>(place: Option<Box<Option<T>>>) -> Option<T>
    ensures { result ≡ boxed_in place }
{
    match place {
        None => None,
        Some(place) => Box::into_inner(place),
    }
}

/// A place on the heap with the value in it, where there is one.
pub(crate) fn boxed<T: Drop>(
    alloc: Global,
    value: Option<T>,
) -> Result<Option<Box<Option<T>>>, OutOfMemory>
    ensures { IfOk result (λ place. boxed_in place ≡ value) }
{
    let Some(value) = value else {
        return Ok(None);
    };
    match Box::new(alloc, Some(value)) {
        Ok(place) => Ok(Some(place)),
        Err(_) => Err(OutOfMemory),
    }
}
