ghost use Rattle.std.specs.Prelude.{◌≡◌, ◌<◌, ◌+◌, IfOk, vec_len};
ghost use Rattle.call_cell.specs.Contexts.{IsInboundAnew};

use crate::contexts::Inbound;
use relay_outside::{KeyAndSalt, OutOfMemory};
use sdes_lines::Suite;
use std::alloc::{AllocError, Global};
use std::marker::Model;

/// Room for the contexts of inbound keys that an answer brings. Contracts see it as the number of keys that there is room for.
#[derive(Drop)]
pub struct InContexts {
    places: Vec<Box<Option<Inbound>>>,
}

impl Model for InContexts {
    ghost use Rattle.std.specs.Prelude.{ℕ, vec_len};

    ghost Value = { ℕ };

    ghost view = { λ contexts. vec_len contexts.places };
}

/// As many places on the heap, each empty.
fn places(alloc: Global, count: usize) -> Result<Vec<Box<Option<Inbound>>>, AllocError>
    ensures { IfOk result (λ places. vec_len places ≡ count) }
{
    let mut places = Vec::with_capacity(alloc, count)?;
    for _ in 0..count {
        places.push(Box::new(alloc, None)?)?;
    }
    Ok(places)
}

impl InContexts {
    /// Room for the contexts of this many keys.
    pub fn reserve(alloc: Global, count: usize) -> Result<InContexts, OutOfMemory>
        ensures { IfOk result (λ contexts. contexts ≡ count) }
    {
        let places = places(alloc, count)?;
        Ok(InContexts { places })
    }

    /// The contexts of an inbound key, which have taken no packet, in one of the places.
    pub(crate) fn begin(&mut self, key: &KeyAndSalt, suite: Suite) -> Box<Option<Inbound>>
        requires { 0 < self.old }
        ensures contexts { IsInboundAnew (key.now, suite) result.value }
        ensures room { self.new + 1 ≡ self.old }
    {
        let mut place = self.places.pop().unwrap();
        *place = Some(Inbound::new(key, suite));
        place
    }
}
