//! Small pools of port pairs.
ghost use Rattle.std.specs.Prelude.{◌≡◌, ◌∷◌, []};
ghost use Rattle.port_pool.specs.Pools.{Pairs};

use port_pool::Pool;
use std::alloc::Global;
use std::process::Abort;

/// A pool of the two pairs that begin at the ports 30000 and 30002.
pub(crate) fn two_pairs(rt: &impl Abort, alloc: Global) -> Pool
    ensures { result ≡ record { first_port = 30000; per_family = 2; free4 = 0 ∷ 1 ∷ []; free6 = []; generations = 0 ∷ 0 ∷ [] } }
{
    let Ok(pool) = Pool::new(alloc, 29_999, 30_004, false) else {
        panic!(rt; "no memory");
    };
    pool
}

/// The same with two pairs of version 6 besides.
pub(crate) fn two_pairs_each(rt: &impl Abort, alloc: Global) -> Pool
    ensures { result ≡ record { first_port = 30000; per_family = 2; free4 = 0 ∷ 1 ∷ []; free6 = 2 ∷ 3 ∷ []; generations = 0 ∷ 0 ∷ 0 ∷ 0 ∷ [] } }
{
    let Ok(pool) = Pool::new(alloc, 29_999, 30_004, true) else {
        panic!(rt; "no memory");
    };
    pool
}
