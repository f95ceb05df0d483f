//! What the relay of the tests is run with, and its port pairs.
ghost use Rattle.std.specs.Prelude.{◌≡◌, ◌∷◌, []};
ghost use Rattle.port_pool.specs.Pools.{Pairs};

use port_pool::{Lease, Pool};
use relay_outside::{Config, Family, Ip};
use std::alloc::Global;
use std::process::Abort;

/// Two calls may be live, over two pairs of ports of each family.
pub(crate) const CONFIG: Config = Config {
    interface: Ip::V4([203, 0, 113, 1]),
    interface6: Some(Ip::V6([0x20, 1, 0x0d, 0xb8, 0, 0, 0, 0, 0, 0, 0, 0, 0, 0, 0, 1])),
    port_min: 30_000,
    port_max: 30_003,
    timeout_ms: 60_000,
    offer_timeout_ms: 120_000,
    max_sessions: 2,
};

/// A pool of these pairs.
pub(crate) fn new_pool(rt: &impl Abort, alloc: Global) -> Pool
    ensures { result ≡ record { first_port = 30000; per_family = 2; free4 = 0 ∷ 1 ∷ []; free6 = 2 ∷ 3 ∷ []; generations = 0 ∷ 0 ∷ 0 ∷ 0 ∷ [] } }
{
    let Ok(pool) = Pool::new(alloc, 30_000, 30_003, true) else {
        panic!(rt; "no memory");
    };
    pool
}

/// The same after the leases of the pairs of version 4, with these leases.
pub(crate) fn leased_pool(rt: &impl Abort, alloc: Global) -> (Pool, Lease, Lease) {
    let mut pool = new_pool(rt, alloc);
    let (Some(first), Some(second)) = (pool.lease(Family::V4), pool.lease(Family::V4)) else {
        panic!(rt; "two pairs are free");
    };
    (pool, first, second)
}
