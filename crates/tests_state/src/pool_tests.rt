use crate::configs::new_pool;
use crate::written_again::{pool_again, pool_bytes};
use relay_outside::Family;

/// A pool of two pairs of each family after three leases, of which the first came back.
pub(crate) const WRITTEN: &[u8] = b"d5:free4li0ee5:free6li3ee11:generationsli1ei1ei1ei0eee";

#[test]
fn a_pool_with_leases_out_there_and_back(rt: HostRuntime) {
    let alloc = rt.alloc();
    let mut pool = new_pool(&rt, alloc);
    let (Some(first), Some(_), Some(_)) = (
        pool.lease(Family::V4),
        pool.lease(Family::V4),
        pool.lease(Family::V6),
    ) else {
        panic!(rt; "two pairs of each family are free");
    };
    pool.give_back(first);
    let saved = pool.into_saved().expect(&rt, "memory");
    assert!(rt; pool_bytes(&rt, alloc, &saved).as_slice() == WRITTEN);
    let again = pool_again(&rt, alloc, WRITTEN).expect(&rt, "a pool");
    assert!(rt; again.as_slice() == WRITTEN);
}
