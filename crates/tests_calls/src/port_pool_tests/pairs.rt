use crate::two_pairs::{two_pairs, two_pairs_each};
use port_pool::{Lease, Leases, Pool, PoolSaved};
use relay_outside::Family;
use std::alloc::{AllocError, Global};

/// The pair, the family, the port and the generation of a lease.
fn log(lease: &Lease) -> (u32, Family, u16, u64) {
    (
        lease.pair(),
        lease.family(),
        lease.rtp_port(),
        lease.generation(),
    )
}

#[test]
fn pairs_are_leased_in_the_order_in_which_they_became_free(rt: HostRuntime) {
    let mut pool = two_pairs(&rt, rt.alloc());
    assert!(rt; pool.free_count(Family::V4) == 2);
    let (Some(first), Some(second)) = (pool.lease(Family::V4), pool.lease(Family::V4)) else {
        panic!(rt; "two pairs are free");
    };
    assert!(rt;
        log(&first) == (0, Family::V4, 30_000, 1) && log(&second) == (1, Family::V4, 30_002, 1)
    );
    assert!(rt; pool.lease(Family::V4).is_none(), "none is free");
    pool.give_back(second);
    pool.give_back(first);
    assert!(rt; pool.free_count(Family::V4) == 2);
    let Some(again) = pool.lease(Family::V4) else {
        panic!(rt; "two pairs are free again");
    };
    assert!(rt; log(&again) == (1, Family::V4, 30_002, 2));
}

#[test]
fn a_range_has_the_pairs_that_lie_in_it_whole(rt: HostRuntime) {
    for (port_min, port_max, count) in [
        (30_000, 30_003, 2),
        (30_000, 30_002, 1),
        (30_001, 30_003, 1),
        (30_000, 30_000, 0),
        (30_001, 30_002, 0),
        (30_004, 30_000, 0),
        (65_534, 65_535, 1),
        (65_535, 65_535, 0),
        (1_024, 65_535, 32_256),
        (0, 65_535, 32_768),
    ] {
        let pool = Pool::new(rt.alloc(), port_min, port_max, false).expect(&rt, "memory");
        assert!(rt;
            pool.free_count(Family::V4) == count,
            "from {port_min} to {port_max}"
        );
        assert!(rt;
            pool.free_count(Family::V6) == 0,
            "from {port_min} to {port_max}"
        );
        let pool = Pool::new(rt.alloc(), port_min, port_max, true).expect(&rt, "memory");
        assert!(rt;
            pool.free_count(Family::V4) == count,
            "from {port_min} to {port_max}"
        );
        assert!(rt;
            pool.free_count(Family::V6) == count,
            "from {port_min} to {port_max}"
        );
    }
}

#[test]
fn each_family_has_its_own_pairs_of_the_same_ports(rt: HostRuntime) {
    let mut pool = two_pairs_each(&rt, rt.alloc());
    let (Some(one), Some(two)) = (pool.lease(Family::V6), pool.lease(Family::V4)) else {
        panic!(rt; "two pairs of each family are free");
    };
    assert!(rt; log(&one) == (2, Family::V6, 30_000, 1) && log(&two) == (0, Family::V4, 30_000, 1));
    let (Some(three), Some(four)) = (pool.lease(Family::V6), pool.lease(Family::V4)) else {
        panic!(rt; "one pair of each family is free");
    };
    assert!(rt;
        log(&three) == (3, Family::V6, 30_002, 1) && log(&four) == (1, Family::V4, 30_002, 1)
    );
    assert!(rt;
        pool.lease(Family::V4).is_none() && pool.lease(Family::V6).is_none(),
        "none is free"
    );
}

#[test]
fn a_family_without_a_free_pair_takes_none_of_the_other(rt: HostRuntime) {
    let mut pool = two_pairs_each(&rt, rt.alloc());
    let (Some(_), Some(_)) = (pool.lease(Family::V6), pool.lease(Family::V6)) else {
        panic!(rt; "two pairs of version 6 are free");
    };
    assert!(rt; pool.free_count(Family::V4) == 2 && pool.free_count(Family::V6) == 0);
    assert!(rt; pool.lease(Family::V6).is_none());
    let Some(other) = pool.lease(Family::V4) else {
        panic!(rt; "two pairs of version 4 are free");
    };
    assert!(rt; log(&other) == (0, Family::V4, 30_000, 1));
    let mut pool = two_pairs(&rt, rt.alloc());
    assert!(rt;
        pool.lease(Family::V6).is_none(),
        "there is no pair of version 6"
    );
}

#[test]
fn what_comes_back_waits_behind_its_own_family_alone(rt: HostRuntime) {
    let mut pool = two_pairs_each(&rt, rt.alloc());
    let (Some(other), Some(pair)) = (pool.lease(Family::V6), pool.lease(Family::V4)) else {
        panic!(rt; "two pairs of each family are free");
    };
    pool.give_back(pair);
    pool.give_back(other);
    assert!(rt; pool.free_count(Family::V4) == 2 && pool.free_count(Family::V6) == 2);
    let (Some(one), Some(two)) = (pool.lease(Family::V6), pool.lease(Family::V6)) else {
        panic!(rt; "two pairs of version 6 are free");
    };
    assert!(rt; log(&one) == (3, Family::V6, 30_002, 1) && log(&two) == (2, Family::V6, 30_000, 2));
    let (Some(three), Some(four)) = (pool.lease(Family::V4), pool.lease(Family::V4)) else {
        panic!(rt; "two pairs of version 4 are free");
    };
    assert!(rt;
        log(&three) == (1, Family::V4, 30_002, 1) && log(&four) == (0, Family::V4, 30_000, 2)
    );
}

/// The pair of the lease that comes out next.
fn popped(leases: &mut Leases) -> Option<u32> {
    let lease = leases.pop()?;
    Some(lease.pair())
}

#[test]
fn leases_come_out_in_the_order_in_which_they_were_made(rt: HostRuntime) {
    let mut pool = two_pairs(&rt, rt.alloc());
    let Ok(mut leases) = Leases::with_room(rt.alloc(), 2) else {
        panic!(rt; "no memory");
    };
    let (Some(first), Some(second)) = (pool.lease(Family::V4), pool.lease(Family::V4)) else {
        panic!(rt; "two pairs are free");
    };
    leases.push(first);
    leases.push(second);
    assert!(rt; leases.len() == 2 && leases.get(1).pair() == 1);
    assert!(rt; popped(&mut leases) == Some(0));
    assert!(rt; popped(&mut leases) == Some(1));
    assert!(rt; popped(&mut leases).is_none());
}

#[test]
fn a_lease_there_and_back(rt: HostRuntime) {
    let mut pool = two_pairs_each(&rt, rt.alloc());
    let Some(lease) = pool.lease(Family::V6) else {
        panic!(rt; "two pairs are free");
    };
    let was = log(&lease);
    let mut bytes = lease.save();
    // 30,000 is 0x7530.
    assert!(rt; bytes == [0, 0, 0, 2, 6, 0x75, 0x30, 0, 0, 0, 0, 0, 0, 0, 1]);
    let Some(loaded) = Lease::load(&bytes) else {
        panic!(rt; "a lease is saved so");
    };
    assert!(rt; log(&loaded) == was);
    bytes[4] = 5;
    assert!(rt; Lease::load(&bytes).is_none());
}

/// A pool of four pairs, two of each family, of which these are free.
fn saved(alloc: Global, free4: &[u32], free6: &[u32]) -> Result<PoolSaved, AllocError> {
    Ok(PoolSaved {
        first_port: 30_000,
        per_family: 2,
        free4: Vec::from_slice(alloc, free4)?,
        free6: Vec::from_slice(alloc, free6)?,
        generations: Vec::from_elem(alloc, 1, 4)?,
    })
}

#[test]
fn a_pool_there_and_back(rt: HostRuntime) {
    let mut pool = two_pairs_each(&rt, rt.alloc());
    let (Some(first), Some(second)) = (pool.lease(Family::V4), pool.lease(Family::V4)) else {
        panic!(rt; "two pairs are free");
    };
    pool.give_back(second);
    pool.give_back(first);
    let record = pool.into_saved().expect(&rt, "memory");
    assert!(rt; record.first_port == 30_000 && record.per_family == 2);
    assert!(rt; record.free4.as_slice() == [1, 0].as_slice());
    assert!(rt; record.free6.as_slice() == [2, 3].as_slice());
    assert!(rt; record.generations.as_slice() == [1, 1, 0, 0].as_slice());
    let Some(mut loaded) = Pool::from_saved(rt.alloc(), record).expect(&rt, "memory") else {
        panic!(rt; "a pool is saved so");
    };
    let Some(again) = loaded.lease(Family::V4) else {
        panic!(rt; "two pairs are free");
    };
    assert!(rt; log(&again) == (1, Family::V4, 30_002, 2));
}

#[test]
fn records_of_no_pool(rt: HostRuntime) {
    let table: [(&[u32], &[u32], bool); 7] = [
        (&[], &[], true),
        (&[1, 0], &[3, 2], true),
        (&[1, 1], &[2], false),
        (&[2], &[3], false),
        (&[0], &[1], false),
        (&[0], &[4], false),
        (&[0], &[3, 2, 3], false),
    ];
    for (free4, free6, wanted) in table {
        let record = saved(rt.alloc(), free4, free6).expect(&rt, "memory");
        assert!(rt;
            record.is_pool(rt.alloc()).expect(&rt, "memory") == wanted,
            "{free4:?} {free6:?}"
        );
        let loaded = Pool::from_saved(rt.alloc(), record).expect(&rt, "memory");
        assert!(rt; loaded.is_some() == wanted, "{free4:?} {free6:?}");
    }
}
