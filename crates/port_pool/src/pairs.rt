ghost use Rattle.std.specs.Prelude.{◌≡◌, ◌<◌, ◌≤◌, ◌^◌, ◌+◌, ◌*◌, ℕ, false, length, IfOk, IfSome, is_some};
ghost use Rattle.std.specs.VecDeque.{deque_capacity};
ghost use Rattle.histories.specs.Words.{has, numbers};

use crate::address::place_in_family;
use crate::saved_lease::{family_of, read, version_of, written};
use crate::saved_pool::{PoolSaved, queue_of};
use relay_outside::{Family, OutOfMemory};
use std::alloc::{AllocError, Global};
use std::collections::VecDeque;
use std::marker::Model;

/// The lease of a port pair. It can't be cloned, so a pair has one lease at a time.
/// One that is dropped doesn't come back, and its pair stays leased.
#[derive(Drop, PartialEq, Eq, Debug)]
pub struct Lease {
    /// The pair's number, from 0.
    pair: u32,
    /// The family of the interface at which the pair has its ports.
    family: Family,
    /// The pair's even port.
    rtp_port: u16,
    /// Which lease of the pair it is, from 1.
    generation: u64,
}

impl Lease {
    ghost use Rattle.std.specs.Prelude.{IfNone};
    ghost use Rattle.port_pool.specs.declared.pairs.Lease.{Lease};
    ghost use Rattle.port_pool.specs.SavedLeases.{FitsLease, saved_lease};

    /// The bytes of a saved lease.
    pub const SAVED: usize = 15;

    /// The lease as bytes, which it is spent by: the pair's number in 4 bytes, the version of its family, 4 or 6, the even
    /// port in 2 bytes and the generation in 8, the highest byte of each first.
    pub fn save(self) -> [u8; Lease::SAVED]
        ensures { FitsLease self × (result ≡ saved_lease self) }
    {
        written(
            self.pair,
            version_of(self.family),
            self.rtp_port,
            self.generation,
        )
    }

    /// The lease that is saved as these bytes, and None where none is: the version is neither 4 nor 6.
    pub fn load(bytes: &[u8; Lease::SAVED]) -> Option<Lease>
        ensures some { IfSome result (λ lease. FitsLease lease × (saved_lease lease ≡ bytes.now)) }
        ensures none { IfNone result ((lease : Lease) → FitsLease lease → saved_lease lease ≡ bytes.now → ⊥) }
    {
        let (number, version, port, generation) = read(bytes);
        let Some(of) = family_of(version) else {
            return None;
        };
        Some(Lease {
            pair: number,
            family: of,
            rtp_port: port,
            generation,
        })
    }

    /// The number of the leased pair, from 0.
    pub fn pair(&self) -> u32
        ensures { result ≡ self.now.pair }
    {
        self.pair
    }

    /// The family of the interface at which the pair has its ports.
    pub fn family(&self) -> Family
        ensures { result ≡ self.now.family }
    {
        self.family
    }

    /// The even port of the pair, which takes RTP. RTCP has the next one (RFC 3550 section 11).
    pub fn rtp_port(&self) -> u16
        ensures { result ≡ self.now.rtp_port }
    {
        self.rtp_port
    }

    /// Which lease of the pair it is, from 1.
    pub fn generation(&self) -> u64
        ensures { result ≡ self.now.generation }
    {
        self.generation
    }
}

/// The port pairs of a range at one interface or at two: those that are free wait in the queue of their family, with room for all of it.
/// The pairs of version 4 are numbered first, and those of version 6 have the same ports.
#[derive(Drop)]
pub struct Pool {
    /// The first even port of the range.
    first_port: u32,
    /// How many pairs the range has, which is how many of each family there are.
    per_family: u32,
    /// The free pairs of version 4, the next to be leased in front.
    free4: VecDeque<u32>,
    /// The same of version 6.
    free6: VecDeque<u32>,
    /// For each pair the generation of its last lease, 0 before the first.
    generations: Vec<u64>,
}

impl Model for Pool {
    ghost use Rattle.std.specs.VecDeque.{deque_capacity};
    ghost use Rattle.port_pool.specs.Pools.{Pairs, HoldsPairs};

    ghost Value = { Pairs };

    ghost view = { λ pool. record { first_port = pool.first_port; per_family = pool.per_family; free4 = pool.free4.items; free6 = pool.free6.items; generations = pool.generations.items } };

    ghost invariant = { λ pool. HoldsPairs pool.first_port pool.per_family (deque_capacity pool.free4) (deque_capacity pool.free6) pool.free4.items pool.free6.items pool.generations.items };
}

/// So many pairs from one on, upwards, in a queue with room for them.
#[tactic(auto, using(crate::proofs::Queue::numbers_more))]
fn pairs_from(alloc: Global, first: u32, count: u32) -> Result<VecDeque<u32>, AllocError>
    requires { first + count ≤ 65536 }
    ensures pairs { IfOk result (λ pairs. pairs.items ≡ numbers first count) }
    ensures room { IfOk result (λ pairs. count ≤ deque_capacity pairs) }
{
    let mut pairs = VecDeque::with_capacity(alloc, count as usize)?;
    for place in 0..count {
        pairs.push_back_reserved(first + place);
    }
    Ok(pairs)
}

impl Pool {
    ghost use Rattle.relay_outside.specs.declared.settings.Config.{Config};
    ghost use Rattle.port_pool.specs.Ports.{place_in_family};
    ghost use Rattle.port_pool.specs.Pools.{IsFresh, generation, free_pairs, family_in, after_return};
    ghost use Rattle.port_pool.specs.Leases.{LeasesFront, TakesFront};
    ghost use Rattle.std.specs.Prelude.{IfNone, IsOk};
    ghost use Rattle.port_pool.specs.SavedPools.{FitsPool, SavesPool, NoPoolSaves};

    /// A pool of all pairs of the ports from `port_min` to `port_max`: each even port in the range whose next port is in
    /// it too, of version 4 and, where there are `both` families, of version 6. It takes the memory for all of them; no later call takes any.
    pub fn new(alloc: Global, port_min: u16, port_max: u16, both: bool) -> Result<Pool, OutOfMemory>
        ensures { (config : Config) → config.port_min ≡ port_min → config.port_max ≡ port_max → is_some config.interface6 ≡ both →
            IfOk result (IsFresh config) }
    {
        let first_port = u32::from(port_min) + u32::from(port_min) % 2;
        let per_family = (u32::from(port_max) + 1).saturating_sub(first_port) / 2;
        let others = if both { per_family } else { 0 };
        let free4 = pairs_from(alloc, 0, per_family)?;
        let free6 = pairs_from(alloc, per_family, others)?;
        let generations = Vec::from_elem(alloc, 0, (per_family + others) as usize)?;
        Ok(Pool {
            first_port,
            per_family,
            free4,
            free6,
            generations,
        })
    }

    /// How many pairs of a family are free.
    pub fn free_count(&self, family: Family) -> usize
        ensures { result ≡ length (free_pairs self.now family) }
    {
        match family {
            Family::V4 => self.free4.len(),
            Family::V6 => self.free6.len(),
        }
    }

    /// The even port of a pair.
    fn port_of(&self, pair: u32) -> u16
        requires { pair < length self.now.generations }
        ensures { result ≡ self.now.first_port + 2 * place_in_family self.now.per_family pair }
    {
        (self.first_port + 2 * place_in_family(self.per_family, pair)) as u16
    }

    /// Takes the pair of a family that has been free for longest out of its queue.
    fn pop(&mut self, family: Family) -> Option<u32>
        ensures front { TakesFront self.old family (free_pairs self.old family) result self.new }
        ensures within { IfSome result (λ pair. pair < length self.old.generations) }
        ensures family { IfSome result (λ pair. family_in self.old pair ≡ family) }
    {
        match family {
            Family::V4 => self.free4.pop_front(),
            Family::V6 => self.free6.pop_front(),
        }
    }

    /// Leases the pair of a family that has been free for longest, in its next generation. `None`: no pair of it is free. A pair has
    /// fewer than 2^63 leases before.
    pub fn lease(&mut self, family: Family) -> Option<Lease>
        requires { (pair : ℕ) → generation self.old pair < 2 ^ 63 }
        ensures front { LeasesFront self.old family (free_pairs self.old family) result self.new }
        ensures within { IfSome result (λ lease. lease.pair < length self.old.generations) }
        ensures family { IfSome result (λ lease. family_in self.old lease.pair ≡ family) }
    {
        let pair = self.pop(family)?;
        self.generations[pair as usize] += 1;
        Some(Lease {
            pair,
            family,
            rtp_port: self.port_of(pair),
            generation: self.generations[pair as usize],
        })
    }

    /// Takes a lease back: its pair waits after all others of its family that are free. It takes no memory. The lease is the last one
    /// of a pair of this pool that isn't free.
    pub fn give_back(&mut self, lease: Lease)
        requires of_pool { lease.pair < length self.old.generations }
        requires not_free { has (free_pairs self.old (family_in self.old lease.pair)) lease.pair ≡ false }
        requires last { generation self.old lease.pair ≡ lease.generation }
        ensures { self.new ≡ after_return self.old lease.pair }
    {
        if lease.pair < self.per_family {
            self.free4.push_back_reserved(lease.pair);
        } else {
            self.free6.push_back_reserved(lease.pair);
        }
    }

    /// The pool as a value with public fields. It takes no memory.
    pub fn into_saved(self) -> Result<PoolSaved, OutOfMemory>
        ensures saved { IfOk result (λ saved. FitsPool self × SavesPool self saved) }
        ensures always { IsOk result }
    {
        Ok(PoolSaved {
            first_port: self.first_port,
            per_family: self.per_family,
            free4: self.free4.into_vec(),
            free6: self.free6.into_vec(),
            generations: self.generations,
        })
    }

    /// The pool that is saved so, with room for all its pairs, and None where none is.
    pub fn from_saved(alloc: Global, saved: PoolSaved) -> Result<Option<Pool>, OutOfMemory>
        ensures loaded { IfOk result (λ given. IfSome given (λ pool. FitsPool pool × SavesPool pool saved)) }
        ensures refused { IfOk result (λ given. IfNone given (NoPoolSaves saved)) }
    {
        if !saved.is_pool(alloc)? {
            return Ok(None);
        }
        let per_family = saved.per_family as usize;
        let others = saved.generations.len() - per_family;
        let free4 = queue_of(alloc, per_family, &saved.free4)?;
        let free6 = queue_of(alloc, others, &saved.free6)?;
        Ok(Some(Pool {
            first_port: saved.first_port,
            per_family: saved.per_family,
            free4,
            free6,
            generations: saved.generations,
        }))
    }
}
