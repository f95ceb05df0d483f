ghost use Rattle.std.specs.Prelude.{◌≡◌, ◌<◌, ◌≤◌, ◌+◌, ◌++◌, [], ◌∷◌, ℕ, List, IfOk, vec_len, vec_capacity};
ghost use Rattle.port_pool.specs.Signals.{NewKey};

use crate::contexts::Outbound;
use crate::leg::Leg;
use port_pool::{Holder, Lease, MOST_LEGS, Side};
use relay_outside::OutOfMemory;
use sdes_lines::Suite;
use sdp_text::MOST_SECTIONS;
use srtp_keys::DrawnKey;
use std::alloc::{AllocError, Global};
use std::snapshot::Snapshot;

/// A drawn key's contexts, with the leg and the suite that the key is for.
#[derive(Drop)]
pub(crate) struct PreparedKey {
    pub(crate) section: u8,
    pub(crate) side: Side,
    pub(crate) suite: Suite,
    /// The key, as contracts see it.
    pub(crate) key: Snapshot<DrawnKey>,
    pub(crate) contexts: Box<Option<Outbound>>,
}

/// What an offer brings to a cell: new legs, keys of legs, and the sections whose legs it drops.
#[derive(Drop)]
pub struct Prepare<O> {
    /// The new legs, in lease order.
    pub(crate) legs: Vec<Leg<O>>,
    /// The memory for the legs of the cell: an empty list with capacity for 16.
    pub(crate) places: Vec<Leg<O>>,
    /// The new keys.
    pub(crate) keys: Vec<PreparedKey>,
    /// Places for the contexts of further keys.
    pub(crate) spare: Vec<Box<Option<Outbound>>>,
    /// Of each section, whether its legs are dropped.
    pub(crate) dropped: [bool; MOST_SECTIONS],
}

/// As many places on the heap, each empty.
fn spare_places(alloc: Global, count: usize) -> Result<Vec<Box<Option<Outbound>>>, AllocError>
    ensures { IfOk result (λ places. vec_len places ≡ count) }
{
    let mut places = Vec::with_capacity(alloc, count)?;
    for _ in 0..count {
        places.push(Box::new(alloc, None)?)?;
    }
    Ok(places)
}

/// Room for the legs, and the 16 places of the cell.
fn leg_places<O>(alloc: Global, legs: usize) -> Result<(Vec<Leg<O>>, Vec<Leg<O>>), OutOfMemory>
    ensures legs { IfOk result (λ both. (both.0.items ≡ []) × (vec_len both.0 ≡ 0) × (vec_capacity both.0 ≡ legs)) }
    ensures places { IfOk result (λ both. (vec_len both.1 ≡ 0) × (vec_capacity both.1 ≡ 16)) }
{
    let first = Vec::with_capacity(alloc, legs)?;
    match Vec::with_capacity(alloc, MOST_LEGS) {
        Ok(places) => Ok((first, places)),
        Err(_) => {
            first.destroy_empty();
            Err(OutOfMemory)
        }
    }
}

impl<O> Prepare<O> {
    ghost use Rattle.call_cell.specs.Preparations.{PrepareFor, IsReady, added, parts_added, leg_room, key_room};

    /// An empty `Prepare` with capacity for this many legs and keys.
    pub fn reserve(alloc: Global, legs: usize, keys: usize) -> Result<Prepare<O>, OutOfMemory>
        ensures nothing { IfOk result (λ signal. PrepareFor signal [] [] × (added signal ≡ []) × (parts_added signal ≡ [])) }
        ensures room { IfOk result (λ signal. (leg_room signal ≡ legs) × (key_room signal ≡ keys)) }
        ensures ready { IfOk result (λ signal. IsReady signal) }
    {
        let spare = spare_places(alloc, keys)?;
        let keys = Vec::with_capacity(alloc, keys)?;
        let (legs, places) = leg_places(alloc, legs)?;
        Ok(Prepare {
            legs,
            places,
            keys,
            spare,
            dropped: [false; MOST_SECTIONS],
        })
    }

    /// Adds a leg, with the out ends of its ports for RTP and for RTCP.
    pub fn add_leg(&mut self, holder: Holder, lease: Lease, rtp_end: O, rtcp_end: O)
        requires room { 0 < leg_room self.old }
        requires pair { lease.pair ≡ holder.pair }
        requires generation { lease.generation ≡ holder.generation }
        ensures holders { added self.new ≡ added self.old ++ holder ∷ [] }
        ensures parts { parts_added self.new ≡ parts_added self.old ++ (lease, rtp_end, rtcp_end) ∷ [] }
        ensures stands { (keys : List NewKey) (dropped : List ℕ) → PrepareFor self.old keys dropped → PrepareFor self.new keys dropped }
        ensures room { (leg_room self.new + 1 ≡ leg_room self.old) × (key_room self.new ≡ key_room self.old) }
        ensures ready { IsReady self.old → IsReady self.new }
    {
        self.legs
            .push_reserved(Leg::new(holder, lease, rtp_end, rtcp_end));
    }

    /// Adds a drawn key for the leg of a section and side, and a suite.
    pub fn add_key(&mut self, section: u8, side: Side, key: DrawnKey, suite: Suite)
        requires room { 0 < key_room self.old }
        ensures stands { (keys : List NewKey) (dropped : List ℕ) → PrepareFor self.old keys dropped →
            PrepareFor self.new (keys ++ (record { number = key.number; section = section; side = side; suite = suite; bytes = key.bytes }) ∷ []) dropped }
        ensures legs { (added self.new ≡ added self.old) × (parts_added self.new ≡ parts_added self.old) }
        ensures room { (key_room self.new + 1 ≡ key_room self.old) × (leg_room self.new ≡ leg_room self.old) }
        ensures ready { IsReady self.old → IsReady self.new }
    {
        let drawn = Snapshot::of(&key);
        let mut contexts = self.spare.pop().unwrap();
        *contexts = Some(Outbound::new(key, suite));
        self.keys.push_reserved(PreparedKey {
            section,
            side,
            suite,
            key: drawn,
            contexts,
        });
    }

    /// Drops the legs that a section has in the cell. A call has no section from 8 on.
    /// They are legs of earlier entries: those that this adds stay.
    pub fn drop_section(&mut self, section: u8)
        ensures stands { (keys : List NewKey) (dropped : List ℕ) → PrepareFor self.old keys dropped → PrepareFor self.new keys (section ∷ dropped) }
        ensures legs { (added self.new ≡ added self.old) × (parts_added self.new ≡ parts_added self.old) }
        ensures room { (key_room self.new ≡ key_room self.old) × (leg_room self.new ≡ leg_room self.old) }
        ensures ready { IsReady self.old → IsReady self.new }
    {
        let section = section as usize;
        if section < MOST_SECTIONS {
            self.dropped[section] = true;
        }
    }

    /// Gives the memory back, when no leg was added.
    pub fn destroy_empty(self)
        requires none { added self ≡ [] }
        requires ready { IsReady self }
    {
        let Prepare {
            legs,
            places,
            keys: _,
            spare: _,
            dropped: _,
        } = self;
        legs.destroy_empty();
        places.destroy_empty();
    }
}
