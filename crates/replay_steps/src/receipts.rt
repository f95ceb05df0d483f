//! Receipts that are held for later lines `relay`.
ghost use Rattle.std.specs.Prelude.{◌≡◌, ◌↔◌, ◌+◌, ◌<◌, ◌≤◌, ◌^◌, ◌++◌, ◌∷◌, [], IsTrue, IfOk, IfSome, MatchOption, position, length};
ghost use Rattle.replay_steps.specs.Receipts.{receipt_has_number, LacksNumber, TakesOut};

use media_lane::Receipt;
use relay_outside::OutOfMemory;
use std::alloc::Global;
use std::marker::Model;

/// How many receipts may be held.
const MOST: usize = 64;

/// The receipts that are held, each with its number, in the order of their takes, and how many were given out. Contracts see both,
/// and the room.
#[derive(Drop)]
pub(crate) struct Receipts {
    list: Vec<(u32, Receipt)>,
    received: u32,
}

impl Model for Receipts {
    ghost use Rattle.std.specs.Vec.{vec_capacity};
    ghost use Rattle.replay_steps.specs.Receipts.{ReceiptList};

    ghost Value = { ReceiptList };

    ghost view = { λ held. record { list = held.list.items; received = held.received; room = vec_capacity held.list } };
}

impl Receipts {
    /// None yet.
    pub(crate) fn new(alloc: Global) -> Result<Receipts, OutOfMemory>
        ensures { IfOk result (λ held. held ≡ record { list = []; received = 0; room = 64 }) }
    {
        let list = Vec::with_capacity(alloc, MOST)?;
        Ok(Receipts { list, received: 0 })
    }

    /// Whether no more may be held.
    pub(crate) fn is_full(&self) -> bool
        ensures { IsTrue result ↔ (64 ≤ length self.now.list) }
    {
        self.list.len() >= MOST
    }

    /// Holds a receipt under the next number, and returns that number.
    pub(crate) fn keep(&mut self, receipt: Receipt) -> u32
        requires room { length self.old.list < self.old.room }
        requires number { self.old.received + 1 < 2 ^ 32 }
        ensures number { result ≡ self.old.received + 1 }
        ensures list { self.new.list ≡ self.old.list ++ (self.old.received + 1, receipt) ∷ [] }
        ensures received { self.new.received ≡ self.old.received + 1 }
        ensures room { self.new.room ≡ self.old.room }
    {
        self.received += 1;
        let number = self.received;
        self.list.push_reserved((number, receipt));
        number
    }

    /// Where the receipt of a number stands.
    fn find(&self, number: u32) -> Option<usize>
        ensures place { result ≡ position (receipt_has_number number) self.now.list }
        ensures within { IfSome result (λ at. at < length self.now.list) }
    {
        self.list.iter().position(|held| held.0 == number)
    }

    /// Gives out the receipt of a number, which is held no more. `None`: none of that number is held.
    pub(crate) fn take(&mut self, number: u32) -> Option<Receipt>
        ensures { MatchOption result
            ((self.new ≡ self.old) × LacksNumber number self.old.list)
            (λ receipt. TakesOut number receipt self.old self.new) }
    {
        let Some(at) = self.find(number) else {
            return None;
        };
        let (_, receipt) = self.list.remove(at);
        Some(receipt)
    }
}
