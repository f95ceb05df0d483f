//! What the board plans for an offer or an answer.

ghost use Rattle.std.specs.Prelude.{◌≡◌};
ghost use Rattle.std.specs.Borrow.{sem};

use ng_bencode::Text;
use offer_answer::{Dialog, Plan};
use port_pool::Leases;

/// A call that an offer begins, before the offer is applied.
#[derive(Drop)]
pub(crate) struct NewCall {
    /// Its call-id.
    pub id: Text,
    /// The same bytes, as the key under which it is to be found.
    pub key: Vec<u8>,
    /// Its dialog, before its first offer.
    pub dialog: Box<Dialog>,
    ghost key_is: { key.items ≡ id.list },
}

/// The plan of an offer or an answer, with the call that it is of, and with all memory that the board needs to take it in.
#[derive(Drop)]
pub struct BoardPlan {
    /// The plan of the call's dialog.
    pub(crate) plan: Plan,
    /// The call's number.
    pub(crate) call: u64,
    /// The call's cell, from 1.
    pub(crate) cell: u32,
    /// The call itself, where the offer begins it.
    pub(crate) begun: Option<NewCall>,
    /// Room for the leases that the offer demands.
    pub(crate) leases: Option<Leases>,
}

impl BoardPlan {
    ghost use Rattle.call_board.specs.PlanBorrows.{LendsPlan};

    /// The plan of the call's dialog.
    pub fn plan(&mut self) -> &mut Plan
        ensures* writes_back { sem 𝓛 (LendsPlan self.entry result) }
        ensures value { result.now ≡ self.old.plan }
    {
        &mut self.plan
    }

    /// What the plan of the call's dialog demands and commits.
    pub fn planned(&self) -> &Plan
        ensures { result.now ≡ self.now.plan }
    {
        &self.plan
    }

    /// The number of the call.
    pub fn call(&self) -> u64
        ensures { result ≡ self.now.call }
    {
        self.call
    }

    /// The cell of the call, from 1.
    pub fn cell(&self) -> u32
        ensures { result ≡ self.now.cell }
    {
        self.cell
    }
}
