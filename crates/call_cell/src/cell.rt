ghost use Rattle.std.specs.Prelude.{ℕ, ◌≡◌, ◌≤◌, ◌<◌, ◌+◌, ◌^◌, true, false, [], List, filter_map, slice_index_or, IfOk, IfErr, IfSome, IsSome, Some, is_some, if◌then◌else◌};
ghost use Rattle.relay_outside.specs.declared.settings.Config.{Config};
ghost use Rattle.histories.specs.Words.{or_else};
ghost use Rattle.call_cell.specs.Cells.{CellEntry, since_end, is_accepted};
ghost use Rattle.call_cell.specs.Demands.{CountsBelow};
ghost use Rattle.call_cell.specs.LegHistories.{LegsStandFor, LegsRelay, receipt_of};
ghost use Rattle.call_cell.specs.Commits.{LegCommitsBy, LegsCommit, contexts_due, needs_contexts, said_of};
ghost use Rattle.call_cell.specs.Expiries.{is_ago};
ghost use Rattle.call_cell.specs.Shapes.{cell_leg_shapes, KeepsPorts, CountsRoseByOne};

use crate::dropped_legs::part;
use crate::given_ends::give_ends;
use crate::gone::Gone;
use crate::in_contexts::InContexts;
use crate::leg::{Leg, place_of, place_of_opposite};
use crate::leg_reports::tell_legs;
use crate::loading::load_legs;
use crate::new_legs::{join, put_keys};
use crate::outcome::{Incoming, Lost, Outcome, PacketBuffer, Refused};
use crate::prepare::Prepare;
use crate::saved::CellSaved;
use crate::saving::save_legs;
use crate::signals::{rejected, said_of};
use crate::taken_ends::take_first;
use port_pool::{LegReports, Signal};
use relay_outside::{Addr, Config, OutEnd, OutOfMemory};
use sdp_text::MOST_SECTIONS;
use std::alloc::Global;

/// One call's media: its legs, and what they keep. Contracts see it by the histories that it stands for.
#[derive(Drop)]
pub struct Cell<O> {
    /// What the relay is run with.
    config: Config,
    /// The greatest moment that it was handed.
    moment: u64,
    /// The call's number, while it holds one.
    call: Option<u64>,
    /// When its first offer was made, while it holds a call.
    began: u64,
    /// Whether an answer committed it.
    is_committed: bool,
    /// When the last answer was committed, or the last packet accepted since then.
    active: u64,
    /// The call's legs, in lease order.
    legs: Vec<Leg<O>>,
}

/// Commits one leg.
fn commit_leg<O>(leg: &mut Leg<O>, signal: &Signal, contexts: &mut InContexts)
    requires room { needs_contexts signal.now leg.old ≡ true → 0 < contexts.old }
    ensures commits { LegCommitsBy (said_of signal.now leg.old.holder) leg.old leg.new }
    ensures room { contexts.new + (if needs_contexts signal.now leg.old then 1 else 0) ≡ contexts.old }
{
    if let Some(said) = said_of(signal, &leg.holder) {
        leg.commit(&said, contexts);
    }
}

/// Commits the legs.
fn commit_legs<O>(legs: &mut [Leg<O>], signal: &Signal, contexts: &mut InContexts)
    requires room { contexts_due signal.now legs.old ≤ contexts.old }
    ensures { LegsCommit signal.now legs.old legs.new }
{
    for leg in legs.iter_mut() {
        commit_leg(leg, signal, contexts);
    }
}

/// When the call that the cell then holds began: now, where it held none.
fn began_by(held: Option<u64>, began: u64, now: u64) -> u64
    ensures { result ≡ (if is_some held then began else now) }
{
    match held {
        None => now,
        Some(_) => began,
    }
}

/// The call that the cell then holds: this one, where it held none.
fn held_by(held: Option<u64>, call: u64) -> u64
    ensures { Some result ≡ or_else held (Some call) }
{
    match held {
        None => call,
        Some(held) => held,
    }
}

/// The moment of the last activity after a packet: this one where the packet was accepted.
fn active_after(outcome: Outcome, active: u64, now: u64) -> u64
    ensures { result ≡ (if is_accepted outcome then now else active) }
{
    match outcome {
        Outcome::Refused(_) => active,
        Outcome::Lost(_) => now,
        Outcome::Sent { .. } => now,
    }
}

/// Relays a packet from the leg that received it to the one on the other side.
/// The flags that judge the packet are those in force on the leg that received it; those that decide where it goes are those
/// on the leg that sends it.
fn relay_legs<O: OutEnd>(legs: &mut [Leg<O>], packet: &Incoming, buf: &mut PacketBuffer) -> Outcome
    requires held { packet.now.len ≤ 2000 }
    ensures shape { cell_leg_shapes legs.new ≡ cell_leg_shapes legs.old }
    ensures relays { (config : Config) (h : List CellEntry) (number : ℕ) → LegsStandFor config h legs.old →
        LegsRelay O.log O.faults config h (receipt_of number packet.now buf.old) legs.old legs.new buf.new result }
    ensures counts { CountsRoseByOne legs.old legs.new }
    ensures ports { KeepsPorts O.log legs.old legs.new }
{
    let Some(at) = place_of(legs, &packet.holder) else {
        return Outcome::Refused(Refused::Stale);
    };
    let plain = match legs[at].accept(packet.half, packet.source, buf, packet.len) {
        Ok(plain) => plain,
        Err(cause) => return Outcome::Refused(cause),
    };
    let holder = legs[at].holder;
    let Some(to) = place_of_opposite(legs, &holder) else {
        return Outcome::Lost(Lost::Hold);
    };
    legs[to].forward(plain.head, buf, plain.len)
}

/// Whether that moment is at least so long ago.
fn is_ago(now: u64, limit: u64, moment: u64) -> bool
    ensures { result ≡ is_ago now limit moment }
{
    match moment.checked_add(limit) {
        None => false,
        Some(due) => due <= now,
    }
}

impl<O> Cell<O> {
    ghost use Rattle.call_cell.specs.Expiries.{due_by};
    ghost use Rattle.call_cell.specs.TakenEnds.{TakesEnds};
    ghost use Rattle.call_cell.specs.SavedCells.{AreEmptied, SavesCell};
    ghost use Rattle.call_cell.specs.GivenEnds.{HasEndsFor, GivesEnds};

    /// Whether the call is due to end at the cell's last moment.
    /// An answer that rejects every section commits the call, too. A call begins, for its timeout, at the first entry in its
    /// cell, whose moment may be later than the one that a query tells.
    fn is_due(&self) -> bool
        ensures { result ≡ due_by self.now self.now.moment }
    {
        if self.is_committed {
            return is_ago(self.moment, self.config.timeout_ms, self.active);
        }
        self.call.is_some() && is_ago(self.moment, self.config.offer_timeout_ms, self.began)
    }

    /// Takes the out ends of the first leg, in lease order, that still has them: with the address of its port for RTP, and RTP first.
    /// `None`: none has any. A cell without them sends nothing by these legs, and no history says more of it, so a cell is emptied
    /// to be saved. It takes no memory.
    pub fn take_ends(&mut self) -> Option<(Addr, O, O)>
        ensures { TakesEnds self.old self.new result }
    {
        take_first(self.legs.as_mut_slice(), &self.config)
    }

    /// What the cell is saved as, once all ends were taken. For want of memory all is let go.
    pub fn into_saved(self) -> Result<CellSaved, OutOfMemory>
        requires { AreEmptied self.legs.items }
        ensures { IfOk result (λ saved. SavesCell self saved) }
    {
        let Cell {
            config,
            moment,
            call,
            began,
            is_committed,
            active,
            legs,
        } = self;
        let legs = save_legs(legs)?;
        Ok(CellSaved {
            config,
            moment,
            call,
            began,
            is_committed,
            active,
            legs,
        })
    }

    /// The cell that was saved so, with out ends from the list: each leg is given the first that are left there of the address of
    /// its port for RTP, which leave the list; the others stay in their order. Each record is some cell's, so there always is one.
    /// For want of memory all is let go but the list, which stays as it was.
    pub fn from_saved(
        alloc: Global,
        saved: CellSaved,
        ends: &mut Vec<(Addr, O, O)>,
    ) -> Result<Option<Cell<O>>, OutOfMemory>
        requires { HasEndsFor saved.config saved.legs.items ends.old.items }
        ensures loaded { IfOk result (λ r. IfSome r (λ cell. SavesCell cell saved)) }
        ensures gives { IfOk result (λ r. IfSome r (λ cell. GivesEnds saved.config cell.legs.items ends.old.items ends.new.items)) }
        ensures always { IfOk result IsSome }
        ensures kept { IfErr result (λ cause. ends.new ≡ ends.old) }
    {
        let CellSaved {
            config,
            moment,
            call,
            began,
            is_committed,
            active,
            legs,
        } = saved;
        let mut legs = load_legs(alloc, legs)?;
        give_ends(legs.as_mut_slice(), &config, ends);
        Ok(Some(Cell {
            config,
            moment,
            call,
            began,
            is_committed,
            active,
            legs,
        }))
    }
}

impl<O: OutEnd> Cell<O> {
    ghost use Rattle.call_cell.specs.CellHistories.{CellFor, CellRelays};
    ghost use Rattle.call_cell.specs.CellEnds.{CellEnds};
    ghost use Rattle.port_pool.specs.Signals.{NewKey, is_rejected};
    ghost use Rattle.call_cell.specs.CellEnds.{parts_of};
    ghost use Rattle.histories.specs.Words.{In};
    ghost use Rattle.port_pool.specs.Reports.{CountsFit};
    ghost use Rattle.port_pool.specs.declared.reports.LegReport.{LegReport};
    ghost use Rattle.call_cell.specs.declared.leg.Leg.{Leg};
    ghost use Rattle.call_cell.specs.Shapes.{IsSmall, LegsGo, FormsStay, counts_of, cell_shape, offered_shape, answered_shape, ended_shape};
    ghost use Rattle.call_cell.specs.Counts.{CountsUnder};
    ghost use Rattle.call_cell.specs.Commits.{CellCommits, NamesKeys};
    ghost use Rattle.call_cell.specs.Expiries.{CellExpires};
    ghost use Rattle.call_cell.specs.LegReports.{CellReads};
    ghost use Rattle.call_cell.specs.Preparations.{IsReady, FitsPlaces, PrepareFor, CanCome, CellPrepares};

    /// An empty cell, which takes no memory.
    pub fn empty(alloc: Global, config: &Config) -> Cell<O>
        ensures { CellFor config.now result [] }
    {
        Cell {
            config: *config,
            moment: 0,
            call: None,
            began: 0,
            is_committed: false,
            active: 0,
            legs: Vec::new(alloc),
        }
    }

    /// Relays the packet in the buffer's first `len` bytes, at the moment `now` in milliseconds. The bytes that are sent stand
    /// at the buffer's front.
    pub fn relay(&mut self, packet: &Incoming, buf: &mut PacketBuffer, now: u64) -> Outcome
        requires { packet.now.len ≤ 2000 }
        ensures shape { cell_shape self.new ≡ cell_shape self.old }
        ensures relays { (config : Config) (h : List CellEntry) (number : ℕ) → CellFor config self.old h →
            CellRelays O.log O.faults config self.old self.new h (receipt_of number packet.now buf.old) now buf.new result }
        ensures counts { CountsRoseByOne self.old.legs.items self.new.legs.items }
        ensures legs { KeepsPorts O.log self.old.legs.items self.new.legs.items }
    {
        self.moment = self.moment.max(now);
        let outcome = relay_legs(self.legs.as_mut_slice(), packet, buf);
        self.active = active_after(outcome, self.active, self.moment);
        outcome
    }

    /// Takes what an offer brings to the call with this number, at the moment `now` in milliseconds; an empty cell begins the
    /// call. The legs of the sections that it drops go to `gone`, which is empty. It takes no memory.
    pub fn prepare(&mut self, call: u64, signal: Prepare<O>, gone: &mut Gone<O>, now: u64)
        requires empty { gone.old ≡ [] }
        requires ready { IsReady signal }
        requires room { FitsPlaces self.old signal }
        ensures shape { (keys : List NewKey) (dropped : List ℕ) → PrepareFor signal keys dropped →
            cell_shape self.new ≡ offered_shape signal.dropped (cell_leg_shapes signal.legs.items) keys call (cell_shape self.old) }
        ensures legs { LegsGo (λ leg. slice_index_or signal.dropped leg.section false) signal.legs.items self.old.legs.items self.new.legs.items gone.new }
        ensures prepares { (config : Config) (h : List CellEntry) (keys : List NewKey) (dropped : List ℕ) → CellFor config self.old h → PrepareFor signal keys dropped →
            CanCome config (since_end h) signal call keys dropped → CellPrepares config self.old self.new h signal call keys dropped now gone.new }
        ensures forms { FormsStay signal.legs.items self.old.legs.items self.new.legs.items gone.new }
    {
        let Prepare {
            legs,
            places,
            keys,
            spare: _,
            dropped,
        } = signal;
        self.moment = self.moment.max(now);
        self.began = began_by(self.call, self.began, self.moment);
        self.call = Some(held_by(self.call, call));
        part(&mut self.legs, &dropped, gone);
        join(&mut self.legs, legs, places);
        put_keys(self.legs.as_mut_slice(), keys);
    }

    /// Commits what an answer says of the call's legs, at the moment `now` in milliseconds. The legs of the sections that it
    /// rejects go to `gone`, which is empty. `contexts` has room for each inbound key or suite other than the one in force. It
    /// takes no memory.
    pub fn commit(&mut self, signal: &Signal, contexts: InContexts, gone: &mut Gone<O>, now: u64)
        requires empty { gone.old ≡ [] }
        requires room { contexts_due signal.now self.old.legs.items ≤ contexts }
        ensures shape { IsSmall (cell_leg_shapes self.old.legs.items) → cell_shape self.new ≡ answered_shape signal.now (cell_shape self.old) }
        ensures legs { IsSmall (cell_leg_shapes self.old.legs.items) →
            LegsGo (λ leg. is_rejected signal.now leg.section) [] self.old.legs.items self.new.legs.items gone.new }
        ensures commits { (config : Config) (h : List CellEntry) → CellFor config self.old h → NamesKeys (since_end h) signal.now →
            CellCommits config self.old self.new h signal.now now gone.new }
        ensures forms { FormsStay [] self.old.legs.items self.new.legs.items gone.new }
    {
        let mut contexts = contexts;
        self.moment = self.moment.max(now);
        self.is_committed = true;
        self.active = self.moment;
        commit_legs(self.legs.as_mut_slice(), signal, &mut contexts);
        part(&mut self.legs, &rejected(signal), gone);
    }

    /// Whether the call is due to end at the moment `now` in milliseconds: one that was committed, without a further answer or
    /// an accepted packet for the timeout, or one that never was, begun the offer timeout ago.
    pub fn expire(&mut self, now: u64) -> bool
        ensures shape { cell_shape self.new ≡ cell_shape self.old }
        ensures expires { (config : Config) (h : List CellEntry) → CellFor config self.old h → CellExpires config self.old self.new h now result }
        ensures legs { self.new.legs ≡ self.old.legs }
    {
        self.moment = self.moment.max(now);
        self.is_due()
    }

    /// Replaces the list by a report of each leg of a committed section, by section and then side A first. The counts are of
    /// the packets since the leg came; from 2^64 - 1 on a count stands still.
    pub fn read_legs(&self, out: &mut LegReports)
        ensures reads { (config : Config) (h : List CellEntry) → CellFor config self.now h → CountsBelow (since_end h) → CellReads config self.now h out.new }
        ensures counts { ((leg : Leg O) → In leg self.now.legs.items → CountsUnder (2 ^ 63) (counts_of leg)) → (report : LegReport) → In report out.new → CountsFit report }
    {
        out.clear();
        tell_legs(self.legs.as_slice(), out);
    }

    /// Ends the call: all its legs go to `gone`, which is empty. It takes no memory.
    pub fn end(&mut self, gone: &mut Gone<O>)
        requires empty { gone.old ≡ [] }
        ensures shape { IsSmall (cell_leg_shapes self.old.legs.items) → cell_shape self.new ≡ ended_shape self.old.config }
        ensures legs { IsSmall (cell_leg_shapes self.old.legs.items) → gone.new ≡ filter_map (λ leg. parts_of leg) self.old.legs.items }
        ensures ends { (config : Config) (h : List CellEntry) → CellFor config self.old h → CellEnds config self.old self.new h gone.new }
        ensures none { IsSmall (cell_leg_shapes self.old.legs.items) → self.new.legs.items ≡ [] }
        ensures forms { FormsStay [] self.old.legs.items self.new.legs.items gone.new }
    {
        self.call = None;
        self.is_committed = false;
        part(&mut self.legs, &[true; MOST_SECTIONS], gone);
    }
}
