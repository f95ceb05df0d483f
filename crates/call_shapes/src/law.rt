ghost use Rattle.std.specs.Prelude.{◌≡◌, ◌⊎◌, ◌<◌, ◌≤◌, ◌≢◌, ◌+◌, ℕ, Bool, true, false, List, [], ◌∷◌, ◌++◌, map, filter, length, count_by, ◌==◌, Option, Some, None, slice_get, slice_index_or};
ghost use Rattle.std.specs.List.{AllZip};
ghost use Rattle.relay_outside.specs.declared.settings.Config.{Config};
ghost use Rattle.relay_outside.specs.declared.address.Family.{Family};
ghost use Rattle.relay_outside.specs.Settings.{AreFamilies};
ghost use Rattle.histories.specs.Words.{In, has};
ghost use Rattle.port_pool.specs.declared.holder.Holder.{Holder};
ghost use Rattle.port_pool.specs.declared.pairs.Lease.{Lease};
ghost use Rattle.port_pool.specs.declared.signal.SectionSignal.{SectionSignal};
ghost use Rattle.port_pool.specs.Signals.{NewKey, is_rejected};
ghost use Rattle.port_pool.specs.Ports.{pair_count};
ghost use Rattle.port_pool.specs.Leases.{lease_of};
ghost use Rattle.port_pool.specs.Pools.{Pairs, IsFresh, free_pairs, generation, after_lease, after_return};
ghost use Rattle.offer_answer.specs.Rounds.{NewLeg};
ghost use Rattle.call_cell.specs.Cells.{Prepare, Commit, End};
ghost use Rattle.call_cell.specs.Shapes.{CellLegShape, CellShape, IsSmall, ended_shape};
ghost use Rattle.call_board.specs.Acts.{Call};
ghost use Rattle.call_board.specs.Whole.{holders_of_new_legs};
ghost use Rattle.call_board.specs.Returns.{leg_lease};
ghost use Rattle.call_board.specs.Boards.{AreOut};
ghost use Rattle.offer_answer.specs.Shapes.{DialogShape};
ghost use Rattle.call_board.specs.Shapes.{LiveShape, BoardShape, IsFreeCell, shape_numbered, after_returns, LeasesLegs};
ghost use Rattle.call_cell.specs.CellHistories.{CellFor};
ghost use Rattle.call_cell.specs.Cells.{CellEntry, since_end};
ghost use Rattle.call_cell.specs.Commits.{NamesKeys};
ghost use Rattle.call_cell.specs.Preparations.{CanCome};
ghost use Rattle.call_cell.specs.Shapes.{cell_shape};
ghost use Rattle.call_cell.specs.declared.cell.Cell as cell;
ghost use Rattle.call_cell.specs.declared.prepare.Prepare as prepared;
ghost use Rattle.call_shapes.specs.Comings.{AnswerComesTo, OfferComesTo, HaveNewNumbers};
ghost use Rattle.call_shapes.specs.Events.{shape_after_event, section_flags};
ghost use Rattle.call_shapes.specs.Agreement.{CallAgrees};
ghost use Rattle.call_shapes.specs.OfferFits.{Offering, OfferFits, OfferAgrees, IsNewCall, offer_event, cell_holders};
ghost use Rattle.call_shapes.specs.WholeRelay.{PoolHolds};
ghost use Rattle.call_shapes.specs.NumberedTurns.{OffersNumbered, OffersFirst, AnswersNumbered, EndsNumbered, UndoesOffer};
ghost use Rattle.call_shapes.specs.Turns.{RelayShape, RelayBegins, CallChanges, CallComes, CallLeaves, CallsLeave, OfferIsUndone, IsWholeRelay, PlaceOfNumber, IsOpenFor, DialogAnswered, HoldsBy, LegsLeased, LegsMove, holders_of, pairs_held};

/// Theorem (no run-time code): an offer keeps a call and its cell agreeing. Where the dialog and the cell agree, or both hold nothing of the call yet,
/// and the offer goes with the dialog, the cell agrees with the new dialog once it was told of the offer; the legs of dropped sections went, the
/// others stayed, and the new ones came behind them.
pub fn offers_agree()
    ensures { (config : Config) (of : Call) (offer : Offering) (old new : DialogShape) (shape : CellShape)
        → CallAgrees config of.cell of.number old shape ⊎ IsNewCall config old shape → OfferFits config offer old new
        → OfferAgrees config of offer new shape (shape_after_event (offer_event of offer) shape) }
{}

/// Theorem (no run-time code): an answer keeps a call and its cell agreeing, where its signal says something of as many sections as the last
/// offer has. A section of which it says nothing had no pairs.
pub fn answers_agree()
    ensures { (config : Config) (cell call : ℕ) (old new : DialogShape) (shape : CellShape) (signal : List SectionSignal) → CallAgrees config cell call old shape →
        DialogAnswered signal old new → CallAgrees config cell call new (shape_after_event (Commit signal) shape) }
{}

/// Theorem (no run-time code): of the legs of a cell, those go of which an offer drops the section or an answer rejects it, in lease order, and
/// those that an offer brings come behind the others.
pub fn events_move_legs()
    ensures offer { (call : ℕ) (came : List Holder) (keys : List NewKey) (dropped : List ℕ) (shape : CellShape) →
        LegsMove (λ leg. slice_index_or (section_flags dropped) leg.section false) came (filter (λ leg. slice_index_or (section_flags dropped) leg.section false) (holders_of shape.legs))
        (holders_of shape.legs) (holders_of (shape_after_event (Prepare call came keys dropped) shape).legs) }
    ensures answer { (signal : List SectionSignal) (shape : CellShape) →
        LegsMove (λ leg. is_rejected signal leg.section) [] (filter (λ leg. is_rejected signal leg.section) (holders_of shape.legs))
        (holders_of shape.legs) (holders_of (shape_after_event (Commit signal) shape).legs) }
{}

/// Theorem (no run-time code): after the end of its call a cell holds none, and has no legs.
pub fn ended_cell_is_empty()
    ensures { (config : Config) (cell call : ℕ) (dialog : DialogShape) (shape : CellShape) → CallAgrees config cell call dialog shape → shape_after_event End shape ≡ ended_shape config }
{}

/// Theorem (no run-time code): a cell that agrees with its call has at most 16 legs, and none in a section from 8 on.
pub fn agreeing_cell_is_small()
    ensures { (config : Config) (cell call : ℕ) (dialog : DialogShape) (shape : CellShape) → CallAgrees config cell call dialog shape → IsSmall shape.legs }
{}

/// Theorem (no run-time code): a pool holds for the legs that hold its pairs when it is fresh, after a lease, after a return, after several of each
/// in order, and for the same legs in any order.
pub fn pool_holds_on()
    ensures fresh { (config : Config) (pool : Pairs) → IsFresh config pool → PoolHolds config pool [] }
    ensures lease { (config : Config) (pool : Pairs) (held : List Holder) (family : Family) (leg : Holder) (rest : List ℕ) → PoolHolds config pool held →
        free_pairs pool family ≡ leg.pair ∷ rest → leg.generation ≡ generation pool leg.pair + 1 → PoolHolds config (after_lease pool family leg.pair rest) (leg ∷ held) }
    ensures leases { (config : Config) (pool new : Pairs) (came held : List Holder) → PoolHolds config pool held → LegsLeased pool came new → PoolHolds config new (came ++ held) }
    ensures back { (config : Config) (pool : Pairs) (kept : List Holder) (leg : Holder) → PoolHolds config pool (leg ∷ kept) → PoolHolds config (after_return pool leg.pair) kept }
    ensures all_back { (config : Config) (pool : Pairs) (gone kept : List Holder) → PoolHolds config pool (gone ++ kept) → PoolHolds config (after_returns pool (pairs_held gone)) kept }
    ensures order { (config : Config) (pool : Pairs) (old new : List Holder) → PoolHolds config pool old → ((leg : Holder) → In leg new → In leg old) →
        ((pair : ℕ) → count_by (λ p. p == pair) (pairs_held new) ≡ count_by (λ p. p == pair) (pairs_held old)) → PoolHolds config pool new }
{}

/// Theorem (no run-time code): where a pool holds, no leg holds a free pair, no two hold one pair, and the leases of legs that hold pairs may be
/// given back, one after the other.
pub fn pool_is_whole()
    ensures free { (config : Config) (pool : Pairs) (held : List Holder) (family : Family) (pair : ℕ) → PoolHolds config pool held → has (free_pairs pool family) pair ≡ true →
        (leg : Holder) → In leg held → leg.pair ≢ pair }
    ensures apart { (config : Config) (pool : Pairs) (front : List Holder) (a : Holder) (middle : List Holder) (b : Holder) (back : List Holder) →
        PoolHolds config pool (front ++ (a ∷ middle ++ b ∷ back)) → a.pair ≢ b.pair }
    ensures returns { (config : Config) (pool : Pairs) (legs kept : List Holder) → PoolHolds config pool (legs ++ kept) → AreOut pool (map (leg_lease config) legs) }
    ensures next { (config : Config) (pool : Pairs) (held : List Holder) (leg : Holder) → PoolHolds config pool held → leg.generation ≡ generation pool leg.pair + 1 →
        lease_of pool leg.pair ≡ leg_lease config leg }
{}

/// Theorem (no run-time code): legs that hold their pairs by the leases that a board made for an offer are leased in order.
pub fn legs_are_leased()
    ensures { (old new : Pairs) (legs : List NewLeg) (leases : List Lease) (came : List Holder) → LeasesLegs old legs leases new → AllZip HoldsBy came leases → LegsLeased old came new }
{}

/// Theorem (no run-time code): the live call that is found by a number has a place among the live calls, and changes or goes there.
pub fn numbered_call_has_place()
    ensures { (number : ℕ) (dialog : DialogShape) (board : BoardShape) (call : LiveShape) → shape_numbered board number ≡ Some call → PlaceOfNumber number dialog board.calls call }
{}

/// Theorem (no run-time code): what the board, the cells and the boxes keep goes together at the start, and after a call went on, began or ended,
/// after several calls ended in turn, and after an offer was undone.
pub fn turns_stay_whole()
    ensures start { (config : Config) (relay : RelayShape) → AreFamilies config → RelayBegins config relay → IsWholeRelay config relay }
    ensures goes_on { (config : Config) (old new : RelayShape) → IsWholeRelay config old → CallChanges config old new → IsWholeRelay config new }
    ensures begins { (config : Config) (old new : RelayShape) → IsWholeRelay config old → CallComes config old new → IsWholeRelay config new }
    ensures ends { (config : Config) (old new : RelayShape) → IsWholeRelay config old → CallLeaves config old new → IsWholeRelay config new }
    ensures all_end { (config : Config) (old new : RelayShape) → IsWholeRelay config old → CallsLeave config old new → IsWholeRelay config new }
    ensures undone { (config : Config) (old new : RelayShape) → IsWholeRelay config old → OfferIsUndone old new → IsWholeRelay config new }
{}

/// Theorem (no run-time code): where all goes together, the box of a free pair is shut, also where that is leased, the box of a live call's leg is
/// open for it, and no other box is open.
pub fn whole_boxes()
    ensures free { (config : Config) (relay : RelayShape) (family : Family) (pair : ℕ) → IsWholeRelay config relay → has (free_pairs relay.board.pool family) pair ≡ true → relay.holders pair ≡ None }
    ensures leased { (config : Config) (relay : RelayShape) (came : List Holder) (between : Pairs) → IsWholeRelay config relay → LegsLeased relay.board.pool came between →
        (leg : Holder) → In leg came → relay.holders leg.pair ≡ None }
    ensures held { (config : Config) (relay : RelayShape) (call : LiveShape) (leg : CellLegShape) → IsWholeRelay config relay → In call relay.board.calls →
        In leg (relay.cells call.cell).legs → relay.holders leg.holder.pair ≡ Some leg.holder }
    ensures opened { (config : Config) (relay : RelayShape) (pair : ℕ) (holder : Holder) → IsWholeRelay config relay → pair < pair_count config →
        relay.holders pair ≡ Some holder → IsOpenFor relay.board relay.cells pair holder }
{}

/// Theorem (no run-time code): where all goes together, the cell of a live call is one of the cells and has few legs, and a cell that isn't taken is
/// empty.
pub fn whole_cells()
    ensures within { (config : Config) (relay : RelayShape) (call : LiveShape) → IsWholeRelay config relay → In call relay.board.calls → (1 ≤ call.cell) × (call.cell ≤ config.max_sessions) }
    ensures spare { (config : Config) (relay : RelayShape) (cell : ℕ) → IsWholeRelay config relay → IsFreeCell config.max_sessions relay.board.taken cell → relay.cells cell ≡ ended_shape config }
    ensures small { (config : Config) (relay : RelayShape) (call : LiveShape) → IsWholeRelay config relay → In call relay.board.calls → IsSmall (relay.cells call.cell).legs }
{}

/// Theorem (no run-time code): where all goes together, the leases of legs of a live call may be given back, after pairs were leased for an offer of
/// it too, and those of an offer that is undone.
pub fn whole_returns()
    ensures gone { (config : Config) (relay : RelayShape) (call : LiveShape) (front back : List LiveShape) (goes : Holder → Bool) (came : List Holder) (between : Pairs) →
        IsWholeRelay config relay → relay.board.calls ≡ front ++ call ∷ back → LegsLeased relay.board.pool came between →
        AreOut between (map (leg_lease config) (filter goes (holders_of (relay.cells call.cell).legs))) }
    ensures ended { (config : Config) (relay : RelayShape) (call : LiveShape) (front back : List LiveShape) → IsWholeRelay config relay → relay.board.calls ≡ front ++ call ∷ back →
        AreOut relay.board.pool (map (leg_lease config) (holders_of (relay.cells call.cell).legs)) }
    ensures undone { (config : Config) (relay : RelayShape) (came : List Holder) (between : Pairs) → IsWholeRelay config relay → LegsLeased relay.board.pool came between →
        AreOut between (map (leg_lease config) came) }
{}

/// Theorem (no run-time code): where all goes together, a live call is found by its number, which is below that of the next call.
pub fn whole_calls()
    ensures { (config : Config) (relay : RelayShape) (call : LiveShape) → IsWholeRelay config relay → In call relay.board.calls →
        (shape_numbered relay.board call.number ≡ Some call) × (call.number < relay.board.begun) }
{}

/// Theorem (no run-time code): what the board, the cells and the boxes keep goes together after an offer of a live call, the first offer of a call, an answer and the end of a call, each with the call
/// by its number and with what its cell was told, and after an offer was undone.
pub fn numbered_turns_stay_whole()
    ensures offer { (config : Config) (old new : RelayShape) → IsWholeRelay config old → OffersNumbered config old new → IsWholeRelay config new }
    ensures first { (config : Config) (old new : RelayShape) → IsWholeRelay config old → OffersFirst config old new → IsWholeRelay config new }
    ensures answer { (config : Config) (old new : RelayShape) → IsWholeRelay config old → AnswersNumbered config old new → IsWholeRelay config new }
    ensures ends { (config : Config) (old new : RelayShape) → IsWholeRelay config old → EndsNumbered config old new → IsWholeRelay config new }
    ensures undone { (config : Config) (old new : RelayShape) → IsWholeRelay config old → UndoesOffer old new → IsWholeRelay config new }
{}

/// Theorem (no run-time code): the legs of an offer are leased in order by the leases that a board made for it, and these are the leases that follow
/// from the legs.
pub fn new_legs_are_leased()
    ensures leased { (of : Call) (old new : Pairs) (legs : List NewLeg) (leases : List Lease) → LeasesLegs old legs leases new →
        LegsLeased old (holders_of_new_legs of leases legs) new }
    ensures follow { (config : Config) (of : Call) (old new : Pairs) (held : List Holder) (legs : List NewLeg) (leases : List Lease) → PoolHolds config old held →
        LeasesLegs old legs leases new → leases ≡ map (leg_lease config) (holders_of_new_legs of leases legs) }
{}

/// Theorem (no run-time code): the same of the call with a number: the leases of its legs that go may be given back, after pairs were leased for an
/// offer of it too, those of all its legs may be when it ends, and those of an offer that is undone.
pub fn numbered_returns()
    ensures gone { (config : Config) (relay : RelayShape) (number : ℕ) (call : LiveShape) (goes : Holder → Bool) (came : List Holder) (between : Pairs) →
        IsWholeRelay config relay → shape_numbered relay.board number ≡ Some call → LegsLeased relay.board.pool came between →
        AreOut between (map (leg_lease config) (filter goes (cell_holders (relay.cells call.cell)))) }
    ensures ended { (config : Config) (relay : RelayShape) (number : ℕ) (call : LiveShape) → IsWholeRelay config relay → shape_numbered relay.board number ≡ Some call →
        AreOut relay.board.pool (map (leg_lease config) (cell_holders (relay.cells call.cell))) }
    ensures undone { (config : Config) (relay : RelayShape) (legs : List NewLeg) (leases : List Lease) (between : Pairs) → IsWholeRelay config relay →
        LeasesLegs relay.board.pool legs leases between → AreOut between leases }
{}

/// Theorem (no run-time code): an offer or an answer that can come to a cell by what the cell keeps can come after each history that the cell stands
/// for, an offer where no key that the history brought since the last end has the number of one of its keys.
pub fn comings_are_for_all<O>()
    ensures offer { (config : Config) (c : cell.Cell O) (h : List CellEntry) (signal : prepared.Prepare O) (call : ℕ) (keys : List NewKey) (dropped : List ℕ) →
        CellFor config c h → OfferComesTo config (cell_shape c) signal keys dropped → HaveNewNumbers (since_end h) keys → CanCome config (since_end h) signal call keys dropped }
    ensures answer { (config : Config) (c : cell.Cell O) (h : List CellEntry) (signal : List SectionSignal) →
        CellFor config c h → AnswerComesTo (cell_shape c) signal → NamesKeys (since_end h) signal }
{}
