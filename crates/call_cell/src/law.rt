ghost use Rattle.std.specs.Prelude.{◌≡◌, ℕ, Bool, List, [], map, Option, Some, None, IsSome};
ghost use Rattle.relay_outside.specs.declared.settings.Config.{Config};
ghost use Rattle.histories.specs.Words.{In};
ghost use Rattle.port_pool.specs.declared.signal.SectionSignal.{SectionSignal};
ghost use Rattle.port_pool.specs.Signals.{NewKey};
ghost use Rattle.call_cell.specs.declared.prepare.Prepare.{Prepare};
ghost use Rattle.rtp_packet.specs.declared.head.Half.TheVariants.{Rtp};
ghost use Rattle.port_pool.specs.Ports.{port_address};
ghost use Rattle.call_cell.specs.declared.leg.Leg.{Leg};
ghost use Rattle.call_cell.specs.declared.cell.Cell.{Cell};
ghost use Rattle.call_cell.specs.Shapes.{IsSmall, cell_leg_shapes};
ghost use Rattle.relay_outside.specs.declared.address.Addr.{Addr};
ghost use Rattle.call_cell.specs.declared.saved.CellSaved.{CellSaved};
ghost use Rattle.call_cell.specs.declared.saved.LegSaved.{LegSaved};
ghost use Rattle.call_cell.specs.SavedCells.{SavesCell, AreEmptied};
ghost use Rattle.call_cell.specs.GivenEnds.{HasEndsFor, GivesEnds, ends_with_addresses};
ghost use Rattle.call_cell.specs.TakenEnds.{TakesEnds, leased_address};
ghost use Rattle.call_cell.specs.Cells.{CellEntry, Receipt, Shield, since_end, key_numbered};
ghost use Rattle.call_cell.specs.Protection.{protected};
ghost use Rattle.call_cell.specs.Deeds.{deed};
ghost use Rattle.call_cell.specs.Demands.{CountsBelow};
ghost use Rattle.call_cell.specs.Good.{GoodCell};
ghost use Rattle.call_cell.specs.SignalEntries.{lasting_entries};
ghost use Rattle.call_cell.specs.CellHistories.{CellFor};
ghost use Rattle.call_cell.specs.Commits.{NamesKeys, contexts_due, contexts_due_after};
ghost use Rattle.call_cell.specs.Preparations.{PrepareFor, CanCome, FitsPlaces};

/// Theorem (no run-time code): no packet is protected under an index that an earlier packet of its key, half and source had.
pub fn notes_are_new()
    ensures { (config : Config) (h : List CellEntry) (p : Receipt) (ok : Bool) (s : Shield) → GoodCell config h
        → (deed config h p ok).shield ≡ Some s → In s.note (protected h s.key) → ⊥ }
{}

/// Theorem (no run-time code): the legs that stay in a cell and those that an offer brings find places, where the offer can come.
pub fn legs_find_places<O>()
    ensures { (config : Config) (cell : Cell O) (h : List CellEntry) (signal : Prepare O) (call : ℕ) (keys : List NewKey) (dropped : List ℕ) →
        CellFor config cell h → PrepareFor signal keys dropped → CanCome config (since_end h) signal call keys dropped → FitsPlaces cell signal }
{}

/// Theorem (no run-time code): a cell has at most 16 legs, of sections below 8, and of each the lease has the port of its pair.
pub fn legs_are_few<O>()
    ensures small { (config : Config) (cell : Cell O) (h : List CellEntry) → CellFor config cell h → IsSmall (cell_leg_shapes cell.legs.items) }
    ensures ports { (config : Config) (cell : Cell O) (h : List CellEntry) (leg : Leg O) → CellFor config cell h → In leg cell.legs.items →
        leased_address cell.config leg.lease ≡ port_address config leg.holder.pair Rtp }
{}

/// Theorem (no run-time code): what is saved as a cell was stands for each history for which that stood, once it has its ends, and so
/// does a cell that was loaded; a cell is saved as before its ends were taken, and has none once it gives none.
pub fn saved_cells_stand<O>()
    ensures moves { (config : Config) (a b : Cell O) (saved : CellSaved) (h : List CellEntry) → SavesCell a saved → SavesCell b saved →
        ((leg : Leg O) → In leg b.legs.items → IsSome leg.sending.ends) → CellFor config a h → CellFor config b h }
    ensures taken { (old new : Cell O) (taken : Option (Addr × O × O)) (saved : CellSaved) → TakesEnds old new taken → SavesCell new saved → SavesCell old saved }
    ensures loaded { (config : Config) (old new : Cell O) (saved : CellSaved) (ends left : List (Addr × O × O)) (h : List CellEntry) → SavesCell old saved →
        SavesCell new saved → GivesEnds saved.config new.legs.items ends left → CellFor config old h → CellFor config new h }
    ensures emptied { (old new : Cell O) → TakesEnds old new None → AreEmptied new.legs.items }
{}

/// Theorem (no run-time code): ends that are listed in the order of the legs by their addresses are enough for them, and each leg gets
/// its own of them; and whatever the list was, the ends that a leg got stood there with the address of its port.
pub fn listed_ends_are_given<O>()
    ensures room { (config : Config) (saved : List LegSaved) (those : List (Addr × O × O)) →
        map (λ (e : Addr × O × O). e.0) those ≡ map (λ (leg : LegSaved). leased_address config leg.lease) saved → HasEndsFor config saved those }
    ensures order { (config : Config) (those : List (Leg O)) (ends left : List (Addr × O × O)) →
        map (λ (e : Addr × O × O). e.0) ends ≡ map (λ (leg : Leg O). leased_address config leg.lease) those → GivesEnds config those ends left →
        (ends_with_addresses config those ≡ ends) × (left ≡ []) }
    ensures stood { (config : Config) (those : List (Leg O)) (ends left : List (Addr × O × O)) (leg : Leg O) (own : O × O) → GivesEnds config those ends left →
        In leg those → leg.sending.ends ≡ Some own → In (leased_address config leg.lease, own.0, own.1) ends }
{}

/// Theorem (no run-time code): how many inbound contexts an answer makes in a cell is said by its history.
pub fn contexts_are_counted<O>()
    ensures { (config : Config) (cell : Cell O) (h : List CellEntry) (signal : List SectionSignal) → CellFor config cell h →
        contexts_due signal cell.legs.items ≡ contexts_due_after (since_end h) signal }
{}

/// Theorem (no run-time code): what can come after one history for which a cell stands can come after each other one, where its keys
/// have new numbers there too.
pub fn offers_come_after_each_history<O>()
    ensures { (config : Config) (cell : Cell O) (h k : List CellEntry) (signal : Prepare O) (call : ℕ) (keys : List NewKey) (dropped : List ℕ) →
        CellFor config cell h → CellFor config cell k → CanCome config (since_end h) signal call keys dropped →
        ((key : NewKey) → In key keys → key_numbered (since_end k) key.number ≡ None) → CanCome config (since_end k) signal call keys dropped }
{}

/// Theorem (no run-time code): what names keys of the legs after one history for which a cell stands names keys of them after each
/// other one.
pub fn answers_name_keys_after_each_history<O>()
    ensures { (config : Config) (cell : Cell O) (h k : List CellEntry) (signal : List SectionSignal) →
        CellFor config cell h → CellFor config cell k → NamesKeys (since_end h) signal → NamesKeys (since_end k) signal }
{}

/// Theorem (no run-time code): where the counts are below 2^63 after one history for which a cell stands, they are so after each other
/// one.
pub fn counts_are_below_after_each_history<O>()
    ensures { (config : Config) (cell : Cell O) (h k : List CellEntry) →
        CellFor config cell h → CellFor config cell k → CountsBelow (since_end h) → CountsBelow (since_end k) }
{}

/// Theorem (no run-time code): after two histories with the same offers, answers and ends, whatever packets were relayed between them,
/// the same can come, the same names keys of the legs, and an answer makes as many inbound contexts.
pub fn packets_change_no_condition<O>()
    ensures offers { (config : Config) (h k : List CellEntry) (signal : Prepare O) (call : ℕ) (keys : List NewKey) (dropped : List ℕ) →
        lasting_entries h ≡ lasting_entries k → CanCome config (since_end h) signal call keys dropped → CanCome config (since_end k) signal call keys dropped }
    ensures answers { (h k : List CellEntry) (signal : List SectionSignal) →
        lasting_entries h ≡ lasting_entries k → NamesKeys (since_end h) signal → NamesKeys (since_end k) signal }
    ensures contexts { (h k : List CellEntry) (signal : List SectionSignal) →
        lasting_entries h ≡ lasting_entries k → contexts_due_after (since_end h) signal ≡ contexts_due_after (since_end k) signal }
{}
