ghost use Rattle.std.specs.Prelude.{◌≡◌, ◌⊎◌, ℕ, Bool, true, List, None, Option};
ghost use Rattle.relay_outside.specs.declared.address.Addr.{Addr};
ghost use Rattle.relay_outside.specs.declared.keys.KeyCall.{KeyCall};
ghost use Rattle.relay_outside.specs.declared.ports.PortCall.{PortCall};
ghost use Rattle.relay_outside.specs.declared.settings.Config.{Config};
ghost use Rattle.relay_outside.specs.DeviceLogs.{Rose};
ghost use Rattle.port_pool.specs.declared.reports.LegReport.{LegReport};
ghost use Rattle.call_board.specs.Acts.{BoardEntry, Control};
ghost use Rattle.call_board.specs.Fits.{FitsControl};
ghost use Rattle.call_board.specs.KeptReplies.{kept_reply};
ghost use Rattle.board_turns.specs.Controls.{RequestRecord, control_of, entry_pairs};
ghost use Rattle.board_turns.specs.DeviceAnswers.{IsGivenBy};
ghost use Rattle.call_cell.specs.declared.outcome.LocalPort.{LocalPort};
ghost use Rattle.call_cell.specs.declared.outcome.Lost.TheVariants.{SendFault};
ghost use Rattle.call_cell.specs.declared.outcome.Outcome.{Outcome};
ghost use Rattle.call_cell.specs.declared.outcome.Outcome.TheVariants.{Sent, Lost};
ghost use Rattle.call_cell.specs.Cells.{CellEntry, Receipt};
ghost use Rattle.call_cell.specs.Deeds.{deed};
ghost use Rattle.call_cell.specs.LegHistories.{sent_ok};
ghost use Rattle.ng_bencode.specs.Tree.{Entries};
ghost use Rattle.board_laws.specs.Alike.{AreOfOne, GiveAlike, HasMemory, AreOne, GivenBy, SayAlike, AreOneInBoth};
ghost use Rattle.board_laws.specs.Answers.{FailsNowhere, IsAnswered};
ghost use Rattle.board_laws.specs.Due.{IsSentOnce};

/// Theorem (no run-time code): after one history of the board, at one moment, two turns of one datagram (the same source, cookie and
/// body) that don't run out of memory are the same. Both give the same reply and do the same, and the devices returned the same in both:
/// where they returned the same to both as far as both called them, or where their results follow one rule, by the number of earlier calls.
///
/// So how many ports a turn opens and how many keys it draws, in which order, follows from the history, the datagram and the results. What
/// is recorded of a body that nobody read, and of crypto lines that nobody chose, may differ: it decides nothing.
pub fn answers_are_one()
    ensures alike { (config : Config) (h : List BoardEntry) (now : ℕ) (c d : Control) → FitsControl config h now c → FitsControl config h now d →
        AreOfOne c d → HasMemory c → HasMemory d → GiveAlike c d → AreOne c d }
    ensures ruled { (config : Config) (h : List BoardEntry) (now : ℕ) (c d : Control) (opening : ℕ → Bool) (drawing : ℕ → KeyCall) (report : List LegReport) →
        FitsControl config h now c → FitsControl config h now d → AreOfOne c d → HasMemory c → HasMemory d →
        GivenBy opening drawing report c.given → GivenBy opening drawing report d.given → AreOne c d }
{}

/// Theorem (no run-time code): after one history of the board, at one moment, a datagram in bencode and one in JSON that say the same, for
/// neither of which a reply is kept, and that don't run out of memory, do the same, owe the same nested entries and get one value as their
/// reply: spelled in bencode to the one, written as JSON to the other. That holds where the devices returned the same to both as far as both
/// called them.
pub fn dialects_are_one()
    ensures { (config : Config) (h : List BoardEntry) (now : ℕ) (pairs : Entries) (c d : Control) → FitsControl config h now c → FitsControl config h now d →
        SayAlike h now pairs c d → HasMemory c → HasMemory d → GiveAlike c d → AreOneInBoth config h now c d }
{}

/// Theorem (no run-time code): a datagram with a frame, for which no reply is kept, is answered: where memory did not run out, and no port and no
/// key failed, with the success that is due, or with one of the errors that come before the devices (E1 to E14 and E18 to E20, so no E15, E16 or E17),
/// which it would get whatever these return; and where memory ran out with the error that says so (E17).
///
/// A port or a key can have failed only where a count of faults rose: `counted` says it so, of a turn whose entry says what the devices told.
/// When each error comes, and which success is due, is what `answering` says (`call_board/specs/Answers.antt`).
pub fn framed_datagrams_are_answered()
    ensures answered { (config : Config) (h : List BoardEntry) (now : ℕ) (c : Control) → FitsControl config h now c → kept_reply h c.source c.cookie now ≡ None →
        FailsNowhere c.given → IsAnswered config h c }
    ensures counted { (config : Config) (h : List BoardEntry) (moment : ℕ) (x : RequestRecord) (ports ports_now keys keys_now : ℕ)
        (opened opened_now : Option (List PortCall)) (drew drew_now : Option (List KeyCall)) → kept_reply h x.source x.cookie moment ≡ None →
        IsGivenBy config (entry_pairs config h moment x) x.given ports ports_now keys keys_now opened opened_now drew drew_now →
        (Rose ports ports_now → ⊥) → (Rose keys keys_now → ⊥) → IsAnswered config h (control_of config h moment x) }
{}

/// Theorem (no run-time code): a packet whose relay is to be `Sent`, where its send returns Ok, is sent once: the relay makes that send, whatever
/// it answers, and does the same but for its outcome. So what a relay of it returns is `Sent`, or `SendFault` of the port that it was to leave by,
/// and that only where the send failed. No memory is needed for it.
///
/// `relayed` says it of what `Cell::relay` and each relay of a lane promise of their outcome (`CellRelays`, `call_cell/specs/CellHistories.antt`).
pub fn due_packets_are_sent()
    ensures once { (config : Config) (h : List CellEntry) (p : Receipt) (from : LocalPort) (to : Addr) (len : ℕ) →
        (deed config h p true).outcome ≡ Sent from.family from.port to len → IsSentOnce config h p from to len }
    ensures relayed { (config : Config) (h : List CellEntry) (p : Receipt) (from : LocalPort) (to : Addr) (len : ℕ) (result : Outcome) →
        (deed config h p true).outcome ≡ Sent from.family from.port to len → result ≡ (deed config h p (sent_ok result)).outcome →
        (result ≡ Sent from.family from.port to len) ⊎ (result ≡ Lost (SendFault from.family from.port)) }
{}
