ghost use Rattle.std.specs.Prelude.{◌≡◌, ◌⊎◌, ℕ, Option, Some, None, List, ◌∷◌, ◌++◌};
ghost use Rattle.relay_outside.specs.declared.lines.WriteCall.{WriteCall};
ghost use Rattle.relay_outside.specs.declared.link.LinkCall.{LinkCall};
ghost use Rattle.relay_outside.specs.DeviceLogs.{Rose};
ghost use Rattle.call_board.specs.KeptReplies.{kept_reply};
ghost use Rattle.board_turns.specs.Controls.{RequestRecord};
ghost use Rattle.board_laws.specs.Answers.{IsAnswered};
ghost use Rattle.command_line.specs.declared.settings.LoadSettings.{LoadSettings};
ghost use Rattle.command_line.specs.declared.settings.Settings.{Settings};
ghost use Rattle.media_lane.specs.declared.answers.Totals.{Totals};
ghost use Rattle.relay_runs.specs.declared.status.Status.{Status};
ghost use Rattle.relay_runs.specs.declared.status.Status.TheVariants as status;
ghost use Rattle.relay_runs.specs.Loads.{RunsLoad};
ghost use Rattle.relay_runs.specs.Rounds.{ControlRound, history_after};
ghost use Rattle.relay_runs.specs.Run.{Serves, DidRun};
ghost use Rattle.relay_runs.specs.ServeRuns.{Outside};
ghost use Rattle.run_laws.specs.Answers.{moment_in, turn_in};
ghost use Rattle.run_laws.specs.Causes.{ReachesEnd, IsCausedBy, WritesFailed};
ghost use Rattle.run_laws.specs.LoadEnds.{HasEndsBy, AreBeforeEnds};

use relay_outside::Gate;

/// Theorem (no run-time code): a run of `serve` whose control link told its calls, and found its end in one of its takes, ends with Ok, or with
/// PrintFault; and with PrintFault, where the sink told its writes, one of them failed. So where none fails the run ends with Ok.
///
/// Every other status has its cause among the link's calls too (`IsCausedBy`): ControlFault only where the bind or a take failed, TurnsSpent only after
/// as many takes as the words allow, none of which found the end, and OutOfMemory only before the first call. What a run says of itself is `Serves`, a
/// clause of `run`; its words are those of `serve`.
pub fn serve_ends_with_its_link<G: Gate>()
    ensures ended { (settings : Settings) (range : Option (ℕ × ℕ)) (gate : G) (outside : Outside) (wrote wrote_now : Option (List WriteCall)) (answer : Status)
        (before calls : List LinkCall) → Serves (Some settings) range (G.passed gate) outside wrote wrote_now answer → outside.link ≡ Some before →
        outside.link_now ≡ Some (before ++ calls) → ReachesEnd calls → (answer ≡ status.Ok) ⊎ (answer ≡ status.PrintFault) }
    ensures caused { (settings : Settings) (range : Option (ℕ × ℕ)) (gate : G) (outside : Outside) (wrote wrote_now : Option (List WriteCall)) (answer : Status)
        (before calls : List LinkCall) → Serves (Some settings) range (G.passed gate) outside wrote wrote_now answer → outside.link ≡ Some before →
        outside.link_now ≡ Some (before ++ calls) → IsCausedBy settings calls answer }
    ensures unwritten { (settings : Settings) (range : Option (ℕ × ℕ)) (gate : G) (outside : Outside) (before writes : List WriteCall) →
        Serves (Some settings) range (G.passed gate) outside (Some before) (Some (before ++ writes)) status.PrintFault → WritesFailed writes }
{}

/// Theorem (no run-time code): in a run of `serve` in which neither the port maker's count of faults rose nor the key source's, each datagram with a frame,
/// for which no reply was kept, was answered (`IsAnswered`, as `board_laws::framed_datagrams_are_answered` says it): with the success that is due; or with
/// an error that comes before the devices; or, where memory had run out, with the error that says so.
///
/// The datagram is that of a round, and the history is that of the rounds before it. Where the link tells, its reply was sent to its source (`Serves`).
pub fn datagrams_of_a_run_are_answered<G: Gate>()
    ensures { (settings : Settings) (range : Option (ℕ × ℕ)) (gate : G) (outside : Outside) (wrote wrote_now : Option (List WriteCall)) (answer : Status)
        (run : DidRun settings range (G.passed gate) outside wrote wrote_now answer) (later earlier : List ControlRound) (r : ControlRound) (x : RequestRecord) →
        run.did.rounds ≡ later ++ r ∷ earlier → r.heard ≡ Some x →
        kept_reply (history_after settings.config earlier) x.source x.cookie (moment_in settings.config earlier r) ≡ None →
        (Rose outside.port_faults outside.port_faults_now → ⊥) → (Rose outside.key_faults outside.key_faults_now → ⊥) →
        IsAnswered settings.config (history_after settings.config earlier) (turn_in settings.config earlier r x) }
{}

/// Theorem (no run-time code): in a run of `load` each relay stands at its cell before every End of that cell, as their numbers there say; for each
/// End belongs to the entry of the board that is the stop, so that no call ends before it.
///
/// No datagram of a load is a delete, since each is an offer or an answer by its text (`TellsLoad`); and no tick is made, since each moment is 0. What
/// a run says of itself is `RunsLoad`, of which `loads`, a clause of `run`, speaks; that each relay stands after every Commit is its `ordered`.
pub fn relays_of_a_load_stand_before_its_ends<G: Gate>()
    ensures before_ends { (settings : LoadSettings) (gate : G) (totals : Totals) (runs : RunsLoad settings (G.passed gate) totals) →
        AreBeforeEnds runs.did.whole.list }
    ensures by_stop { (settings : LoadSettings) (gate : G) (totals : Totals) (runs : RunsLoad settings (G.passed gate) totals) →
        HasEndsBy runs.did.whole.list runs.did.whole.is_stop.last.number }
{}
