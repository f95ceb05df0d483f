ghost use Rattle.std.specs.Prelude.{◌≡◌, ℕ, List, ◌++◌, Some};
ghost use Rattle.relay_outside.specs.declared.settings.Config.{Config};
ghost use Rattle.relay_script.specs.EventLines.{Printed};
ghost use Rattle.relay_script.specs.Steps.{Step};
ghost use Rattle.replay_steps.specs.Steps.{Course, at_first, Makes, IsFaulty, Plays, Stops};
ghost use Rattle.relay_outside.specs.declared.lines.LineCall.{LineCall};
ghost use Rattle.relay_outside.specs.declared.lines.WriteCall.{WriteCall};
ghost use Rattle.replay_devices.specs.declared.script.Ending.{Ending};
ghost use Rattle.replay_devices.specs.Scripts.{ReadsScript};
ghost use Rattle.replay_steps.specs.declared.ended.Ended.{Ended};
ghost use Rattle.replay_steps.specs.declared.ended.Ended.TheVariants.{Finished, PrintFault};
ghost use Rattle.replay_steps.specs.Output.{Replays};
ghost use Rattle.replay_laws.specs.Alike.{Alike, NeverOutOfMemory, TellsReports, GoesAlike, IsWrittenOut, NoReplyIsE17, WritesOut, SaysTheSame, BreaksOff};
ghost use Rattle.replay_laws.specs.Faultless.{IsFaultless, EndsFaultless};

/// Theorem (no run-time code): two replays of the same steps, in one configuration and with one seed, print the same list, event by event,
/// whatever else goes on. After the steps of each comes a stop, as the program makes it, so that its entries begin a legal list; and no control
/// turn answers that memory ran out (E17). So each reply, byte for byte, what becomes of each packet with the bytes that are sent, and how many calls a tick ends
/// follow from the script, the configuration and the seed alone. And where a further step can't be made in the one, as a packet is not held, or
/// too many are, it can't be made in the other.
///
/// So two replays of one script whose reading ended the same, and of which each wrote all that it had to write, end the same and write the same text:
/// they finish, or the script could not be read further, or a line was at fault. And of two of which the one wrote all and the other ended since a line
/// could not be written, the latter wrote the front of what the former did, and failed at the next line of it.
pub fn replays_print_one_list()
    ensures prints { (config : Config) (seed : ℕ) (steps : List Step) (first second : List Printed) (left right : Course) →
        Plays config seed steps at_first first left → Plays config seed steps at_first second right → Stops config left.entries → Stops config right.entries →
        NeverOutOfMemory left.entries → NeverOutOfMemory right.entries → first ≡ second }
    ensures texts { (config : Config) (seed : ℕ) (steps : List Step) (how : Ending) (end other : Ended) (first second : List WriteCall) → IsWrittenOut end → IsWrittenOut other →
        WritesOut config seed steps how end first → WritesOut config seed steps how other second → SaysTheSame end other first second }
    ensures broken { (config : Config) (seed : ℕ) (steps : List Step) (how : Ending) (other : Ended) (first second : List WriteCall) → IsWrittenOut other →
        WritesOut config seed steps how PrintFault first → WritesOut config seed steps how other second → BreaksOff first second }
    ensures faults { (config : Config) (seed : ℕ) (steps : List Step) (first second : List Printed) (left right : Course) (step : Step) →
        Plays config seed steps at_first first left → Plays config seed steps at_first second right → Stops config left.entries → Stops config right.entries →
        NeverOutOfMemory left.entries → NeverOutOfMemory right.entries → IsFaulty left step → IsFaulty right step }
{}

/// Theorem (no run-time code): two replays of one script, in one configuration and with one seed, write one text. It speaks of two replays as the
/// contract of each says what it did (`Replays`, which `relay_app::run` has of every run of `replay`): their sources tell, and gave the same to both;
/// their sinks tell what was written. No reply is E17, want of memory, in either text, and each reply is shown in it, so that no line says that one could
/// not be sent. Where a script has replies fail, the lists of the two replays tell it instead (`replays_print_one_list`, `texts` and `broken`).
///
/// Where both wrote all that they had to write, the texts are the same, and so is how they ended. Where the one ended since a line could not be
/// written, what it wrote before is the front of the other's text, and that line is the next of it.
pub fn scripts_print_one_text()
    ensures same { (config : Config) (seed : ℕ) (end other : Ended) (before earlier calls : List LineCall) (old older first second : List WriteCall) →
        IsWrittenOut end → IsWrittenOut other → NoReplyIsE17 first → NoReplyIsE17 second →
        Replays config seed end (Some before) (Some (before ++ calls)) (Some old) (Some (old ++ first)) →
        Replays config seed other (Some earlier) (Some (earlier ++ calls)) (Some older) (Some (older ++ second)) → SaysTheSame end other first second }
    ensures broken { (config : Config) (seed : ℕ) (other : Ended) (before earlier calls : List LineCall) (old older first second : List WriteCall) →
        IsWrittenOut other → NoReplyIsE17 first → NoReplyIsE17 second →
        Replays config seed PrintFault (Some before) (Some (before ++ calls)) (Some old) (Some (old ++ first)) →
        Replays config seed other (Some earlier) (Some (earlier ++ calls)) (Some older) (Some (older ++ second)) → BreaksOff first second }
{}

/// Theorem (no run-time code): two replays that are alike print the same for one more step, any step, made at both, and reach the same moment,
/// the same happenings and the same packets held. So what a step prints follows from the board's history, the histories of the cells, who holds
/// which box, the packets that are held, the clock, and what happened before.
///
/// It holds for one step, whatever came before, and whatever numbers the entries have. No turn of either answers that memory ran out, and what either's list
/// tells of a call's report is what its cell's history demands.
pub fn steps_print_alike()
    ensures { (config : Config) (seed : ℕ) (r s : Course) (step : Step) (first second : List Printed) (left right : Course) → Alike config r s →
        Makes config seed r step first left → Makes config seed s step second right →
        NeverOutOfMemory left.entries → NeverOutOfMemory right.entries → TellsReports config left.entries → TellsReports config right.entries →
        GoesAlike first second left right }
{}

/// Theorem (no run-time code): a replay of a script without a fault finishes, where no call of the script's source and no write fails, unless memory
/// runs out: for the replay, or as the reply (E17) to a control datagram before a step that can't be made then says. The script is what its source tells that it gave. It is
/// without a fault (`IsFaultless`) where all its lines are of the grammar, and are no more than a script may have, and where each step can be made
/// whenever those before it were made and no turn answered that memory ran out: a `relay` names a packet that is held, and no `take` holds one too many.
///
/// One replay tells it: a script of which one finished, and no turn of that answered that memory ran out, has no fault.
pub fn faultless_scripts_are_played()
    ensures ends { (config : Config) (seed : ℕ) (steps : List Step) (how : Ending) (end : Ended) (before calls : List LineCall) (old writes : List WriteCall) →
        ReadsScript steps how calls → IsFaultless config seed steps how →
        Replays config seed end (Some before) (Some (before ++ calls)) (Some old) (Some (old ++ writes)) →
        EndsFaultless config seed steps how end writes }
    ensures tried { (config : Config) (seed : ℕ) (steps : List Step) (how : Ending) (writes : List WriteCall) →
        WritesOut config seed steps how Finished writes → IsFaultless config seed steps how }
{}
