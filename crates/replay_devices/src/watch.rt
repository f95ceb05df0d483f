ghost use Rattle.std.specs.Prelude.{◌≡◌, ◌≤◌, ◌-◌, ◌^◌, ℕ, Bool, false, None, List, [], IfOk, IfSome, OnOk};
ghost use Rattle.relay_outside.specs.declared.settings.Config.{Config};
ghost use Rattle.relay_script.specs.Steps.{step_meaning};
ghost use Rattle.rtp_packet.specs.declared.head.Half.{Half};
ghost use Rattle.port_pool.specs.Ports.{pair_family, half_port};
ghost use Rattle.replay_devices.specs.Steps as model;
ghost use Rattle.replay_devices.specs.Devices.{Happening, Made, Opened, Drew, Replied, Sent, fails, send_fails, unused, streamed};
ghost use Rattle.replay_devices.specs.Watch.{WatchStandsFor, Notes, NotesDraw, model_kind, step_of};

use crate::countdowns::Countdowns;
use crate::due::KeysDue;
use crate::failures::SendFailures;
use call_cell::LocalPort;
use relay_outside::{KeyAndSalt, OutOfMemory};
use relay_script::{FailKind, Step};
use std::alloc::Global;
use std::marker::Model;

/// What a replay expects of its devices: which of their next calls the lines made so far ask to fail, and which keys its draws give.
/// Whoever makes the calls notes each line and each call here, and can say of a call whether it had to fail.
///
/// Contracts see, for each kind of call, the numbers of the calls to fail from now on, and the keys that are due.
#[derive(Drop)]
pub struct Watch {
    opens: Countdowns,
    draws: Countdowns,
    takes: Countdowns,
    reads: Countdowns,
    replies: Countdowns,
    sends: SendFailures,
    keys: KeysDue,
}

impl Model for Watch {
    ghost use Rattle.replay_devices.specs.Watch.{WatchState};

    ghost Value = { WatchState };

    ghost view = { λ watch. record { opens = watch.opens.list; draws = watch.draws.list; takes = watch.takes.list; reads = watch.reads.list; replies = watch.replies.list; sends = watch.sends; keys = watch.keys } };
}

impl Watch {
    /// Before the first line, with keys of that seed after those of the lines.
    pub fn new(alloc: Global, seed: u64) -> Result<Watch, OutOfMemory>
        ensures { IfOk result (λ watch. (config : Config) → WatchStandsFor config seed [] watch) }
    {
        Ok(Watch {
            opens: Countdowns::with_room(alloc, 0)?,
            draws: Countdowns::with_room(alloc, 0)?,
            takes: Countdowns::with_room(alloc, 0)?,
            reads: Countdowns::with_room(alloc, 0)?,
            replies: Countdowns::with_room(alloc, 0)?,
            sends: SendFailures::new(alloc),
            keys: KeysDue::new(alloc, seed),
        })
    }

    /// Whether the next call of a kind has to fail: for a line `ng` the take of the link, for a line `take` or `packet` the take at its
    /// port, where that is open.
    pub fn fails(&self, kind: FailKind) -> bool
        ensures { (config : Config) (seed : ℕ) (past : List Happening) → WatchStandsFor config seed past self.now → result ≡ fails (model_kind kind) past }
    {
        match kind {
            FailKind::Open => self.opens.next_fails(),
            FailKind::Draw => self.draws.next_fails(),
            FailKind::Take => self.takes.next_fails(),
            FailKind::Read => self.reads.next_fails(),
            FailKind::Reply => self.replies.next_fails(),
        }
    }

    /// Whether the next send by the end of a port has to fail.
    pub fn send_fails(&self, at: LocalPort) -> bool
        ensures { (config : Config) (seed : ℕ) (past : List Happening) (pair : ℕ) (half : Half) → pair_family config pair ≡ at.family → half_port config pair half ≡ at.port → WatchStandsFor config seed past self.now → result ≡ send_fails config past pair half }
    {
        self.sends.next_fails(at)
    }

    /// A port was opened, or its opening failed.
    pub fn opened(&mut self, at: LocalPort, done: bool)
        ensures { (config : Config) (seed pair : ℕ) (half : Half) → pair_family config pair ≡ at.family → half_port config pair half ≡ at.port → Notes config seed self.old self.new (Opened pair half done) }
    {
        self.opens.count_call();
        if done {
            self.sends.opened(at);
        }
    }

    /// A key was drawn, which has to be the one that is returned. `None`: 2^64 - 1 keys of the seed's stream were drawn.
    pub fn drew(&mut self) -> Option<KeyAndSalt>
        ensures drew { IfSome result (λ key. (config : Config) (seed : ℕ) → NotesDraw config seed self.old self.new key) }
        ensures spent { result ≡ None → (config : Config) (seed : ℕ) (past : List Happening) → WatchStandsFor config seed past self.old → (unused past ≡ []) × (2 ^ 64 - 1 ≤ streamed past) }
    {
        self.draws.count_call();
        self.keys.draw()
    }

    /// A draw failed.
    pub fn failed_to_draw(&mut self)
        ensures { (config : Config) (seed : ℕ) → Notes config seed self.old self.new (Drew false) }
    {
        self.draws.count_call();
    }

    /// A reply was sent, or its send failed.
    pub fn replied(&mut self)
        ensures { (config : Config) (seed : ℕ) (done : Bool) → Notes config seed self.old self.new (Replied done) }
    {
        self.replies.count_call();
    }

    /// A packet was sent by the end of a port, or its send failed.
    pub fn sent(&mut self, at: LocalPort)
        ensures { (config : Config) (seed pair : ℕ) (half : Half) (done : Bool) → pair_family config pair ≡ at.family → half_port config pair half ≡ at.port → Notes config seed self.old self.new (Sent pair half done) }
    {
        self.sends.sent(at);
    }

    /// The call of a number of this kind, from now, has to fail.
    fn ask(&mut self, kind: FailKind, number: u32) -> Result<(), OutOfMemory>
        ensures { OnOk result ((config : Config) (seed : ℕ) → Notes config seed self.old self.new (Made (model.Fail (model_kind kind) number))) }
    {
        match kind {
            FailKind::Open => self.opens.add(number),
            FailKind::Draw => self.draws.add(number),
            FailKind::Take => self.takes.add(number),
            FailKind::Read => self.reads.add(number),
            FailKind::Reply => self.replies.add(number),
        }
    }

    /// The step of a line was made.
    pub fn made(&mut self, step: &Step) -> Result<(), OutOfMemory>
        ensures { OnOk result ((config : Config) (seed : ℕ) → Notes config seed self.old self.new (Made (step_of (step_meaning step.now)))) }
    {
        match step {
            Step::Fail(kind, number) => return self.ask(*kind, *number),
            Step::FailSend(port, number) => return self.sends.add(*port, *number),
            Step::Key(key) => return self.keys.add(*key),
            Step::Ng(_, _) => self.reads.count_call(),
            Step::Take(_, _, _) | Step::Packet(_, _, _) => self.takes.count_call(),
            _ => {}
        }
        Ok(())
    }
}
