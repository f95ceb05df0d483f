//! The calls that a control turn made of the port maker and of the key source.
ghost use Rattle.std.specs.Prelude.{◌≡◌, ℕ, List, [], ◌∷◌, IsTrue, Some, drop, length};
ghost use Rattle.relay_outside.specs.declared.keys.KeyCall.{KeyCall};
ghost use Rattle.relay_outside.specs.declared.ports.PortCall.{PortCall};
ghost use Rattle.relay_outside.specs.declared.settings.Config.{Config};
ghost use Rattle.replay_devices.specs.Watch.{NotesDraw};
ghost use Rattle.replay_steps.specs.Steps.{OpensAsked, DrawsAsked};
ghost use Rattle.replay_steps.specs.WatchNotes.{Watches, WatchesTurn};

use crate::ends::find_end;
use call_cell::LocalPort;
use relay_outside::{Config, KeyAndSalt, KeyCall, PortCall};
use relay_script::FailKind;
use replay_devices::{ReplayKeys, ReplayPorts, Watch};

/// Notes a call of the port maker, and says whether it failed just where it had to, and was of an end of a pair.
fn note_opening(watch: &mut Watch, config: &Config, call: &PortCall) -> bool
    ensures { IsTrue result → (seed : ℕ) → Watches config.now seed watch.old watch.new (OpensAsked config.now (call.now ∷ [])) }
{
    match call {
        PortCall::Open { at, done } => {
            let failing = watch.fails(FailKind::Open);
            let opened = LocalPort {
                family: at.ip.family(),
                port: at.port,
            };
            watch.opened(opened, *done);
            if *done == failing {
                return false;
            }
            find_end(config, at.port, at.ip).is_some()
        }
        PortCall::Close { .. } => true,
    }
}

/// Notes calls of the port maker, in order, and says whether each failed just where it had to.
fn note_openings(watch: &mut Watch, config: &Config, calls: &[PortCall]) -> bool
    ensures { IsTrue result → (seed : ℕ) → Watches config.now seed watch.old watch.new (OpensAsked config.now calls.now) }
{
    for call in calls {
        if !note_opening(watch, config, call) {
            return false;
        }
    }
    true
}

/// Notes a draw that gave a key, and says whether that is the key that was due.
fn note_key(watch: &mut Watch, key: KeyAndSalt) -> bool
    ensures { IsTrue result → (config : Config) (seed : ℕ) → NotesDraw config seed watch.old watch.new key }
{
    match watch.drew() {
        Some(due) => due == key,
        None => false,
    }
}

/// Notes a draw, and says whether it failed just where it had to, and else gave the key that was due.
fn note_draw(watch: &mut Watch, call: &KeyCall) -> bool
    ensures { IsTrue result → (config : Config) (seed : ℕ) → Watches config seed watch.old watch.new (DrawsAsked seed (call.now ∷ [])) }
{
    let failing = watch.fails(FailKind::Draw);
    match call {
        KeyCall::Drawn { key } => !failing && note_key(watch, *key),
        KeyCall::Failed => {
            watch.failed_to_draw();
            failing
        }
    }
}

/// Notes draws, in order, and says whether each failed just where it had to, and else gave the key that was due.
fn note_draws(watch: &mut Watch, calls: &[KeyCall]) -> bool
    ensures { IsTrue result → (config : Config) (seed : ℕ) → Watches config seed watch.old watch.new (DrawsAsked seed calls.now) }
{
    for call in calls {
        if !note_draw(watch, call) {
            return false;
        }
    }
    true
}

/// The calls after the first this many.
fn behind<C>(calls: &[C], count: usize) -> &[C]
    ensures { result.now ≡ drop count calls.now }
{
    if count < calls.len() {
        &calls[count..]
    } else {
        &calls[calls.len()..]
    }
}

/// How many calls the port maker tells.
pub(crate) fn count_openings(ports: &ReplayPorts<'_>) -> usize
    ensures { (calls : List PortCall) → ports.now.log ≡ Some calls → result ≡ length calls }
{
    match ports.calls() {
        Some(calls) => calls.len(),
        None => 0,
    }
}

/// How many draws the key source tells.
pub(crate) fn count_draws(keys: &ReplayKeys<'_>) -> usize
    ensures { (calls : List KeyCall) → keys.now.log ≡ Some calls → result ≡ length calls }
{
    match keys.calls() {
        Some(calls) => calls.len(),
        None => 0,
    }
}

/// Notes the calls of the port maker and of the key source after the first this many, and says whether both tell them, whether each
/// call failed just where it had to, and whether each draw gave the key that was due.
pub(crate) fn note_calls(
    watch: &mut Watch,
    config: &Config,
    ports: &ReplayPorts<'_>,
    opened: usize,
    keys: &ReplayKeys<'_>,
    drawn: usize,
) -> bool
    ensures { IsTrue result → (seed : ℕ) → WatchesTurn config.now seed ports.now.log opened keys.now.log drawn watch.old watch.new }
{
    let Some(openings) = ports.calls() else {
        return false;
    };
    let Some(draws) = keys.calls() else {
        return false;
    };
    if !note_openings(watch, config, behind(openings, opened)) {
        return false;
    }
    note_draws(watch, behind(draws, drawn))
}
