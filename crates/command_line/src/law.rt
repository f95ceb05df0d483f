ghost use Rattle.std.specs.Prelude.{◌≡◌, ◌∷◌, [], ℕ, List, None, Some, codes, true};
ghost use Rattle.std.specs.List.{list_all};
ghost use Rattle.command_line.specs.Grammar.{allowed_load, allowed_replay, allowed_serve, is_in_form};
ghost use Rattle.command_line.specs.Words.{task_of};
ghost use Rattle.command_line.specs.declared.settings.LoadSettings.{LoadSettings};
ghost use Rattle.command_line.specs.declared.settings.ReplaySettings.{ReplaySettings};
ghost use Rattle.command_line.specs.declared.settings.Settings.{Settings};

use crate::settings::Task;

/// Theorem (no run-time code): the words that may follow `serve` in the form `--name=value` are not refused, and ask for what their values and the
/// defaults say.
pub fn serve_words_are_taken()
    ensures { (words : List (List ℕ)) (settings : Settings) → allowed_serve words ≡ Some settings → task_of (codes "serve" ∷ words) ≡ Some (Task.Serve settings) }
{}

/// Theorem (no run-time code): the words that may follow `replay` in the form `--name=value` are not refused, and ask for what their values and the
/// defaults say.
pub fn replay_words_are_taken()
    ensures { (words : List (List ℕ)) (settings : ReplaySettings) → allowed_replay words ≡ Some settings → task_of (codes "replay" ∷ words) ≡ Some (Task.Replay settings) }
{}

/// Theorem (no run-time code): the words that may follow `load` in the form `--name=value` are not refused, and ask for what their values and the
/// defaults say.
pub fn load_words_are_taken()
    ensures { (words : List (List ℕ)) (settings : LoadSettings) → allowed_load words ≡ Some settings → task_of (codes "load" ∷ words) ≡ Some (Task.Load settings) }
{}

/// Theorem (no run-time code): of words in the form `--name=value` no others are taken. They are refused where one names no option of the command or two
/// name the same, where a value is none of its option, where `serve` has no interface, and where the range of ports holds no pair. Nothing is said of
/// words with a number behind a plus or a leading zero.
pub fn other_words_are_refused()
    ensures serve { (words : List (List ℕ)) → list_all is_in_form words ≡ true → allowed_serve words ≡ None → task_of (codes "serve" ∷ words) ≡ None }
    ensures replay { (words : List (List ℕ)) → list_all is_in_form words ≡ true → allowed_replay words ≡ None → task_of (codes "replay" ∷ words) ≡ None }
    ensures load { (words : List (List ℕ)) → list_all is_in_form words ≡ true → allowed_load words ≡ None → task_of (codes "load" ∷ words) ≡ None }
{}

/// Theorem (no run-time code): whatever words of `load` are taken, the configuration is the one that `replay` has without words.
pub fn load_takes_the_defaults_of_replay()
    ensures { (words : List (List ℕ)) (load : LoadSettings) → task_of (codes "load" ∷ words) ≡ Some (Task.Load load)
        → (replay : ReplaySettings) × (task_of (codes "replay" ∷ []) ≡ Some (Task.Replay replay)) × (load.config ≡ replay.config) }
{}
