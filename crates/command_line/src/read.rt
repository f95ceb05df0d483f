//! The words of a command line.
ghost use Rattle.std.specs.Prelude.{◌≡◌, ◌≤◌, IfOk, MatchResult, MatchOption, None, Some, map, true, ⊤};
ghost use Rattle.clap.specs.Words.{app_of, found_of, is_simple_and_free, rows_of};
ghost use Rattle.command_line.specs.Refusals.{IsRefused};
ghost use Rattle.command_line.specs.Values.{media_settings, IsInLimits};
ghost use Rattle.command_line.specs.Words.{settings, serve_settings, replay_words, load_words, taken, task_after, task_of, IsTaskInLimits};

use crate::options::{load_command, replay_command, serve_command};
use crate::refusal::{Refusal, refuse, refuse_by, refuse_values};
use crate::settings::{LoadSettings, Media, ReplaySettings, Settings, Task};
use crate::values::{find_load, find_replay, find_settings};
use clap::{ArgMatches, Command};
use std::alloc::Global;

/// The values that words give to the options of a command.
fn parse<'a>(
    alloc: Global,
    command: Command<'a>,
    usage: &[&str],
    words: &'a [&'a str],
) -> Result<ArgMatches<'a>, Refusal>
    requires simple { is_simple_and_free (app_of command) ≡ true }
    ensures { MatchResult result
        (λ matches. taken (app_of command.entry) (map (λ word. word.now) words.entry.now) ≡ Some (rows_of (found_of matches)))
        (IsRefused (taken (app_of command.entry) (map (λ word. word.now) words.entry.now) ≡ None)) }
{
    match command.try_get_matches_from(words) {
        Ok(matches) => Ok(matches),
        Err(error) => Err(refuse_by(alloc, usage, &error)),
    }
}

/// What the words after `serve` say.
fn read_serve<'a>(alloc: Global, words: &'a [&'a str]) -> Result<Settings, Refusal>
    ensures value { MatchResult result
        (λ settings. serve_settings (map (λ word. word.now) words.entry.now) ≡ Some settings)
        (IsRefused (serve_settings (map (λ word. word.now) words.entry.now) ≡ None)) }
    ensures limits { IfOk result (λ settings. IsTaskInLimits (Task.Serve settings)) }
{
    let command = serve_command(alloc)?;
    let usage = ["serve --interface=ADDRESS [--NAME=VALUE]...\n"];
    let matches = parse(alloc, command, usage.as_slice(), words)?;
    match find_settings(&matches) {
        Some(settings) => Ok(settings),
        None => Err(refuse_values(alloc, "serve", &matches)),
    }
}

/// What the words after `replay` say.
fn read_replay<'a>(alloc: Global, words: &'a [&'a str]) -> Result<ReplaySettings, Refusal>
    ensures value { MatchResult result
        (λ settings. replay_words (map (λ word. word.now) words.entry.now) ≡ Some settings)
        (IsRefused (replay_words (map (λ word. word.now) words.entry.now) ≡ None)) }
    ensures limits { IfOk result (λ settings. IsTaskInLimits (Task.Replay settings)) }
{
    let command = replay_command(alloc)?;
    let usage = ["replay [--NAME=VALUE]... <SCRIPT\n"];
    let matches = parse(alloc, command, usage.as_slice(), words)?;
    match find_replay(&matches) {
        Some(settings) => Ok(settings),
        None => Err(refuse_values(alloc, "replay", &matches)),
    }
}

/// What the words after `load` say.
fn read_load<'a>(alloc: Global, words: &'a [&'a str]) -> Result<LoadSettings, Refusal>
    ensures value { MatchResult result
        (λ settings. load_words (map (λ word. word.now) words.entry.now) ≡ Some settings)
        (IsRefused (load_words (map (λ word. word.now) words.entry.now) ≡ None)) }
    ensures limits { IfOk result (λ settings. IsTaskInLimits (Task.Load settings)) }
{
    let command = load_command(alloc)?;
    let usage = ["load [--NAME=VALUE]...\n"];
    let matches = parse(alloc, command, usage.as_slice(), words)?;
    match find_load(&matches) {
        Some(settings) => Ok(settings),
        None => Err(refuse(alloc, usage.as_slice())),
    }
}

/// What the words after a command's name ask for.
fn read_task<'a>(alloc: Global, command: &'a str, options: &'a [&'a str]) -> Result<Task, Refusal>
    ensures value { MatchResult result
        (λ task. task_after command.entry.now (map (λ word. word.now) options.entry.now) ≡ Some task)
        (IsRefused (task_after command.entry.now (map (λ word. word.now) options.entry.now) ≡ None)) }
    ensures limits { IfOk result IsTaskInLimits }
{
    if command == "serve" {
        let settings = read_serve(alloc, options)?;
        return Ok(Task::Serve(settings));
    }
    if command == "replay" {
        let settings = read_replay(alloc, options)?;
        return Ok(Task::Replay(settings));
    }
    if command == "load" {
        let settings = read_load(alloc, options)?;
        return Ok(Task::Load(settings));
    }
    let parts = [
        "serve|replay|load [--NAME=VALUE]...: unknown command '",
        command,
        "', expected serve, replay or load\n",
    ];
    Err(refuse(alloc, parts.as_slice()))
}

/// What the words of a command line ask for, or why they are refused.
pub fn read_words<'a>(alloc: Global, words: &'a [&'a str]) -> Result<Task, Refusal>
    ensures value { MatchResult result
        (λ task. task_of (map (λ word. word.now) words.entry.now) ≡ Some task)
        (IsRefused (task_of (map (λ word. word.now) words.entry.now) ≡ None)) }
    ensures limits { IfOk result IsTaskInLimits }
{
    let Some((command, options)) = words.split_first() else {
        let parts = [
            "serve|replay|load [--NAME=VALUE]..., and --help after a command for its options\n",
        ];
        return Err(refuse(alloc, parts.as_slice()));
    };
    read_task(alloc, *command, options)
}

/// How a run with these words relays media, for those who make its devices; `None` unless they are a valid command line of `serve`, or out of memory.
#[tactic(auto, using(crate::proofs::Pairs::first_port_is_port))]
pub fn read_media<'a>(alloc: Global, words: &'a [&'a str]) -> Option<Media>
    ensures { MatchOption result ⊤ (λ said. media_settings (settings (map (λ word. word.now) words.entry.now)) ≡ Some said) }
{
    match read_words(alloc, words) {
        Ok(Task::Serve(settings)) => Some(Media {
            threads: settings.threads,
            pairs: settings.config.pairs(),
            range_pairs: settings.config.range_pairs() as u16,
            first_port: settings.config.first_port() as u16,
        }),
        _ => None,
    }
}
