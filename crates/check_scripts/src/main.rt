//! Plays the scripts of a folder by `relay_app::run` over devices in memory, and tells which of them print another thing than they
//! should. `NAME.script` is a script, and `NAME.out` what it prints (docs/SCRIPTS.md). The folder is the first word, or else `data` where
//! there is one, or else the one that the program runs in, as in `rt ci`. It ends well only where there are scripts and none differs.
#![tactic(auto)]

mod difference;
mod names;
mod playback;

use crate::difference::Difference;
use crate::names::read_names;
use crate::playback::play;
use std::process::ExitCode;
use std::rt::Files;
use std::sync::Wait;
use std::thread::Threads;
use std::{env, fs, io};

/// Reads a script of this folder and what it prints, and plays it.
fn check<R: Threads + Wait + Sync + Files + AllocGlobal>(
    rt: &R,
    folder: &str,
    name: &str,
) -> Result<(), Difference> {
    let alloc = rt.alloc();
    let Ok(script) = fs::read_to_string(rt, format!(in alloc; "{folder}/{name}.script")?) else {
        return Err(Difference::NoScript);
    };
    let Ok(prints) = fs::read_to_string(rt, format!(in alloc; "{folder}/{name}.out")?) else {
        return Err(Difference::NoPrints);
    };
    play(rt, alloc, script.as_str(), prints.as_str())
}

fn main(rt: HostRuntime) -> io::Result<ExitCode> {
    let word = env::args(&rt)?.nth(1);
    let home = if fs::exists(&rt, "data")? {
        "data"
    } else {
        "."
    };
    let folder = word.as_ref().map_or(home, |word| word.as_str());
    let names = read_names(&rt, folder)?;
    let mut differing = 0u64;
    for name in &names {
        if let Err(difference) = check(&rt, folder, name.as_str()) {
            println!(rt; "{name}: {difference}")?;
            differing = differing.saturating_add(1);
        }
    }
    println!(rt; "{} scripts, {differing} differ", names.len())?;
    if names.is_empty() || differing > 0 {
        return Ok(ExitCode::FAILURE);
    }
    Ok(ExitCode::SUCCESS)
}
