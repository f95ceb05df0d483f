//! The words of the command line, read by `clap`: what they ask for, or a text that tells how they are written.
//! Each command has its options, with ranges and defaults, in one simple `clap` command; the command's own name, addresses and the
//! range of ports are read here.
#![tactic(auto)]

mod law;
mod numbers;
mod options;
mod read;
mod refusal;
mod settings;
mod values;

pub use law::{
    load_takes_the_defaults_of_replay, load_words_are_taken, other_words_are_refused,
    replay_words_are_taken, serve_words_are_taken,
};
pub use read::{read_media, read_words};
pub use refusal::{Refusal, Usage};
pub use settings::{LoadSettings, Media, ReplaySettings, Settings, Task};
