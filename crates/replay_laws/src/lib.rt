//! Laws of replays: what a script prints is determined by the script, the configuration and the seed, and by nothing else that happens.
//!
//! Module `law` states it, of whole replays and of one step, and that a script without a fault is played to its end. `specs/Alike.antt` says when
//! two replays are alike between two steps, and what then is the same of what they print and of where they come to; `specs/Faultless.antt`, when
//! a script has no fault. There is nothing to run here, and nothing stands on this crate.
#![tactic(auto)]

mod law;

pub use law::{
    faultless_scripts_are_played, replays_print_one_list, scripts_print_one_text, steps_print_alike,
};
