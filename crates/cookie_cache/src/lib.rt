//! The first replies to the commands of the ng control protocol, kept so that a command that comes again under its
//! cookie gets its first reply and is not executed again. A `CookieCache` stands for the list of all replies that were
//! given to it; it answers from the last 4,096 of them, for less than a minute each, and never by a clock that goes back.
//!
//! Module `cache` has the cache, `kept_reply` one reply in it, `key` the bytes under which it is found, `saved` a cache as a value with
//! public fields, `law` laws about which reply is found and about what is loaded; `specs/Keepings.antt` names that reply, `specs/Latest.antt` says what it is as a relation, and
//! `specs/Entries.antt` which entries the cache has.
#![tactic(auto)]

mod cache;
mod kept_reply;
mod key;
mod law;
mod saved;

pub use cache::CookieCache;
pub use kept_reply::KeptReply;
pub use law::{cache_moves, kept_is_latest};
pub use saved::{CacheSaved, SavedReply};
