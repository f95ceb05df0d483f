//! What the contexts of SRTP and of SRTCP have in common. `Sources` keeps, for at most 32 sources, the indices that were
//! taken or sent under a key, each in a replay window; it stands for a plain list of notes. A `Source` is what looking one up
//! there gave, which the further calls for one packet take. `packet_counter` is the counter with which the keystream of a
//! packet begins. A table and the keys of a session are saved as bytes of one form, and loaded from them.
//!
//! Module `sources` has the table, `counter` the counter, `keys`, `words` and `windows` the saved forms, `parts` how bytes are
//! put together and taken apart, `laws` that saved tables differ; `specs/Notes.antt` says what follows from a list of notes,
//! `specs/Judged.antt` what becomes of a packet, and `specs/SavedSources.antt` how a table is saved.
#![tactic(auto)]

mod counter;
mod keys;
mod laws;
mod parts;
mod sources;
mod windows;
mod words;

pub use counter::packet_counter;
pub use keys::{load_keys, save_keys};
pub use laws::saved_sources_differ;
pub use parts::{part_at, put_part};
pub use sources::{MOST_SOURCES, Source, Sources};
pub use words::{load_words, save_words};
