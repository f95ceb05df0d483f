//! The whole relay as one list of entries: each is one step of one place, which is the board, a call's cell or the box of a
//! port pair. A list is legal where each entry is the one that the history of its place demands; a legal list is safe.
//!
//! Module `laws` states that. `specs/Entries.antt` has the entries and the histories of places, `specs/Scripts.antt` what an entry of the board owes,
//! `specs/Legal.antt` when a list is legal, `specs/Safe.antt` what is then promised, `specs/WholeCalls.antt` what the list has that
//! shows that legal lists exist.
//!
//! `part` is what a place holds, `first_places` what the places hold at first, and `machine` says which steps of the turn table the
//! events are (`specs/Records.antt`, `Steps.antt`). `table_close` closes the table: the list of the hand that closes it is legal.
//! `specs/PlaceHistories.antt` says for which history a state stands, `specs/Turns.antt` what a hand's list gains, `specs/Joins.antt`
//! and `NestedMoments.antt` what holds of the lists of hands that are joined. `specs/Continued.antt` says what a list is that goes on
//! from an earlier one, as that of a node does which read what another one had left.
#![tactic(auto)]

mod first_places;
mod laws;
mod machine;
mod part;
mod table_close;

pub use first_places::parts;
pub use laws::{
    a_legal_list_exists, cells_are_apart, joined_lists_are_sound, legal_is_safe, lists_go_on,
    orderly_is_safe,
};
pub use machine::{Happening, Relay, Says, Told};
pub use part::Part;
pub use table_close::close_relay;
