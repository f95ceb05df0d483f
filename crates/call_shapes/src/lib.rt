//! When what a board keeps of its live calls, what their cells keep and what the boxes of their pairs keep go together, whatever the
//! histories of these. A node that reads its state begins with such values, and each turn keeps them so.
//!
//! `specs/Events.antt` says what each event of a cell makes of its shape, `specs/Agreement.antt` when a call and its cell agree,
//! `specs/OfferFits.antt` which offers keep them so, `specs/WholeRelay.antt` when all of them go together, `specs/Turns.antt` what a
//! turn changes, `specs/NumberedTurns.antt` what an offer, an answer and an end change, with the call by its number, `specs/Comings.antt` which can come. Module `law` states
//! the theorems. There is nothing to run here.
#![tactic(auto)]

mod law;

pub use law::{
    agreeing_cell_is_small, answers_agree, comings_are_for_all, ended_cell_is_empty,
    events_move_legs, legs_are_leased, new_legs_are_leased, numbered_call_has_place,
    numbered_returns, numbered_turns_stay_whole, offers_agree, pool_holds_on, pool_is_whole,
    turns_stay_whole, whole_boxes, whole_calls, whole_cells, whole_returns,
};
