//! Offer and answer (RFC 3264): what an offer or an answer of a call demands, and what it makes of the descriptions.
//!
//! `specs/Rounds.antt` has the accepted offers and answers of a call, latest first. `specs/Plan.antt` has the plan as functions
//! of them: faults, demands, signals and texts. It stands over the sides of the call (`Sides`), its sections and their pairs
//! (`Sections`), the profiles of legs (`Profiles`), their keys and crypto lines (`Keys`), their families (`Families`), which of them
//! have RTP and RTCP on one port (`Mux`), and over `Demands`, `Signals`, `Texts` and `Faults`. `specs/Laws.antt` has what holds of
//! every plan, which `law` proves.
//!
//! A `Dialog` keeps the state that the rounds lead to (`specs/Dialogs.antt`), and `offer` makes the plan of an offer from it, or tells its
//! first fault (`specs/Offers.antt`).
#![tactic(auto)]

mod answer_plan;
mod answer_text;
mod answered_section;
mod chosen_lines;
mod dialog;
mod families;
mod fault;
mod last_offer;
mod law;
mod leg;
mod mux;
mod next_answer;
mod next_offer;
mod offer_plan;
mod offer_text;
mod offered_section;
mod plan;
mod ports_and_keys;
mod rejected_sections;
mod saved;
mod signals;

pub use answer_plan::answer;
pub use chosen_lines::ChosenLines;
pub use dialog::Dialog;
pub use fault::OaFault;
pub use last_offer::{LastOffer, MadeSection};
pub use law::{
    legs_have_their_pairs_families, offers_drop_what_goes, signals_name_drawn_keys,
    signals_reject_what_goes, signals_secure_legs,
};
pub use leg::{DialogSection, DrawnKey, Leg};
pub use offer_plan::offer;
pub use plan::Plan;
pub use saved::{DialogSaved, dialog_moves};
