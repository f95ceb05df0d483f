//! An offer, carried out in the board's turn of its datagram, from its description to its reply.
//!
//! Module `command` reads the description, has the board plan the offer, makes all memory that it needs before anything is leased
//! (`memory`), and has the plan carried out. `act` is the act, one stage after the other. `lease` leases the pairs, opens their ports
//! and draws and numbers the keys, all of them or none, and tells why not. `legs` opens the boxes of the new legs in the order of
//! leases, one nested step each; `cell` prepares the call's cell by them, the drawn keys, and the sections whose legs are dropped.
//! `description` puts ports and keys into the plan, writes its description, and gives the plan to the board; and the legs that it drops
//! are closed. `reply` makes the replies to an accepted and to an undone offer. What comes after the first lease takes no memory.
//!
//! `specs/Commands.antt` says what the command asks and what it gives, `specs/Doings.antt` what its turn does; `specs/Leases.antt` when
//! an offer may take what its plan demands, `specs/Undo.antt` what is left of one that was undone; `specs/Legs.antt`,
//! `specs/LegBoxes.antt` and `specs/PreparedLegs.antt` which legs are new and what opened their boxes; `specs/Offers.antt` which offer the
//! board's next entry accepts, `specs/Brings.antt` which room there is; `specs/Shapes.antt` what an offer makes of what the board keeps.
#![tactic(auto)]

mod act;
mod cell;
mod command;
mod description;
mod lease;
mod legs;
mod memory;
mod reply;

pub use command::offer;
pub use memory::OfferRoom;
