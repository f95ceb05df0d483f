//! What the main hand does in a turn of the board: the nested steps of boxes and cells, the turns that end calls, and the board's entry.
//!
//! A nested step is one turn of its own place, made while the hand holds the board's turn, and adds one entry to the hand's list,
//! which belongs to the board's entry. Module `boxes` opens and shuts the box of a port pair, `cells` ends the call of a cell and
//! asks it whether it is due and what is told of its legs, `signals` prepares a cell by an offer and commits it by an answer. `puts`
//! puts a turn back with the step that ends it. `specs/NestedSteps.antt` says who may make such steps and what a step tells.
//!
//! Module `board_turn` has what these functions are handed: `MainHand` is the main hand in a turn of the board, with which nested steps
//! are made, and the entry to which they belong; `BoardTurn` is that with the turn's board, its port maker and the legs that go; and
//! `Between` is the main hand before a turn and after it. `specs/BoardTurns.antt` says when each of them may be used, and what every
//! function leaves as it was.
//!
//! Module `gone_legs` closes the legs that went from a cell: the box of each pair, its ports, and its lease. `call_end` ends a call:
//! its cell, its place among the live calls, and its legs; `delete` does so by a delete. `query` reads the cell of a call that is asked
//! after. `board_entry` ends the board's turn with its entry. `stop` ends all live calls in order, as a stop does, and makes the whole
//! turn of a stop; `tick` does so with those live calls alone that are due.
//! `specs/Closings.antt` and `specs/CallEnds.antt` say when that may be done and what it tells, `specs/Stops.antt` has the
//! board's entry of a stop and `specs/Ticks.antt` that of a tick. `specs/Between.antt` says what is known of the main hand between the
//! board's turns, and what a turn adds to its list, `specs/Joins.antt` what is known of it while hands of lanes are taken in, and module `laws` that
//! the turns may go on after that. `specs/Acts.antt` says what is known in a turn, and `specs/Ties.antt` how the port maker's calls follow
//! from what is added to that list.
//!
//! Module `asked_command` has what a command's crate is handed besides the turn, and `command_outcome` what it hands back.
//! `specs/Controls.antt` has the board's entry of a control datagram, as a function of the history, of what is recorded of the
//! datagram and of what the devices returned; `specs/DeviceAnswers.antt` says what a `DeviceAnswers` means for them; `specs/Commands.antt` what
//! the turn of a command does. Module `refusals` makes the replies of the commands that fail and of those that only tell, `faulty`
//! those to faults of a description and of the board; `proofs/Tellings.antt` shows that their turn does what is due.
#![tactic(auto)]

mod asked_command;
mod board_entry;
mod board_turn;
mod boxes;
mod call_end;
mod cells;
mod command_outcome;
mod delete;
mod device_answers;
mod faulty;
mod gone_legs;
mod laws;
mod puts;
mod query;
mod refusals;
mod signals;
mod stop;
mod tick;

pub use asked_command::AskedCommand;
pub use board_turn::{Between, BoardEntryId, BoardTurn, MainHand};
pub use boxes::{open_box, shut_box};
pub use cells::{end_cell, expire_cell, read_cell};
pub use command_outcome::CommandOutcome;
pub use delete::delete_call;
pub use device_answers::DeviceAnswers;
pub use faulty::{misdescribed, unplanned};
pub use gone_legs::close_legs;
pub use laws::main_hand_stays;
pub use query::query_call;
pub use refusals::{missing, refused, replied, short};
pub use signals::{commit_cell, prepare_cell};
pub use stop::stop_turn;
pub use tick::tick_turn;
