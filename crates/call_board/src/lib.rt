//! The board: the live calls, the port pairs, the drawn keys and the kept replies, by the history of the control datagrams.
//!
//! `specs/Acts.antt` has the entries of that history, `specs/Calls.antt` the live calls, those that are ending, and their rounds, `specs/Pairs.antt`
//! who holds which pair and which pairs are free, `specs/KeptReplies.antt` the replies that are kept, `specs/Answers.antt` which reply a
//! datagram gets and what it does.
//!
//! Module `board` has the board, `live_calls` its live calls, `live_call` one of them. `offer_plan` plans offers and `answer_plan` answers as a `BoardPlan`,
//! `offer_leases` leases the pairs that it demands and takes them back, `applied_plan` takes it in, `ending` has a call end when it is due,
//! `call_end` ends one.
//! `specs/Views.antt` says what the board keeps of its history, and what each call changes of that; `specs/Boards.antt` that it
//! keeps it, `specs/Plans.antt` the result of planning an offer or an answer, `specs/NextBoards.antt` what a plan makes of the board,
//! `specs/Whole.antt` what the calls of an entry's turn make together, and `law` that this is the entry. `specs/Futures.antt` says that
//! histories for which one board stands have one future. `specs/Shapes.antt` says what each call makes of any board, whatever it stands
//! for, and `specs/ShapeViews.antt` what that says of the history where there is one.
#![tactic(auto)]

mod answer_plan;
mod applied_plan;
mod board;
mod board_plan;
mod call_end;
mod cell_marks;
mod ending;
mod fault;
mod law;
mod live_call;
mod live_calls;
mod offer_leases;
mod offer_plan;
mod saved_board;

pub use board::Board;
pub use board_plan::BoardPlan;
pub use fault::BoardFault;
pub use law::{changes_are_entries, one_board_has_one_future, shapes_show_histories};
pub use live_call::LiveCall;
pub use saved_board::{BoardSaved, CallSaved, board_moves, boards_are_loaded};
