//! Laws of the board's turns: the reply to a datagram and what it does are determined by the board's history before it, by its bytes, and
//! by what the devices returned; and a datagram in JSON is dealt with like the one in bencode that says the same.
//!
//! Module `law` states it, and what is complete: each datagram with a frame is answered, and a packet that is due is sent. `specs/Alike.antt` says
//! when the devices returned the same to two turns, and when these are the same; `specs/Answers.antt` what a datagram gets where no port and no
//! key failed, and `specs/Due.antt` what becomes of a packet's one send. There is nothing to run here, and nothing but laws stands on this crate.
#![tactic(auto)]

mod law;

pub use law::{
    answers_are_one, dialects_are_one, due_packets_are_sent, framed_datagrams_are_answered,
};
