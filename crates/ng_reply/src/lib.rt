//! The replies of the ng protocol that carry no report: success, success with a description or with a
//! warning, and every error. Each is a bencoded dictionary whose keys stand in byte order, or the JSON object that says the same.
//! `specs/Texts.antt` has the text of each error, `specs/Replies.antt` the replies. `put_pair` and `put_text` make a dictionary pair by
//! pair (`specs/Pairs.antt`), for the crates above too.
#![tactic(auto)]

mod code;
mod error;
mod json_replies;
mod pairs;
mod success;
mod words;

pub use code::{ErrorCode, SdpPart};
pub use error::fixed_error;
pub use json_replies::{fixed_json_error, sdp_json_into, sdp_json_len};
pub use pairs::{put_pair, put_text};
pub use success::{done, pong, sdp_reply_into, sdp_reply_len, warned};
