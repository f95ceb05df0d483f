//! JSON, the other notation of the ng control protocol: a JSON text is read as the bencoded value that says the same, its twin, and a
//! bencoded value is written as JSON. `specs/Strings.antt` says which bytes a JSON string stands for, `specs/Twins.antt` what the
//! twin of a text is, `specs/JsonText.antt` the text of a value, and `specs/Order.antt` what stands where in it.
#![tactic(auto)]

mod decode;
mod encode;
mod errors;
mod law;
mod strings;

pub use decode::read;
pub use encode::write;
pub use errors::JsonFault;
pub use law::{members_stand_in_byte_order, written_is_read};
pub use strings::put_bytes;
