//! Tests of the formats: bencode, JSON, frames, commands, replies, kept replies, written states, crypto lines, descriptions and their
//! editing.
//! Nothing stands on this crate: the libraries that it tests are proved once, without their tests.
#![tactic(auto)]

#[cfg(test)]
mod cases;
#[cfg(test)]
mod cookie_cache_tests;
#[cfg(test)]
mod ng_bencode_tests;
#[cfg(test)]
mod ng_command_tests;
#[cfg(test)]
mod ng_frame_tests;
#[cfg(test)]
mod ng_json_tests;
#[cfg(test)]
mod ng_reply_tests;
#[cfg(test)]
mod sdes_lines_tests;
#[cfg(test)]
mod sdp_edit_descriptions;
#[cfg(test)]
mod sdp_edit_tests;
#[cfg(test)]
mod sdp_text_tests;
#[cfg(test)]
mod state_lines_tests;
