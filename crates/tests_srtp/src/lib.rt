//! Tests of packets and of SRTP against outside vectors.
//! Nothing stands on this crate: the libraries that it tests are proved once, without their tests.
#![tactic(auto)]

#[cfg(test)]
mod aes_ctr_tests;
#[cfg(test)]
mod cases;
#[cfg(test)]
mod replay_window_tests;
#[cfg(test)]
mod rtcp_mux_tests;
#[cfg(test)]
mod rtcp_reports_tests;
#[cfg(test)]
mod rtp_packet_tests;
#[cfg(test)]
mod srtcp_context_tests;
#[cfg(test)]
mod srtp_context_tests;
#[cfg(test)]
mod srtp_keys_tests;
#[cfg(test)]
mod srtp_sources_tests;
