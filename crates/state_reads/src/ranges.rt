//! Whether the counts of a record are below 2^62, and that its numbers are in the ranges of their types.
ghost use Rattle.std.specs.Prelude.{ℕ, ◌<◌, ◌^◌, ◌↔◌, IsTrue, All};
ghost use Rattle.endpoint_learn.specs.SavedLearners.{FitsIp};
ghost use Rattle.port_pool.specs.SavedLeases.{FitsLease};
ghost use Rattle.state_values.specs.CellLegTrees.{FitsPacketCounts};
ghost use Rattle.state_values.specs.SignalTrees.{FitsHolder};
ghost use Rattle.state_reads.specs.Bounds.{IsCountBelow, AreCounts, PacketCounts, LegCounts, LegRanges};

use call_cell::{Counts, LegSaved};
use port_pool::{Holder, Lease};
use relay_outside::Ip;

/// The least number that is no count.
const COUNT_END: u64 = 1 << 62;

/// Whether the number is below 2^62.
pub(crate) fn is_count(number: u64) -> bool
    ensures { IsTrue result ↔ IsCountBelow number }
{
    number < COUNT_END
}

/// Whether all are.
pub(crate) fn are_counts(generations: &[u64]) -> bool
    ensures { IsTrue result ↔ AreCounts generations.now }
{
    for generation in generations {
        if !is_count(*generation) {
            return false;
        }
    }
    true
}

/// Whether the counts of packets are.
fn packets_are_counts(counts: &Counts) -> bool
    ensures { IsTrue result ↔ PacketCounts counts.now }
{
    is_count(counts.rtp_accepted)
        && is_count(counts.rtp_sent)
        && is_count(counts.rtcp_accepted)
        && is_count(counts.rtcp_sent)
}

/// Whether those of a leg are, and the generations of its holder and of its lease.
fn leg_counts(leg: &LegSaved) -> bool
    ensures { IsTrue result ↔ LegCounts leg.now }
{
    packets_are_counts(&leg.counts)
        && is_count(leg.holder.generation)
        && is_count(leg.lease.generation())
}

/// Whether those of each leg are.
pub(crate) fn legs_count(legs: &[LegSaved]) -> bool
    ensures { IsTrue result ↔ All LegCounts legs.now }
{
    for leg in legs {
        if !leg_counts(leg) {
            return false;
        }
    }
    true
}

/// Numbers of 32 bits are below 2^32 (no run-time use).
pub(crate) fn words_fit(words: &[u32])
    ensures { All (λ (word : ℕ). word < 2 ^ 32) words.now }
{
    for word in words {
        let _word = *word;
    }
}

/// Numbers of 64 bits are below 2^64 (no run-time use).
pub(crate) fn longs_fit(numbers: &[u64])
    ensures { All (λ (number : ℕ). number < 2 ^ 64) numbers.now }
{
    for number in numbers {
        let _number = *number;
    }
}

/// An address has as many bytes as its version (no run-time use).
pub(crate) fn ip_fits(ip: Ip)
    ensures { FitsIp ip }
{
    match ip {
        Ip::V4(_bytes) => {}
        Ip::V6(_bytes) => {}
    }
}

/// The same of the counts of packets (no run-time use).
fn packets_fit(counts: &Counts)
    ensures { FitsPacketCounts counts.now }
{
    let _rtp_accepted = counts.rtp_accepted;
    let _rtp_sent = counts.rtp_sent;
    let _rtcp_accepted = counts.rtcp_accepted;
    let _rtcp_sent = counts.rtcp_sent;
}

/// The same of a holder (no run-time use).
fn holder_fits(holder: &Holder)
    ensures { FitsHolder holder.now }
{
    let _cell = holder.cell;
    let _call = holder.call;
    let _section = holder.section;
    let _pair = holder.pair;
    let _generation = holder.generation;
}

/// The same of a lease (no run-time use).
fn lease_fits(lease: &Lease)
    ensures { FitsLease lease.now }
{
    let _pair = lease.pair();
    let _port = lease.rtp_port();
    let _generation = lease.generation();
}

/// The same of these numbers of a leg (no run-time use).
fn leg_fits(leg: &LegSaved)
    ensures { LegRanges leg.now }
{
    packets_fit(&leg.counts);
    holder_fits(&leg.holder);
    lease_fits(&leg.lease);
}

/// The same of each leg (no run-time use).
pub(crate) fn legs_fit(legs: &[LegSaved])
    ensures { All LegRanges legs.now }
{
    for leg in legs {
        leg_fits(leg);
    }
}
