//! What is told of a leg.
ghost use Rattle.std.specs.Prelude.{◌≡◌, ◌<◌, ◌^◌, List, IfOk, OnOk};
ghost use Rattle.ng_bencode.specs.Row.{list_in};
ghost use Rattle.ng_bencode.specs.Tree.{tree_of, pairs_of};
ghost use Rattle.port_pool.specs.Reports.{CountsFit};
ghost use Rattle.offer_answer.specs.Rounds.{Round};
ghost use Rattle.offer_answer.specs.Texts.{host_of_ip};
ghost use Rattle.offer_answer.specs.Plan as plan;
ghost use Rattle.call_board.specs.Reports.{counts_tree, endpoint_value, profile_text, block_tree, leg_value};
ghost use Rattle.call_report.specs.Blocks.{with_report};

use crate::values::{signed, whole};
use ng_bencode::{Pairs, Value};
use ng_reply::{put_pair, put_text};
use port_pool::LegReport;
use relay_outside::{Addr, Ip, OutOfMemory};
use rtcp_reports::Block;
use sdp_text::{Host, Proto, host_text};
use std::alloc::Global;

/// What is told of a committed leg, by the profile in force on it.
pub(crate) fn leg_value(
    alloc: Global,
    report: &LegReport,
    profile: Option<Proto>,
) -> Result<Value, OutOfMemory>
    requires { CountsFit report.now }
    ensures { (rounds : List Round) → profile ≡ plan.protocol rounds report.now.section report.now.side →
        IfOk result (λ value. tree_of value ≡ leg_value rounds report.now) }
{
    let rtcp = counts(alloc, report.rtcp_accepted, report.rtcp_sent)?;
    let rtp = counts(alloc, report.rtp_accepted, report.rtp_sent)?;
    let endpoint = endpoint_value(alloc, report.endpoint)?;
    let mut pairs = Pairs::new(alloc);
    put_pair(alloc, &mut pairs, b"RTCP", rtcp)?;
    put_pair(alloc, &mut pairs, b"RTP", rtp)?;
    put_pair(alloc, &mut pairs, b"endpoint", endpoint)?;
    put_pair(
        alloc,
        &mut pairs,
        b"index",
        whole(report.section as u64 + 1),
    )?;
    put_pair(alloc, &mut pairs, b"local port", whole(report.port as u64))?;
    put_text(alloc, &mut pairs, b"protocol", profile_text(profile))?;
    put_report(alloc, &mut pairs, report.report)?;
    Ok(Value::dict(pairs))
}

/// Puts the last report block of a side at the end of a dictionary, where there is one.
fn put_report(alloc: Global, pairs: &mut Pairs, block: Option<Block>) -> Result<(), OutOfMemory>
    ensures { OnOk result (pairs_of (list_in pairs.new) ≡ with_report (pairs_of (list_in pairs.old)) block) }
{
    let Some(block) = block else {
        return Ok(());
    };
    let report = block_value(alloc, &block)?;
    put_pair(alloc, pairs, b"report", report)
}

/// A report block: what a side tells of its reception (RFC 3550 section 6.4.1).
fn block_value(alloc: Global, block: &Block) -> Result<Value, OutOfMemory>
    ensures { IfOk result (λ value. tree_of value ≡ block_tree block.now) }
{
    let mut pairs = Pairs::new(alloc);
    put_pair(
        alloc,
        &mut pairs,
        b"fraction lost",
        whole(block.fraction as u64),
    )?;
    put_pair(alloc, &mut pairs, b"highest", whole(block.highest as u64))?;
    put_pair(alloc, &mut pairs, b"jitter", whole(block.jitter as u64))?;
    put_pair(alloc, &mut pairs, b"lost", signed(block.lost))?;
    put_pair(alloc, &mut pairs, b"ssrc", whole(block.ssrc as u64))?;
    Ok(Value::dict(pairs))
}

/// How many packets of one half were accepted from a leg, and how many were sent by its ports. Each number is below 2^63.
fn counts(alloc: Global, accepted: u64, sent: u64) -> Result<Value, OutOfMemory>
    requires accepted { accepted < 2 ^ 63 }
    requires sent { sent < 2 ^ 63 }
    ensures { IfOk result (λ value. tree_of value ≡ counts_tree accepted sent) }
{
    let mut pairs = Pairs::new(alloc);
    put_pair(alloc, &mut pairs, b"accepted", whole(accepted))?;
    put_pair(alloc, &mut pairs, b"sent", whole(sent))?;
    Ok(Value::dict(pairs))
}

/// An address and a port to which RTP goes.
fn endpoint_value(alloc: Global, at: Addr) -> Result<Value, OutOfMemory>
    ensures { IfOk result (λ value. tree_of value ≡ endpoint_value at) }
{
    let text = host_text(&host_of_ip(at.ip));
    let mut pairs = Pairs::new(alloc);
    put_text(alloc, &mut pairs, b"address", text.as_slice())?;
    put_pair(alloc, &mut pairs, b"port", whole(at.port as u64))?;
    Ok(Value::dict(pairs))
}

/// The address as that of a host in a description.
fn host_of_ip(ip: Ip) -> Host
    ensures { result ≡ host_of_ip ip }
{
    match ip {
        Ip::V4(bytes) => Host::V4(bytes),
        Ip::V6(bytes) => Host::V6(bytes),
    }
}

/// The text of a profile, as an `m=` line has it. It is empty where there is no profile, or one that isn't of RTP.
fn profile_text(profile: Option<Proto>) -> &'static [u8]
    ensures { result.now ≡ profile_text profile }
{
    match profile {
        Some(Proto::Avp) => b"RTP/AVP",
        Some(Proto::Avpf) => b"RTP/AVPF",
        Some(Proto::Savp) => b"RTP/SAVP",
        Some(Proto::Savpf) => b"RTP/SAVPF",
        Some(Proto::Other) | None => b"",
    }
}
