//! What is told of a call.
ghost use Rattle.std.specs.Prelude.{◌≡◌, Some, IfOk, OnOk};
ghost use Rattle.relay_outside.specs.declared.settings.Config.{Config};
ghost use Rattle.histories.specs.Words.{In};
ghost use Rattle.ng_bencode.specs.Row.{list_in};
ghost use Rattle.ng_bencode.specs.Tree.{Dict, no_entries, tree_of, pairs_of};
ghost use Rattle.port_pool.specs.declared.reports.LegReport.{LegReport};
ghost use Rattle.port_pool.specs.Reports.{CountsFit};
ghost use Rattle.offer_answer.specs.Dialogs.{DialogFor};
ghost use Rattle.call_board.specs.Views.{CallView, View, call_numbered};
ghost use Rattle.call_board.specs.Boards.{BoardMatches, IsLive};
ghost use Rattle.call_board.specs.Reports.{Report, tags_value, report_tree};
ghost use Rattle.call_report.specs.Tags.{with_side};

use crate::medias::side_value;
use crate::tag_order::first_side;
use crate::values::moment_value;
use call_board::Board;
use ng_bencode::{Pairs, Value};
use ng_reply::{put_pair, put_text};
use offer_answer::Dialog;
use port_pool::{LegReports, Side};
use relay_outside::OutOfMemory;
use std::alloc::Global;

/// The report of a live call, as the reply to a query has it. `legs` are the reports of its legs; each of their counts is below 2^63.
///
/// It is a dictionary with `created` and `last signal`, the moments of the call's first and last accepted offer or answer in
/// milliseconds (2^63 - 1 where they are greater), `result`, and `tags`. For the tag of each side, in byte order, `tags` has a
/// dictionary whose `medias` lists the side's legs in the order of their sections. A leg has `RTCP` and `RTP`, each with the
/// numbers of packets that were `accepted` from it and `sent` by its ports; `endpoint`, the `address` and the `port` to which its
/// RTP goes; `index`, the section's number from 1; `local port`, its RTP port at the proxy; `protocol`, the profile in force
/// on it (RFC 8866 section 5.14); and `report`, where the side sent one, the last report block of RFC 3550 section 6.4.1 with
/// `fraction lost`, `highest`, `jitter`, `lost` and `ssrc`.
///
/// It takes two look-ups among the live calls, and then as many steps as the call has sections and legs.
///
/// # Errors
///
/// There was no memory for the report.
pub fn query(
    alloc: Global,
    board: &Board,
    call: u64,
    legs: &LegReports,
) -> Result<Value, OutOfMemory>
    requires live { IsLive board.now call }
    requires counts { (report : LegReport) → In report legs.now → CountsFit report }
    ensures { (config : Config) (v : View) (c : CallView) → BoardMatches config board.now v → call_numbered v call ≡ Some c →
        IfOk result (λ value. tree_of value ≡ report_tree config (record { created = c.first; last_signal = c.last; rounds = c.rounds; legs = legs.now })) }
{
    let (created, last_signal) = board.moments(call);
    let tags = tags_value(alloc, board.dialog(call), legs)?;
    let mut pairs = Pairs::new(alloc);
    put_pair(alloc, &mut pairs, b"created", moment_value(created))?;
    put_pair(alloc, &mut pairs, b"last signal", moment_value(last_signal))?;
    put_text(alloc, &mut pairs, b"result", b"ok")?;
    put_pair(alloc, &mut pairs, b"tags", tags)?;
    Ok(Value::dict(pairs))
}

/// The tags of a call in byte order, each with what is told of its side.
fn tags_value(alloc: Global, dialog: &Dialog, legs: &LegReports) -> Result<Value, OutOfMemory>
    requires { (report : LegReport) → In report legs.now → CountsFit report }
    ensures { (config : Config) (report : Report) → DialogFor config dialog.now report.rounds → report.legs ≡ legs.now →
        IfOk result (λ value. tree_of value ≡ tags_value report) }
{
    match first_side(dialog) {
        Side::A => tags_from(alloc, dialog, legs, Side::A, Side::B),
        Side::B => tags_from(alloc, dialog, legs, Side::B, Side::A),
    }
}

/// The tags of two sides, each with what is told of its side, in this order.
fn tags_from(
    alloc: Global,
    dialog: &Dialog,
    legs: &LegReports,
    first: Side,
    second: Side,
) -> Result<Value, OutOfMemory>
    requires { (report : LegReport) → In report legs.now → CountsFit report }
    ensures { (config : Config) (report : Report) → DialogFor config dialog.now report.rounds → report.legs ≡ legs.now →
        IfOk result (λ value. tree_of value ≡ Dict (with_side (with_side no_entries report first) report second)) }
{
    let mut pairs = Pairs::new(alloc);
    put_side(alloc, &mut pairs, dialog, legs, first)?;
    put_side(alloc, &mut pairs, dialog, legs, second)?;
    Ok(Value::dict(pairs))
}

/// Puts the tag of a side, with what is told of the side, at the end of a dictionary, where the side has a tag.
fn put_side(
    alloc: Global,
    pairs: &mut Pairs,
    dialog: &Dialog,
    legs: &LegReports,
    side: Side,
) -> Result<(), OutOfMemory>
    requires { (report : LegReport) → In report legs.now → CountsFit report }
    ensures { (config : Config) (report : Report) → DialogFor config dialog.now report.rounds → report.legs ≡ legs.now →
        OnOk result (pairs_of (list_in pairs.new) ≡ with_side (pairs_of (list_in pairs.old)) report side) }
{
    let Some(tag) = dialog.tag(side) else {
        return Ok(());
    };
    let report = side_value(alloc, dialog, legs, side)?;
    put_pair(alloc, pairs, tag, report)
}
