//! The legs of a side.
ghost use Rattle.std.specs.Prelude.{◌≡◌, ◌==◌, ◌&&◌, List, map, filter_map, IfOk};
ghost use Rattle.relay_outside.specs.declared.settings.Config.{Config};
ghost use Rattle.histories.specs.Words.{In, numbers};
ghost use Rattle.ng_bencode.specs.Row.{list_in};
ghost use Rattle.ng_bencode.specs.Tree.{tree_of};
ghost use Rattle.port_pool.specs.declared.reports.LegReport.{LegReport};
ghost use Rattle.port_pool.specs.Signals.{side_eq};
ghost use Rattle.port_pool.specs.Reports.{CountsFit};
ghost use Rattle.offer_answer.specs.Rounds.{Round};
ghost use Rattle.offer_answer.specs.Dialogs.{DialogFor};
ghost use Rattle.call_board.specs.Reports.{leg_value, leg_report_at, Report, side_value};

use crate::leg::leg_value;
use crate::values::put_item;
use ng_bencode::{Pairs, Value, Values};
use ng_reply::put_pair;
use offer_answer::Dialog;
use port_pool::{LegReport, LegReports, Side};
use relay_outside::OutOfMemory;
use sdp_text::MOST_SECTIONS;
use std::alloc::Global;

/// What is told of a side: its committed legs, in the order of their sections.
pub(crate) fn side_value(
    alloc: Global,
    dialog: &Dialog,
    legs: &LegReports,
    side: Side,
) -> Result<Value, OutOfMemory>
    requires { (report : LegReport) → In report legs.now → CountsFit report }
    ensures { (config : Config) (report : Report) → DialogFor config dialog.now report.rounds → report.legs ≡ legs.now →
        IfOk result (λ value. tree_of value ≡ side_value report side) }
{
    let medias = medias(alloc, dialog, legs, side)?;
    let mut pairs = Pairs::new(alloc);
    put_pair(alloc, &mut pairs, b"medias", Value::list(medias))?;
    Ok(Value::dict(pairs))
}

/// The committed legs of a side, in the order of their sections.
fn medias(
    alloc: Global,
    dialog: &Dialog,
    legs: &LegReports,
    side: Side,
) -> Result<Values, OutOfMemory>
    requires { (report : LegReport) → In report legs.now → CountsFit report }
    ensures { (config : Config) (rounds : List Round) → DialogFor config dialog.now rounds →
        IfOk result (λ values. map tree_of (list_in values) ≡ map (leg_value rounds) (filter_map (leg_report_at legs.now side) (numbers 0 8))) }
{
    let mut medias = Values::new(alloc);
    'sections: for section in 0..MOST_SECTIONS as u8 {
        let Some(report) = leg_at(legs, side, section) else {
            continue;
        };
        let profile = dialog.protocol(report.section as usize, report.side);
        let leg = leg_value(alloc, &report, profile)?;
        put_item(&mut medias, leg)?;
    }
    Ok(medias)
}

/// What is told of the leg of a section, from 0, and a side. `None`: nothing is.
fn leg_at(legs: &LegReports, side: Side, section: u8) -> Option<LegReport>
    ensures { result ≡ leg_report_at legs.now side section }
{
    'legs: for index in 0..legs.len() {
        let report = legs.get(index);
        if is_of(&report, side, section) {
            return Some(report);
        }
    }
    None
}

/// Whether this is told of the leg of a section, from 0, and a side.
fn is_of(report: &LegReport, side: Side, section: u8) -> bool
    ensures { result ≡ (report.now.section == section) && side_eq report.now.side side }
{
    report.section == section && report.side == side
}
