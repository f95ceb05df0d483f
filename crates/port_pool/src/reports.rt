ghost use Rattle.std.specs.Prelude.{◌≡◌, ◌<◌, ◌≤◌, [], ◌∷◌, ◌++◌, length, IfOk, slice_get, Some};

use crate::holder::Side;
use relay_outside::{Addr, OutOfMemory};
use rtcp_reports::Block;
use std::alloc::Global;
use std::marker::Model;

/// How many legs a call may have: one for each side of a section.
pub const MOST_LEGS: usize = 16;

/// What is told of a committed leg: where it stands, where its packets go, and how many packets of each half there were and what
/// they reported since the leg came.
#[derive(Clone, Copy, PartialEq, Eq, Debug)]
pub struct LegReport {
    /// The section of the description, from 0.
    pub section: u8,
    /// The side.
    pub side: Side,
    /// The leg's local port for RTP.
    pub port: u16,
    /// Where RTP is sent: the learned source, or else the signalled address.
    pub endpoint: Addr,
    /// How many RTP packets were accepted from the side.
    pub rtp_accepted: u64,
    /// How many RTP packets were sent to the side.
    pub rtp_sent: u64,
    /// How many RTCP packets were accepted from the side.
    pub rtcp_accepted: u64,
    /// How many RTCP packets were sent to the side.
    pub rtcp_sent: u64,
    /// What the side last reported of its reception: the last report block of the last accepted RTCP packet that has one.
    pub report: Option<Block>,
}

/// What is told of the legs of a call, with room for all of them. Contracts see it as a list.
#[derive(Drop)]
pub struct LegReports {
    reports: Vec<LegReport>,
}

impl Model for LegReports {
    ghost use Rattle.std.specs.Prelude.{◌≤◌, List, vec_capacity};
    ghost use Rattle.port_pool.specs.declared.reports.LegReport.{LegReport};

    ghost Value = { List LegReport };

    ghost view = { λ all. all.reports.items };

    ghost invariant = { λ all. 16 ≤ vec_capacity all.reports };
}

impl LegReports {
    /// An empty list with capacity for 16 reports.
    pub fn new(alloc: Global) -> Result<LegReports, OutOfMemory>
        ensures { IfOk result (λ all. all ≡ []) }
    {
        let reports = Vec::with_capacity(alloc, MOST_LEGS)?;
        Ok(LegReports { reports })
    }

    /// How many reports there are.
    pub fn len(&self) -> usize
        ensures { result ≡ length self.now }
    {
        self.reports.len()
    }

    /// A report by its place, from 0.
    pub fn get(&self, index: usize) -> LegReport
        requires { index < length self.now }
        ensures { slice_get self.now index ≡ Some result }
    {
        self.reports[index]
    }

    /// Drops all reports. The room stays.
    pub fn clear(&mut self)
        ensures { self.new ≡ [] }
    {
        self.reports.clear();
    }

    /// Adds a report after the others. It takes no memory.
    pub fn push(&mut self, report: LegReport)
        requires { length self.old < 16 }
        ensures { self.new ≡ self.old ++ report ∷ [] }
    {
        self.reports.push_reserved(report);
    }
}
