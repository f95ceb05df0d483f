ghost use Rattle.std.specs.Prelude.{◌≡◌, ◌+◌, ◌≤◌, ◌<◌, ◌^◌, ◌++◌, ℕ, [], length, decimal};
ghost use Rattle.media_lane.specs.Visits.{AreTotals};
ghost use Rattle.relay_runs.specs.ServeRuns.{totals_line, sum_of_counts, turn_counts};

use media_lane::Totals;
use ng_bencode::Text;
use ng_server::ControlTurn;

/// How many turns a run made, how many datagrams it took and how many replies it sent.
#[derive(Clone, Copy)]
pub(crate) struct Counts {
    /// The takes that gave a datagram or nothing.
    pub(crate) turns: u64,
    /// The datagrams taken.
    pub(crate) datagrams: u64,
    /// The replies sent.
    pub(crate) replies: u64,
}

/// Nothing came of any packet yet.
pub(crate) fn no_totals() -> Totals
    ensures { AreTotals [] result }
{
    Totals {
        taken: 0,
        sent: 0,
        refused: 0,
        lost: 0,
    }
}

impl Counts {
    /// The counts with one more control turn.
    pub(crate) fn with(self, turn: ControlTurn) -> Counts
        requires few { self.turns < 2 ^ 63 }
        requires fewer { (self.replies ≤ self.datagrams) × (self.datagrams ≤ self.turns) }
        ensures sum { result ≡ sum_of_counts self (turn_counts turn) }
        ensures order { (result.replies ≤ result.datagrams) × (result.datagrams ≤ result.turns) }
        ensures next { result.turns ≤ self.turns + 1 }
    {
        let Counts {
            turns,
            datagrams,
            replies,
        } = self;
        match turn {
            ControlTurn::Replied => Counts {
                turns: turns + 1,
                datagrams: datagrams + 1,
                replies: replies + 1,
            },
            ControlTurn::ReplyFault | ControlTurn::Silent => Counts {
                turns: turns + 1,
                datagrams: datagrams + 1,
                replies,
            },
            ControlTurn::Nothing => Counts {
                turns: turns + 1,
                datagrams,
                replies,
            },
            ControlTurn::End | ControlTurn::ReadFault => self,
        }
    }
}

/// Writes a number in decimal.
pub(crate) fn put_number(line: &mut Text, number: u64)
    requires { 40 ≤ line.old.spare }
    ensures list { line.new.list ≡ line.old.list ++ decimal number }
    ensures room { line.old.spare ≤ line.new.spare + 40 }
{
    let mut buffer = itoa::Buffer::new();
    line.extend(buffer.format(number).as_bytes());
}

/// Writes the line of totals into an empty text. It takes no memory.
pub(crate) fn put_totals(line: &mut Text, counts: Counts, totals: Totals)
    requires empty { line.old.list ≡ [] }
    requires room { 512 ≤ line.old.spare }
    ensures { line.new.list ≡ totals_line counts totals }
{
    line.extend(b"turns ");
    put_number(line, counts.turns);
    line.extend(b" datagrams ");
    put_number(line, counts.datagrams);
    line.extend(b" replies ");
    put_number(line, counts.replies);
    line.extend(b" sent ");
    put_number(line, totals.sent);
    line.extend(b" refused ");
    put_number(line, totals.refused);
    line.extend(b" lost ");
    put_number(line, totals.lost);
    line.push(b'\n');
}
