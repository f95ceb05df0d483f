//! The order of the tags of a call.
ghost use Rattle.std.specs.Prelude.{◌≡◌, List};
ghost use Rattle.relay_outside.specs.declared.settings.Config.{Config};
ghost use Rattle.port_pool.specs.declared.holder.Side.TheVariants as sides;
ghost use Rattle.offer_answer.specs.Rounds.{Round};
ghost use Rattle.offer_answer.specs.Dialogs.{DialogFor};
ghost use Rattle.offer_answer.specs.Plan as plan;
ghost use Rattle.call_board.specs.Reports.{stands_before};
ghost use Rattle.call_report.specs.Tags.{first_side};

use offer_answer::Dialog;
use port_pool::Side;

/// The side whose tag stands first, in byte order: side A where a side has no tag.
pub(crate) fn first_side(dialog: &Dialog) -> Side
    ensures { (config : Config) (rounds : List Round) → DialogFor config dialog.now rounds →
        result ≡ first_side (plan.tag rounds sides.A) (plan.tag rounds sides.B) }
{
    let Some(a) = dialog.tag(Side::A) else {
        return Side::A;
    };
    let Some(b) = dialog.tag(Side::B) else {
        return Side::A;
    };
    if stands_before(a, b) {
        Side::A
    } else {
        Side::B
    }
}

/// Whether a text stands before another one in byte order, or is the same.
fn stands_before(a: &[u8], b: &[u8]) -> bool
    ensures { result ≡ stands_before a.now b.now }
{
    'bytes: for i in 0..a.len().min(b.len()) {
        if a[i] != b[i] {
            return a[i] < b[i];
        }
    }
    a.len() <= b.len()
}
