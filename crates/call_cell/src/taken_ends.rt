ghost use Rattle.std.specs.Prelude.{◌≡◌, ◌<◌, IfSome, is_some, length, position};
ghost use Rattle.call_cell.specs.TakenEnds.{first_ends, without_first};

use crate::leg::Leg;
use relay_outside::{Addr, Config};

/// The place of the first leg that has its out ends.
fn place_with_ends<O>(legs: &[Leg<O>]) -> Option<usize>
    ensures place { result ≡ position (λ leg. is_some leg.sending.ends) legs.now }
    ensures within { IfSome result (λ at. at < length legs.now) }
{
    legs.iter().position(|leg| leg.has_ends())
}

/// Takes the out ends of the first leg that has them, with the address of its port for RTP.
pub(crate) fn take_first<O>(legs: &mut [Leg<O>], config: &Config) -> Option<(Addr, O, O)>
    ensures taken { result ≡ first_ends config.now legs.old }
    ensures legs { legs.new ≡ without_first legs.old }
{
    let Some(at) = place_with_ends(legs) else {
        return None;
    };
    legs[at].take_ends(config)
}
