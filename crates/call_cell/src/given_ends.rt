ghost use Rattle.std.specs.Prelude.{◌≡◌, ◌<◌, IfSome, Some, None, count_by, length, map, position};
ghost use Rattle.relay_outside.specs.Ports.{same_addr};
ghost use Rattle.call_cell.specs.declared.leg.Leg.{Leg};
ghost use Rattle.call_cell.specs.SavedCells.{saved_leg, AreEmptied};
ghost use Rattle.call_cell.specs.GivenEnds.{is_of_address, HasEndsFor, GivesEnds, TakesEndsOf};

use crate::leg::Leg;
use relay_outside::{Addr, Config};

/// Whether two addresses are the same.
fn is_same(a: Addr, b: Addr) -> bool
    ensures { result ≡ same_addr a b }
{
    a == b
}

/// The place of the first ends of an address.
fn place_of_ends<O>(ends: &[(Addr, O, O)], at: Addr) -> Option<usize>
    ensures place { result ≡ position (λ those. is_of_address at those) ends.now }
    ensures within { IfSome result (λ place. place < length ends.now) }
{
    ends.iter().position(|those| is_same(those.0, at))
}

/// Takes the first ends of an address out of the list: for RTP and for RTCP.
fn take_ends_of<O>(ends: &mut Vec<(Addr, O, O)>, at: Addr) -> (O, O)
    requires { 0 < count_by (is_of_address at) ends.old.items }
    ensures { TakesEndsOf at ends.old.items ends.new.items result }
{
    let Some(place) = place_of_ends(ends.as_slice(), at) else {
        unreachable!()
    };
    let (_, rtp, rtcp) = ends.remove(place);
    (rtp, rtcp)
}

/// Gives each leg the first ends that the list has of the address of its port for RTP.
pub(crate) fn give_ends<O>(legs: &mut [Leg<O>], config: &Config, ends: &mut Vec<(Addr, O, O)>)
    requires emptied { AreEmptied legs.old }
    requires room { HasEndsFor config.now (map (λ (leg : Leg O). saved_leg leg) legs.old) ends.old.items }
    ensures saved { map (λ (leg : Leg O). saved_leg leg) legs.new ≡ map (λ (leg : Leg O). saved_leg leg) legs.old }
    ensures gives { GivesEnds config.now legs.new ends.old.items ends.new.items }
{
    for leg in legs.iter_mut() {
        let (rtp, rtcp) = take_ends_of(ends, leg.address(config));
        leg.put_ends(rtp, rtcp);
    }
}
