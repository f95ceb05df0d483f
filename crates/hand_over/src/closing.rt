//! The ports of all legs, closed.
ghost use Rattle.std.specs.Prelude.{◌≡◌, ◌<◌, ◌≤◌, ◌+◌, true, false, [], ◌∷◌, length};
ghost use Rattle.relay_outside.specs.declared.ports.PortCall.TheVariants.{Close};
ghost use Rattle.relay_outside.specs.Settings.{AreFamilies};
ghost use Rattle.relay_outside.specs.DeviceLogs.{Gained, WhereLogged};
ghost use Rattle.port_pool.specs.Ports.{AreOfPair, pair_count, rtcp_address};
ghost use Rattle.media_ports.specs.Calls.{AllOpen};
ghost use Rattle.relay_core.specs.WholeParts.{AreWholeParts};
ghost use Rattle.relay_core.specs.Homes.{AreEndsHome};
ghost use Rattle.hand_over.specs.Homes.{AreLegsOpen, AreLegsShut};
ghost use Rattle.hand_over.specs.Closings.{legs_at, all_closings, live_calls};
ghost use Rattle.hand_over.specs.ClosingSteps.{IsCellReady, ClosesSome, LeavesEmptied, legs_with_ends};

use crate::addresses::{box_place, pair_at, rtcp_address};
use crate::calls::{cell_of_call, live_count};
use crate::places::{shut_at, take_at};
use relay_core::Part;
use relay_outside::{Addr, Config, PortMaker};

/// Closes the two open ports of a pair, that for RTP first.
fn close_two<P: PortMaker>(ports: &mut P, at: Addr, ins: (P::In, P::In), outs: (P::Out, P::Out))
    requires port { at.port < 65535 }
    requires open { WhereLogged (P.log ports.old) (AllOpen (at ∷ rtcp_address at ∷ [])) }
    requires ins { AreOfPair P.In.log at ins.0 ins.1 }
    requires outs { AreOfPair P.Out.log at outs.0 outs.1 }
    ensures closes { Gained (P.log ports.old) (P.log ports.new) (λ calls. calls
        ≡ Close at (P.In.log ins.0).calls (P.Out.log outs.0).calls ∷ Close (rtcp_address at) (P.In.log ins.1).calls (P.Out.log outs.1).calls ∷ []) }
    ensures later { P.faults ports.old ≤ P.faults ports.new }
{
    let (rtp_in, rtcp_in) = ins;
    let (rtp_out, rtcp_out) = outs;
    ports.close(at, rtp_in, rtp_out);
    ports.close(rtcp_address(at), rtcp_in, rtcp_out);
}

/// Closes the ports of the first leg of the cell that has its ends. `false`: none has any.
fn close_next<P: PortMaker>(
    config: &Config,
    parts: &mut [Part<P::In, P::Out>],
    place: usize,
    ports: &mut P,
) -> bool
    requires families { AreFamilies config.now }
    requires room { config.now.max_sessions + 1 + pair_count config.now ≤ length parts.old }
    requires ready { IsCellReady P.In.log P.Out.log config.now parts.old (P.log ports.old) place }
    ensures step { ClosesSome P.In.log P.Out.log config.now place parts.old (P.log ports.old) parts.new (P.log ports.new) }
    ensures fewer { result ≡ true → length (legs_with_ends (legs_at parts.new place)) < length (legs_with_ends (legs_at parts.old place)) }
    ensures none { result ≡ false → legs_with_ends (legs_at parts.new place) ≡ [] }
    ensures later { P.faults ports.old ≤ P.faults ports.new }
{
    prove!(config.port_max <= 65_535);
    let Some((at, rtp_out, rtcp_out)) = take_at(parts, place) else {
        return false;
    };
    let pair = pair_at(config, at);
    let ins = shut_at(parts, box_place(config, pair));
    close_two(ports, at, ins, (rtp_out, rtcp_out));
    true
}

/// Closes the ports of all legs of the cell, in its order.
fn close_cell<P: PortMaker>(
    config: &Config,
    parts: &mut [Part<P::In, P::Out>],
    place: usize,
    ports: &mut P,
)
    requires families { AreFamilies config.now }
    requires room { config.now.max_sessions + 1 + pair_count config.now ≤ length parts.old }
    requires ready { IsCellReady P.In.log P.Out.log config.now parts.old (P.log ports.old) place }
    ensures steps { ClosesSome P.In.log P.Out.log config.now place parts.old (P.log ports.old) parts.new (P.log ports.new) }
    ensures none { legs_with_ends (legs_at parts.new place) ≡ [] }
    ensures later { P.faults ports.old ≤ P.faults ports.new }
{
    while close_next(config, parts, place, ports) {}
}

/// Closes the ports of all legs, by call in order of creation and in the order of each cell, that for RTP before that for RTCP, each with
/// the ends that its box and its leg had. It takes no memory. The cells then have no out ends, and are saved as they were.
pub fn close_ports<P: PortMaker>(config: &Config, parts: &mut [Part<P::In, P::Out>], ports: &mut P)
    requires whole { AreWholeParts config.now parts.old }
    requires home { AreEndsHome P.In.log P.Out.log config.now parts.old }
    requires open { AreLegsOpen config.now parts.old (P.log ports.old) }
    ensures closes { Gained (P.log ports.old) (P.log ports.new) (λ calls. calls ≡ all_closings P.In.log P.Out.log config.now parts.old) }
    ensures shut { AreLegsShut config.now parts.old (P.log ports.new) }
    ensures left { LeavesEmptied config.now parts.old parts.new (live_calls parts.old) }
    ensures length { length parts.new ≡ length parts.old }
    ensures later { P.faults ports.old ≤ P.faults ports.new }
{
    for index in 0..live_count(parts) {
        let cell = cell_of_call(parts, index);
        close_cell(config, parts, cell as usize, ports);
    }
}
