ghost use Rattle.std.specs.Prelude.{◌≡◌, ◌≤◌, ◌<◌, ◌+◌, [], ◌∷◌, List, length, take};
ghost use Rattle.std.specs.List.{AllZip};
ghost use Rattle.port_pool.specs.declared.pairs.Lease.{Lease};
ghost use Rattle.port_pool.specs.Ports.{pair_count};
ghost use Rattle.relay_outside.specs.Settings.{AreFamilies};
ghost use Rattle.relay_outside.specs.DeviceLogs.{Gained, WhereLogged};
ghost use Rattle.media_ports.specs.Addresses.{addresses_of, AreLeased};
ghost use Rattle.media_ports.specs.Calls.{ClosesPair, ClosesUncalled, AllOpen, LeavesOpen, WhereBothLogged};
ghost use Rattle.media_ports.specs.Ends.{ends_told, AreOfLease, ArePairsOpened};

use crate::ends::{OpenedPairs, PairEnds};
use port_pool::{Lease, Leases, port_address};
use relay_outside::{Config, PortMaker};
use rtp_packet::Half;

/// Closes the two open ports of a leased pair, that for RTP first, and gives their ends back, each to the port that it was opened
/// for. It takes no memory.
pub fn close_pair<P: PortMaker>(
    ports: &mut P,
    config: &Config,
    lease: &Lease,
    ends: PairEnds<P::In, P::Out>,
)
    requires pair { lease.now.pair < pair_count config.now }
    requires open { WhereLogged (P.log ports.old) (AllOpen (addresses_of config.now (lease.now ∷ []))) }
    requires ends { AreOfLease P.In.log P.Out.log config.now lease.now ends }
    ensures closes { Gained (P.log ports.old) (P.log ports.new) (ClosesPair config.now lease.now (ends_told P.In.log P.Out.log ends)) }
    ensures open { WhereBothLogged (P.log ports.old) (P.log ports.new) (LeavesOpen (addresses_of config.now (lease.now ∷ []))) }
    ensures later { P.faults ports.old ≤ P.faults ports.new }
{
    let PairEnds {
        rtp_in,
        rtp_out,
        rtcp_in,
        rtcp_out,
    } = ends;
    let pair = lease.pair();
    ports.close(port_address(config, pair, Half::Rtp), rtp_in, rtp_out);
    ports.close(port_address(config, pair, Half::Rtcp), rtcp_in, rtcp_out);
}

/// Closes the earliest of the opened pairs, which is that of the lease.
fn close_first<P: PortMaker>(
    ports: &mut P,
    config: &Config,
    lease: &Lease,
    opened: &mut OpenedPairs<P::In, P::Out>,
)
    requires some { 0 < length opened.old.list }
    requires pair { lease.now.pair < pair_count config.now }
    requires open { WhereLogged (P.log ports.old) (AllOpen (addresses_of config.now (lease.now ∷ []))) }
    requires opened { (more : List Lease) × ArePairsOpened P.In.log P.Out.log config.now (lease.now ∷ more) opened.old.list }
    ensures closes { Gained (P.log ports.old) (P.log ports.new) (AllZip ClosesUncalled (addresses_of config.now (lease.now ∷ []))) }
    ensures fewer { length opened.new.list + 1 ≡ length opened.old.list }
    ensures opened { (more : List Lease) → ArePairsOpened P.In.log P.Out.log config.now (lease.now ∷ more) opened.old.list → ArePairsOpened P.In.log P.Out.log config.now more opened.new.list }
    ensures room { opened.new.room ≡ opened.old.room }
    ensures later { P.faults ports.old ≤ P.faults ports.new }
{
    let Some(ends) = opened.pop() else {
        unreachable!();
    };
    close_pair(ports, config, lease, ends);
}

/// Closes the opened pairs, which are those of the first leases, in their order, and leaves the list empty. Each end was opened for its
/// port, and not called since. It takes no memory.
pub fn close_opened<P: PortMaker>(
    ports: &mut P,
    config: &Config,
    leases: &Leases,
    opened: &mut OpenedPairs<P::In, P::Out>,
)
    requires within { length opened.old.list ≤ length leases.now.list }
    requires families { AreFamilies config.now }
    requires leased { AreLeased config.now leases.now.list }
    requires open { WhereLogged (P.log ports.old) (AllOpen (addresses_of config.now (take (length opened.old.list) leases.now.list))) }
    requires opened { ArePairsOpened P.In.log P.Out.log config.now (take (length opened.old.list) leases.now.list) opened.old.list }
    ensures closes { Gained (P.log ports.old) (P.log ports.new) (AllZip ClosesUncalled (addresses_of config.now (take (length opened.old.list) leases.now.list))) }
    ensures none { opened.new.list ≡ [] }
    ensures room { opened.new.room ≡ opened.old.room }
    ensures later { P.faults ports.old ≤ P.faults ports.new }
{
    for index in 0..opened.len() {
        close_first(ports, config, leases.get(index), opened);
    }
}
