ghost use Rattle.std.specs.Prelude.{◌≡◌, ◌≤◌, ◌<◌, ◌+◌, ◌*◌, true, false, List, [], ◌∷◌, Some, length, take, slice_get, IfOk, IfErr, OnOk, OnErr};
ghost use Rattle.port_pool.specs.declared.pairs.Lease.{Lease};
ghost use Rattle.std.specs.List.{AllZip};
ghost use Rattle.port_pool.specs.Ports.{pair_count};
ghost use Rattle.relay_outside.specs.Settings.{AreFamilies};
ghost use Rattle.relay_outside.specs.DeviceLogs.{Gained, HasCause, WhereLogged};
ghost use Rattle.media_ports.specs.Addresses.{addresses_of, AreLeased};
ghost use Rattle.media_ports.specs.Calls.{OpensPairs, OpensHalf, OpensUpTo, ClosesUncalled, AllOpen, NoneOpen, SameOpen, WhereBothLogged};
ghost use Rattle.media_ports.specs.Ends.{IsPairOpened, ArePairsOpened, IsHalfOpened, half_count};

use crate::closed_ports::close_opened;
use crate::ends::{OpenedPairs, PairEnds};
use port_pool::{Lease, Leases, port_address};
use relay_outside::{Config, PortMaker};
use rtp_packet::Half;

/// A port could not be opened. Those that were opened before it are closed again.
#[derive(Clone, Copy, PartialEq, Eq, Debug)]
pub struct PortFault {
    /// How many ports were opened before it.
    pub opened: usize,
}

/// The ends of a port for RTP whose neighbour for RTCP could not be opened.
struct HalfOpened<I, O> {
    receiving: I,
    sending: O,
}

/// Opens the ports of a leased pair, that for RTP first. `Err`: a port could not be opened, that for RTCP where the port for
/// RTP is open.
fn open_pair<P: PortMaker>(
    ports: &mut P,
    config: &Config,
    lease: &Lease,
) -> Result<PairEnds<P::In, P::Out>, Option<HalfOpened<P::In, P::Out>>>
    requires pair { lease.now.pair < pair_count config.now }
    requires closed { WhereLogged (P.log ports.old) (NoneOpen (addresses_of config.now (lease.now ∷ []))) }
    ensures opens { OnOk result (Gained (P.log ports.old) (P.log ports.new) (OpensPairs config.now (lease.now ∷ []))) }
    ensures opened { IfOk result (IsPairOpened P.In.log P.Out.log config.now lease.now) }
    ensures then_fails { IfErr result (λ half. Gained (P.log ports.old) (P.log ports.new) (OpensHalf (addresses_of config.now (lease.now ∷ [])) (half_count half))) }
    ensures half_opened { IfErr result (IsHalfOpened P.In.log P.Out.log config.now lease.now) }
    ensures cause { HasCause (P.faults ports.old) (P.faults ports.new) result }
{
    let pair = lease.pair();
    let Ok((rtp_in, rtp_out)) = ports.open(port_address(config, pair, Half::Rtp)) else {
        return Err(None);
    };
    match ports.open(port_address(config, pair, Half::Rtcp)) {
        Ok((rtcp_in, rtcp_out)) => Ok(PairEnds {
            rtp_in,
            rtp_out,
            rtcp_in,
            rtcp_out,
        }),
        Err(_) => Err(Some(HalfOpened {
            receiving: rtp_in,
            sending: rtp_out,
        })),
    }
}

/// Closes what was opened, in the order of the openings: the opened pairs, which are those of the first leases, and the port
/// for RTP of the next lease, where that is open.
fn undo<P: PortMaker>(
    ports: &mut P,
    config: &Config,
    leases: &Leases,
    opened: &mut OpenedPairs<P::In, P::Out>,
    half: Option<HalfOpened<P::In, P::Out>>,
) -> PortFault
    requires within { length opened.old.list < length leases.now.list }
    requires families { AreFamilies config.now }
    requires leased { AreLeased config.now leases.now.list }
    requires open { WhereLogged (P.log ports.old) (AllOpen (take (2 * length opened.old.list + half_count half) (addresses_of config.now leases.now.list))) }
    requires opened { ArePairsOpened P.In.log P.Out.log config.now (take (length opened.old.list) leases.now.list) opened.old.list }
    requires half_opened { (lease : Lease) → slice_get leases.now.list (length opened.old.list) ≡ Some lease → IsHalfOpened P.In.log P.Out.log config.now lease half }
    ensures count { result.opened ≡ 2 * length opened.old.list + half_count half }
    ensures closes { Gained (P.log ports.old) (P.log ports.new) (AllZip ClosesUncalled (take (2 * length opened.old.list + half_count half) (addresses_of config.now leases.now.list))) }
    ensures none { opened.new.list ≡ [] }
    ensures room { opened.new.room ≡ opened.old.room }
    ensures later { P.faults ports.old ≤ P.faults ports.new }
{
    prove!(config.port_max <= 65_535);
    let pairs = opened.len();
    close_opened(ports, config, leases, opened);
    match half {
        None => PortFault { opened: 2 * pairs },
        Some(HalfOpened { receiving, sending }) => {
            let pair = leases.get(pairs).pair();
            ports.close(port_address(config, pair, Half::Rtp), receiving, sending);
            PortFault {
                opened: 2 * pairs + 1,
            }
        }
    }
}

/// Opens the ports of leased pairs, in the order of leases and that for RTP before that for RTCP, and takes their ends into
/// an empty list with room for them. It takes no memory. No two leases are of one pair, and none of their ports is open.
///
/// After a fault the ports that were opened are closed again, in the order of their openings, and the list is empty.
pub fn open_pairs<P: PortMaker>(
    ports: &mut P,
    config: &Config,
    leases: &Leases,
    opened: &mut OpenedPairs<P::In, P::Out>,
) -> Result<(), PortFault>
    requires none { opened.old.list ≡ [] }
    requires room { length leases.now.list ≤ opened.old.room }
    requires families { AreFamilies config.now }
    requires leased { AreLeased config.now leases.now.list }
    requires closed { WhereLogged (P.log ports.old) (NoneOpen (addresses_of config.now leases.now.list)) }

    // Two openings for each lease, and the ends of each pair.
    ensures opens { OnOk result (Gained (P.log ports.old) (P.log ports.new) (OpensPairs config.now leases.now.list)) }
    ensures pairs { OnOk result (length opened.new.list ≡ length leases.now.list) }
    ensures opened { OnOk result (ArePairsOpened P.In.log P.Out.log config.now leases.now.list opened.new.list) }

    // After a fault everything is closed again.
    ensures then_fails { IfErr result (λ fault. Gained (P.log ports.old) (P.log ports.new) (OpensUpTo (addresses_of config.now leases.now.list) fault.opened)) }
    ensures some_are_left { IfErr result (λ fault. fault.opened < 2 * length leases.now.list) }
    ensures same { OnErr result (WhereBothLogged (P.log ports.old) (P.log ports.new) SameOpen) }
    ensures none { OnErr result (opened.new.list ≡ []) }
    ensures room { opened.new.room ≡ opened.old.room }
    ensures cause { HasCause (P.faults ports.old) (P.faults ports.new) result }
{
    for index in 0..leases.len() {
        match open_pair(ports, config, leases.get(index)) {
            Ok(ends) => opened.push(ends),
            Err(half) => return Err(undo(ports, config, leases, opened, half)),
        }
    }
    Ok(())
}
