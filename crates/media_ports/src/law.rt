ghost use Rattle.std.specs.Prelude.{◌≡◌, ◌<◌, ℕ, true, [], ◌∷◌, Some, Option, List};
ghost use Rattle.relay_outside.specs.declared.settings.Config.{Config};
ghost use Rattle.relay_outside.specs.declared.ports.PortCall.{PortCall};
ghost use Rattle.relay_outside.specs.Settings.{AreFamilies};
ghost use Rattle.relay_outside.specs.DeviceLogs.{Gained, WhereLogged};
ghost use Rattle.histories.specs.Words.{has};
ghost use Rattle.port_pool.specs.Ports.{pair_count};
ghost use Rattle.port_pool.specs.declared.pairs.Lease.{Lease};
ghost use Rattle.media_ports.specs.Addresses.{addresses_of, pairs_of_leases, AreDistinct, AreLeased};
ghost use Rattle.media_ports.specs.Calls.{OpensPairs, OpensUpTo, ClosesPair, NoneOpen, AllOpen};
ghost use Rattle.media_ports.specs.Ends.{EndLogs};
ghost use Rattle.media_ports.specs.OpenPorts.{LogsHeld, AreOthers, HasBoth, HasWithout};

/// Theorem (no run-time code): each port of leases of different pairs has an address of its own.
pub fn leases_have_addresses()
    ensures { (config : Config) (leases : List Lease) → AreFamilies config → AreLeased config leases → AreDistinct (addresses_of config leases) }
{}

/// Theorem (no run-time code): where just the ports of the held pairs are open, those of leases of other pairs are closed.
pub fn other_pairs_are_closed()
    ensures { (config : Config) (log : Option (List PortCall)) (pairs : List ℕ) (leases : List Lease) → LogsHeld config log pairs → AreLeased config leases →
        AreOthers pairs (pairs_of_leases leases) → WhereLogged log (NoneOpen (addresses_of config leases)) }
{}

/// Theorem (no run-time code): where just the ports of the held pairs are open, both ports of a lease of one of them are.
pub fn held_pairs_are_open()
    ensures { (config : Config) (log : Option (List PortCall)) (pairs : List ℕ) (lease : Lease) → LogsHeld config log pairs → lease.pair < pair_count config →
        has pairs lease.pair ≡ true → WhereLogged log (AllOpen (addresses_of config (lease ∷ []))) }
{}

/// Theorem (no run-time code): just the ports of the held pairs are open, also after more pairs were opened.
pub fn opened_pairs_are_held()
    ensures { (config : Config) (old new : Option (List PortCall)) (pairs now : List ℕ) (leases : List Lease) → AreFamilies config → LogsHeld config old pairs → AreLeased config leases →
        Gained old new (OpensPairs config leases) → HasBoth pairs (pairs_of_leases leases) now → LogsHeld config new now }
{}

/// Theorem (no run-time code): just the ports of the held pairs are open, also after the opening of others failed and was undone.
pub fn undone_pairs_are_not_held()
    ensures { (config : Config) (old new : Option (List PortCall)) (pairs : List ℕ) (leases : List Lease) (opened : ℕ) → LogsHeld config old pairs → AreLeased config leases →
        AreOthers pairs (pairs_of_leases leases) → Gained old new (OpensUpTo (addresses_of config leases) opened) → LogsHeld config new pairs }
{}

/// Theorem (no run-time code): just the ports of the held pairs are open, also after those of one were closed.
pub fn closed_pairs_are_not_held()
    ensures { (config : Config) (old new : Option (List PortCall)) (pairs now : List ℕ) (lease : Lease) (ends : EndLogs) → AreFamilies config → LogsHeld config old pairs →
        lease.pair < pair_count config → Gained old new (ClosesPair config lease ends) →
        HasWithout pairs lease.pair now → LogsHeld config new now }
{}
