//! What a run is handed: the devices that its control turns ask.
ghost use Rattle.std.specs.Prelude.{◌≤◌};

use relay_outside::{ControlLink, KeySource, PortMaker, Timer};

/// The devices that the control turns of a run ask, each borrowed for the run.
///
/// A function that is handed them says that each reference stays the same (`AreSame`): without
/// that, its caller would not learn what became of a device.
#[derive(Drop)]
pub struct Devices<'l, 'p, 'k, 't, N, P, K, T> {
    /// It takes datagrams, and sends their replies.
    pub link: &'l mut N,
    /// It opens and closes the ports of calls.
    pub ports: &'p mut P,
    /// It draws their keys.
    pub keys: &'k mut K,
    /// It gives the moment of each turn.
    pub timer: &'t mut T,
}

/// What is known of devices by what they tell at one moment and at a later one.
pub trait Tells {
    ghost use Rattle.relay_runs.specs.ServeRuns.{Outside};

    /// What they told then and tell now, with their counts of faults of ports and of keys.
    ghost outside: { Self → Self → Outside };

    /// No count of faults fell.
    ghost later: { Self → Self → Type 0 };
}

impl<N: ControlLink, P: PortMaker, K: KeySource, T: Timer> Tells
    for Devices<'_, '_, '_, '_, N, P, K, T> {
    ghost outside = { λ old new. record {
      link = N.log old.link.now;
      link_now = N.log new.link.now;
      timer = T.log old.timer.now;
      timer_now = T.log new.timer.now;
      opened = P.log old.ports.now;
      opened_now = P.log new.ports.now;
      drew = K.log old.keys.now;
      drew_now = K.log new.keys.now;
      port_faults = P.faults old.ports.now;
      port_faults_now = P.faults new.ports.now;
      key_faults = K.faults old.keys.now;
      key_faults_now = K.faults new.keys.now;
    } };

    ghost later = { λ old new. (N.faults old.link.now ≤ N.faults new.link.now) × (P.faults old.ports.now ≤ P.faults new.ports.now) × (K.faults old.keys.now ≤ K.faults new.keys.now) };
}
