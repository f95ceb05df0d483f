//! The devices of a replay.
ghost use Rattle.std.specs.Prelude.{◌≡◌, Some, [], IsTrue, IsSome, IfOk};

use crate::ended::Untold;
use relay_outside::OutOfMemory;
use relay_script::Step;
use replay_devices::{ReplayKeys, ReplayLink, ReplayPorts, Timetable};
use std::alloc::Global;

/// The control link, the port maker and the key source.
#[derive(Drop)]
pub(crate) struct Devices<'a> {
    pub(crate) link: ReplayLink<'a>,
    pub(crate) ports: ReplayPorts<'a>,
    pub(crate) keys: ReplayKeys<'a>,
}

impl<'a> Devices<'a> {
    /// Those of a replay of these steps, with keys of that seed after those of the lines.
    pub(crate) fn new(
        alloc: Global,
        steps: &'a [Step],
        timetable: &'a Timetable<'a>,
        seed: u64,
    ) -> Result<Devices<'a>, OutOfMemory>
        ensures { IfOk result (λ devices. devices.ports.log ≡ Some []) }
    {
        let link = ReplayLink::new(alloc, steps)?;
        let ports = ReplayPorts::new(alloc, timetable)?;
        let keys = ReplayKeys::new(alloc, steps, seed)?;
        Ok(Devices { link, ports, keys })
    }

    /// The line of this index, from 0, is made next.
    pub(crate) fn begin(&mut self, index: usize)
        ensures ports { self.new.ports.log ≡ self.old.ports.log }
    {
        self.link.begin(index);
        self.ports.begin(index);
        self.keys.begin(index);
    }

    /// Whether all of them still tell their lists.
    pub(crate) fn tell(&self) -> bool
        ensures { IsTrue result → IsSome self.now.link.log × IsSome self.now.ports.log × IsSome self.now.keys.log }
    {
        self.link.tells() && self.ports.tells() && self.keys.tells()
    }

    /// Why one of them didn't do as the script says: it logs nothing any more, for want of memory, or it did otherwise.
    pub(crate) fn cause(&self) -> Untold
        ensures { result ≡ Untold.DeviceFault → IsSome self.now.link.log × IsSome self.now.ports.log × IsSome self.now.keys.log }
    {
        if self.tell() {
            Untold::DeviceFault
        } else {
            Untold::OutOfMemory
        }
    }
}
