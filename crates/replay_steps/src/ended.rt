/// How a replay ended.
#[derive(Clone, Copy, PartialEq, Eq, Debug)]
pub enum Ended {
    /// The script was read to its end, and all its steps were made.
    Finished,
    /// A line is not in the grammar, or names a receipt that is not held. It was told last.
    ScriptFault,
    /// The script could not be read further. The steps of the lines before were made.
    ScriptRead,
    /// A line could not be written. Nothing was done after it.
    PrintFault,
    /// There was no memory, or a device in memory logged nothing any more.
    OutOfMemory,
    /// A device in memory did otherwise than the script says, at a line that calls devices: `ng`, `take`, `relay` or `packet`. The steps of
    /// the lines before were made.
    DeviceFault,
}

/// Why it can't be told what a step did.
#[derive(Clone, Copy, PartialEq, Eq, Debug)]
pub(crate) enum Untold {
    /// There was no memory, or a device in memory logged nothing any more.
    OutOfMemory,
    /// A device in memory did otherwise than the script says: it gave another datagram, packet or key, or a call failed where it had
    /// not to, or did not where it had to.
    DeviceFault,
}
