ghost use Rattle.std.specs.Prelude.{◌≡◌};
ghost use Rattle.state_lines.specs.OneRead.{fault_at};

/// Why the lines of a state were not read.
#[derive(Clone, Copy, PartialEq, Eq, Debug)]
pub enum LineFault {
    /// The line of this number, counted from 1, isn't the one that the written form demands there, or the lines ended before it. It is
    /// the least such line of those that were read.
    NotState(u32),
    /// The source failed; its count of faults rose in that read.
    Source,
    /// There was no memory for a value, or its bytes or the lines are too many to be counted.
    OutOfMemory,
}

/// Why one line was not read.
#[derive(Clone, Copy, PartialEq, Eq, Debug)]
pub(crate) enum Unread {
    /// The line isn't of the form that is wanted.
    NotOfForm,
    /// There was no memory for what it says.
    OutOfMemory,
}

impl Unread {
    /// The fault of the line of this number.
    pub(crate) fn at(self, number: u32) -> LineFault
        ensures { result ≡ fault_at self number }
    {
        match self {
            Unread::NotOfForm => LineFault::NotState(number),
            Unread::OutOfMemory => LineFault::OutOfMemory,
        }
    }
}
