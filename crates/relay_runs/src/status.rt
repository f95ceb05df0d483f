/// How a call of `run` ended.
#[derive(Clone, Copy, PartialEq, Eq, Debug)]
pub enum Status {
    /// `serve`: the control link said that it gives no more. `replay`: the script was read to its end. `load`: every packet was taken.
    Ok,
    /// The words are not those of a command.
    Usage,
    /// The control link met a fault when it was bound or asked for a datagram.
    ControlFault,
    /// The sink met a fault; this takes the place of any other status.
    PrintFault,
    /// Out of memory.
    OutOfMemory,
    /// `replay`: a line of the script is not in the grammar, or names a receipt that is not held.
    ScriptFault,
    /// `serve`: as many takes as `--turns` allows gave a datagram or nothing.
    TurnsSpent,
    /// `replay`: the script's source met a fault.
    ScriptRead,
}

impl Status {
    ghost use Rattle.std.specs.Prelude.{◌≡◌};
    ghost use Rattle.relay_runs.specs.Statuses.{status_number};

    /// The exit status of the program: 0, and 2 to 8.
    pub fn number(self) -> u8
        ensures { result ≡ status_number self }
    {
        match self {
            Status::Ok => 0,
            Status::Usage => 2,
            Status::ControlFault => 3,
            Status::PrintFault => 4,
            Status::OutOfMemory => 5,
            Status::ScriptFault => 6,
            Status::TurnsSpent => 7,
            Status::ScriptRead => 8,
        }
    }
}
