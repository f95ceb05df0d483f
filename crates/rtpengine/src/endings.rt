use outside_real::{LinkFault, socket_addr};
use relay_app::Status;
use std::io::{self, Error, ErrorKind};
use std::process::ExitCode;

/// Why the program ends.
#[derive(Drop)]
pub(crate) enum Ending {
    /// Nothing was run: out of memory.
    NoMemory,
    /// Nothing was run: the system gave no random bytes.
    NoSeed(Error),
    /// The run ended, with its status and what the control link met.
    Ran(Status, Option<LinkFault>),
    /// A replay ended, with its status.
    Replayed(Status),
}

impl Ending {
    ghost use Rattle.std.specs.Prelude.{◌≡◌};
    ghost use Rattle.std.specs.Process.{exit_status};
    ghost use Rattle.rtpengine.specs.Endings.{ending_number, ending_status};

    /// The ending of a run with these words, which ended with this status, and whose control link met this.
    pub(crate) fn of_run(words: &[&str], status: Status, fault: Option<LinkFault>) -> Ending
        ensures { ending_status result ≡ status }
    {
        match words.first() {
            Some(&"replay") => Ending::Replayed(status),
            _ => Ending::Ran(status, fault),
        }
    }

    /// The number that the program ends with: that of the run's status. Where nothing was run it is that of a run that got no memory.
    pub(crate) fn exit_code(&self) -> ExitCode
        ensures { exit_status result ≡ ending_number self.now }
    {
        ExitCode::from(match self {
            Ending::NoMemory | Ending::NoSeed(_) => Status::OutOfMemory.number(),
            Ending::Ran(status, _) | Ending::Replayed(status) => status.number(),
        })
    }

    /// Writes one line to standard error where the status isn't 0. Nothing depends on that line.
    pub(crate) fn tell(&self, err: &impl Eprint) {
        let _ = match self {
            Ending::NoMemory => eprintln!(err; "rtpengine: out of memory"),
            Ending::NoSeed(error) => eprintln!(err; "rtpengine: no random bytes: {error}"),
            Ending::Ran(Status::Ok, _) | Ending::Replayed(Status::Ok) => Ok(()),
            Ending::Replayed(Status::OutOfMemory) => eprintln!(err;
                "rtpengine: out of memory, or a device in memory did otherwise than the script says"
            ),
            Ending::Ran(Status::ControlFault, fault) => tell_fault(err, *fault),
            Ending::Ran(status, _) | Ending::Replayed(status) => {
                eprintln!(err; "rtpengine: {}", cause(*status))
            }
        };
    }
}

/// Why a run ended with this status, in plain words.
fn cause(status: Status) -> &'static str {
    match status {
        Status::Ok => "the end",
        Status::Usage => "wrong words (see above)",
        Status::ControlFault => "the control socket failed",
        Status::PrintFault => "writing to standard output failed",
        Status::OutOfMemory => "out of memory",
        Status::ScriptFault => "a line of the script is wrong (see above)",
        Status::TurnsSpent => "all waits for a command that --turns allows are over",
        Status::ScriptRead => "reading the script failed",
    }
}

/// Writes what the control link met.
fn tell_fault(err: &impl Eprint, fault: Option<LinkFault>) -> io::Result<()> {
    match fault {
        Some(LinkFault::Bind { at, error }) => {
            let at = socket_addr(at);
            match error.kind() {
                ErrorKind::Uncategorized => eprintln!(err; "rtpengine: cannot bind {at}: {error}"),
                kind => eprintln!(err; "rtpengine: cannot bind {at}: {kind}"),
            }
        }
        Some(LinkFault::Take { error }) => {
            eprintln!(err; "rtpengine: receiving on the control socket failed: {error}")
        }
        None => eprintln!(err; "rtpengine: {}", cause(Status::ControlFault)),
    }
}
