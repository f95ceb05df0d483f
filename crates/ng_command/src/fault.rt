ghost use Rattle.std.specs.Prelude.{◌≡◌};
ghost use Rattle.ng_command.specs.Bodies.{fault_of_bad};
ghost use Rattle.ng_command.specs.declared.fault.CommandFault.TheVariants.{OutOfMemory as out_of_memory};

use ng_bencode::Bad;
use relay_outside::OutOfMemory;

/// A key of a command, as faults name it.
#[derive(Clone, Copy, Debug, PartialEq, Eq)]
pub enum KeyName {
    /// `call-id`
    CallId,
    /// `from-tag`
    FromTag,
    /// `to-tag`
    ToTag,
    /// `sdp`
    Sdp,
    /// `flags`
    Flags,
    /// `replace`
    Replace,
    /// `transport protocol`
    TransportProtocol,
    /// `received from`
    ReceivedFrom,
    /// `limit`
    Limit,
    /// `delete delay`
    DeleteDelay,
    /// `address family`
    AddressFamily,
    /// `rtcp-mux`
    RtcpMux,
    /// `ICE`
    Ice,
    /// `DTLS`
    Dtls,
    /// `record call`
    RecordCall,
    /// `codec`
    Codec,
    /// `UDP/TLS`: the protocol of a section of a description, and no key of a command.
    Tls,
}

/// Why a body is not read as a command.
#[derive(Clone, Copy, Debug, PartialEq, Eq)]
pub enum CommandFault {
    /// The body is no bencoded dictionary (E1).
    Malformed,
    /// `command` is missing or no byte string (E2).
    NoCommand,
    /// `command` is none of the six commands (E3).
    Unrecognized,
    /// The first key that is missing or wrong (E4).
    Key(KeyName),
    /// Else the first option that this proxy does not do (E5).
    Unsupported(KeyName),
    /// There was no memory for the command.
    OutOfMemory,
}

impl From<OutOfMemory> for CommandFault {
    ghost from_gives = { λ _ fault. fault ≡ out_of_memory };

    fn from(_refused: OutOfMemory) -> CommandFault {
        CommandFault::OutOfMemory
    }
}

impl From<Bad> for CommandFault {
    ghost from_gives = { λ bad fault. fault ≡ fault_of_bad bad };

    fn from(bad: Bad) -> CommandFault {
        match bad {
            Bad::NotBencode => CommandFault::Malformed,
            Bad::OutOfMemory => CommandFault::OutOfMemory,
        }
    }
}
