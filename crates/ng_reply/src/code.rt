use ng_command::KeyName;

/// A place of a description.
#[derive(Clone, Copy, Debug, PartialEq, Eq)]
pub enum SdpPart {
    /// A line, counted from 1.
    Line(u32),
    /// A section, counted from 1.
    Media(u32),
}

/// Why a command is refused, or what a success warns of.
#[derive(Clone, Copy, Debug, PartialEq, Eq)]
pub enum ErrorCode {
    /// The body is no bencoded dictionary.
    E1,
    /// `command` is missing or no byte string.
    E2,
    /// `command` is none of the six commands.
    E3,
    /// The key is missing or wrong.
    E4(KeyName),
    /// The key asks for what this proxy does not do.
    E5(KeyName),
    /// The line of the description is faulty.
    E6(u32),
    /// The line or the section of the description asks for what this proxy does not do.
    E7(SdpPart),
    /// No crypto line of a section can be used.
    E8,
    /// No call of this call-id is live.
    E9,
    /// The tag is no side's of the call.
    E10,
    /// The last offer is the other side's.
    E11,
    /// The answer has another number of sections than the offer.
    E12,
    /// Too few pairs of ports are free.
    E13,
    /// As many calls are live as may be.
    E14,
    /// A port was not opened.
    E15,
    /// A key was not drawn.
    E16,
    /// There was no memory.
    E17,
    /// The datagram has more than 16,384 bytes.
    E18,
    /// The call is ending: a delete gave it a delay.
    E19,
    /// An address of an active section is of another family than its side's leg, or its addresses are of two.
    E20,
}
