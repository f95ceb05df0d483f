//! The description of an offer or an answer.

ghost use Rattle.std.specs.Prelude.{◌≡◌, ◌≢◌, ◌≤◌, ◌<◌, ◌^◌, length, None, Some, Option, IfOk, IfErr, OnOk};
ghost use Rattle.sdp_text.specs.Lines.{lines_of};
ghost use Rattle.sdp_text.specs.Descriptions.{sections_in};
ghost use Rattle.sdp_text.specs.declared.fault.SdpFault.TheVariants.{OutOfMemory as out_of_memory};
ghost use Rattle.call_board.specs.Requests.{sdp_code, v6_error, family_error, sdp_error_for};
ghost use Rattle.control_messages.specs.Bodies.{IsErrorOf};

use ng_command::KeyName;
use ng_reply::{ErrorCode, SdpPart};
use relay_outside::{Config, Family, Ip};
use sdp_text::{Sdp, SdpFault, read};
use std::alloc::Global;

/// Why a description is refused.
#[derive(Clone, Copy, Debug, PartialEq, Eq)]
pub enum DescriptionFault {
    /// Its first error: `E5` of the `address family` that comes with it, `E6` or `E7` of a line or section, or `E5` where it asks for DTLS-SRTP.
    Error(ErrorCode),
    /// Out of memory.
    OutOfMemory,
}

/// The error code of a fault.
fn sdp_code(fault: SdpFault) -> ErrorCode
    ensures { result ≡ sdp_code fault }
{
    match fault {
        SdpFault::Line(line) => ErrorCode::E6(line),
        SdpFault::Address(line) | SdpFault::PortCount(line) => ErrorCode::E7(SdpPart::Line(line)),
        SdpFault::TooManyMedia(count) => ErrorCode::E7(SdpPart::Media(count)),
        SdpFault::Dtls => ErrorCode::E5(KeyName::Tls),
        SdpFault::OutOfMemory => ErrorCode::E17,
    }
}

impl From<SdpFault> for DescriptionFault {
    ghost from_gives = { λ read fault. (error : Option _) → (read ≢ out_of_memory → error ≡ Some (sdp_code read)) → IsErrorOf error fault };

    fn from(fault: SdpFault) -> DescriptionFault {
        match fault {
            SdpFault::OutOfMemory => DescriptionFault::OutOfMemory,
            other => DescriptionFault::Error(sdp_code(other)),
        }
    }
}

/// The error of a description whose first line with an IPv6 address in effect is that one.
fn v6_error(address: Option<Ip>, line: Option<u32>) -> Option<ErrorCode>
    ensures { result ≡ v6_error address line }
{
    match (address, line) {
        (None, Some(line)) => Some(ErrorCode::E7(SdpPart::Line(line))),
        _ => None,
    }
}

/// The error of an offer that asks for this family on the other side's leg.
fn family_error(family: Option<Family>, address: Option<Ip>) -> Option<ErrorCode>
    ensures { result ≡ family_error family address }
{
    match (family, address) {
        (Some(Family::V6), None) => Some(ErrorCode::E5(KeyName::AddressFamily)),
        _ => None,
    }
}

/// Reads a description of less than 2^31 bytes, as `sdp_text::read` does. Where the relay has no address of version 6, it refuses one
/// that comes with that `address family` (`E5`), before any other error, and one with an IPv6 address in effect (`E7` of that line). An
/// answer comes with none. The `Sdp` borrows `text`.
///
/// # Errors
///
/// `DescriptionFault` says why it is refused. Running out of memory may come at any time.
pub fn read_description<'a>(
    alloc: Global,
    config: &Config,
    family: Option<Family>,
    text: &'a [u8],
) -> Result<Sdp<'a>, DescriptionFault>
    requires { length text.now < 2 ^ 31 }
    ensures lines { IfOk result (λ sdp. sdp ≡ lines_of text.now) }
    ensures few { OnOk result (length (sections_in (lines_of text.now)) ≤ 8) }
    ensures sound { OnOk result (sdp_error_for config.now family text.now ≡ None) }
    ensures error { IfErr result (λ fault. IsErrorOf (sdp_error_for config.now family text.now) fault) }
{
    if let Some(code) = family_error(family, config.interface6) {
        return Err(DescriptionFault::Error(code));
    }
    let sdp = read(alloc, text)?;
    match v6_error(config.interface6, sdp.first_v6()) {
        Some(code) => Err(DescriptionFault::Error(code)),
        None => Ok(sdp),
    }
}
