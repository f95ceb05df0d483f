//! What a crypto line says.

ghost use Rattle.std.specs.Prelude.{◌≡◌};

use relay_outside::KeyAndSalt;

/// The crypto suite of a line (RFC 4568 section 6.2). Both encrypt by AES-128 in counter mode and
/// authenticate by HMAC-SHA1; they differ in the length of an SRTP packet's tag.
#[derive(Clone, Copy, Debug, PartialEq, Eq)]
pub enum Suite {
    /// `AES_CM_128_HMAC_SHA1_80`: a tag of 80 bits.
    Tag80,
    /// `AES_CM_128_HMAC_SHA1_32`: a tag of 32 bits.
    Tag32,
}

impl Suite {
    ghost use Rattle.sdes_lines.specs.CryptoLine.{suite_name};

    /// The suite's name in a crypto line.
    pub(crate) fn name(self) -> &'static [u8]
        ensures { result.now ≡ suite_name self }
    {
        match self {
            Suite::Tag80 => b"AES_CM_128_HMAC_SHA1_80",
            Suite::Tag32 => b"AES_CM_128_HMAC_SHA1_32",
        }
    }
}

/// One usable `a=crypto` line (RFC 4568 section 4).
#[derive(Clone, Copy, Debug, PartialEq, Eq)]
pub struct CryptoLine {
    /// The line's number among those of its section, 0 to 999,999,999.
    pub tag: u32,
    /// The crypto suite that the key is for.
    pub suite: Suite,
    /// The master key (16 bytes) followed by the master salt (14 bytes).
    pub key: KeyAndSalt,
}
