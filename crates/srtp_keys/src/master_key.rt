// Master keys that this side drew.

ghost use Rattle.std.specs.Prelude.{◌≡◌, ℕ, List};
ghost use Rattle.srtp_keys.specs.MasterKey.{MasterKey};

use relay_outside::KeyAndSalt;
use std::marker::Model;

/// A master key with its salt that a key source gave, and the number of the draw.
///
/// It can't be cloned: `split` spends it, and gives the one key for RTP and the one for RTCP.
#[derive(Drop)]
pub struct DrawnKey {
    number: u64,
    bytes: KeyAndSalt,
}

impl Model for DrawnKey {
    ghost Value = { MasterKey };

    ghost view = { λ k. record { number = k.number; bytes = k.bytes } };
}

/// A drawn key, to protect RTP. It can't be cloned.
#[derive(Drop)]
pub struct RtpKey {
    number: u64,
    bytes: KeyAndSalt,
}

impl Model for RtpKey {
    ghost Value = { MasterKey };

    ghost view = { λ k. record { number = k.number; bytes = k.bytes } };
}

/// A drawn key, to protect RTCP. It can't be cloned.
#[derive(Drop)]
pub struct RtcpKey {
    number: u64,
    bytes: KeyAndSalt,
}

impl Model for RtcpKey {
    ghost Value = { MasterKey };

    ghost view = { λ k. record { number = k.number; bytes = k.bytes } };
}

impl DrawnKey {
    /// The key of a draw: `bytes` is a master key of 16 bytes and a master salt of 14.
    pub fn from_draw(number: u64, bytes: KeyAndSalt) -> DrawnKey
        ensures { result ≡ record { number = number; bytes = bytes } }
    {
        DrawnKey { number, bytes }
    }

    /// The number of the draw.
    pub fn number(&self) -> u64
        ensures { result ≡ self.now.number }
    {
        self.number
    }

    /// The two keys that the drawn key is for, each of the same bytes.
    pub fn split(self) -> (RtpKey, RtcpKey)
        ensures rtp { result.0 ≡ self }
        ensures rtcp { result.1 ≡ self }
    {
        let DrawnKey { number, bytes } = self;
        (RtpKey { number, bytes }, RtcpKey { number, bytes })
    }
}

impl RtpKey {
    /// The number of the draw.
    pub fn number(&self) -> u64
        ensures { result ≡ self.now.number }
    {
        self.number
    }

    /// The key's bytes, which spends it.
    pub fn into_bytes(self) -> KeyAndSalt
        ensures { result ≡ self.bytes }
    {
        self.bytes
    }
}

impl RtcpKey {
    /// The number of the draw.
    pub fn number(&self) -> u64
        ensures { result ≡ self.now.number }
    {
        self.number
    }

    /// The key's bytes, which spends it.
    pub fn into_bytes(self) -> KeyAndSalt
        ensures { result ≡ self.bytes }
    {
        self.bytes
    }
}
