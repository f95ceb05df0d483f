ghost use Rattle.std.specs.Prelude.{◌≡◌, ◌<◌, ◌^◌};
ghost use Rattle.srtp_sources.specs.Counter.{packet_counter};

/// The counter with which the keystream of a packet begins (RFC 3711 section 4.1.1), from the salt of its session, its
/// SSRC and its index, which is below 2^48.
#[tactic(auto, unfolding(crate::specs::Counter::packet_counter))]
pub fn packet_counter(salt: &[u8; 14], ssrc: u32, index: u64) -> u128
    requires { index < 2 ^ 48 }
    ensures { result ≡ packet_counter salt.now ssrc index }
{
    let mut block = [0; 16];
    block[..14].copy_from_slice(salt);
    u128::from_be_bytes(block)
        ^ (u128::from(ssrc) * 18_446_744_073_709_551_616)
        ^ (u128::from(index) * 65_536)
}
