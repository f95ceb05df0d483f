ghost use Rattle.std.specs.Prelude.{◌≡◌, ◌-◌, ◌^◌, nat_lt};
ghost use Rattle.rand_chacha.specs.ChaCha.{key_of};
ghost use Rattle.outside_real.specs.KeyStream.{seed_bytes, stream_of};

use rand_chacha::ChaCha20Rng;
use rand_core::{SeedableRng, utils};
use relay_outside::{Failed, KeyAndSalt, KeyCall, KeySource};
use std::marker::Model;

/// Master keys and salts from the ChaCha20 stream of a seed (RFC 8439 section 2.3, with a block counter of
/// 64 bits and the nonce 0): each is the first thirty bytes of the next eight 32-bit words, each word with
/// its lowest byte first.
///
/// It never fails. It tells its draws as long as it has made fewer than 2^64 - 1 of them.
#[derive(Drop)]
pub struct ChaChaKeys {
    generator: ChaCha20Rng,
    drawn: u64,
}

impl Model for ChaChaKeys {
    ghost use Rattle.std.specs.Prelude.{◌≡◌, ◌*◌, ◌-◌, ◌^◌, ◌<◌};
    ghost use Rattle.outside_real.specs.KeyStream.{KeyStream};

    ghost Value = { KeyStream };

    ghost view = { λ keys. record { seed_words = keys.generator.key; drawn = keys.drawn } };

    ghost invariant = { λ keys. (keys.generator.stream ≡ 0) × (keys.drawn < 2 ^ 64 - 1 → keys.generator.word_pos ≡ 8 * keys.drawn) };
}

impl ChaChaKeys {
    /// The keys of this seed's stream, of which none was drawn yet. The seed's 32 bytes are eight words,
    /// each with its lowest byte first.
    pub fn from_seed(seed: [u8; 32]) -> ChaChaKeys
        ensures { result ≡ record { seed_words = key_of seed; drawn = 0 } }
    {
        ChaChaKeys {
            generator: ChaCha20Rng::from_seed(seed),
            drawn: 0,
        }
    }

    /// The keys of the stream of the seed that a number stands for, of which none was drawn yet. The seed's bytes are the number's eight
    /// bytes, lowest first, and then 24 zero bytes.
    pub fn from_number(seed: u64) -> ChaChaKeys
        ensures { result ≡ stream_of seed }
    {
        ChaChaKeys::from_seed(bytes_of_seed(seed))
    }

    /// Whether it still tells its draws.
    pub fn tells(&self) -> bool
        ensures { result ≡ nat_lt self.now.drawn (2 ^ 64 - 1) }
    {
        self.drawn < u64::MAX
    }
}

/// The 32 bytes that a number stands for as a seed: its eight bytes, lowest first, and 24 zero bytes.
fn bytes_of_seed(seed: u64) -> [u8; 32]
    ensures { result ≡ seed_bytes seed }
{
    let mut bytes = [0; 32];
    bytes[..8].copy_from_slice(&seed.to_le_bytes());
    bytes
}

impl KeySource for ChaChaKeys {
    ghost use Rattle.std.specs.Prelude.{◌≡◌, ◌-◌, ◌^◌, ◌<◌, IfOk, IsOk};
    ghost use Rattle.relay_outside.specs.DeviceLogs.{Gains, HasCause};
    ghost use Rattle.relay_outside.specs.Keys.{drawn_as};
    ghost use Rattle.relay_outside.specs.Failures.{next_count};
    ghost use Rattle.outside_real.specs.KeyStream.{key_of_draw, logged_draws};

    ghost log = { logged_draws };

    ghost faults = { λ keys. 0 };

    fn draw(&mut self) -> Result<KeyAndSalt, Failed>
        ensures log { Gains (logged_draws self.old) (logged_draws self.new) (drawn_as result) }
        ensures cause { HasCause 0 0 result }
        ensures done { IsOk result }
        ensures key { self.old.drawn < 2 ^ 64 - 1 → IfOk result (λ key. key ≡ key_of_draw self.old.seed_words self.old.drawn) }
        ensures counted { self.new ≡ record self.old { drawn = next_count self.old.drawn } }
    {
        let mut key = [0; 30];
        utils::fill_bytes_via_u32(&mut self.generator, &mut key);
        self.drawn = self.drawn.saturating_add(1);
        Ok(key)
    }
}
