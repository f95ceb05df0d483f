//! The key source of a load. Its type names the number that its seed is, so that what it drew is known after it was handed to others.
ghost use Rattle.std.specs.Prelude.{◌≡◌, ◌-◌, ◌^◌, nat_lt};
ghost use Rattle.relay_outside.specs.DeviceLogs.{Gains, HasCause};
ghost use Rattle.relay_outside.specs.Keys.{drawn_as};
ghost use Rattle.outside_real.specs.KeyStream.{stream_of, logged_draws};

use outside_real::ChaChaKeys;
use relay_outside::{Failed, KeyAndSalt, KeyCall, KeySource};
use std::marker::{Brand, Model, PhantomData};

/// A seed.
pub(crate) trait Seed {
    ghost use Rattle.std.specs.Prelude.{ℕ};

    /// The number that it is.
    ghost number: { ℕ };
}

impl Seed for Brand {
    ghost number = { 0 };
}

/// The keys of the stream of a seed.
#[derive(Drop)]
pub(crate) struct SeedKeys<S: Seed> {
    keys: ChaChaKeys,
    seed: PhantomData<S>,
}

impl<S: Seed> Model for SeedKeys<S> {
    ghost use Rattle.std.specs.Prelude.{◌≡◌};
    ghost use Rattle.outside_real.specs.KeyStream.{KeyStream, stream_of};

    ghost Value = { KeyStream };

    ghost view = { λ keys. keys.keys };

    ghost invariant = { λ keys. keys.keys.seed_words ≡ (stream_of S.number).seed_words };
}

impl<S: Seed> SeedKeys<S> {
    /// The stream of this seed, of which nothing was drawn yet.
    pub(crate) fn new(seed: u64) -> SeedKeys<S>
        requires { seed ≡ S.number }
        ensures { result ≡ stream_of seed }
    {
        SeedKeys {
            keys: ChaChaKeys::from_number(seed),
            seed: PhantomData,
        }
    }

    /// Whether it still tells its draws.
    pub(crate) fn tells(&self) -> bool
        ensures tells { result ≡ nat_lt self.now.drawn (2 ^ 64 - 1) }
        ensures of_seed { self.now.seed_words ≡ (stream_of S.number).seed_words }
    {
        self.keys.tells()
    }
}

impl<S: Seed> KeySource for SeedKeys<S> {
    ghost use Rattle.std.specs.Prelude.{◌≡◌};
    ghost use Rattle.relay_outside.specs.DeviceLogs.{Gains, HasCause};
    ghost use Rattle.relay_outside.specs.Keys.{drawn_as};
    ghost use Rattle.outside_real.specs.KeyStream.{logged_draws};

    ghost log = { logged_draws };

    ghost faults = { λ keys. 0 };

    fn draw(&mut self) -> Result<KeyAndSalt, Failed>
        ensures log { Gains (logged_draws self.old) (logged_draws self.new) (drawn_as result) }
        ensures cause { HasCause 0 0 result }
    {
        self.keys.draw()
    }
}
