ghost use Rattle.std.specs.Prelude.{◌≡◌, ◌<◌, ℕ};
ghost use Rattle.aes_ctr.specs.Field.{inverse, product};

/// The power 254 is the multiplicative inverse in GF(2^8): its product with a byte is 1 for each byte but 0, and 0 stays (FIPS 197 section 4.4).
pub fn power_254_is_the_inverse()
    ensures others { (b : ℕ) → 0 < b → b < 256 → product b (inverse b) ≡ 1 }
    ensures zero { inverse 0 ≡ 0 }
{}
