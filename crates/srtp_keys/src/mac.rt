// HMAC-SHA1 (RFC 2104).

ghost use Rattle.std.specs.Prelude.{◌≡◌, ℕ, ◌+◌, ◌^◌, ◌<◌, ◌≤◌, ◌++◌, ◌-◌, length, List, replicate, drop};
ghost use Rattle.std.specs.Str.{bytes_eq};
ghost use Rattle.sha1.specs.Sha1.{Holds, sha1};
ghost use Rattle.srtp_keys.specs.Hmac.{hmac, key_block, padded_by};

use sha1::{DIGEST_LEN, Sha1};
use std::alloc::AllocError;
use std::marker::Model;

/// The length of SHA-1's block in bytes.
const BLOCK_LENGTH: usize = 64;

/// The byte of the inner pad.
const INNER_PAD: u8 = 0x36;

/// The byte of the outer pad.
const OUTER_PAD: u8 = 0x5c;

/// HMAC-SHA1 under `key` of `text` followed by `tail`.
/// Beyond 2^64 bits the standard defines no SHA-1.
pub fn hmac(key: &[u8], text: &[u8], tail: &[u8]) -> [u8; 20]
    requires key_fits { length key.now < 2 ^ 32 }
    requires text_fits { length text.now < 2 ^ 32 }
    requires tail_fits { length tail.now < 2 ^ 32 }
    ensures { result ≡ hmac key.now (text.now ++ tail.now) }
{
    let block = key_block(key);
    let inner = padded(&block, INNER_PAD);
    let outer = padded(&block, OUTER_PAD);
    finished(inner, outer, text, tail)
}

/// The key, or its digest where it is longer than a block, with zeros up to a block.
fn key_block(key: &[u8]) -> [u8; BLOCK_LENGTH]
    ensures { result ≡ key_block key.now }
{
    if key.len() > BLOCK_LENGTH {
        let digest = Sha1::digest(key);
        with_zeros(&digest)
    } else {
        with_zeros(key)
    }
}

/// `bytes` with zeros up to a block.
fn with_zeros(bytes: &[u8]) -> [u8; BLOCK_LENGTH]
    requires { length bytes.now ≤ 64 }
    ensures { result ≡ bytes.now ++ replicate (64 - length bytes.now) 0 }
{
    let mut block = [0u8; BLOCK_LENGTH];
    write_front(&mut block, bytes);
    block
}

/// Writes `bytes` at the beginning of `block`.
fn write_front(block: &mut [u8], bytes: &[u8])
    requires { length bytes.now ≤ length block.old }
    ensures { block.new ≡ bytes.now ++ drop (length bytes.now) block.old }
{
    block[..bytes.len()].copy_from_slice(bytes);
}

/// The state of SHA-1 after the key's block, changed by a pad.
fn padded(block: &[u8; BLOCK_LENGTH], pad: u8) -> Sha1
    ensures { Holds result (padded_by pad block.now) }
{
    let mut bytes = [0u8; BLOCK_LENGTH];
    'bytes: for i in 0..BLOCK_LENGTH {
        bytes[i] = block[i] ^ pad;
    }
    let mut state = Sha1::new();
    state.update(&bytes);
    state
}

/// The code of `text` followed by `tail`, from the states after the inner and the outer pad.
fn finished(mut inner: Sha1, mut outer: Sha1, text: &[u8], tail: &[u8]) -> [u8; DIGEST_LEN]
    ensures { (m n : List ℕ) → Holds inner m → Holds outer n → result ≡ sha1 (n ++ sha1 (m ++ (text.now ++ tail.now))) }
{
    inner.update(text);
    inner.update(tail);
    outer.update(&inner.finalize());
    outer.finalize()
}

/// Whether two tags of one length are the same. Every byte of both is read, wherever they differ.
pub fn same_tags(one: &[u8], other: &[u8]) -> bool
    requires { length one.now ≡ length other.now }
    ensures { result ≡ bytes_eq one.now other.now }
{
    let mut difference = 0;
    'bytes: for i in 0..one.len() {
        difference |= one[i] ^ other[i];
    }
    difference == 0
}

/// A key of HMAC-SHA1 with what depends on the key alone done once, which contracts see as its 20
/// bytes. `tag` gives what `hmac` gives.
#[derive(Drop)]
pub struct MacKey {
    key: [u8; 20],
    inner: Sha1,
    outer: Sha1,
}

impl Model for MacKey {
    ghost Value = { List ℕ };

    ghost view = { λ k. k.key };

    ghost invariant = { λ k. Holds k.inner (padded_by 0x36 (key_block k.key)) × Holds k.outer (padded_by 0x5c (key_block k.key)) };
}

impl MacKey {
    /// The key of these bytes.
    pub fn new(key: &[u8; 20]) -> MacKey
        ensures { result ≡ key.now }
    {
        let block = key_block(key);
        MacKey {
            key: *key,
            inner: padded(&block, INNER_PAD),
            outer: padded(&block, OUTER_PAD),
        }
    }

    /// The bytes of the key.
    pub fn key(&self) -> [u8; 20]
        ensures key { result ≡ self.now }
        ensures length { length self.now ≡ 20 }
    {
        self.key
    }

    /// HMAC-SHA1 under this key of `text` followed by `tail`.
    pub fn tag(&self, text: &[u8], tail: &[u8]) -> [u8; 20]
        requires text_fits { length text.now < 2 ^ 32 }
        requires tail_fits { length tail.now < 2 ^ 32 }
        ensures { result ≡ hmac self.now (text.now ++ tail.now) }
    {
        finished(copied(&self.inner), copied(&self.outer), text, tail)
    }
}

/// Another state that holds the same message.
fn copied(state: &Sha1) -> Sha1
    ensures { result ≡ state.now }
{
    let copy: Result<Sha1, AllocError> = state.clone();
    match copy {
        Ok(copy) => copy,
        Err(_) => unreachable!(),
    }
}
