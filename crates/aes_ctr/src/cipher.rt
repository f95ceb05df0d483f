// AES-128 with its key schedule, and its counter mode.

ghost use Rattle.std.specs.Prelude.{◌≡◌, ℕ, ◌+◌, ◌*◌, ◌<◌, ◌≤◌, List, length, take};
ghost use Rattle.std.specs.Int.{w128, to_be_bytes};
ghost use Rattle.aes_ctr.specs.Aes.{aes, key_schedule, round_key, aes_rounds};
ghost use Rattle.aes_ctr.specs.Columns.{column_bytes, HoldsSchedule};
ghost use Rattle.aes_ctr.specs.Keystream.{counter_block, keystream, xored};

use crate::key_schedule::{WORDS, schedule_words};
use crate::state::{add_round_key, columns, joined, mixed, parted, state, substituted};
use std::marker::Model;
use std::simd::prelude::*;

/// AES-128 under one key, which contracts see as the key's 16 bytes.
///
/// It keeps the key schedule, so that a block costs no expansion. Nothing is claimed of the time that
/// a call takes, which may depend on the key.
#[derive(Drop)]
pub struct Cipher {
    key: [u8; 16],
    /// The key schedule in its words.
    words: [u32; WORDS],
}

impl Model for Cipher {
    ghost Value = { List ℕ };

    ghost view = { λ c. c.key };

    ghost invariant = { λ c. HoldsSchedule c.words c.key };
}

impl Cipher {
    /// The cipher under a key.
    pub fn new(key: [u8; 16]) -> Cipher
        ensures { result ≡ key }
    {
        Cipher {
            key,
            words: schedule_words(key),
        }
    }

    /// The key that the cipher is under.
    pub fn key(&self) -> [u8; 16]
        ensures key { result ≡ self.now }
        ensures length { length self.now ≡ 16 }
    {
        self.key
    }

    /// The columns of a round's key.
    fn round_key(&self, round: usize) -> [u32; 4]
        requires { round < 11 }
        ensures { column_bytes result ≡ round_key (key_schedule self.now) round }
    {
        let first = 4 * round;
        [
            self.words[first],
            self.words[first + 1],
            self.words[first + 2],
            self.words[first + 3],
        ]
    }

    /// The columns of the block that AES-128 makes of the block with these columns (FIPS 197, section 5.1).
    fn enciphered(&self, start: [u32; 4]) -> [u32; 4]
        ensures { column_bytes result ≡ aes self.now (column_bytes start) }
    {
        let first = self.round_key(0);
        let mut words = add_round_key(start, first);
        'rounds: for round in 1..10 {
            let next = mixed(words);
            let key = self.round_key(round);
            words = add_round_key(next, key);
        }
        let ended = substituted(words);
        let last = self.round_key(10);
        add_round_key(ended, last)
    }

    /// The block that AES-128 makes of an input block (FIPS 197, section 5.1).
    pub fn block(&self, input: [u8; 16]) -> [u8; 16]
        ensures { result ≡ aes self.now input }
    {
        let start = columns(input);
        let output = self.enciphered(start);
        state(output)
    }

    /// The keystream's block `index`, from the counter `iv` on, as a number whose highest byte is the block's first.
    fn keystream_block(&self, iv: u128, index: usize) -> u128
        ensures { to_be_bytes w128 result ≡ aes self.now (counter_block iv index) }
    {
        let counter = iv.wrapping_add(index as u128);
        let start = parted(counter);
        let output = self.enciphered(start);
        joined(output)
    }

    /// Changes `bytes` by exclusive or with the keystream that begins at the counter `iv`, which
    /// enciphers and deciphers alike (RFC 3711, section 4.1.1). Counters go round at 2^128.
    pub fn apply(&self, bytes: &mut [u8], iv: u128)
        ensures { bytes.new ≡ xored bytes.old (keystream self.now iv (length bytes.old)) }
    {
        let length = bytes.len();
        let block_count = length.div_ceil(16);
        'counters: for index in 0..block_count {
            let stream = self.keystream_block(iv, index);
            let start = 16 * index;
            let size = (length - start).min(16);
            xor_into(&mut bytes[start..start + size], stream);
        }
    }
}

/// Changes `bytes` by exclusive or with the first bytes of a block of the keystream.
fn xor_into(bytes: &mut [u8], stream: u128)
    requires { length bytes.old ≤ 16 }
    ensures { bytes.new ≡ xored bytes.old (to_be_bytes w128 stream) }
{
    if bytes.len() == 16 {
        xor_block(bytes, stream);
    } else {
        xor_rest(bytes, &stream.to_be_bytes());
    }
}

/// Changes the 16 bytes by exclusive or with a block of the keystream, all at once.
fn xor_block(bytes: &mut [u8], stream: u128)
    requires { length bytes.old ≡ 16 }
    ensures { bytes.new ≡ xored bytes.old (to_be_bytes w128 stream) }
{
    let lanes = u8x16::from_slice(bytes) ^ u8x16::from_array(stream.to_be_bytes());
    lanes.copy_to_slice(bytes);
}

/// Changes fewer bytes than a block by exclusive or with the first bytes of `stream`.
fn xor_rest(bytes: &mut [u8], stream: &[u8; 16])
    requires { length bytes.old ≤ 16 }
    ensures { bytes.new ≡ xored bytes.old stream.now }
{
    'bytes: for at in 0..bytes.len() {
        bytes[at] ^= stream[at];
    }
}
