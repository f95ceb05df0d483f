// The key schedule (FIPS 197, section 5.2).

ghost use Rattle.std.specs.Prelude.{◌≡◌, ℕ, ◌+◌, ◌*◌, ◌<◌, ◌≤◌, length, take, ◌++◌};
ghost use Rattle.aes_ctr.specs.Columns.{HoldsSchedule};
ghost use Rattle.aes_ctr.specs.Aes.{word_at, add_words, rot_word, sub_word, round_constant, next_word, key_schedule};

use crate::state::column;
use crate::substitution::substitute;

/// The bytes of a key schedule: the key, and four words for each of ten rounds.
const SCHEDULE_LENGTH: usize = 176;

/// The words of a key schedule.
pub(crate) const WORDS: usize = 44;

/// The first byte of Rcon 1 to Rcon 10, after a place for 0.
const ROUND_CONSTANTS: [u8; 11] = [
    0x01, 0x01, 0x02, 0x04, 0x08, 0x10, 0x20, 0x40, 0x80, 0x1b, 0x36,
];

fn word_at(words: &[u8; SCHEDULE_LENGTH], i: usize) -> [u8; 4]
    requires { i < 44 }
    ensures { result ≡ word_at words.now i }
{
    [
        words[4 * i],
        words[4 * i + 1],
        words[4 * i + 2],
        words[4 * i + 3],
    ]
}

fn add_words(v: [u8; 4], w: [u8; 4]) -> [u8; 4]
    ensures { result ≡ add_words v w }
{
    [v[0] ^ w[0], v[1] ^ w[1], v[2] ^ w[2], v[3] ^ w[3]]
}

/// SubWord of RotWord of a word.
fn sub_rotated(w: [u8; 4]) -> [u8; 4]
    ensures { result ≡ sub_word (rot_word w) }
{
    [
        substitute(w[1]),
        substitute(w[2]),
        substitute(w[3]),
        substitute(w[0]),
    ]
}

fn round_constant(j: usize) -> [u8; 4]
    requires { j < 11 }
    ensures { result ≡ round_constant j }
{
    [ROUND_CONSTANTS[j], 0, 0, 0]
}

/// Word `i`, from the words before it.
fn next_word(words: &[u8; SCHEDULE_LENGTH], i: usize) -> [u8; 4]
    requires low { 4 ≤ i }
    requires high { i < 44 }
    ensures { result ≡ next_word words.now i }
{
    let before = word_at(words, i - 1);
    let added = if i % 4 == 0 {
        add_words(sub_rotated(before), round_constant(i / 4))
    } else {
        before
    };
    add_words(word_at(words, i - 4), added)
}

/// Writes `bytes` at the place `at`.
fn put(words: &mut [u8; SCHEDULE_LENGTH], at: usize, bytes: &[u8])
    requires { at + length bytes.now ≤ 176 }
    ensures length { length words.new ≡ 176 }
    ensures begins { take (at + length bytes.now) words.new ≡ take at words.old ++ bytes.now }
{
    words[at..at + bytes.len()].copy_from_slice(bytes);
}

/// The key schedule of a key.
fn expand(key: [u8; 16]) -> [u8; SCHEDULE_LENGTH]
    ensures words { result ≡ key_schedule key }
    ensures begins { take 16 result ≡ key }
{
    let mut words = [0u8; SCHEDULE_LENGTH];
    put(&mut words, 0, &key);
    'words: for i in 4..44 {
        let word = next_word(&words, i);
        put(&mut words, 4 * i, &word);
    }
    words
}

/// The words of the key schedule of a key, each as a column.
pub(crate) fn schedule_words(key: [u8; 16]) -> [u32; WORDS]
    ensures { HoldsSchedule result key }
{
    let bytes = expand(key);
    let mut words = [0u32; WORDS];
    'words: for i in 0..WORDS {
        words[i] = column(
            bytes[4 * i],
            bytes[4 * i + 1],
            bytes[4 * i + 2],
            bytes[4 * i + 3],
        );
    }
    words
}
