ghost use Rattle.std.specs.Prelude.{◌≡◌, ◌*◌, ◌<◌, take, drop};
ghost use Rattle.std.specs.Int.{w32, to_be_bytes};
ghost use Rattle.srtp_sources.specs.SavedWords.{FitsWords, saved_words};

use crate::parts::{part_at, put_part};

/// The saved form of 32 words: each in 4 bytes, the highest first.
pub fn save_words(words: &[u32; 32]) -> [u8; 128]
    ensures fits { FitsWords words.now }
    ensures saved { result ≡ saved_words words.now }
{
    let mut bytes = [0; 128];
    'places: for place in 0..32 {
        put_part(&mut bytes, 4 * place, &words[place].to_be_bytes());
    }
    bytes
}

/// The 32 words of a saved form.
pub fn load_words(bytes: &[u8; 128]) -> [u32; 32]
    ensures fits { FitsWords result }
    ensures saved { saved_words result ≡ bytes.now }
{
    let mut words = [0; 32];
    'places: for place in 0..32 {
        words[place] = word_at(bytes, place);
    }
    words
}

// The word whose saved form stands at `place`.
fn word_at(bytes: &[u8; 128], place: usize) -> u32
    requires { place < 32 }
    ensures { to_be_bytes w32 result ≡ take 4 (drop (4 * place) bytes.now) }
{
    let word: [u8; 4] = part_at(bytes, 4 * place);
    u32::from_be_bytes(word)
}
