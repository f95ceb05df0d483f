ghost use Rattle.std.specs.Prelude.{◌≡◌};
ghost use Rattle.srtp_sources.specs.SavedKeys.{FitsKeys, saved_keys};

use crate::parts::{part_at, put_part};
use aes_ctr::Cipher;
use srtp_keys::{MacKey, Session};

/// The saved form of a session's keys.
pub fn save_keys(cipher: &Cipher, mac: &MacKey, salt: &[u8; 14]) -> [u8; 50]
    ensures fits { FitsKeys cipher.now mac.now salt.now }
    ensures saved { result ≡ saved_keys cipher.now mac.now salt.now }
{
    let mut bytes = [0; 50];
    put_part(&mut bytes, 0, &cipher.key());
    put_part(&mut bytes, 16, &mac.key());
    put_part(&mut bytes, 36, salt);
    bytes
}

/// The keys of a saved form.
pub fn load_keys(bytes: &[u8; 50]) -> Session
    ensures fits { FitsKeys result.cipher result.auth result.salt }
    ensures saved { saved_keys result.cipher result.auth result.salt ≡ bytes.now }
{
    Session {
        cipher: Cipher::new(part_at(bytes, 0)),
        auth: part_at(bytes, 16),
        salt: part_at(bytes, 36),
    }
}
