// The session keys of a master key (RFC 3711, section 4.3).

ghost use Rattle.std.specs.Prelude.{◌≡◌, ℕ, ◌+◌, ◌<◌, ◌≤◌, length, List, take, drop, ◌++◌, [], ◌∷◌};
ghost use Rattle.srtp_keys.specs.Derivation.{derived, label_counter, cipher_key, authentication_key, session_salt, cipher_label, authentication_label, salt_label};

use aes_ctr::Cipher;
use relay_outside::KeyAndSalt;
use rtp_packet::Half;

/// What a master key becomes for one half of a stream: the cipher under the session's encryption
/// key, the authentication key and the salt.
#[derive(Drop)]
pub struct Session {
    /// AES in counter mode under the session's encryption key.
    pub cipher: Cipher,
    /// The key of the authentication tags.
    pub auth: [u8; 20],
    /// What the counters of packets begin from.
    pub salt: [u8; 14],
}

fn cipher_label(half: Half) -> u8
    ensures { result ≡ cipher_label half }
{
    match half {
        Half::Rtp => 0,
        Half::Rtcp => 3,
    }
}

fn authentication_label(half: Half) -> u8
    ensures { result ≡ authentication_label half }
{
    match half {
        Half::Rtp => 1,
        Half::Rtcp => 4,
    }
}

fn salt_label(half: Half) -> u8
    ensures { result ≡ salt_label half }
{
    match half {
        Half::Rtp => 2,
        Half::Rtcp => 5,
    }
}

/// The master key, without its salt.
fn master_key(master: &KeyAndSalt) -> [u8; 16]
    ensures { result ≡ take 16 master.now }
{
    let mut key = [0u8; 16];
    key.copy_from_slice(&master[..16]);
    key
}

/// The salt after the master key.
fn master_salt(master: &KeyAndSalt) -> &[u8]
    ensures length { length result.now ≡ 14 }
    ensures bytes { result.now ≡ drop 16 master.now }
{
    &master[16..]
}

/// A salt with two zeros after it.
fn salt_block(salt: &[u8]) -> [u8; 16]
    requires { length salt.now ≡ 14 }
    ensures { result ≡ salt.now ++ 0 ∷ 0 ∷ [] }
{
    let mut block = [0u8; 16];
    block[..salt.len()].copy_from_slice(salt);
    block
}

/// The counter of a label.
fn label_counter(salt: &[u8], label: u8) -> u128
    requires { length salt.now ≡ 14 }
    ensures { result ≡ label_counter salt.now label }
{
    let mut block = salt_block(salt);
    block[7] ^= label;
    u128::from_be_bytes(block)
}

/// The session of a half: its encryption key, its authentication key and its salt, from a master key
/// of 16 bytes with a master salt of 14 after it, at a key derivation rate of 0.
pub fn derive(master: &KeyAndSalt, half: Half) -> Session
    ensures cipher { result.cipher ≡ cipher_key master.now half }
    ensures auth { result.auth ≡ authentication_key master.now half }
    ensures salt { result.salt ≡ session_salt master.now half }
{
    let cipher = Cipher::new(master_key(master));
    let master_salt = master_salt(master);
    let mut key = [0u8; 16];
    cipher.apply(&mut key, label_counter(master_salt, cipher_label(half)));
    let mut auth = [0u8; 20];
    cipher.apply(
        &mut auth,
        label_counter(master_salt, authentication_label(half)),
    );
    let mut salt = [0u8; 14];
    cipher.apply(&mut salt, label_counter(master_salt, salt_label(half)));
    Session {
        cipher: Cipher::new(key),
        auth,
        salt,
    }
}
