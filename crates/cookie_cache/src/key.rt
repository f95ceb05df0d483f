//! The key of a kept reply, built in an array.
ghost use Rattle.std.specs.Int.{w16, to_be_bytes};
ghost use Rattle.std.specs.Prelude.{◌≡◌, ◌+◌, ◌≤◌, ◌++◌, ℕ, List, [], length, take, IsTrue};
ghost use Rattle.cookie_cache.specs.Caches.{IsSource};
ghost use Rattle.cookie_cache.specs.Entries.{cache_key, host_bytes};
ghost use Rattle.cookie_cache.specs.SavedReplies.{is_cache_key};

use relay_outside::{Addr, Ip};
use std::marker::Model;

/// How many bytes the longest key has: the family, an address of version 6, the port and a cookie of 255 bytes.
pub(crate) const LONGEST_KEY: usize = 274;

/// What an address of version 4 begins with in a key.
const FAMILY_V4: u8 = 4;

/// The same of version 6.
const FAMILY_V6: u8 = 6;

/// How many bytes the longest cookie has.
const LONGEST_COOKIE: usize = 255;

/// The bytes of a key: the family of the address that a command came from, the address, the port and the cookie.
#[derive(Drop)]
pub(crate) struct KeyBytes {
    bytes: [u8; LONGEST_KEY],
    len: usize,
}

impl Model for KeyBytes {
    ghost Value = { List ℕ };

    ghost view = { λ key. take key.len key.bytes };

    ghost invariant = { λ key. key.len ≤ 274 };
}

impl KeyBytes {
    /// The key of a reply to a command with this cookie from this source.
    pub(crate) fn new(source: Addr, cookie: &[u8]) -> KeyBytes
        requires { length cookie.now ≤ 255 }
        ensures bytes { result ≡ cache_key source cookie.now }
        ensures source { IsSource source }
    {
        let mut key = KeyBytes {
            bytes: [0; LONGEST_KEY],
            len: 0,
        };
        match source.ip {
            Ip::V4(octets) => {
                key.put(&[FAMILY_V4]);
                key.put(&octets);
            }
            Ip::V6(octets) => {
                key.put(&[FAMILY_V6]);
                key.put(&octets);
            }
        }
        key.put(&source.port.to_be_bytes());
        key.put(cookie);
        key
    }

    fn put(&mut self, bytes: &[u8])
        requires { length self.old + length bytes.now ≤ 274 }
        ensures { self.new ≡ self.old ++ bytes.now }
    {
        let end = self.len + bytes.len();
        self.bytes[self.len..end].copy_from_slice(bytes);
        self.len = end;
    }

    pub(crate) fn as_slice(&self) -> &[u8]
        ensures bytes { result.now ≡ self.now }
        ensures short { length result.now ≤ 274 }
    {
        &self.bytes[..self.len]
    }
}

/// Whether a reply to a command with this cookie from this source can be kept: the cookie has 1 to 255 bytes.
pub(crate) fn is_cookie_of(source: Addr, cookie: &[u8]) -> bool
    ensures key { result ≡ is_cache_key (cache_key source cookie.now) }
    ensures short { IsTrue result → length cookie.now ≤ 255 }
{
    let _ = source;
    !cookie.is_empty() && cookie.len() <= LONGEST_COOKIE
}

/// The source and the cookie of a key.
pub(crate) fn parts_of(key: &[u8]) -> (Addr, &[u8])
    requires { IsTrue (is_cache_key key.now) }
    ensures { cache_key result.0 result.1.now ≡ key.now }
{
    let (ip, rest) = host_of(key);
    let (port, cookie) = port_of(rest);
    (Addr { ip, port }, cookie)
}

fn host_of(key: &[u8]) -> (Ip, &[u8])
    requires { IsTrue (is_cache_key key.now) }
    ensures bytes { host_bytes result.0 ++ result.1.now ≡ key.now }
    ensures more { 2 ≤ length result.1.now }
{
    if key[0] == FAMILY_V4 {
        let mut octets = [0; 4];
        octets.copy_from_slice(&key[1..5]);
        (Ip::V4(octets), &key[5..])
    } else {
        let mut octets = [0; 16];
        octets.copy_from_slice(&key[1..17]);
        (Ip::V6(octets), &key[17..])
    }
}

fn port_of(bytes: &[u8]) -> (u16, &[u8])
    requires { 2 ≤ length bytes.now }
    ensures { to_be_bytes w16 result.0 ++ result.1.now ≡ bytes.now }
{
    (u16::from_be_bytes([bytes[0], bytes[1]]), &bytes[2..])
}
