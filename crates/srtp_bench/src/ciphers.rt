ghost use Rattle.std.specs.Prelude.{◌≤◌};

use crate::{BATCH, Times, moment};
use aes_ctr::Cipher;
use srtp_keys::MacKey;
use std::time::CpuClock;

/// A round of the cipher in counter mode over this many bytes.
fn encipher(cipher: &Cipher, bytes: &mut [u8; 2064], size: usize, round: usize)
    requires { size ≤ 2000 }
{
    for number in 0..BATCH {
        let counter = (round as u128)
            .wrapping_mul(65_536)
            .wrapping_add(number as u128);
        cipher.apply(&mut bytes[..size], counter.wrapping_mul(65_536));
    }
}

/// A round of the code of this many bytes; each code changes the bytes of the next.
fn authenticate(mac: &MacKey, bytes: &mut [u8; 2064], size: usize)
    requires { size ≤ 2000 }
{
    for _ in 0..BATCH {
        let code = mac.tag(&bytes[..size], &[0, 0, 0, 0]);
        bytes[0] = code[0];
    }
}

/// The time that the cipher takes, and the code.
pub(crate) fn time(clock: &impl CpuClock, size: usize, rounds: usize) -> Option<Times>
    requires { size ≤ 2000 }
{
    let cipher = Cipher::new([0x5a; 16]);
    let mac = MacKey::new(&[0xa5; 20]);
    let mut bytes = [0u8; 2064];
    let mut times = Times::new();
    for round in 0..rounds {
        let begin = moment(clock)?;
        encipher(&cipher, &mut bytes, size, round);
        let between = moment(clock)?;
        authenticate(&mac, &mut bytes, size);
        times.add(begin, between, moment(clock)?);
    }
    Some(times)
}
