// The saved form of a learner's addresses.

ghost use Rattle.std.specs.Prelude.{◌≡◌, ◌+◌, ◌≤◌, ◌∷◌, ◌++◌, length, take, drop};
ghost use Rattle.relay_outside.specs.declared.address.Addr.{Addr};
ghost use Rattle.endpoint_learn.specs.declared.learner.Learner.{Learner};
ghost use Rattle.endpoint_learn.specs.SavedLearners.{FitsAddr, FitsLearner, saved_addr, saved_flag, saved_learner};

use crate::learner::Learner;
use relay_outside::{Addr, Flags, Ip};

/// How many bytes a saved address has.
pub(crate) const ADDR_SAVED: usize = 19;

/// An address as bytes.
pub(crate) fn addr_bytes(addr: Addr) -> [u8; ADDR_SAVED]
    ensures { FitsAddr addr × (result ≡ saved_addr addr) }
{
    let p = addr.port.to_be_bytes();
    match addr.ip {
        Ip::V4(a) => [
            4, a[0], a[1], a[2], a[3], 0, 0, 0, 0, 0, 0, 0, 0, 0, 0, 0, 0, p[0], p[1],
        ],
        Ip::V6(a) => v6_bytes(a, p),
    }
}

// The bytes of an address of version 6 whose port has these two.
fn v6_bytes(a: [u8; 16], p: [u8; 2]) -> [u8; ADDR_SAVED]
    ensures long { length a ≡ 16 }
    ensures bytes { result ≡ 6 ∷ (a ++ p) }
{
    [
        6, a[0], a[1], a[2], a[3], a[4], a[5], a[6], a[7], a[8], a[9], a[10], a[11], a[12], a[13],
        a[14], a[15], p[0], p[1],
    ]
}

/// The address that is saved as these bytes, where one is.
pub(crate) fn addr_of(b: &[u8; ADDR_SAVED]) -> Addr
    ensures { (addr : Addr) → FitsAddr addr → saved_addr addr ≡ b.now → result ≡ addr }
{
    let port = u16::from_be_bytes([b[17], b[18]]);
    let ip = if b[0] == 6 {
        Ip::V6([
            b[1], b[2], b[3], b[4], b[5], b[6], b[7], b[8], b[9], b[10], b[11], b[12], b[13],
            b[14], b[15], b[16],
        ])
    } else {
        Ip::V4([b[1], b[2], b[3], b[4]])
    };
    Addr { ip, port }
}

/// As many bytes from one on as an address has.
pub(crate) fn part(bytes: &[u8; Learner::SAVED], at: usize) -> [u8; ADDR_SAVED]
    requires { at + 19 ≤ 41 }
    ensures { result ≡ take 19 (drop at bytes.now) }
{
    let mut part = [0; ADDR_SAVED];
    part.copy_from_slice(&bytes[at..at + ADDR_SAVED]);
    part
}

fn flag_byte(flag: bool) -> u8
    ensures { result ≡ saved_flag flag }
{
    if flag { 1 } else { 0 }
}

/// An address, flags and another address as bytes.
pub(crate) fn joined(s: [u8; ADDR_SAVED], flags: Flags, l: [u8; ADDR_SAVED]) -> [u8; Learner::SAVED]
    ensures { result ≡ s ++ (saved_flag flags.strict ∷ saved_flag flags.handover ∷ saved_flag flags.asymmetric ∷ l) }
{
    let strict = flag_byte(flags.strict);
    let handover = flag_byte(flags.handover);
    let asymmetric = flag_byte(flags.asymmetric);
    [
        s[0], s[1], s[2], s[3], s[4], s[5], s[6], s[7], s[8], s[9], //
        s[10], s[11], s[12], s[13], s[14], s[15], s[16], s[17], s[18], //
        strict, handover, asymmetric, //
        l[0], l[1], l[2], l[3], l[4], l[5], l[6], l[7], l[8], l[9], //
        l[10], l[11], l[12], l[13], l[14], l[15], l[16], l[17], l[18],
    ]
}

/// Theorem (no run-time code): two learners that are saved alike are one learner, so a learner that is loaded stands for all
/// lists of steps for which the saved one stood.
pub fn saved_learners_differ()
    ensures { (a b : Learner) → FitsLearner a → FitsLearner b → saved_learner a ≡ saved_learner b → a ≡ b }
{}
