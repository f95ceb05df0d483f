// The bytes of a saved lease.

ghost use Rattle.std.specs.Prelude.{◌≡◌, ◌^◌, ◌<◌, ◌∷◌, ◌++◌, IfNone, IfSome};
ghost use Rattle.std.specs.Int.{w16, w32, w64, to_be_bytes};
ghost use Rattle.relay_outside.specs.declared.address.Family.{Family};
ghost use Rattle.port_pool.specs.declared.pairs.Lease.{Lease};
ghost use Rattle.port_pool.specs.SavedLeases.{FitsLease, family_version, saved_lease};

use crate::pairs::Lease;
use relay_outside::Family;

/// A pair's number, a version, a port and a generation as bytes.
pub(crate) fn written(pair: u32, version: u8, port: u16, generation: u64) -> [u8; Lease::SAVED]
    ensures { result ≡ to_be_bytes w32 pair ++ (version ∷ (to_be_bytes w16 port ++ to_be_bytes w64 generation)) }
{
    let n = pair.to_be_bytes();
    let p = port.to_be_bytes();
    let g = generation.to_be_bytes();
    [
        n[0], n[1], n[2], n[3], version, p[0], p[1], //
        g[0], g[1], g[2], g[3], g[4], g[5], g[6], g[7],
    ]
}

/// The pair's number, the version, the port and the generation that stand in these bytes.
pub(crate) fn read(bytes: &[u8; Lease::SAVED]) -> (u32, u8, u16, u64)
    ensures parts { bytes.now ≡ to_be_bytes w32 result.0 ++ (result.1 ∷ (to_be_bytes w16 result.2 ++ to_be_bytes w64 result.3)) }
    ensures pair { result.0 < 2 ^ 32 }
    ensures port { result.2 < 2 ^ 16 }
    ensures generation { result.3 < 2 ^ 64 }
{
    let b = bytes;
    let pair = u32::from_be_bytes([b[0], b[1], b[2], b[3]]);
    let port = u16::from_be_bytes([b[5], b[6]]);
    let generation = u64::from_be_bytes([b[7], b[8], b[9], b[10], b[11], b[12], b[13], b[14]]);
    (pair, b[4], port, generation)
}

/// The version of a family.
pub(crate) fn version_of(family: Family) -> u8
    ensures { result ≡ family_version family }
{
    match family {
        Family::V4 => 4,
        Family::V6 => 6,
    }
}

/// The family of a version, and None where there is none.
pub(crate) fn family_of(byte: u8) -> Option<Family>
    ensures some { IfSome result (λ family. family_version family ≡ byte) }
    ensures none { IfNone result ((family : Family) → family_version family ≡ byte → ⊥) }
{
    match byte {
        4 => Some(Family::V4),
        6 => Some(Family::V6),
        _ => None,
    }
}

/// Theorem (no run-time code): two leases that are saved alike are one lease, so the lease that is loaded is the one that was
/// saved.
pub fn saved_leases_differ()
    ensures { (a b : Lease) → FitsLease a → FitsLease b → saved_lease a ≡ saved_lease b → a ≡ b }
{}
