//! Transport addresses as byte strings.
ghost use Rattle.std.specs.Prelude.{◌≡◌, length, IfOk, IfSome, IfNone};
ghost use Rattle.relay_outside.specs.declared.address.Addr.{Addr};
ghost use Rattle.endpoint_learn.specs.SavedLearners.{FitsAddr};
ghost use Rattle.state_values.specs.CacheTrees.{source_bytes};

use ng_bencode::Text;
use relay_outside::{Addr, Ip, OutOfMemory};
use std::alloc::Global;

/// An address as bytes.
pub(crate) fn source_text(alloc: Global, source: Addr) -> Result<Text, OutOfMemory>
    ensures { IfOk result (λ text. text.list ≡ source_bytes source) }
{
    let mut text = Text::new(alloc);
    let Ok(()) = text.reserve(18) else {
        return Err(OutOfMemory);
    };
    match source.ip {
        Ip::V4(a) => text.extend(&a),
        Ip::V6(a) => text.extend(&a),
    }
    text.extend(&source.port.to_be_bytes());
    Ok(text)
}

/// The address of version 4 that these bytes are.
fn v4_source(bytes: &[u8]) -> Option<Addr>
    ensures some { IfSome result (λ source. bytes.now ≡ source_bytes source) }
    ensures none { IfNone result (length bytes.now ≡ 6 → ⊥) }
{
    if bytes.len() != 6 {
        return None;
    }
    let b = bytes;
    let ip = Ip::V4([b[0], b[1], b[2], b[3]]);
    let port = u16::from_be_bytes([b[4], b[5]]);
    Some(Addr { ip, port })
}

/// The address of version 6 that these bytes are.
fn v6_source(bytes: &[u8]) -> Option<Addr>
    ensures some { IfSome result (λ source. bytes.now ≡ source_bytes source) }
    ensures none { IfNone result (length bytes.now ≡ 18 → ⊥) }
{
    if bytes.len() != 18 {
        return None;
    }
    let b = bytes;
    let ip = Ip::V6([
        b[0], b[1], b[2], b[3], b[4], b[5], b[6], b[7], b[8], b[9], b[10], b[11], b[12], b[13],
        b[14], b[15],
    ]);
    let port = u16::from_be_bytes([b[16], b[17]]);
    Some(Addr { ip, port })
}

/// The address that these bytes are.
pub(crate) fn read_source(bytes: &[u8]) -> Option<Addr>
    ensures some { IfSome result (λ source. bytes.now ≡ source_bytes source) }
    ensures none { IfNone result ((source : Addr) → FitsAddr source → bytes.now ≡ source_bytes source → ⊥) }
{
    if let Some(source) = v4_source(bytes) {
        return Some(source);
    }
    v6_source(bytes)
}
