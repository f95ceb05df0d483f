//! Which key of a command is at fault.
ghost use Rattle.std.specs.Prelude.{◌≡◌, ◌∷◌, [], codes, find};
ghost use Rattle.ng_bencode.specs.Row.{list_in};
ghost use Rattle.ng_bencode.specs.Tree.{pairs_of};
ghost use Rattle.ng_bencode.specs.Lookup.{value_at};
ghost use Rattle.ng_command.specs.Values.{is_other_than};
ghost use Rattle.ng_command.specs.Faults.{is_wrong, is_unsupported, first_wrong, first_unsupported, fault_of};

use crate::fault::{CommandFault, KeyName};
use crate::kind::Kind;
use crate::options::{
    delay_of, family_spelled, is_dtls, limit_of, protocol_in, received_from, signals_source,
};
use crate::values::{has_key, is_name, is_there, is_wordless, text_at, text_of};
use ng_bencode::{Pairs, lookup};

/// The keys in the order in which a wrong one is named.
const WRONG_KEYS: [KeyName; 12] = [
    KeyName::CallId,
    KeyName::FromTag,
    KeyName::ToTag,
    KeyName::Sdp,
    KeyName::Flags,
    KeyName::Replace,
    KeyName::TransportProtocol,
    KeyName::ReceivedFrom,
    KeyName::Limit,
    KeyName::DeleteDelay,
    KeyName::AddressFamily,
    KeyName::RtcpMux,
];

/// The keys in the order in which an unsupported option is named.
const UNSUPPORTED_KEYS: [KeyName; 5] = [
    KeyName::Ice,
    KeyName::Dtls,
    KeyName::TransportProtocol,
    KeyName::RecordCall,
    KeyName::Codec,
];

/// The first fault of the keys of a command.
pub(crate) fn fault_of(kind: Kind, pairs: &Pairs) -> Option<CommandFault>
    ensures { result ≡ fault_of kind (pairs_of (list_in pairs.now)) }
{
    if let Some(key) = first_wrong(kind, pairs) {
        return Some(CommandFault::Key(key));
    }
    match first_unsupported(kind, pairs) {
        Some(key) => Some(CommandFault::Unsupported(key)),
        None => None,
    }
}

fn first_wrong(kind: Kind, pairs: &Pairs) -> Option<KeyName>
    ensures { result ≡ first_wrong kind (pairs_of (list_in pairs.now)) }
{
    wrong_among(kind, pairs, &WRONG_KEYS)
}

fn wrong_among(kind: Kind, pairs: &Pairs, keys: &[KeyName]) -> Option<KeyName>
    ensures { result ≡ find (λ key. is_wrong kind (pairs_of (list_in pairs.now)) key) keys.now }
{
    for key in keys {
        if is_wrong(kind, pairs, *key) {
            return Some(*key);
        }
    }
    None
}

fn first_unsupported(kind: Kind, pairs: &Pairs) -> Option<KeyName>
    ensures { result ≡ first_unsupported kind (pairs_of (list_in pairs.now)) }
{
    unsupported_among(kind, pairs, &UNSUPPORTED_KEYS)
}

fn unsupported_among(kind: Kind, pairs: &Pairs, keys: &[KeyName]) -> Option<KeyName>
    ensures { result ≡ find (λ key. is_unsupported kind (pairs_of (list_in pairs.now)) key) keys.now }
{
    for key in keys {
        if is_unsupported(kind, pairs, *key) {
            return Some(*key);
        }
    }
    None
}

/// Whether the command uses the key, and what stands there is missing or of the wrong form.
fn is_wrong(kind: Kind, pairs: &Pairs, key: KeyName) -> bool
    ensures { result ≡ is_wrong kind (pairs_of (list_in pairs.now)) key }
{
    match key {
        KeyName::CallId => (kind.is_media() || kind.is_delete() || kind.is_query())
            && !is_name(text_at(pairs, b"call-id")),
        KeyName::FromTag => is_from_tag_wrong(kind, pairs),
        KeyName::ToTag => kind.is_answer() && !is_name(text_at(pairs, b"to-tag")),
        KeyName::Sdp => kind.is_media() && text_at(pairs, b"sdp").is_none(),
        KeyName::Flags => (kind.is_media() || kind.is_delete()) && is_wordless(pairs, b"flags"),
        KeyName::Replace => kind.is_media() && is_wordless(pairs, b"replace"),
        KeyName::TransportProtocol => kind.is_offer() && is_protocol_wrong(pairs),
        KeyName::ReceivedFrom => kind.is_media()
            && signals_source(pairs)
            && received_from(pairs).is_none(),
        KeyName::Limit => kind.is_list() && limit_of(pairs).is_none(),
        KeyName::DeleteDelay => kind.is_delete() && delay_of(pairs).is_none(),
        KeyName::AddressFamily => kind.is_offer()
            && is_there(pairs, b"address family")
            && family_spelled(text_at(pairs, b"address family")).is_none(),
        KeyName::RtcpMux => kind.is_offer() && is_wordless(pairs, b"rtcp-mux"),
        _ => false,
    }
}

fn is_from_tag_wrong(kind: Kind, pairs: &Pairs) -> bool
    ensures { result ≡ is_wrong kind (pairs_of (list_in pairs.now)) KeyName.FromTag }
{
    (kind.is_media() || (kind.is_delete() && is_there(pairs, b"from-tag")))
        && !is_name(text_at(pairs, b"from-tag"))
}

fn is_protocol_wrong(pairs: &Pairs) -> bool
    ensures { result ≡ is_wrong Kind.Offer (pairs_of (list_in pairs.now)) KeyName.TransportProtocol }
{
    let name = text_at(pairs, b"transport protocol");
    is_there(pairs, b"transport protocol") && !(protocol_in(name).is_some() || is_dtls(name))
}

/// Whether the command uses the key, and what stands there asks for what this proxy does not do.
fn is_unsupported(kind: Kind, pairs: &Pairs, key: KeyName) -> bool
    ensures { result ≡ is_unsupported kind (pairs_of (list_in pairs.now)) key }
{
    match key {
        KeyName::Ice => kind.is_media() && is_ice_kept(pairs),
        KeyName::Dtls => kind.is_media() && is_dtls_kept(pairs),
        KeyName::TransportProtocol => kind.is_offer()
            && is_dtls(text_at(pairs, b"transport protocol")),
        KeyName::RecordCall => kind.is_media() && is_call_recorded(pairs),
        KeyName::Codec => kind.is_media() && has_key(pairs, b"codec", b"transcode"),
        _ => false,
    }
}

fn is_ice_kept(pairs: &Pairs) -> bool
    ensures { result ≡ is_other_than (codes "remove" ∷ []) (value_at (pairs_of (list_in pairs.now)) (codes "ICE")) }
{
    let Some(value) = lookup(pairs, b"ICE") else {
        return false;
    };
    match text_of(value) {
        Some(text) => text != b"remove".as_slice(),
        None => true,
    }
}

fn is_dtls_kept(pairs: &Pairs) -> bool
    ensures { result ≡ is_other_than (codes "off" ∷ codes "no" ∷ codes "disable" ∷ []) (value_at (pairs_of (list_in pairs.now)) (codes "DTLS")) }
{
    let Some(value) = lookup(pairs, b"DTLS") else {
        return false;
    };
    match text_of(value) {
        Some(text) => {
            text != b"off".as_slice() && text != b"no".as_slice() && text != b"disable".as_slice()
        }
        None => true,
    }
}

fn is_call_recorded(pairs: &Pairs) -> bool
    ensures { result ≡ is_other_than (codes "no" ∷ codes "off" ∷ []) (value_at (pairs_of (list_in pairs.now)) (codes "record call")) }
{
    let Some(value) = lookup(pairs, b"record call") else {
        return false;
    };
    match text_of(value) {
        Some(text) => text != b"no".as_slice() && text != b"off".as_slice(),
        None => true,
    }
}
