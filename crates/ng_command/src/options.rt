//! What the keys of a command say, where they say it in the right form.
ghost use Rattle.std.specs.Prelude.{◌≡◌, ◌∷◌, [], codes, Some};
ghost use Rattle.std.specs.Option.{option_copied};
ghost use Rattle.ng_bencode.specs.Row.{list_in};
ghost use Rattle.ng_bencode.specs.Tree.{tree_of, trees_of, pairs_of, Items, Int};
ghost use Rattle.ng_bencode.specs.Lookup.{value_at};
ghost use Rattle.ng_command.specs.Effects.{has_flag, flags_of, replaces, asks_mux, signals_source, family_named, family_spelled, address_in, ip_of_tree, source_of, protocol_of, protocol_in, asks_dtls, limit_of, delay_of};
ghost use Rattle.ng_command.specs.Meanings.{answer_options, offer_options};

use crate::command::Options;
use crate::values::{has_word, text_at, text_of};
use ng_bencode::{Pairs, Values, lookup};
use relay_outside::{Family, Flags, Ip};
use sdp_text::{Host, Proto, read_ipv4, read_ipv6};

/// How many calls `list` names where nothing says so, and at most.
pub(crate) const DEFAULT_LIMIT: u32 = 32;

const MAX_LIMIT: u32 = 200;

/// The longest delay of a delete, in seconds: a day.
const MAX_DELAY_S: u32 = 86_400;

/// Whether the flag is set.
pub(crate) fn has_flag(pairs: &Pairs, flag: &[u8]) -> bool
    ensures { result ≡ has_flag (pairs_of (list_in pairs.now)) flag.now }
{
    has_word(pairs, b"flags", flag)
}

fn flags_of(pairs: &Pairs) -> Flags
    ensures { result ≡ flags_of (pairs_of (list_in pairs.now)) }
{
    Flags {
        strict: has_flag(pairs, b"strict source"),
        handover: has_flag(pairs, b"media handover"),
        asymmetric: has_flag(pairs, b"asymmetric"),
    }
}

/// Whether the addresses signalled are those of `received from`.
pub(crate) fn signals_source(pairs: &Pairs) -> bool
    ensures { result ≡ signals_source (pairs_of (list_in pairs.now)) }
{
    has_flag(pairs, b"SIP source address") && !has_flag(pairs, b"trust address")
}

/// The address of `received from`: a list of `IP4` and an IPv4 address, or of `IP6` and an IPv6 address.
pub(crate) fn received_from(pairs: &Pairs) -> Option<Ip>
    ensures { result ≡ ip_of_tree (value_at (pairs_of (list_in pairs.now)) (codes "received from")) }
{
    let Some(value) = lookup(pairs, b"received from") else {
        return None;
    };
    match value.as_list() {
        Some(values) => address_in_list(values),
        None => None,
    }
}

/// The address of a list of two byte strings, the name of a family and an address of it.
fn address_in_list(values: &Values) -> Option<Ip>
    ensures { result ≡ ip_of_tree (Some (Items (trees_of (list_in values.now)))) }
{
    let items = values.as_slice();
    if items.len() != 2 {
        return None;
    }
    let Some(name) = text_of(&items[0]) else {
        return None;
    };
    let Some(address) = text_of(&items[1]) else {
        return None;
    };
    address_in(family_named(name), address)
}

/// The family of this name (RFC 8866 section 5.7).
fn family_named(name: &[u8]) -> Option<Family>
    ensures { result ≡ family_named name.now }
{
    if name == b"IP4".as_slice() {
        Some(Family::V4)
    } else if name == b"IP6".as_slice() {
        Some(Family::V6)
    } else {
        None
    }
}

/// The family of this name, where there is a name.
pub(crate) fn family_spelled(name: Option<&[u8]>) -> Option<Family>
    ensures { result ≡ family_spelled (option_copied name.entry) }
{
    match name {
        Some(name) => family_named(name),
        None => None,
    }
}

/// The address of a family that a text spells.
fn address_in(family: Option<Family>, text: &[u8]) -> Option<Ip>
    ensures { result ≡ address_in family text.now }
{
    match family {
        Some(Family::V4) => match read_ipv4(text) {
            Some(Host::V4(bytes)) => Some(Ip::V4(bytes)),
            _ => None,
        },
        Some(Family::V6) => match read_ipv6(text) {
            Some(Host::V6(bytes)) => Some(Ip::V6(bytes)),
            _ => None,
        },
        None => None,
    }
}

fn source_of(pairs: &Pairs) -> Option<Ip>
    ensures { result ≡ source_of (pairs_of (list_in pairs.now)) }
{
    if signals_source(pairs) {
        received_from(pairs)
    } else {
        None
    }
}

/// The protocol of this name.
pub(crate) fn protocol_of(name: &[u8]) -> Option<Proto>
    ensures { result ≡ protocol_of name.now }
{
    if name == b"RTP/AVP".as_slice() {
        Some(Proto::Avp)
    } else if name == b"RTP/AVPF".as_slice() {
        Some(Proto::Avpf)
    } else if name == b"RTP/SAVP".as_slice() {
        Some(Proto::Savp)
    } else if name == b"RTP/SAVPF".as_slice() {
        Some(Proto::Savpf)
    } else {
        None
    }
}

/// The protocol of this name, where there is a name.
pub(crate) fn protocol_in(name: Option<&[u8]>) -> Option<Proto>
    ensures { result ≡ protocol_in (option_copied name.entry) }
{
    match name {
        Some(name) => protocol_of(name),
        None => None,
    }
}

/// Whether the protocol is SRTP keyed by DTLS (RFC 5764 section 8).
pub(crate) fn is_dtls(name: Option<&[u8]>) -> bool
    ensures { result ≡ asks_dtls (option_copied name.entry) }
{
    match name {
        Some(name) => name.starts_with(b"UDP/TLS/"),
        None => false,
    }
}

/// Whether a word of `rtcp-mux` is given.
fn asks_mux(pairs: &Pairs, word: &[u8]) -> bool
    ensures { result ≡ asks_mux (pairs_of (list_in pairs.now)) word.now }
{
    has_word(pairs, b"rtcp-mux", word)
}

/// How an answer is to be served.
pub(crate) fn answer_options(pairs: &Pairs) -> Options
    ensures { result ≡ answer_options (pairs_of (list_in pairs.now)) }
{
    Options {
        flags: flags_of(pairs),
        replace_origin: has_word(pairs, b"replace", b"origin"),
        replace_session: has_word(pairs, b"replace", b"session connection"),
        transport: None,
        source: source_of(pairs),
        family: None,
        mux_offer: false,
        mux_demux: false,
        mux_accept: false,
    }
}

/// How an offer is to be served.
pub(crate) fn offer_options(pairs: &Pairs) -> Options
    ensures { result ≡ offer_options (pairs_of (list_in pairs.now)) }
{
    Options {
        transport: protocol_in(text_at(pairs, b"transport protocol")),
        family: family_spelled(text_at(pairs, b"address family")),
        mux_offer: asks_mux(pairs, b"offer"),
        mux_demux: asks_mux(pairs, b"demux"),
        mux_accept: asks_mux(pairs, b"accept"),
        ..answer_options(pairs)
    }
}

/// How many calls `list` is to name. `None` where what stands there is no limit.
pub(crate) fn limit_of(pairs: &Pairs) -> Option<u32>
    ensures { result ≡ limit_of (value_at (pairs_of (list_in pairs.now)) (codes "limit")) }
{
    match lookup(pairs, b"limit") {
        Some(value) => match value.as_int() {
            Some(number) => capped(number),
            None => None,
        },
        None => Some(DEFAULT_LIMIT),
    }
}

/// A limit of at most 200, where the number is not negative.
fn capped(number: i64) -> Option<u32>
    ensures { result ≡ limit_of (Some (Int number)) }
{
    if number < 0 {
        None
    } else if number > MAX_LIMIT as i64 {
        Some(MAX_LIMIT)
    } else {
        Some(number as u32)
    }
}

/// After how many seconds a deleted call is to end. `None` where what stands there is no delay.
pub(crate) fn delay_of(pairs: &Pairs) -> Option<u32>
    ensures { result ≡ delay_of (value_at (pairs_of (list_in pairs.now)) (codes "delete delay")) }
{
    match lookup(pairs, b"delete delay") {
        Some(value) => match value.as_int() {
            Some(number) => within_a_day(number),
            None => None,
        },
        None => Some(0),
    }
}

/// A delay, where the number is one: 0 to 86,400 seconds.
fn within_a_day(number: i64) -> Option<u32>
    ensures { result ≡ delay_of (Some (Int number)) }
{
    if number < 0 || number > MAX_DELAY_S as i64 {
        None
    } else {
        Some(number as u32)
    }
}
