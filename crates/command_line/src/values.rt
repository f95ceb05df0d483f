//! What the values of the options say.
ghost use Rattle.std.specs.Prelude.{◌≡◌, ◌≤◌, ◌<◌, ◌==◌, ◌↔◌, IfSome, IsTrue, MatchOption, None, Some, ℕ, Option, codes, length, position, option_and_then};
ghost use Rattle.clap.specs.Words.{first_of, found_of, rows_of};
ghost use Rattle.relay_outside.specs.Settings.{ip_family};
ghost use Rattle.command_line.specs.Numbers.{whole_number};
ghost use Rattle.command_line.specs.Values.{ipv4_address, ipv6_address, listen_address, other_interface, has_pair, default_config, IsPair, IsInLimits, IsLoadInLimits};
ghost use Rattle.command_line.specs.Words.{option_number, read_or, config_of, settings_of, replay_of, load_of};

use crate::numbers::{Limits, read_whole_number};
use crate::settings::{LoadSettings, ReplaySettings, Settings};
use clap::ArgMatches;
use relay_outside::{Addr, Config, Family, Ip};
use sdp_text::{Host, read_ipv4, read_ipv6};

/// The greatest number of turns, and the default.
const MOST_TURNS: u64 = 1_000_000_000_000_000;

/// An IPv4 address.
pub(crate) fn read_ip(text: &[u8]) -> Option<Ip>
    ensures value { result ≡ ipv4_address text.now }
    ensures version { IfSome result (λ ip. ip_family ip ≡ Family.V4) }
{
    match read_ipv4(text) {
        Some(Host::V4(bytes)) => Some(Ip::V4(bytes)),
        _ => None,
    }
}

/// An IPv6 address.
pub(crate) fn read_ip6(text: &[u8]) -> Option<Ip>
    ensures value { result ≡ ipv6_address text.now }
    ensures version { IfSome result (λ ip. ip_family ip ≡ Family.V6) }
{
    match read_ipv6(text) {
        Some(Host::V6(bytes)) => Some(Ip::V6(bytes)),
        _ => None,
    }
}

fn find_colon(text: &[u8]) -> Option<usize>
    ensures place { result ≡ position (λ byte. byte == 58) text.now }
    ensures within { IfSome result (λ at. at < length text.now) }
{
    text.iter().position(|byte| *byte == b':')
}

/// A number of at most 65,535.
fn read_port(text: &[u8]) -> Option<u16>
    ensures { result ≡ whole_number 65535 text.now }
{
    match read_whole_number(text, 65_535) {
        Some(port) => Some(port as u16),
        None => None,
    }
}

/// An IPv4 address, a colon, a port.
pub(crate) fn read_listen(text: &[u8]) -> Option<Addr>
    ensures { result ≡ listen_address text.now }
{
    let at = find_colon(text)?;
    let ip = read_ip(&text[..at])?;
    let port = read_port(&text[at + 1..])?;
    Some(Addr { ip, port })
}

/// The text that an option has.
fn find_text<'a>(matches: &ArgMatches<'a>, name: &str) -> Option<&'a str>
    ensures { MatchOption result (first_of name.now (rows_of (found_of matches.now)) ≡ None) (λ text. first_of name.now (rows_of (found_of matches.now)) ≡ Some text.now) }
{
    matches.get_str(name)
}

/// The address of the interface.
fn find_interface(matches: &ArgMatches<'_>) -> Option<Ip>
    ensures value { result ≡ option_and_then ipv4_address (first_of (codes "interface") (rows_of (found_of matches.now))) }
    ensures version { IfSome result (λ ip. ip_family ip ≡ Family.V4) }
{
    let text = find_text(matches, "interface")?;
    read_ip(text.as_bytes())
}

/// The address of the interface of version 6, if there is one; `None` where its option says something else.
fn find_interface6(matches: &ArgMatches<'_>) -> Option<Option<Ip>>
    ensures value { result ≡ read_or None other_interface (first_of (codes "interface6") (rows_of (found_of matches.now))) }
    ensures version { IfSome result (λ other. IfSome other (λ ip. ip_family ip ≡ Family.V6)) }
{
    let Some(text) = find_text(matches, "interface6") else {
        return Some(None);
    };
    let ip = read_ip6(text.as_bytes())?;
    Some(Some(ip))
}

/// Where the control link is bound.
fn find_listen(matches: &ArgMatches<'_>) -> Option<Addr>
    ensures { result ≡ option_and_then listen_address (first_of (codes "listen-ng") (rows_of (found_of matches.now))) }
{
    let text = find_text(matches, "listen-ng")?;
    read_listen(text.as_bytes())
}

/// The number that an option has, within the limits.
/// It tests the range again: nothing leads from an option's name to what `clap`'s parser tested of its
/// entry.
fn find_number(matches: &ArgMatches<'_>, name: &str, limits: Limits) -> Option<u64>
    ensures value { result ≡ option_number limits.least limits.most name.now (rows_of (found_of matches.now)) }
    ensures within { IfSome result (λ number. (limits.least ≤ number) × (number ≤ limits.most)) }
{
    let number = matches.get_one::<u64>(name)?;
    if limits.least <= number && number <= limits.most {
        Some(number)
    } else {
        None
    }
}

/// The port for media, 1,024 or above, that an option has.
fn find_port(matches: &ArgMatches<'_>, name: &str) -> Option<u16>
    ensures value { result ≡ option_number 1024 65535 name.now (rows_of (found_of matches.now)) }
    ensures within { IfSome result (λ port. 1024 ≤ port) }
{
    let limits = Limits {
        least: 1_024,
        most: 65_535,
    };
    let port = find_number(matches, name, limits)?;
    Some(port as u16)
}

/// How many calls may be live at a time: 1 to 2,048.
fn find_sessions(matches: &ArgMatches<'_>) -> Option<u32>
    ensures value { result ≡ option_number 1 2048 (codes "max-sessions") (rows_of (found_of matches.now)) }
    ensures within { IfSome result (λ sessions. (1 ≤ sessions) × (sessions ≤ 2048)) }
{
    let limits = Limits {
        least: 1,
        most: 2_048,
    };
    let sessions = find_number(matches, "max-sessions", limits)?;
    Some(sessions as u32)
}

/// The time in seconds, from one to a day, that an option has.
fn find_seconds(matches: &ArgMatches<'_>, name: &str) -> Option<u64>
    ensures value { result ≡ option_number 1 86400 name.now (rows_of (found_of matches.now)) }
    ensures within { IfSome result (λ seconds. (1 ≤ seconds) × (seconds ≤ 86400)) }
{
    let limits = Limits {
        least: 1,
        most: 86_400,
    };
    find_number(matches, name, limits)
}

/// How many threads relay media besides the one that answers commands: 0 to 16.
fn find_threads(matches: &ArgMatches<'_>) -> Option<u32>
    ensures value { result ≡ option_number 0 16 (codes "num-threads") (rows_of (found_of matches.now)) }
    ensures within { IfSome result (λ threads. threads ≤ 16) }
{
    let limits = Limits { least: 0, most: 16 };
    let threads = find_number(matches, "num-threads", limits)?;
    Some(threads as u32)
}

/// How many calls are made, or packets sent by each side of one: 1 to 1,000.
fn find_count(matches: &ArgMatches<'_>, name: &str) -> Option<u32>
    ensures value { result ≡ option_number 1 1000 name.now (rows_of (found_of matches.now)) }
    ensures within { IfSome result (λ count. (1 ≤ count) × (count ≤ 1000)) }
{
    let limits = Limits {
        least: 1,
        most: 1_000,
    };
    let count = find_number(matches, name, limits)?;
    Some(count as u32)
}

/// How many lanes relay generated packets: 1 to 16.
fn find_lanes(matches: &ArgMatches<'_>) -> Option<u32>
    ensures value { result ≡ option_number 1 16 (codes "lanes") (rows_of (found_of matches.now)) }
    ensures within { IfSome result (λ lanes. (1 ≤ lanes) × (lanes ≤ 16)) }
{
    let limits = Limits { least: 1, most: 16 };
    let lanes = find_number(matches, "lanes", limits)?;
    Some(lanes as u32)
}

/// From which number keys are drawn.
fn find_seed(matches: &ArgMatches<'_>) -> Option<u64>
    ensures value { result ≡ option_number 0 18446744073709551615 (codes "seed") (rows_of (found_of matches.now)) }
    ensures within { IfSome result (λ seed. seed ≤ 18446744073709551615) }
{
    let limits = Limits {
        least: 0,
        most: u64::MAX,
    };
    find_number(matches, "seed", limits)
}

/// What a replay is made with whose words say nothing of it.
#[tactic(auto, using(crate::proofs::Pairs::pairs_there), unfolding(relay_outside::specs::Settings::range_pairs))]
fn default_config() -> Config
    ensures value { result ≡ default_config }
    ensures limits { IsInLimits result }
{
    Config {
        interface: Ip::V4([203, 0, 113, 1]),
        interface6: None,
        port_min: 30_000,
        port_max: 40_000,
        timeout_ms: 60_000,
        offer_timeout_ms: 3_600_000,
        max_sessions: 2_048,
    }
}

/// Whether the range of ports holds a pair: an even port and the next one.
fn has_pair(config: &Config) -> bool
    ensures value { result ≡ has_pair config.now }
    ensures pair { IsTrue result ↔ ((port : ℕ) × IsPair config.now port) }
{
    config.range_pairs() > 0
}

/// What the relay is run with, where the range of ports holds a pair.
fn find_config(matches: &ArgMatches<'_>) -> Option<Config>
    ensures value { result ≡ config_of (rows_of (found_of matches.now)) }
    ensures limits { IfSome result IsInLimits }
{
    let interface = find_interface(matches)?;
    let interface6 = find_interface6(matches)?;
    let port_min = find_port(matches, "port-min")?;
    let port_max = find_port(matches, "port-max")?;
    let max_sessions = find_sessions(matches)?;
    let timeout = find_seconds(matches, "timeout")?;
    let offer_timeout = find_seconds(matches, "offer-timeout")?;
    let config = Config {
        interface,
        interface6,
        port_min,
        port_max,
        timeout_ms: 1_000 * timeout,
        offer_timeout_ms: 1_000 * offer_timeout,
        max_sessions,
    };
    if has_pair(&config) {
        Some(config)
    } else {
        None
    }
}

/// What the options of `serve` say, where their addresses are ones and the range of ports holds a pair.
pub(crate) fn find_settings(matches: &ArgMatches<'_>) -> Option<Settings>
    ensures value { result ≡ settings_of (rows_of (found_of matches.now)) }
    ensures limits { IfSome result (λ settings. IsInLimits settings.config × (settings.turns ≤ MOST_TURNS) × (settings.threads ≤ 16)) }
{
    let config = find_config(matches)?;
    let listen = find_listen(matches)?;
    let limits = Limits {
        least: 1,
        most: MOST_TURNS,
    };
    let turns = find_number(matches, "turns", limits)?;
    let threads = find_threads(matches)?;
    Some(Settings {
        config,
        listen,
        turns,
        threads,
    })
}

/// What the options of `replay` say, where the address is one and the range of ports holds a pair.
pub(crate) fn find_replay(matches: &ArgMatches<'_>) -> Option<ReplaySettings>
    ensures value { result ≡ replay_of (rows_of (found_of matches.now)) }
    ensures limits { IfSome result (λ settings. IsInLimits settings.config) }
{
    let config = find_config(matches)?;
    let seed = find_seed(matches)?;
    Some(ReplaySettings { config, seed })
}

/// What the options of `load` say.
pub(crate) fn find_load(matches: &ArgMatches<'_>) -> Option<LoadSettings>
    ensures value { result ≡ load_of (rows_of (found_of matches.now)) }
    ensures limits { IfSome result IsLoadInLimits }
{
    let calls = find_count(matches, "calls")?;
    let packets = find_count(matches, "packets")?;
    let lanes = find_lanes(matches)?;
    let seed = find_seed(matches)?;
    Some(LoadSettings {
        config: default_config(),
        calls,
        packets,
        lanes,
        seed,
    })
}
