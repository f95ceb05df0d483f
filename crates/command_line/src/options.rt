//! The options of each command, as `clap` is told them.
ghost use Rattle.std.specs.Prelude.{◌≡◌, false, codes, IfOk};
ghost use Rattle.clap.specs.Words.{app_of, rule_of, with_rule};
ghost use Rattle.command_line.specs.Commands.{default_rule, number_rule, option_rule, required_rule, serve_app, replay_app, load_app, with_rules, shared_rules};

use crate::numbers::Limits;
use clap::builder::ValueParser;
use clap::{Arg, Command};
use std::alloc::{AllocError, Global};

/// An option that has to be given.
fn required<'a>(alloc: Global, name: &'a str, value: &'a str, help: &'a str) -> Arg<'a>
    ensures rule { rule_of result ≡ required_rule name.entry.now }
    ensures local { result.global ≡ false }
{
    Arg::new(alloc, name)
        .long(name)
        .value_name(value)
        .help(help)
        .required(true)
}

/// An option that may be given, and has no default.
fn optional<'a>(alloc: Global, name: &'a str, value: &'a str, help: &'a str) -> Arg<'a>
    ensures rule { rule_of result ≡ option_rule name.entry.now }
    ensures local { result.global ≡ false }
{
    Arg::new(alloc, name)
        .long(name)
        .value_name(value)
        .help(help)
}

/// An option with a default.
fn with_default<'a>(
    alloc: Global,
    name: &'a str,
    value: &'a str,
    help: &'a str,
    default: &'a str,
) -> Arg<'a>
    ensures rule { rule_of result ≡ default_rule name.entry.now default.entry.now }
    ensures local { result.global ≡ false }
{
    Arg::new(alloc, name)
        .long(name)
        .value_name(value)
        .help(help)
        .default_value(default)
}

/// An option whose value is a number within the limits.
fn number<'a>(
    alloc: Global,
    name: &'a str,
    value: &'a str,
    help: &'a str,
    limits: Limits,
    default: &'a str,
) -> Arg<'a>
    ensures rule { rule_of result ≡ number_rule name.entry.now limits.least limits.most default.entry.now }
    ensures local { result.global ≡ false }
{
    with_default(alloc, name, value, help, default).value_parser(ValueParser::Unsigned(
        limits.least,
        limits.most,
    ))
}

/// The command with one more option, whose value is a number within the limits.
fn with_number<'a>(
    alloc: Global,
    command: Command<'a>,
    name: &'a str,
    value: &'a str,
    help: &'a str,
    limits: Limits,
    default: &'a str,
) -> Result<Command<'a>, AllocError>
    ensures { IfOk result (λ r. app_of r ≡ with_rule (app_of command.entry) (number_rule name.entry.now limits.least limits.most default.entry.now)) }
{
    command.arg(number(alloc, name, value, help, limits, default))
}

/// The command with one more option, which says how many: from one to the most.
fn with_count<'a>(
    alloc: Global,
    command: Command<'a>,
    name: &'a str,
    help: &'a str,
    most: u64,
    default: &'a str,
) -> Result<Command<'a>, AllocError>
    ensures { IfOk result (λ r. app_of r ≡ with_rule (app_of command.entry) (number_rule name.entry.now 1 most default.entry.now)) }
{
    let limits = Limits { least: 1, most };
    with_number(alloc, command, name, "NUMBER", help, limits, default)
}

/// The command with the option of a seed.
fn with_seed<'a>(
    alloc: Global,
    command: Command<'a>,
    help: &'a str,
) -> Result<Command<'a>, AllocError>
    ensures { IfOk result (λ r. app_of r ≡ with_rule (app_of command.entry) (number_rule (codes "seed") 0 18446744073709551615 (codes "1"))) }
{
    let seeds = Limits {
        least: 0,
        most: u64::MAX,
    };
    with_number(alloc, command, "seed", "NUMBER", help, seeds, "1")
}

/// A command with the options that `serve` and `replay` share, but the interfaces.
fn with_shared<'a>(alloc: Global, command: Command<'a>) -> Result<Command<'a>, AllocError>
    ensures { IfOk result (λ r. app_of r ≡ with_rules (app_of command.entry) shared_rules) }
{
    let ports = Limits {
        least: 1_024,
        most: 65_535,
    };
    let seconds = Limits {
        least: 1,
        most: 86_400,
    };
    let calls = Limits {
        least: 1,
        most: 2_048,
    };
    let help = "First port for media, 1024 to 65535";
    let one = with_number(alloc, command, "port-min", "PORT", help, ports, "30000")?;
    let help =
        "Last port for media, 1024 to 65535. A call needs four ports for each of its streams";
    let two = with_number(alloc, one, "port-max", "PORT", help, ports, "40000")?;
    let help = "How many calls may be live at once, 1 to 2048";
    let three = with_number(alloc, two, "max-sessions", "NUMBER", help, calls, "2048")?;
    let help = "An answered call without a packet ends after this time, 1 to 86400 seconds";
    let four = with_number(alloc, three, "timeout", "SECONDS", help, seconds, "60")?;
    let help = "A call that is not answered ends after this time, 1 to 86400 seconds";
    with_number(
        alloc,
        four,
        "offer-timeout",
        "SECONDS",
        help,
        seconds,
        "3600",
    )
}

/// The options of `serve`.
pub(crate) fn serve_command<'a>(alloc: Global) -> Result<Command<'a>, AllocError>
    ensures { IfOk result (λ command. app_of command ≡ serve_app) }
{
    let turns = Limits {
        least: 1,
        most: 1_000_000_000_000_000,
    };
    let threads = Limits { least: 0, most: 16 };
    let help = "IPv4 address where media ports are opened, and that descriptions name";
    let interface = required(alloc, "interface", "ADDRESS", help);
    let begun = Command::new(alloc, "rtpengine serve")
        .about("Relays the media of a SIP proxy's calls, under the ng control protocol")
        .after_help("Example:\n  rtpengine serve --interface=192.0.2.1 --listen-ng=127.0.0.1:2223")
        .no_binary_name(true)
        .arg(interface)?;
    let help =
        "IPv6 address for the same, without a zone. If it is left out, media is over IPv4 alone";
    let interface6 = optional(alloc, "interface6", "ADDRESS", help);
    let both = begun.arg(interface6)?;
    let help = "Where commands come in, by UDP. Whoever reaches it controls all calls";
    let listen = with_default(alloc, "listen-ng", "ADDRESS:PORT", help, "127.0.0.1:2223");
    let listened = both.arg(listen)?;
    let shared = with_shared(alloc, listened)?;
    let help =
        "End after waiting for a command this many times, 1 to 10^15. One wait takes a second at most";
    let turned = with_number(
        alloc,
        shared,
        "turns",
        "NUMBER",
        help,
        turns,
        "1000000000000000",
    )?;
    let help =
        "Threads for media besides the one that answers commands, 0 to 16. With 0, that one relays media too";
    with_number(alloc, turned, "num-threads", "NUMBER", help, threads, "4")
}

/// The options of `replay`.
pub(crate) fn replay_command<'a>(alloc: Global) -> Result<Command<'a>, AllocError>
    ensures { IfOk result (λ command. app_of command ≡ replay_app) }
{
    let help = "IPv4 address that descriptions name";
    let interface = with_default(alloc, "interface", "ADDRESS", help, "203.0.113.1");
    let begun = Command::new(alloc, "rtpengine replay")
        .about("Plays a script of datagrams and packets from standard input, without a socket")
        .after_help("Example:\n  rtpengine replay --seed=7 <call.script")
        .no_binary_name(true)
        .arg(interface)?;
    let help = "IPv6 address for the same. If it is left out, media is over IPv4 alone";
    let interface6 = optional(alloc, "interface6", "ADDRESS", help);
    let both = begun.arg(interface6)?;
    let shared = with_shared(alloc, both)?;
    let help = "Makes the SRTP keys that the script doesn't give, below 2^64";
    with_seed(alloc, shared, help)
}

/// The options of `load`.
pub(crate) fn load_command<'a>(alloc: Global) -> Result<Command<'a>, AllocError>
    ensures { IfOk result (λ command. app_of command ≡ load_app) }
{
    let begun = Command::new(alloc, "rtpengine load")
        .about("Relays the packets of generated calls, without a socket")
        .after_help("Example:\n  rtpengine load --calls=100 --packets=500 --lanes=2")
        .no_binary_name(true);
    let help = "How many calls are made, 1 to 1000";
    let one = with_count(alloc, begun, "calls", help, 1_000, "50")?;
    let help = "How many packets each side of a call sends, 1 to 1000";
    let two = with_count(alloc, one, "packets", help, 1_000, "200")?;
    let help = "How many lanes relay them, 1 to 16";
    let three = with_count(alloc, two, "lanes", help, 16, "4")?;
    with_seed(alloc, three, "Makes the SRTP keys, below 2^64")
}
