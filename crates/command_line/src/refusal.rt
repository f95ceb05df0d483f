//! What a refusal of words tells.
ghost use Rattle.std.specs.Prelude.{◌≡◌, ◌≢◌, IfOk, true, ⊤};
ghost use Rattle.clap.specs.Words.{kind_of};
ghost use Rattle.command_line.specs.Refusals.{begins_usage, IsRefused};
ghost use Rattle.command_line.specs.declared.refusal.Refusal.TheVariants.{OutOfMemory as out_of_memory};

use crate::values::{read_ip, read_ip6, read_listen};
use clap::error::ErrorKind;
use clap::{ArgMatches, Error};
use std::alloc::{AllocError, Global};

/// How words are written.
#[derive(Drop)]
pub struct Usage {
    /// A line that begins `usage: rtpengine`, with its line feed.
    pub line: String,
    /// What `clap` says of the words, where it refused them: lines, the last with its line feed.
    pub text: Option<String>,
}

/// Why words are refused.
#[derive(Drop)]
pub enum Refusal {
    /// They ask for nothing: a word or a value is not as it has to be.
    Usage(Usage),
    /// Out of memory.
    OutOfMemory,
}

impl From<AllocError> for Refusal {
    ghost from_gives = { λ _ refusal. refusal ≡ out_of_memory };

    fn from(_refused: AllocError) -> Refusal {
        Refusal::OutOfMemory
    }
}

/// The line with a text more at its end.
fn lengthened(mut line: String, part: &str) -> Result<String, AllocError>
    ensures { begins_usage line.bytes.items ≡ true → IfOk result (λ longer. begins_usage longer.bytes.items ≡ true) }
{
    line.push_str(part)?;
    Ok(line)
}

/// A line that begins `usage: rtpengine`, and goes on with these parts.
fn usage_line(alloc: Global, parts: &[&str]) -> Result<String, AllocError>
    ensures { IfOk result (λ line. begins_usage line.bytes.items ≡ true) }
{
    let mut line = String::from_str(alloc, "usage: rtpengine ")?;
    for part in parts {
        line = lengthened(line, part)?;
    }
    Ok(line)
}

/// The refusal of words that the product refuses, by the parts of its line.
pub(crate) fn refuse(alloc: Global, parts: &[&str]) -> Refusal
    ensures { IsRefused ⊤ result }
{
    match usage_line(alloc, parts) {
        Ok(line) => Refusal::Usage(Usage { line, text: None }),
        Err(_) => Refusal::OutOfMemory,
    }
}

/// The line and the text of an error of `clap`.
fn usage_of(alloc: Global, parts: &[&str], error: &Error) -> Result<Usage, AllocError>
    ensures { IfOk result (λ usage. begins_usage usage.line.bytes.items ≡ true) }
{
    let line = usage_line(alloc, parts)?;
    let text = format!(in alloc; "{error}")?;
    Ok(Usage {
        line,
        text: Some(text),
    })
}

/// The refusal of words that `clap` refuses, by the parts of its line.
pub(crate) fn refuse_by(alloc: Global, parts: &[&str], error: &Error) -> Refusal
    ensures { IsRefused (kind_of error.now ≢ ErrorKind.OutOfMemory) result }
{
    if error.kind() == ErrorKind::OutOfMemory {
        return Refusal::OutOfMemory;
    }
    match usage_of(alloc, parts, error) {
        Ok(usage) => Refusal::Usage(usage),
        Err(_) => Refusal::OutOfMemory,
    }
}

/// The refusal of a value that is no address.
fn refuse_address<'a>(
    alloc: Global,
    command: &'a str,
    option: &'a str,
    value: &'a str,
    expected: &'a str,
) -> Refusal
    ensures { IsRefused ⊤ result }
{
    let parts = [
        command,
        ": invalid value '",
        value,
        "' for '--",
        option,
        "', expected ",
        expected,
        "\n",
    ];
    refuse(alloc, parts.as_slice())
}

/// The refusal of a command whose options `clap` took: an address is none, or the range of ports holds no pair.
pub(crate) fn refuse_values<'a>(
    alloc: Global,
    command: &'a str,
    matches: &ArgMatches<'a>,
) -> Refusal
    ensures { IsRefused ⊤ result }
{
    if let Some(text) = matches.get_str("interface") {
        if read_ip(text.as_bytes()).is_none() {
            let expected = "an IPv4 address, such as 192.0.2.1";
            return refuse_address(alloc, command, "interface", text, expected);
        }
    }
    if let Some(text) = matches.get_str("interface6") {
        if read_ip6(text.as_bytes()).is_none() {
            let expected = "an IPv6 address, such as 2001:db8::1";
            return refuse_address(alloc, command, "interface6", text, expected);
        }
    }
    if let Some(text) = matches.get_str("listen-ng") {
        if read_listen(text.as_bytes()).is_none() {
            let expected = "an IPv4 address and a port, such as 127.0.0.1:2223";
            return refuse_address(alloc, command, "listen-ng", text, expected);
        }
    }
    let parts = [
        command,
        ": no pair of ports from --port-min to --port-max, expected an even port and the next one\n",
    ];
    refuse(alloc, parts.as_slice())
}
