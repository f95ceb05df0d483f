//! The body of a control datagram.

ghost use Rattle.std.specs.Prelude.{◌≡◌, ◌≤◌, length, true, false, Some, IfOk, MatchOption};
ghost use Rattle.ng_bencode.specs.Row.{list_in};
ghost use Rattle.ng_bencode.specs.Tree.{Dict, Entries, tree_of, pairs_of};
ghost use Rattle.ng_command.specs.Meanings.{said};
ghost use Rattle.ng_command.specs.Bodies.{said_or_fault};
ghost use Rattle.call_board.specs.Requests.{ReadsIn, ReadsBody, command_code, or_code, command_in};
ghost use Rattle.control_messages.specs.Bodies.{pairs_if, dictionary_in, said_by, description_in};

use crate::request::is_json;
use ng_bencode::{Bad, Pairs, Value, decode};
use ng_command::{Command, CommandFault, read_pairs};
use ng_json::JsonFault;
use ng_reply::ErrorCode;
use relay_outside::OutOfMemory;
use std::alloc::Global;

/// What the body of a control datagram says.
#[derive(Drop)]
pub struct Body {
    /// The dictionary that it says, if it says one.
    pub dictionary: Option<Pairs>,
    /// The command that the dictionary says, or the first error that there is in its place: `E1` to `E5`.
    pub command: Result<Command, ErrorCode>,
}

/// The error code of a fault.
fn code_of(fault: CommandFault) -> ErrorCode
    ensures { result ≡ command_code fault }
{
    match fault {
        CommandFault::Malformed => ErrorCode::E1,
        CommandFault::NoCommand => ErrorCode::E2,
        CommandFault::Unrecognized => ErrorCode::E3,
        CommandFault::Key(name) => ErrorCode::E4(name),
        CommandFault::Unsupported(name) => ErrorCode::E5(name),
        CommandFault::OutOfMemory => ErrorCode::E17,
    }
}

/// The pairs, where the value is a dictionary.
fn dictionary_of(value: Value) -> Option<Pairs>
    ensures { MatchOption result
        ((pairs : Entries) → tree_of value ≡ Dict pairs → ⊥)
        (λ pairs. tree_of value ≡ Dict (pairs_of (list_in pairs))) }
{
    match value {
        Value::Dict(pairs) => Some(pairs),
        _ => None,
    }
}

/// The dictionary that a text spells in bencode, if it spells one.
fn bencode_dictionary(alloc: Global, text: &[u8]) -> Result<Option<Pairs>, OutOfMemory>
    ensures { IfOk result (λ dictionary. ReadsIn false text.now (pairs_if dictionary)) }
{
    match decode(alloc, text) {
        Ok(value) => Ok(dictionary_of(value)),
        Err(Bad::NotBencode) => Ok(None),
        Err(Bad::OutOfMemory) => Err(OutOfMemory),
    }
}

/// The dictionary that a JSON text says, if it says one.
fn json_dictionary(alloc: Global, text: &[u8]) -> Result<Option<Pairs>, OutOfMemory>
    ensures { IfOk result (λ dictionary. ReadsIn true text.now (pairs_if dictionary)) }
{
    match ng_json::read(alloc, text) {
        Ok(value) => Ok(dictionary_of(value)),
        Err(JsonFault::NotJson) => Ok(None),
        Err(JsonFault::NoTwin) => Ok(None),
        Err(JsonFault::OutOfMemory) => Err(OutOfMemory),
    }
}

/// The dictionary that a body says in its dialect, if it says one.
fn dictionary_in(alloc: Global, body: &[u8]) -> Result<Option<Pairs>, OutOfMemory>
    ensures { IfOk result (λ dictionary. ReadsBody body.now (pairs_if dictionary)) }
{
    if is_json(body) {
        json_dictionary(alloc, body)
    } else {
        bencode_dictionary(alloc, body)
    }
}

/// The command that a dictionary says, or the first error in its place.
fn command_of(alloc: Global, pairs: &Pairs) -> Result<Result<Command, ErrorCode>, OutOfMemory>
    ensures { IfOk result (λ command. or_code (said_or_fault (pairs_of (list_in pairs.now))) ≡ said_by command) }
{
    match read_pairs(alloc, pairs) {
        Ok(command) => Ok(Ok(command)),
        Err(CommandFault::OutOfMemory) => Err(OutOfMemory),
        Err(fault) => Ok(Err(code_of(fault))),
    }
}

/// What a body says whose dictionary is this one.
fn body_of(alloc: Global, pairs: Pairs) -> Result<Body, OutOfMemory>
    ensures dictionary { IfOk result (λ read. dictionary_in read ≡ Some (pairs_of (list_in pairs))) }
    ensures command { IfOk result (λ read. command_in false (dictionary_in read) ≡ said_by read.command) }
{
    let command = command_of(alloc, &pairs)?;
    Ok(Body {
        dictionary: Some(pairs),
        command,
    })
}

/// Reads the body of a control datagram, of at most 16,384 bytes, in its dialect.
///
/// A description is shorter than 2^31 bytes in either dialect, as room for the reply needs: no JSON
/// string has more bytes than its text.
pub fn read_body(alloc: Global, body: &[u8]) -> Result<Body, OutOfMemory>
    ensures reads { IfOk result (λ read. ReadsBody body.now (dictionary_in read)) }
    ensures command { IfOk result (λ read. command_in false (dictionary_in read) ≡ said_by read.command) }
    // A description is no longer than the body.
    ensures small { IfOk result (λ read. IfOk read.command (λ command. length (description_in (said command)) ≤ length body.now)) }
{
    match dictionary_in(alloc, body)? {
        Some(pairs) => body_of(alloc, pairs),
        None => Ok(Body {
            dictionary: None,
            command: Err(ErrorCode::E1),
        }),
    }
}
