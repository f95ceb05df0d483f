ghost use Rattle.std.specs.Prelude.{◌≡◌, ◌∷◌, [], codes, IfOk, IfErr, MatchResult};
ghost use Rattle.ng_bencode.specs.Row.{list_in};
ghost use Rattle.ng_bencode.specs.Tree.{pairs_of};
ghost use Rattle.ng_command.specs.Values.{text_at};
ghost use Rattle.ng_command.specs.Meanings.{said, meaning, text_in, strings_in_list};
ghost use Rattle.ng_command.specs.Bodies.{kind_named, said_or_fault, Agrees, IsCommandRead};

use crate::command::{AnswerIn, Command, DeleteIn, OfferIn, QueryIn};
use crate::fault::CommandFault;
use crate::kind::{Kind, kind_of};
use crate::options::{DEFAULT_LIMIT, answer_options, delay_of, has_flag, limit_of, offer_options};
use crate::values::text_at;
use crate::verdict::fault_of;
use ng_bencode::{Pairs, Text, decode};
use relay_outside::OutOfMemory;
use std::alloc::Global;

/// Reads the body of a control datagram as a command.
///
/// # Errors
///
/// The first fault, by the order of the variants of `CommandFault`; of keys the first in the order
/// `call-id`, `from-tag`, `to-tag`, `sdp`, `flags`, `replace`, `transport protocol`, `received from`,
/// `limit`, `delete delay`, `address family`, `rtcp-mux`, and of options the first in the order `ICE`,
/// `DTLS`, `transport protocol`, `record call`, `codec`. Keys that the command does not use are ignored,
/// whatever they hold.
pub fn read(alloc: Global, body: &[u8]) -> Result<Command, CommandFault>
    ensures { IsCommandRead body.now result }
{
    let value = decode(alloc, body)?;
    match value.as_dict() {
        Some(pairs) => read_pairs(alloc, pairs),
        None => Err(CommandFault::Malformed),
    }
}

/// Reads a dictionary that was decoded already as a command.
///
/// # Errors
///
/// As `read`, but for `Malformed`: the first fault by the order of the variants of `CommandFault`, and by the same order of keys
/// and options.
pub fn read_pairs(alloc: Global, pairs: &Pairs) -> Result<Command, CommandFault>
    ensures { Agrees (said_or_fault (pairs_of (list_in pairs.now))) result }
{
    let kind = kind_named(pairs)?;
    if let Some(fault) = fault_of(kind, pairs) {
        return Err(fault);
    }
    let command = command_of(alloc, kind, pairs)?;
    Ok(command)
}

/// The command that is named.
fn kind_named(pairs: &Pairs) -> Result<Kind, CommandFault>
    ensures { result ≡ kind_named (text_at (pairs_of (list_in pairs.now)) (codes "command")) }
{
    let Some(name) = text_at(pairs, b"command") else {
        return Err(CommandFault::NoCommand);
    };
    match kind_of(name) {
        Some(kind) => Ok(kind),
        None => Err(CommandFault::Unrecognized),
    }
}

/// The command of a dictionary that has no fault.
fn command_of(alloc: Global, kind: Kind, pairs: &Pairs) -> Result<Command, OutOfMemory>
    ensures { IfOk result (λ command. said command ≡ meaning kind (pairs_of (list_in pairs.now))) }
{
    match kind {
        Kind::Ping => Ok(Command::Ping),
        Kind::Offer => offer_of(alloc, pairs),
        Kind::Answer => answer_of(alloc, pairs),
        Kind::Delete => delete_of(alloc, pairs),
        Kind::Query => query_of(alloc, pairs),
        Kind::List => Ok(Command::List(limit_of(pairs).unwrap_or(DEFAULT_LIMIT))),
    }
}

fn offer_of(alloc: Global, pairs: &Pairs) -> Result<Command, OutOfMemory>
    ensures { IfOk result (λ command. said command ≡ meaning Kind.Offer (pairs_of (list_in pairs.now))) }
{
    let call_id = copy_at(alloc, pairs, b"call-id")?;
    let from_tag = copy_at(alloc, pairs, b"from-tag")?;
    let sdp = copy_at(alloc, pairs, b"sdp")?;
    let options = offer_options(pairs);
    Ok(Command::Offer(OfferIn {
        call_id,
        from_tag,
        sdp,
        options,
    }))
}

fn answer_of(alloc: Global, pairs: &Pairs) -> Result<Command, OutOfMemory>
    ensures { IfOk result (λ command. said command ≡ meaning Kind.Answer (pairs_of (list_in pairs.now))) }
{
    let call_id = copy_at(alloc, pairs, b"call-id")?;
    let from_tag = copy_at(alloc, pairs, b"from-tag")?;
    let to_tag = copy_at(alloc, pairs, b"to-tag")?;
    let sdp = copy_at(alloc, pairs, b"sdp")?;
    let options = answer_options(pairs);
    Ok(Command::Answer(AnswerIn {
        call_id,
        from_tag,
        to_tag,
        sdp,
        options,
    }))
}

fn delete_of(alloc: Global, pairs: &Pairs) -> Result<Command, OutOfMemory>
    ensures { IfOk result (λ command. said command ≡ meaning Kind.Delete (pairs_of (list_in pairs.now))) }
{
    let call_id = copy_at(alloc, pairs, b"call-id")?;
    let from_tag = copy_if_there(alloc, pairs, b"from-tag")?;
    let fatal = has_flag(pairs, b"fatal");
    let delay_s = delay_of(pairs).unwrap_or(0);
    Ok(Command::Delete(DeleteIn {
        call_id,
        from_tag,
        fatal,
        delay_s,
    }))
}

fn query_of(alloc: Global, pairs: &Pairs) -> Result<Command, OutOfMemory>
    ensures { IfOk result (λ command. said command ≡ meaning Kind.Query (pairs_of (list_in pairs.now))) }
{
    let call_id = copy_at(alloc, pairs, b"call-id")?;
    Ok(Command::Query(QueryIn { call_id }))
}

/// A copy of the byte string under a key, empty where there is none.
fn copy_at(alloc: Global, pairs: &Pairs, key: &[u8]) -> Result<Text, OutOfMemory>
    ensures { IfOk result (λ text. text.list ≡ text_in (pairs_of (list_in pairs.now)) key.now) }
{
    match copy_if_there(alloc, pairs, key)? {
        Some(text) => Ok(text),
        None => Ok(Text::new(alloc)),
    }
}

/// A copy of the byte string under a key, where there is one.
fn copy_if_there(alloc: Global, pairs: &Pairs, key: &[u8]) -> Result<Option<Text>, OutOfMemory>
    ensures { IfOk result (λ text. strings_in_list text ≡ text_at (pairs_of (list_in pairs.now)) key.now) }
{
    let Some(text) = text_at(pairs, key) else {
        return Ok(None);
    };
    let Ok(own) = Text::copy_of(alloc, text) else {
        return Err(OutOfMemory);
    };
    Ok(Some(own))
}
