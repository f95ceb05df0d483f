//! Reading a line of a script.
ghost use Rattle.std.specs.Prelude.{◌≡◌, ℕ, List, MatchResult, MatchBool, IfOk, IfErr, IfSome, codes};
ghost use Rattle.relay_outside.specs.declared.address.Addr.{Addr};
ghost use Rattle.relay_script.specs.Steps.{step_meaning};
ghost use Rattle.relay_script.specs.Lines.{IsDatagram, IsArrival, IsSkipped, IsOutside, InWords, SpellsLine, kind_word};
ghost use Rattle.relay_script.specs.LineParts.{NoWords, RefusesText, ReadsRest, ReadsSendFailure, fail_kind, keyword_of, keyword_text};

use crate::fields::{read_addr, read_count, read_key, read_moment, read_port, read_word};
use crate::payload::read_payload;
use crate::step::{FailKind, ParseFault, Step};
use ng_bencode::Text;
use relay_outside::Addr;
use std::alloc::Global;

/// The most bytes that a line may have.
const MOST_BYTES: usize = 40_000;

/// The words by which lines begin after which more stands.
#[derive(Clone, Copy)]
enum Keyword {
    At,
    Key,
    Fail,
    Ng,
    Take,
    Relay,
    Packet,
}

/// The first word of this name.
fn find_keyword(name: &[u8]) -> Option<Keyword>
    ensures value { result ≡ keyword_of name.now }
    ensures text { IfSome result (λ keyword. name.now ≡ keyword_text keyword) }
{
    if name == b"at".as_slice() {
        Some(Keyword::At)
    } else if name == b"key".as_slice() {
        Some(Keyword::Key)
    } else if name == b"fail".as_slice() {
        Some(Keyword::Fail)
    } else if name == b"ng".as_slice() {
        Some(Keyword::Ng)
    } else if name == b"take".as_slice() {
        Some(Keyword::Take)
    } else if name == b"relay".as_slice() {
        Some(Keyword::Relay)
    } else if name == b"packet".as_slice() {
        Some(Keyword::Packet)
    } else {
        None
    }
}

/// The kind of failure of this name.
fn find_kind(name: &[u8]) -> Option<FailKind>
    ensures value { result ≡ fail_kind name.now }
    ensures text { IfSome result (λ kind. name.now ≡ kind_word kind) }
{
    if name == b"open".as_slice() {
        Some(FailKind::Open)
    } else if name == b"draw".as_slice() {
        Some(FailKind::Draw)
    } else if name == b"take".as_slice() {
        Some(FailKind::Take)
    } else if name == b"read".as_slice() {
        Some(FailKind::Read)
    } else if name == b"reply".as_slice() {
        Some(FailKind::Reply)
    } else {
        None
    }
}

fn read_at(rest: &[u8]) -> Result<Step, ParseFault>
    ensures { ReadsRest (codes "at") rest.now result }
{
    match read_moment(rest) {
        Some(moment) => Ok(Step::At(moment)),
        None => Err(ParseFault::NotInGrammar),
    }
}

fn read_draw(rest: &[u8]) -> Result<Step, ParseFault>
    ensures { ReadsRest (codes "key") rest.now result }
{
    match read_key(rest) {
        Some(bytes) => Ok(Step::Key(bytes)),
        None => Err(ParseFault::NotInGrammar),
    }
}

fn read_relay(rest: &[u8]) -> Result<Step, ParseFault>
    ensures { ReadsRest (codes "relay") rest.now result }
{
    match read_count(rest) {
        Some(receipt) => Ok(Step::Relay(receipt)),
        None => Err(ParseFault::NotInGrammar),
    }
}

/// `ADDR BYTES`.
fn read_datagram(alloc: Global, text: &[u8]) -> Result<(Addr, Text), ParseFault>
    ensures { MatchResult result
        (λ parts. IsDatagram text.now parts.0 parts.1.list)
        (λ fault. RefusesText fault ((source : Addr) (bytes : List ℕ) → IsDatagram text.now source bytes → ⊥)) }
{
    let Some((address, payload)) = read_word(text) else {
        return Err(ParseFault::NotInGrammar);
    };
    let Some(source) = read_addr(address) else {
        return Err(ParseFault::NotInGrammar);
    };
    let bytes = read_payload(alloc, payload)?;
    Ok((source, bytes))
}

/// `PORT ADDR BYTES`.
fn read_arrival(alloc: Global, text: &[u8]) -> Result<(u16, Addr, Text), ParseFault>
    ensures { MatchResult result
        (λ parts. IsArrival text.now parts.0 parts.1 parts.2.list)
        (λ fault. RefusesText fault ((port : ℕ) (source : Addr) (bytes : List ℕ) → IsArrival text.now port source bytes → ⊥)) }
{
    let Some((port, datagram)) = read_word(text) else {
        return Err(ParseFault::NotInGrammar);
    };
    let Some(port) = read_port(port) else {
        return Err(ParseFault::NotInGrammar);
    };
    let (source, bytes) = read_datagram(alloc, datagram)?;
    Ok((port, source, bytes))
}

fn read_ng(alloc: Global, rest: &[u8]) -> Result<Step, ParseFault>
    ensures { ReadsRest (codes "ng") rest.now result }
{
    let (source, bytes) = read_datagram(alloc, rest)?;
    Ok(Step::Ng(source, bytes))
}

fn read_take(alloc: Global, rest: &[u8]) -> Result<Step, ParseFault>
    ensures { ReadsRest (codes "take") rest.now result }
{
    let (port, source, bytes) = read_arrival(alloc, rest)?;
    Ok(Step::Take(port, source, bytes))
}

fn read_packet(alloc: Global, rest: &[u8]) -> Result<Step, ParseFault>
    ensures { ReadsRest (codes "packet") rest.now result }
{
    let (port, source, bytes) = read_arrival(alloc, rest)?;
    Ok(Step::Packet(port, source, bytes))
}

/// `KIND N`, or `send PORT N`.
fn read_fail(rest: &[u8]) -> Result<Step, ParseFault>
    ensures { ReadsRest (codes "fail") rest.now result }
{
    let Some((name, rest)) = read_word(rest) else {
        return Err(ParseFault::NotInGrammar);
    };
    if name == b"send".as_slice() {
        return read_send_failure(rest);
    }
    let Some(kind) = find_kind(name) else {
        return Err(ParseFault::NotInGrammar);
    };
    match read_count(rest) {
        Some(count) => Ok(Step::Fail(kind, count)),
        None => Err(ParseFault::NotInGrammar),
    }
}

/// `PORT N` after `send`.
fn read_send_failure(text: &[u8]) -> Result<Step, ParseFault>
    ensures { ReadsSendFailure text.now result }
{
    let Some((port, number)) = read_word(text) else {
        return Err(ParseFault::NotInGrammar);
    };
    let Some(port) = read_port(port) else {
        return Err(ParseFault::NotInGrammar);
    };
    match read_count(number) {
        Some(count) => Ok(Step::FailSend(port, count)),
        None => Err(ParseFault::NotInGrammar),
    }
}

/// What stands after a first word.
fn read_behind(alloc: Global, keyword: Keyword, rest: &[u8]) -> Result<Step, ParseFault>
    ensures { ReadsRest (keyword_text keyword) rest.now result }
{
    match keyword {
        Keyword::At => read_at(rest),
        Keyword::Key => read_draw(rest),
        Keyword::Fail => read_fail(rest),
        Keyword::Ng => read_ng(alloc, rest),
        Keyword::Take => read_take(alloc, rest),
        Keyword::Relay => read_relay(rest),
        Keyword::Packet => read_packet(alloc, rest),
    }
}

/// A line that begins with a word.
fn read_words(alloc: Global, line: &[u8]) -> Result<Step, ParseFault>
    ensures step { IfOk result (λ step. InWords line.now (step_meaning step)) }
    ensures refused { IfErr result (λ fault. RefusesText fault (NoWords line.now)) }
{
    let Some((name, rest)) = read_word(line) else {
        return Err(ParseFault::NotInGrammar);
    };
    let Some(keyword) = find_keyword(name) else {
        return Err(ParseFault::NotInGrammar);
    };
    read_behind(alloc, keyword, rest)
}

/// Whether a line is empty or a comment.
fn is_skipped(line: &[u8]) -> bool
    ensures { MatchBool result (IsSkipped line.now) (IsSkipped line.now → ⊥) }
{
    line.is_empty() || line[0] == b'#'
}

/// Reads a line of a script, without its line feed. Memory is taken for the bytes of a datagram alone.
pub fn parse(alloc: Global, line: &[u8]) -> Result<Step, ParseFault>
    ensures step { IfOk result (λ step. SpellsLine line.now (step_meaning step)) }
    ensures refused { result ≡ Err ParseFault.NotInGrammar → IsOutside line.now }
{
    if line.len() > MOST_BYTES {
        return Err(ParseFault::NotInGrammar);
    }
    if is_skipped(line) {
        return Ok(Step::Skip);
    }
    if line == b"tick".as_slice() {
        return Ok(Step::Tick);
    }
    read_words(alloc, line)
}
