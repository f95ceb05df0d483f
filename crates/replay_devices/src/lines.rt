ghost use Rattle.std.specs.Prelude.{◌≡◌, ◌+◌, ◌^◌, ℕ, ◌≤◌, MatchOption, IsSome, Some, None, min, length, take, drop, count_by, position, slice_get, IfSome, ◌<◌};
ghost use Rattle.std.specs.Option.{is_some};
ghost use Rattle.replay_devices.specs.Ports.{next_line, packet_in_line};
ghost use Rattle.replay_devices.specs.Lines.{between, scripted_key, asked_of, fail_asked_by, failures_of, same_family, same_line_kind, arrives_at, send_failure};

use relay_outside::{Addr, Ip};
use relay_script::{FailKind, Step};

/// The first this many lines.
fn front(steps: &[Step], count: usize) -> &[Step]
    ensures { result.now ≡ take count steps.now }
{
    if count < steps.len() {
        &steps[..count]
    } else {
        steps
    }
}

/// The lines after the first this many.
fn behind(steps: &[Step], count: usize) -> &[Step]
    ensures { result.now ≡ drop count steps.now }
{
    if count < steps.len() {
        &steps[count..]
    } else {
        &steps[steps.len()..]
    }
}

/// The lines from one index up to another, which is not among them.
pub(crate) fn between(steps: &[Step], from: usize, before: usize) -> &[Step]
    ensures { result.now ≡ between steps.now from before }
{
    behind(front(steps, before), from)
}

/// Where the first line at the port of this address stands.
fn first_at(at: Addr, lines: &[Step]) -> Option<usize>
    ensures place { result ≡ position (arrives_at at) lines.now }
    ensures within { IfSome result (λ place. place < length lines.now) }
    ensures arrives { IfSome result (λ place. IsSome (packet_in_line (slice_get lines.now place))) }
{
    lines.iter().position(|step| arrives_at(at, step))
}

/// The index of the first line, from an index on, at the port of this address.
pub(crate) fn next_line(steps: &[Step], at: Addr, from: usize) -> Option<usize>
    ensures line { result ≡ next_line steps.now at from }
    ensures within { IfSome result (λ index. index < length steps.now) }
    ensures bounded { IfSome result (λ index. index + 1 < 2 ^ 64) }
    ensures arrives { IfSome result (λ index. IsSome (packet_in_line (slice_get steps.now index))) }
{
    match first_at(at, behind(steps, from)) {
        Some(place) => Some(from + place),
        None => None,
    }
}

/// Whether two kinds of failing calls are the same.
fn is_same_kind(kind: FailKind, wanted: FailKind) -> bool
    ensures { result ≡ same_line_kind kind wanted }
{
    kind == wanted
}

/// The number of a line `fail` of this kind.
pub(crate) fn asked_of(wanted: FailKind, step: &Step) -> Option<u32>
    ensures { result ≡ asked_of wanted step.now }
{
    match step {
        Step::Fail(kind, number) => {
            if is_same_kind(*kind, wanted) {
                Some(*number)
            } else {
                None
            }
        }
        _ => None,
    }
}

/// How many lines `fail` of this kind there are.
pub(crate) fn failures_of(wanted: FailKind, steps: &[Step]) -> usize
    ensures { result ≡ failures_of wanted steps.now }
{
    steps
        .iter()
        .filter(|step| asked_of(wanted, *step).is_some())
        .count()
}

/// Whether two addresses are of one family.
fn is_same_family(a: Ip, b: Ip) -> bool
    ensures { result ≡ same_family a b }
{
    match (a, b) {
        (Ip::V4(_), Ip::V4(_)) => true,
        (Ip::V6(_), Ip::V6(_)) => true,
        _ => false,
    }
}

/// Whether it is a line `take` or `packet` at the port of this address.
pub(crate) fn arrives_at(at: Addr, step: &Step) -> bool
    ensures { result ≡ arrives_at at step.now }
{
    match step {
        Step::Take(port, from, _) => *port == at.port && is_same_family(from.ip, at.ip),
        Step::Packet(port, from, _) => *port == at.port && is_same_family(from.ip, at.ip),
        _ => false,
    }
}

/// Copies to the front of the buffer as many of the bytes as it holds, and says how many.
pub(crate) fn fill(buf: &mut [u8], bytes: &[u8]) -> usize
    ensures count { result ≡ min (length bytes.now) (length buf.old) }
    ensures front { take result buf.new ≡ take result bytes.now }
    ensures rest { drop result buf.new ≡ drop result buf.old }
{
    let len = bytes.len().min(buf.len());
    buf[..len].copy_from_slice(&bytes[..len]);
    len
}

/// The number of the line `fail` of this kind at an index.
pub(crate) fn asked_at(wanted: FailKind, steps: &[Step], index: usize) -> Option<u32>
    ensures { result ≡ fail_asked_by wanted (slice_get steps.now index) }
{
    match steps.get(index) {
        Some(step) => asked_of(wanted, step),
        None => None,
    }
}

/// The number of a line `fail send` of this port.
pub(crate) fn send_failure(port: u16, step: &Step) -> Option<u32>
    ensures { result ≡ send_failure port step.now }
{
    match step {
        Step::FailSend(other, count) => { if *other == port { Some(*count) } else { None } }
        _ => None,
    }
}
