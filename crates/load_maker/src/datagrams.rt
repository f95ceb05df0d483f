//! The datagrams of the control protocol that make the calls of a load.
ghost use Rattle.std.specs.Prelude.{◌≡◌, ◌++◌, ◌<◌, decimal, IfOk};
ghost use Rattle.load_maker.specs.Datagrams.{mark_of, cookie_of, body_of, datagram_with};
ghost use Rattle.ng_bencode.specs.Spells.{spelling};

use crate::body::{answer_body, offer_body};
use crate::text::{put, put_number};
use ng_bencode::Text;
use ng_frame::join;
use relay_outside::OutOfMemory;
use std::alloc::Global;

/// The cookie of a datagram by its number from 0: `o` for an offer and `a` for an answer, and the call's number.
fn datagram_cookie(alloc: Global, number: u32) -> Result<Text, OutOfMemory>
    ensures { IfOk result (λ cookie. cookie.list ≡ cookie_of number) }
{
    let mut cookie = Text::new(alloc);
    if number % 2 == 0 {
        put(&mut cookie, b"o")?;
    } else {
        put(&mut cookie, b"a")?;
    }
    put_number(&mut cookie, number / 2 + 1)?;
    Ok(cookie)
}

/// The body of a datagram by its number from 0.
fn datagram_body(alloc: Global, number: u32) -> Result<Text, OutOfMemory>
    requires { number < 2000 }
    ensures { IfOk result (λ body. body.list ≡ spelling (body_of number)) }
{
    let call = number / 2 + 1;
    let protected = call % 2 == 0;
    if number % 2 == 0 {
        offer_body(alloc, call, protected)
    } else {
        answer_body(alloc, call, protected)
    }
}

/// A datagram by its number from 0.
pub(crate) fn load_datagram(alloc: Global, number: u32) -> Result<Text, OutOfMemory>
    requires { number < 2000 }
    ensures { IfOk result (λ datagram. datagram.list ≡ datagram_with number) }
{
    let cookie = datagram_cookie(alloc, number)?;
    let body = datagram_body(alloc, number)?;
    match join(alloc, cookie.as_slice(), body.as_slice()) {
        Ok(datagram) => Ok(datagram),
        Err(_) => Err(OutOfMemory),
    }
}
