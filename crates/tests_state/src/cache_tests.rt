use crate::written_again::{cache_again, cache_bytes};
use cookie_cache::CookieCache;
use ng_bencode::Text;
use relay_outside::{Addr, Ip};
use std::alloc::Global;
use std::process::Abort;

/// Two sources at documentation addresses (RFC 5737 and RFC 3849).
const SOURCE: Addr = Addr {
    ip: Ip::V4([192, 0, 2, 1]),
    port: 2223,
};

const OTHER: Addr = Addr {
    ip: Ip::V6([0x20, 1, 0x0d, 0xb8, 0, 0, 0, 0, 0, 0, 0, 0, 0, 0, 0, 1]),
    port: 2224,
};

/// Keeps a reply, with memory for it.
fn keep(
    rt: &impl Abort,
    alloc: Global,
    cache: &mut CookieCache,
    source: Addr,
    cookie: &[u8],
    reply: &[u8],
    now: u64,
) {
    assert!(rt; !cookie.is_empty() && cookie.len() <= 255);
    let Ok(()) = cache.reserve() else {
        panic!(rt; "no memory");
    };
    let Ok(cookie) = Text::copy_of(alloc, cookie) else {
        panic!(rt; "no memory");
    };
    let Ok(reply) = Text::copy_of(alloc, reply) else {
        panic!(rt; "no memory");
    };
    cache.keep(source, cookie, reply, now);
}

/// A cache with two replies, of three that were kept: the latest to a repeated cookie counts.
pub(crate) fn used_cache(rt: &impl Abort, alloc: Global) -> CookieCache {
    let Ok(mut cache) = CookieCache::new(alloc) else {
        panic!(rt; "no memory");
    };
    keep(rt, alloc, &mut cache, SOURCE, b"8_a", b"first", 5);
    keep(rt, alloc, &mut cache, OTHER, b"8_a", b"other", 6);
    keep(rt, alloc, &mut cache, SOURCE, b"8_a", b"second", 7);
    cache
}

/// That cache as it is written.
pub(crate) const WRITTEN: &[u8] =
    b"d5:counti3e4:keptld6:cookie3:8_a6:momenti6e6:numberi1e5:reply5:other6:source18:\x20\x01\x0d\xb8\x00\x00\x00\x00\x00\x00\x00\x00\x00\x00\x00\x01\x08\xb0ed6:cookie3:8_a6:momenti7e6:numberi2e5:reply6:second6:source6:\xc0\x00\x02\x01\x08\xafee6:momenti7ee";

#[test]
fn a_cache_there_and_back(rt: HostRuntime) {
    let alloc = rt.alloc();
    let saved = used_cache(&rt, alloc).into_saved().expect(&rt, "memory");
    assert!(rt; cache_bytes(&rt, alloc, &saved).as_slice() == WRITTEN);
    let again = cache_again(&rt, alloc, WRITTEN).expect(&rt, "a cache");
    assert!(rt; again.as_slice() == WRITTEN);
}

/// A cache that was given so many replies, each for a cookie of its number.
fn full_cache(rt: &impl Abort, alloc: Global, count: u32) -> CookieCache {
    let Ok(mut cache) = CookieCache::new(alloc) else {
        panic!(rt; "no memory");
    };
    for number in 0..count {
        let cookie = number.to_be_bytes();
        keep(rt, alloc, &mut cache, SOURCE, &cookie, b"pong", u64::MAX);
    }
    cache
}

#[test]
fn a_cache_is_written_without_the_reply_that_went(rt: HostRuntime) {
    let alloc = rt.alloc();
    let saved = full_cache(&rt, alloc, 4_097).into_saved();
    let saved = saved.expect(&rt, "memory");
    assert!(rt; saved.kept.len() == 4_096 && saved.count == 4_097);
    assert!(rt; saved.kept[0].cookie.as_slice() == [0, 0, 0, 1].as_slice());
    let bytes = cache_bytes(&rt, alloc, &saved);
    let again = cache_again(&rt, alloc, bytes.as_slice()).expect(&rt, "a cache");
    assert!(rt; again.as_slice() == bytes.as_slice());
}
