use cookie_cache::{CacheSaved, CookieCache, SavedReply, cache_moves, kept_is_latest};
use ng_bencode::Text;
use relay_outside::{Addr, Ip};
use std::alloc::Global;
use std::process::Abort;

/// A source at a documentation address (RFC 5737).
const SOURCE: Addr = Addr {
    ip: Ip::V4([192, 0, 2, 1]),
    port: 2223,
};

/// A source at the same address, and at another port.
const OTHER_PORT: Addr = Addr {
    ip: Ip::V4([192, 0, 2, 1]),
    port: 2224,
};

const OTHER_HOST: Addr = Addr {
    ip: Ip::V4([192, 0, 2, 2]),
    port: 2223,
};

const LONGER_HOST: Addr = Addr {
    ip: Ip::V6([192, 0, 2, 1, 0, 0, 0, 0, 0, 0, 0, 0, 0, 0, 0, 0]),
    port: 2223,
};

fn new_cache(rt: &impl Abort, alloc: Global) -> CookieCache {
    CookieCache::new(alloc).expect(rt, "memory")
}

/// Keeps a reply, with memory for it.
fn keep(
    rt: &impl Abort,
    alloc: Global,
    cache: &mut CookieCache,
    source: Addr,
    cookie: &[u8],
    reply: &[u8],
    now: u64,
) {
    assert!(rt; !cookie.is_empty() && cookie.len() <= 255);
    let Ok(()) = cache.reserve() else {
        panic!(rt; "no memory");
    };
    let Ok(cookie) = Text::copy_of(alloc, cookie) else {
        panic!(rt; "no memory");
    };
    let Ok(reply) = Text::copy_of(alloc, reply) else {
        panic!(rt; "no memory");
    };
    cache.keep(source, cookie, reply, now);
}

/// Whether the cache finds this reply, or none.
fn finds(cache: &CookieCache, source: Addr, cookie: &[u8], now: u64, want: Option<&[u8]>) -> bool {
    !cookie.is_empty() && cookie.len() <= 255 && cache.find(source, cookie, now) == want
}

#[test]
fn a_reply_is_found_for_less_than_a_minute(rt: HostRuntime) {
    kept_is_latest();
    let mut cache = new_cache(&rt, rt.alloc());
    assert!(rt; finds(&cache, SOURCE, b"8_a", 0, None));
    keep(&rt, rt.alloc(), &mut cache, SOURCE, b"8_a", b"pong", 0);
    assert!(rt; finds(&cache, SOURCE, b"8_a", 0, Some(b"pong")));
    assert!(rt; finds(&cache, SOURCE, b"8_a", 1, Some(b"pong")));
    assert!(rt; finds(&cache, SOURCE, b"8_a", 59_999, Some(b"pong")));
    assert!(rt; finds(&cache, SOURCE, b"8_a", 60_000, None));
    assert!(rt; finds(&cache, SOURCE, b"8_a", u64::MAX, None));
}

/// Keeps a reply for each cookie of a number up to this one.
fn keep_numbers(
    rt: &impl Abort,
    alloc: Global,
    cache: &mut CookieCache,
    count: u32,
    reply: &[u8],
    now: u64,
) {
    for number in 0..count {
        keep(rt, alloc, cache, SOURCE, &number.to_be_bytes(), reply, now);
    }
}

fn finds_number(cache: &CookieCache, number: u32, want: Option<&[u8]>) -> bool {
    finds(cache, SOURCE, &number.to_be_bytes(), 7, want)
}

#[test]
fn the_first_of_4097_replies_is_gone(rt: HostRuntime) {
    let alloc = rt.alloc();
    let mut cache = new_cache(&rt, alloc);
    keep_numbers(&rt, alloc, &mut cache, 4096, b"first", 7);
    assert!(rt; finds_number(&cache, 0, Some(b"first")));
    assert!(rt; finds_number(&cache, 1, Some(b"first")));
    assert!(rt; finds_number(&cache, 4095, Some(b"first")));
    let last = 4096u32.to_be_bytes();
    keep(&rt, alloc, &mut cache, SOURCE, &last, b"last", 7);
    assert!(rt; finds_number(&cache, 0, None));
    assert!(rt; finds_number(&cache, 1, Some(b"first")));
    assert!(rt; finds_number(&cache, 4096, Some(b"last")));
    assert!(rt; finds_number(&cache, 4097, None));
}

/// Whether a source finds this reply to the cookie, and none to a shorter one.
fn finds_alone(cache: &CookieCache, source: Addr, cookie: &[u8; 255], want: Option<&[u8]>) -> bool {
    finds(cache, source, cookie, 0, want) && finds(cache, source, &cookie[..254], 0, None)
}

#[test]
fn each_source_has_its_own_reply_to_one_cookie(rt: HostRuntime) {
    let mut cache = new_cache(&rt, rt.alloc());
    let longest = [b'c'; 255];
    keep(&rt, rt.alloc(), &mut cache, SOURCE, &longest, b"one", 0);
    keep(&rt, rt.alloc(), &mut cache, OTHER_PORT, &longest, b"two", 0);
    assert!(rt; finds_alone(&cache, SOURCE, &longest, Some(b"one")));
    assert!(rt; finds_alone(&cache, OTHER_PORT, &longest, Some(b"two")));
    assert!(rt; finds_alone(&cache, OTHER_HOST, &longest, None));
    assert!(rt; finds_alone(&cache, LONGER_HOST, &longest, None));
}

#[test]
fn the_latest_reply_to_a_repeated_cookie_counts(rt: HostRuntime) {
    let alloc = rt.alloc();
    let mut cache = new_cache(&rt, alloc);
    keep(&rt, alloc, &mut cache, SOURCE, b"8_a", b"first", 0);
    keep(&rt, alloc, &mut cache, SOURCE, b"8_a", b"second", 60_000);
    keep_numbers(&rt, alloc, &mut cache, 4095, b"other", 60_000);
    assert!(rt; finds(&cache, SOURCE, b"8_a", 60_000, Some(b"second")));
    keep(&rt, alloc, &mut cache, SOURCE, b"9_a", b"other", 60_000);
    assert!(rt; finds(&cache, SOURCE, b"8_a", 60_000, None));
}

/// The key of a kept reply: the family, the address and the port of `SOURCE`, and a cookie.
const KEY: &[u8] = b"\x04\xc0\x00\x02\x01\x08\xaf8_a";

#[test]
fn entries_stand_in_the_order_of_their_latest_replies(rt: HostRuntime) {
    let alloc = rt.alloc();
    let mut cache = new_cache(&rt, alloc);
    keep(&rt, alloc, &mut cache, SOURCE, b"8_a", b"first", 0);
    keep(&rt, alloc, &mut cache, SOURCE, b"8_b", b"other", 1);
    keep(&rt, alloc, &mut cache, SOURCE, b"8_a", b"second", 2);
    let entries = cache.entries();
    let Some((key, kept)) = entries.last() else {
        panic!(rt; "no entry");
    };
    assert!(rt; entries.len() == 2 && key.as_slice() == KEY);
    assert!(rt;
        kept.number == 2 && kept.moment == 2 && kept.reply.as_slice() == b"second".as_slice()
    );
}

#[test]
fn a_clock_that_goes_back_stands_still(rt: HostRuntime) {
    let alloc = rt.alloc();
    let mut cache = new_cache(&rt, alloc);
    keep(&rt, alloc, &mut cache, SOURCE, b"8_a", b"early", 1_000);
    keep(&rt, alloc, &mut cache, SOURCE, b"8_b", b"late", 61_000);
    assert!(rt; finds(&cache, SOURCE, b"8_a", 1_000, None));
    keep(&rt, alloc, &mut cache, SOURCE, b"8_c", b"back", 0);
    assert!(rt; finds(&cache, SOURCE, b"8_c", 0, Some(b"back")));
    assert!(rt; finds(&cache, SOURCE, b"8_c", 120_999, Some(b"back")));
    assert!(rt; finds(&cache, SOURCE, b"8_c", 121_000, None));
}

#[test]
fn a_loaded_cache_finds_the_replies_of_the_saved_one(rt: HostRuntime) {
    cache_moves();
    let alloc = rt.alloc();
    let mut cache = new_cache(&rt, alloc);
    keep(&rt, alloc, &mut cache, SOURCE, b"8_a", b"first", 0);
    keep(&rt, alloc, &mut cache, LONGER_HOST, b"8_a", b"long", 1);
    keep(&rt, alloc, &mut cache, SOURCE, b"8_a", b"second", 2);
    let saved = cache.into_saved().expect(&rt, "memory");
    assert!(rt; saved.kept.len() == 2 && saved.count == 3 && saved.last_moment == 2);
    for one in &saved.kept {
        assert!(rt; one.cookie.as_slice() == b"8_a".as_slice());
        assert!(rt; one.number == one.moment && (one.source == SOURCE) == (one.number == 2));
    }
    let Ok(Some(loaded)) = CookieCache::from_saved(saved) else {
        panic!(rt; "no cache");
    };
    assert!(rt; finds(&loaded, LONGER_HOST, b"8_a", 60_000, Some(b"long")));
    assert!(rt; finds(&loaded, SOURCE, b"8_a", 60_001, Some(b"second")));
    assert!(rt; finds(&loaded, SOURCE, b"8_a", 60_002, None));
}

/// Whether a cache is saved with a reply for this cookie, standing so many times.
fn is_saved_with(rt: &impl Abort, alloc: Global, cookie: &[u8], times: usize) -> bool {
    let mut kept = Vec::new(alloc);
    for _ in 0..times {
        let Ok(cookie) = Text::copy_of(alloc, cookie) else {
            panic!(rt; "no memory");
        };
        kept.push(SavedReply {
            source: SOURCE,
            cookie,
            number: 0,
            reply: Text::new(alloc),
            moment: 0,
        })
        .expect(rt, "memory");
    }
    let saved = CacheSaved {
        kept,
        count: 2,
        last_moment: 0,
    };
    CookieCache::from_saved(saved)
        .expect(rt, "memory")
        .is_some()
}

#[test]
fn no_cache_has_a_cookie_twice_or_one_without_a_byte(rt: HostRuntime) {
    let alloc = rt.alloc();
    assert!(rt; is_saved_with(&rt, alloc, &[7; 255], 1));
    assert!(rt; !is_saved_with(&rt, alloc, &[7; 255], 2));
    assert!(rt; !is_saved_with(&rt, alloc, &[7; 256], 1));
    assert!(rt; !is_saved_with(&rt, alloc, b"", 1));
}
