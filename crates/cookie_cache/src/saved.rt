//! The replies of a cache as values with public fields, and back.
ghost use Rattle.std.specs.Prelude.{◌≡◌, map, IsTrue, IfOk, IfSome, IfNone, OnOk};
ghost use Rattle.cookie_cache.specs.Entries.{all_shown};
ghost use Rattle.cookie_cache.specs.SavedReplies.{saved_entry, is_cache_key, HaveCacheKeys, AreCacheEntries};

use crate::kept_reply::KeptReply;
use crate::key::{KeyBytes, is_cookie_of, parts_of};
use indexmap::IndexMap;
use ng_bencode::Text;
use relay_outside::{Addr, OutOfMemory};
use std::alloc::Global;

/// A reply that a cache keeps.
#[derive(Drop)]
pub struct SavedReply {
    /// Where the command came from that it answered.
    pub source: Addr,
    /// The cookie of that command, 1 to 255 bytes.
    pub cookie: Text,
    /// How many replies were kept before it, modulo 2^64: by this it is counted among the last 4,096.
    pub number: u64,
    /// The bytes of the reply.
    pub reply: Text,
    /// When the reply was kept, in milliseconds.
    pub moment: u64,
}

/// All that a `CookieCache` keeps: `CookieCache::into_saved` gives it, and `CookieCache::from_saved` makes a cache of it.
#[derive(Drop)]
pub struct CacheSaved {
    /// The latest reply for each source and cookie of the last 4,096, oldest first.
    pub kept: Vec<SavedReply>,
    /// How many replies were kept, modulo 2^64.
    pub count: u64,
    /// When the last reply was kept, in milliseconds; 0 where none was.
    pub last_moment: u64,
}

/// The entries of a cache as saved replies, in order.
pub(crate) fn replies_of(
    alloc: Global,
    entries: IndexMap<Vec<u8>, KeptReply>,
) -> Result<Vec<SavedReply>, OutOfMemory>
    requires { HaveCacheKeys (all_shown entries.entries) }
    ensures replies { IfOk result (λ kept. all_shown entries.entries ≡ map saved_entry kept.items) }
    ensures entries { OnOk result (AreCacheEntries (all_shown entries.entries)) }
{
    let mut kept = Vec::new(alloc);
    for pair in entries {
        let (key, value) = pair;
        let saved = reply_of(alloc, key.as_slice(), value)?;
        kept.push(saved)?;
    }
    Ok(kept)
}

fn reply_of(alloc: Global, key: &[u8], kept: KeptReply) -> Result<SavedReply, OutOfMemory>
    requires { IsTrue (is_cache_key key.now) }
    ensures { IfOk result (λ saved. saved_entry saved ≡ record { key = key.now; number = kept.number; reply = kept.reply.list; moment = kept.moment }) }
{
    let (source, cookie) = parts_of(key);
    let Ok(cookie) = Text::copy_of(alloc, cookie) else {
        return Err(OutOfMemory);
    };
    Ok(SavedReply {
        source,
        cookie,
        number: kept.number,
        reply: kept.reply,
        moment: kept.moment,
    })
}

/// The entries that were saved as these replies; `None` where a cookie has no byte or more than 255, or stands twice with
/// the same source.
pub(crate) fn entries_of(
    alloc: Global,
    kept: Vec<SavedReply>,
) -> Result<Option<IndexMap<Vec<u8>, KeptReply>>, OutOfMemory>
    ensures some { IfOk result (λ r. IfSome r (λ m. (all_shown m.entries ≡ map saved_entry kept.items) × AreCacheEntries (all_shown m.entries))) }
    ensures none { IfOk result (λ r. IfNone r (AreCacheEntries (map saved_entry kept.items) → ⊥)) }
{
    let mut entries = IndexMap::with_capacity(alloc, kept.len())?;
    for saved in kept {
        if !is_cookie_of(saved.source, saved.cookie.as_slice()) {
            return Ok(None);
        }
        let bytes = KeyBytes::new(saved.source, saved.cookie.as_slice());
        let key = Vec::from_slice(alloc, bytes.as_slice())?;
        let value = KeptReply {
            number: saved.number,
            reply: saved.reply,
            moment: saved.moment,
        };
        let again = entries.insert(key, value)?.is_some();
        if again {
            return Ok(None);
        }
    }
    Ok(Some(entries))
}
