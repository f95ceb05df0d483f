//! The last value: the kept replies.
ghost use Rattle.std.specs.Prelude.{◌≡◌, ◌↔◌, IsTrue, All, map, IfOk, IfSome, IfNone};
ghost use Rattle.cookie_cache.specs.declared.saved.CacheSaved.{CacheSaved};
ghost use Rattle.cookie_cache.specs.SavedReplies.{saved_entry};
ghost use Rattle.ng_bencode.specs.Tree.{tree_of};
ghost use Rattle.state_values.specs.CacheTrees.{cache_tree, FitsSavedReply, FitsCacheSaved};
ghost use Rattle.state_reads.specs.Texts.{HasCache, IsCacheText};

use crate::ranges::ip_fits;
use crate::texts::value_of_text;
use cookie_cache::{CacheSaved, CookieCache, SavedReply};
use ng_bencode::{Text, Value};
use relay_outside::OutOfMemory;
use state_values::read_cache;
use std::alloc::Global;

/// The fields of a reply are in their ranges (no run-time use).
fn reply_fits(saved: &SavedReply)
    ensures { FitsSavedReply saved.now }
{
    ip_fits(saved.source.ip);
    let _port = saved.source.port;
    let _number = saved.number;
    let _moment = saved.moment;
}

/// The same of each (no run-time use).
fn replies_fit(kept: &[SavedReply])
    ensures { All FitsSavedReply kept.now }
{
    for saved in kept {
        reply_fits(saved);
    }
}

/// The same of a cache (no run-time use).
fn cache_fits(saved: &CacheSaved)
    ensures { FitsCacheSaved saved.now }
{
    replies_fit(&saved.kept);
    let _count = saved.count;
    let _moment = saved.last_moment;
}

/// The same reply in memory of its own.
fn copy_reply(alloc: Global, saved: &SavedReply) -> Result<SavedReply, OutOfMemory>
    ensures { IfOk result (λ copy. saved_entry copy ≡ saved_entry saved.now) }
{
    let Ok(cookie) = Text::copy_of(alloc, saved.cookie.as_slice()) else {
        return Err(OutOfMemory);
    };
    let Ok(reply) = Text::copy_of(alloc, saved.reply.as_slice()) else {
        return Err(OutOfMemory);
    };
    Ok(SavedReply {
        source: saved.source,
        cookie,
        number: saved.number,
        reply,
        moment: saved.moment,
    })
}

/// The same replies in memory of their own.
fn copy_replies(alloc: Global, kept: &[SavedReply]) -> Result<Vec<SavedReply>, OutOfMemory>
    ensures { IfOk result (λ copies. map saved_entry copies.items ≡ map saved_entry kept.now) }
{
    let mut copies = Vec::new(alloc);
    for saved in kept {
        let copy = copy_reply(alloc, saved)?;
        copies.push(copy)?;
    }
    Ok(copies)
}

/// Whether a cache is loaded of it.
fn is_loaded(saved: CacheSaved) -> Result<bool, OutOfMemory>
    ensures { IfOk result (λ is. IsTrue is ↔ HasCache saved) }
{
    let loaded = CookieCache::from_saved(saved)?;
    Ok(loaded.is_some())
}

/// Whether some cache is saved so. It takes memory for a second one.
fn cache_stands(alloc: Global, saved: &CacheSaved) -> Result<bool, OutOfMemory>
    ensures { IfOk result (λ stands. IsTrue stands ↔ HasCache saved.now) }
{
    let kept = copy_replies(alloc, &saved.kept)?;
    let copy = CacheSaved {
        kept,
        count: saved.count,
        last_moment: saved.last_moment,
    };
    is_loaded(copy)
}

/// The cache that is read of the value.
fn cache_of_value(alloc: Global, value: &Value) -> Result<Option<CacheSaved>, OutOfMemory>
    ensures some { IfOk result (λ read. IfSome read (λ saved. tree_of value.now ≡ cache_tree saved)) }
    ensures kept { IfOk result (λ read. IfSome read HasCache) }
    ensures none { IfOk result (λ read. IfNone read ((saved : CacheSaved) → FitsCacheSaved saved → tree_of value.now ≡ cache_tree saved → HasCache saved → ⊥)) }
{
    let Some(saved) = read_cache(alloc, value)? else {
        return Ok(None);
    };
    cache_fits(&saved);
    if cache_stands(alloc, &saved)? {
        Ok(Some(saved))
    } else {
        Ok(None)
    }
}

/// The kept replies that this text is. `None`: it is none of a cache: a cookie has no byte or more than 255, or stands twice with one source.
pub fn cache_of_text(alloc: Global, text: &[u8]) -> Result<Option<CacheSaved>, OutOfMemory>
    ensures some { IfOk result (λ read. IfSome read (IsCacheText text.now)) }
    ensures none { IfOk result (λ read. IfNone read ((saved : CacheSaved) → FitsCacheSaved saved → IsCacheText text.now saved → ⊥)) }
{
    let Some(value) = value_of_text(alloc, text)? else {
        return Ok(None);
    };
    cache_of_value(alloc, &value)
}
