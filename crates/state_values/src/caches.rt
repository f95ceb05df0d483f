//! The cache's record.
ghost use Rattle.std.specs.Prelude.{codes, ◌≡◌, List, All, IfOk, IfSome, IfNone};
ghost use Rattle.ng_bencode.specs.Tree.{Bytes, Dict, entry, no_entries, tree_of};
ghost use Rattle.cookie_cache.specs.declared.saved.SavedReply.{SavedReply};
ghost use Rattle.cookie_cache.specs.declared.saved.CacheSaved.{CacheSaved};
ghost use Rattle.state_values.specs.Numbers.{number_tree, list_tree};
ghost use Rattle.state_values.specs.CacheTrees.{source_bytes, reply_tree, cache_tree, FitsSavedReply, FitsCacheSaved};

use crate::fields::{next_field, none_left, pairs_in, put_item, put_pair, read_text, text_value};
use crate::numbers::{number_value, read_number};
use crate::sources::{read_source, source_text};
use cookie_cache::{CacheSaved, SavedReply};
use ng_bencode::{Pairs, Row, Value, Values};
use relay_outside::{Addr, OutOfMemory};
use std::alloc::Global;

fn reply_value(alloc: Global, saved: &SavedReply) -> Result<Value, OutOfMemory>
    ensures { IfOk result (λ value. tree_of value ≡ reply_tree saved.now) }
{
    let cookie = text_value(alloc, saved.cookie.as_slice())?;
    let moment = number_value(alloc, saved.moment)?;
    let number = number_value(alloc, saved.number)?;
    let reply = text_value(alloc, saved.reply.as_slice())?;
    let source = Value::bytes(source_text(alloc, saved.source)?);
    let mut pairs: Pairs = Row::new(alloc);
    put_pair(alloc, &mut pairs, b"cookie", cookie)?;
    put_pair(alloc, &mut pairs, b"moment", moment)?;
    put_pair(alloc, &mut pairs, b"number", number)?;
    put_pair(alloc, &mut pairs, b"reply", reply)?;
    put_pair(alloc, &mut pairs, b"source", source)?;
    Ok(Value::dict(pairs))
}

/// What a reply's dictionary holds.
#[derive(Clone, Copy)]
struct ReplyFields<'a> {
    cookie: &'a Value,
    moment: u64,
    number: u64,
    reply: &'a Value,
    source: Addr,
}

fn reply_fields(value: &Value) -> Option<ReplyFields<'_>>
    ensures some { IfSome result (λ found. tree_of value.now ≡ Dict
        (entry (codes "cookie") (tree_of found.cookie.now)
        (entry (codes "moment") (number_tree found.moment)
        (entry (codes "number") (number_tree found.number)
        (entry (codes "reply") (tree_of found.reply.now)
        (entry (codes "source") (Bytes (source_bytes found.source)) no_entries)))))) }
    ensures none { IfNone result ((saved : SavedReply) → FitsSavedReply saved → tree_of value.now ≡ reply_tree saved → ⊥) }
{
    let mut pairs = pairs_in(value)?;
    let cookie = next_field(&mut pairs, b"cookie")?;
    let moment = next_field(&mut pairs, b"moment")?;
    let number = next_field(&mut pairs, b"number")?;
    let reply = next_field(&mut pairs, b"reply")?;
    let source = next_field(&mut pairs, b"source")?;
    none_left(pairs)?;
    Some(ReplyFields {
        cookie,
        moment: read_number(moment)?,
        number: read_number(number)?,
        reply,
        source: read_source(source.as_bytes()?.as_slice())?,
    })
}

fn read_reply(alloc: Global, value: &Value) -> Result<Option<SavedReply>, OutOfMemory>
    ensures some { IfOk result (λ read. IfSome read (λ saved. tree_of value.now ≡ reply_tree saved)) }
    ensures none { IfOk result (λ read. IfNone read ((saved : SavedReply) → FitsSavedReply saved → tree_of value.now ≡ reply_tree saved → ⊥)) }
{
    let Some(fields) = reply_fields(value) else {
        return Ok(None);
    };
    let Some(cookie) = read_text(alloc, fields.cookie)? else {
        return Ok(None);
    };
    let Some(reply) = read_text(alloc, fields.reply)? else {
        return Ok(None);
    };
    Ok(Some(SavedReply {
        source: fields.source,
        cookie,
        number: fields.number,
        reply,
        moment: fields.moment,
    }))
}

fn replies_value(alloc: Global, kept: &[SavedReply]) -> Result<Value, OutOfMemory>
    ensures { IfOk result (λ value. tree_of value ≡ list_tree reply_tree kept.now) }
{
    let mut values: Values = Row::new(alloc);
    for saved in kept {
        let value = reply_value(alloc, saved)?;
        put_item(&mut values, value)?;
    }
    Ok(Value::list(values))
}

fn read_replies(alloc: Global, value: &Value) -> Result<Option<Vec<SavedReply>>, OutOfMemory>
    ensures some { IfOk result (λ read. IfSome read (λ kept. tree_of value.now ≡ list_tree reply_tree kept.items)) }
    ensures none { IfOk result (λ read. IfNone read ((kept : List SavedReply) → All FitsSavedReply kept →
        tree_of value.now ≡ list_tree reply_tree kept → ⊥)) }
{
    let Some(values) = value.as_list() else {
        return Ok(None);
    };
    let mut kept = Vec::new(alloc);
    for item in values.as_slice() {
        let Some(saved) = read_reply(alloc, item)? else {
            return Ok(None);
        };
        kept.push(saved)?;
    }
    Ok(Some(kept))
}

/// A cache as a value: its replies oldest first, how many were kept, and the last moment.
pub fn cache_value(alloc: Global, saved: &CacheSaved) -> Result<Value, OutOfMemory>
    ensures { IfOk result (λ value. tree_of value ≡ cache_tree saved.now) }
{
    let count = number_value(alloc, saved.count)?;
    let kept = replies_value(alloc, saved.kept.as_slice())?;
    let moment = number_value(alloc, saved.last_moment)?;
    let mut pairs: Pairs = Row::new(alloc);
    put_pair(alloc, &mut pairs, b"count", count)?;
    put_pair(alloc, &mut pairs, b"kept", kept)?;
    put_pair(alloc, &mut pairs, b"moment", moment)?;
    Ok(Value::dict(pairs))
}

/// What a cache's dictionary holds.
#[derive(Clone, Copy)]
struct CacheFields<'a> {
    count: u64,
    kept: &'a Value,
    last_moment: u64,
}

fn cache_fields(value: &Value) -> Option<CacheFields<'_>>
    ensures some { IfSome result (λ found. tree_of value.now ≡ Dict
        (entry (codes "count") (number_tree found.count)
        (entry (codes "kept") (tree_of found.kept.now)
        (entry (codes "moment") (number_tree found.last_moment) no_entries)))) }
    ensures none { IfNone result ((saved : CacheSaved) → FitsCacheSaved saved → tree_of value.now ≡ cache_tree saved → ⊥) }
{
    let mut pairs = pairs_in(value)?;
    let count = next_field(&mut pairs, b"count")?;
    let kept = next_field(&mut pairs, b"kept")?;
    let moment = next_field(&mut pairs, b"moment")?;
    none_left(pairs)?;
    Some(CacheFields {
        count: read_number(count)?,
        kept,
        last_moment: read_number(moment)?,
    })
}

/// The cache that is written so. `None`: no cache is.
pub fn read_cache(alloc: Global, value: &Value) -> Result<Option<CacheSaved>, OutOfMemory>
    ensures some { IfOk result (λ read. IfSome read (λ saved. tree_of value.now ≡ cache_tree saved)) }
    ensures none { IfOk result (λ read. IfNone read ((saved : CacheSaved) → FitsCacheSaved saved → tree_of value.now ≡ cache_tree saved → ⊥)) }
{
    let Some(fields) = cache_fields(value) else {
        return Ok(None);
    };
    let Some(kept) = read_replies(alloc, fields.kept)? else {
        return Ok(None);
    };
    Ok(Some(CacheSaved {
        kept,
        count: fields.count,
        last_moment: fields.last_moment,
    }))
}
