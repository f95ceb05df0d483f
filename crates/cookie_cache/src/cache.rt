ghost use Rattle.std.specs.Prelude.{◌≡◌, List, [], ◌∷◌, Some, None, IfOk, OnOk, MatchOption, IfSome, IfNone, length};
ghost use Rattle.cookie_cache.specs.Entries.{all_shown};
ghost use Rattle.cookie_cache.specs.Keepings.{Keeping, IsCookie};
ghost use Rattle.cookie_cache.specs.SavedReplies.{HaveCacheKeys};

use crate::kept_reply::KeptReply;
use crate::key::{KeyBytes, LONGEST_KEY};
use crate::saved::{CacheSaved, entries_of, replies_of};
use indexmap::IndexMap;
use ng_bencode::Text;
use relay_outside::{Addr, OutOfMemory};
use std::alloc::Global;
use std::mem;

/// Of how many replies the latest for a source and a cookie is found.
const MOST: u64 = 4096;

/// For how many replies a new cache has room.
const FIRST_ROOM: usize = 64;

/// The replies that are kept, each for the source and the cookie of its command.
///
/// Contracts see it as a list of all replies that it was ever given, the latest first: it stands for that list, and
/// what its calls return follows from it.
///
/// Its map hashes with the kit's fixed seed, as `new` is handed no runtime from which a seed could come: keys that were picked to
/// collide make a look-up linear in the entries, at most 4,096.
#[derive(Drop)]
pub struct CookieCache {
    /// The latest reply for each source and cookie of the last 4,096, in the order in which they were kept.
    entries: IndexMap<Vec<u8>, KeptReply>,
    /// No bytes, with room for those of the next key.
    next_key: Vec<u8>,
    /// How many replies were kept, modulo 2^64.
    count: u64,
    /// When the last reply was kept, in milliseconds; at first 0.
    last_moment: u64,
    ghost cache_keys: { HaveCacheKeys (all_shown entries.entries) },
    ghost empty_key: { length next_key.items ≡ 0 },
}

impl CookieCache {
    ghost use Rattle.std.specs.Prelude.{drop, if◌then◌else◌};
    ghost use Rattle.cookie_cache.specs.Keepings.{kept, moment_used};
    ghost use Rattle.cookie_cache.specs.Entries.{cache_entries};
    ghost use Rattle.cookie_cache.specs.Oldest.{without_gone};
    ghost use Rattle.cookie_cache.specs.Caches.{CacheStandsFor, HasSparePlace};
    ghost use Rattle.cookie_cache.specs.Saved.{FitsCache, SavesCache, NoCacheSaves};

    /// An empty cache with capacity for the first few replies.
    pub fn new(alloc: Global) -> Result<CookieCache, OutOfMemory>
        ensures { IfOk result (λ cache. CacheStandsFor cache []) }
    {
        Ok(CookieCache {
            entries: IndexMap::with_capacity(alloc, FIRST_ROOM)?,
            next_key: Vec::new(alloc),
            count: 0,
            last_moment: 0,
        })
    }

    /// The bytes of the reply that is kept for a command from this source with this cookie, which has 1 to 255 bytes: of
    /// the last 4,096 replies the latest for both that was kept less than 60,000 milliseconds ago. It is asked for at the
    /// moment `now`, in milliseconds, or at the moment of the last `keep`, where that is greater.
    pub fn find(&self, source: Addr, cookie: &[u8], now: u64) -> Option<&[u8]>
        requires { IsCookie cookie.now }
        ensures { (keepings : List Keeping) → CacheStandsFor self.now keepings →
            MatchOption result
            (kept keepings source cookie.now (moment_used keepings now) ≡ None)
            (λ reply. kept keepings source cookie.now (moment_used keepings now) ≡ Some reply.now) }
    {
        let key = KeyBytes::new(source, cookie);
        let kept = self.entries.get(key.as_slice())?;
        if kept.answers_at(now.max(self.last_moment)) {
            Some(kept.reply.as_slice())
        } else {
            None
        }
    }

    /// Makes the room that `keep` needs for one more reply. What is kept stays, also when it fails.
    pub fn reserve(&mut self) -> Result<(), OutOfMemory>
        ensures kept { (keepings : List Keeping) → CacheStandsFor self.old keepings → CacheStandsFor self.new keepings }
        ensures place { OnOk result (HasSparePlace self.new) }
        ensures place_stays { HasSparePlace self.old → HasSparePlace self.new }
    {
        self.next_key.reserve(LONGEST_KEY)?;
        Ok(self.entries.reserve(1)?)
    }

    /// Keeps the reply to a command from this source with this cookie, which has 1 to 255 bytes, in the spare place. It is
    /// kept at the moment `now`, in milliseconds, or at the moment of the last `keep`, where that is greater. An earlier reply for
    /// both goes, and one that is not of the last 4,096 any more.
    /// One more reply for both counts as one more of the 4,096.
    pub fn keep(&mut self, source: Addr, cookie: Text, reply: Text, now: u64)
        requires cookie { IsCookie cookie.list }
        requires place { HasSparePlace self.old }
        ensures { (keepings : List Keeping) → CacheStandsFor self.old keepings →
            CacheStandsFor self.new (record { source = source; cookie = cookie.list; reply = reply.list; moment = moment_used keepings now } ∷ keepings) }
    {
        let moment = now.max(self.last_moment);
        let alloc = *self.entries.allocator();
        let bytes = KeyBytes::new(source, cookie.as_slice());
        let mut key = mem::replace(&mut self.next_key, Vec::new(alloc));
        let _ = key.extend_from_slice(bytes.as_slice());
        let _ = self.entries.shift_remove(bytes.as_slice());
        let number = self.count;
        let _ = self.entries.insert(
            key,
            KeptReply {
                number,
                reply,
                moment,
            },
        );
        self.count = number.wrapping_add(1);
        self.last_moment = moment;
        self.drop_oldest();
    }

    // Drops the first entry, where its reply isn't of the last 4,096 any more.
    fn drop_oldest(&mut self)
        ensures entries { all_shown self.new.entries.entries ≡ without_gone self.old.count (all_shown self.old.entries.entries) }
        ensures next_key { self.new.next_key ≡ self.old.next_key }
        ensures count { self.new.count ≡ self.old.count }
        ensures last_moment { self.new.last_moment ≡ self.old.last_moment }
    {
        if self.oldest_is_gone() {
            let _ = self.entries.shift_remove_index(0);
        }
    }

    fn oldest_is_gone(&self) -> bool
        ensures { without_gone self.now.count (all_shown self.now.entries.entries) ≡ (if result then drop 1 (all_shown self.now.entries.entries) else all_shown self.now.entries.entries) }
    {
        match self.entries.first() {
            Some((_, kept)) => self.count.wrapping_sub(kept.number) > MOST,
            None => false,
        }
    }

    /// The entries: the keys of the last 4,096 replies, each once, in the order of the latest reply under it and with what was
    /// kept of that one. A key is a byte for the family of the source's address, 4 or 6, the address, the port in network
    /// order, and the cookie.
    pub fn entries(&self) -> &IndexMap<Vec<u8>, KeptReply>
        ensures { (keepings : List Keeping) → CacheStandsFor self.now keepings → all_shown result.now.entries ≡ cache_entries keepings }
    {
        &self.entries
    }

    /// What the cache keeps, without its spare room. `Err`: there was no memory for it.
    pub fn into_saved(self) -> Result<CacheSaved, OutOfMemory>
        ensures { IfOk result (λ saved. FitsCache self × SavesCache self saved) }
    {
        let CookieCache {
            entries,
            next_key,
            count,
            last_moment,
        } = self;
        let alloc = *next_key.allocator();
        Ok(CacheSaved {
            kept: replies_of(alloc, entries)?,
            count,
            last_moment,
        })
    }

    /// The cache that was saved as this record, without spare room. `None`: no cache is saved so, since a cookie has no byte or
    /// more than 255, or stands twice with the same source. `Err`: there was no memory for it.
    pub fn from_saved(saved: CacheSaved) -> Result<Option<CookieCache>, OutOfMemory>
        ensures loaded { IfOk result (λ r. IfSome r (λ cache. FitsCache cache × SavesCache cache saved)) }
        ensures refused { IfOk result (λ r. IfNone r (NoCacheSaves saved)) }
    {
        let CacheSaved {
            kept,
            count,
            last_moment,
        } = saved;
        let alloc = *kept.allocator();
        let Some(entries) = entries_of(alloc, kept)? else {
            return Ok(None);
        };
        Ok(Some(CookieCache {
            entries,
            next_key: Vec::new(alloc),
            count,
            last_moment,
        }))
    }
}
