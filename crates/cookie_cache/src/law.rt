ghost use Rattle.std.specs.Prelude.{◌≡◌, ◌↔◌, ℕ, List, Some, None, All};
ghost use Rattle.relay_outside.specs.declared.address.Addr.{Addr};
ghost use Rattle.cookie_cache.specs.Keepings.{Keeping, kept, recent};
ghost use Rattle.cookie_cache.specs.Latest.{MatchesCookie, IsLatest};
ghost use Rattle.cookie_cache.specs.declared.cache.CookieCache.{CookieCache};
ghost use Rattle.cookie_cache.specs.declared.saved.CacheSaved.{CacheSaved};
ghost use Rattle.cookie_cache.specs.Caches.{CacheStandsFor};
ghost use Rattle.cookie_cache.specs.Saved.{FitsCache, SavesCache};

/// Theorem (no run-time code): the reply that is kept for a command is that of the latest of the last 4,096 keepings with its
/// source and its cookie that was made less than 60,000 milliseconds before; none is kept exactly where no such keeping is.
pub fn kept_is_latest()
    ensures found { (keepings : List Keeping) (source : Addr) (cookie : List ℕ) (at : ℕ) (reply : List ℕ) →
        (kept keepings source cookie at ≡ Some reply) ↔ IsLatest keepings source cookie at reply }
    ensures missing { (keepings : List Keeping) (source : Addr) (cookie : List ℕ) (at : ℕ) →
        (kept keepings source cookie at ≡ None) ↔ All (λ other. MatchesCookie source cookie at other → ⊥) (recent keepings) }
{}

/// Theorem (no run-time code): two caches that are saved as the same record stand for the same lists of keepings.
pub fn cache_moves()
    ensures { (one other : CookieCache) (saved : CacheSaved) → FitsCache one → FitsCache other → SavesCache one saved → SavesCache other saved →
        (keepings : List Keeping) → CacheStandsFor one keepings → CacheStandsFor other keepings }
{}
