ghost use Rattle.std.specs.Prelude.{◌≡◌, ◌≤◌, cond, [], ◌∷◌, length, IfOk, OnOk, OnErr};
ghost use Rattle.std.specs.List.{IsDistinct};
ghost use Rattle.std.specs.Map.{keys_of};
ghost use Rattle.accept_cache.specs.Keys.{same_pair, same_wildcard, pair_of, wildcard_of};
ghost use Rattle.accept_cache.specs.Recency.{Proved, Hit, is_within};
ghost use Rattle.accept_cache.specs.Accepted.{PairUses, WildcardUses, is_fresh_pair, is_fresh_wildcard, promotes};
ghost use Rattle.accept_cache.specs.StandsFor.{CacheStandsFor};
ghost use Rattle.accept_cache.specs.Kept.{HasRoom, nothing_kept, after_proved, after_hit, after_hit_wild, after_promote, has_fresh, has_fresh_wild, fresh_count, is_promoted};

use crate::keys::{Limits, Pair, Wildcard};
use aip_addr::{Address, Id};
use lru::LruCache;
use std::alloc::{AllocError, Global};
use std::marker::Model;
use std::num::NonZeroUsize;

/// The sources that a router has accepted at its ports, and the domains that it accepts whole.
#[derive(Drop)]
pub struct AcceptCache {
    sources: LruCache<Pair, u64>,
    wildcards: LruCache<Wildcard, u64>,
    limits: Limits,
}

impl Model for AcceptCache {
    ghost use Rattle.std.specs.Prelude.{◌≡◌};
    ghost use Rattle.accept_cache.specs.Kept.{Kept as Lists};

    ghost Value = { Lists };

    ghost view = { λ c. record { sources = c.sources.entries; wildcards = c.wildcards.entries; limits = c.limits } };

    ghost invariant = { λ c. (c.sources.cap ≡ c.limits.cache) × (c.wildcards.cap ≡ c.limits.wildcache) };
}

impl AcceptCache {
    /// An empty cache with these limits. The only error is want of memory.
    pub fn new(alloc: Global, limits: &Limits) -> Result<AcceptCache, AllocError>
        requires { HasRoom limits.now }
        ensures kept { IfOk result (λ cache. cache ≡ nothing_kept limits.now) }
        ensures stands { IfOk result (λ cache. CacheStandsFor [] [] cache) }
    {
        let cache = NonZeroUsize::new(limits.cache as usize).unwrap();
        let wildcache = NonZeroUsize::new(limits.wildcache as usize).unwrap();
        Ok(AcceptCache {
            sources: LruCache::sparse(alloc, cache)?,
            wildcards: LruCache::sparse(alloc, wildcache)?,
            limits: *limits,
        })
    }

    /// Takes the source as proved at the port: the pair is the last touched, and its time is now.
    /// The only error is want of memory, and then nothing has changed.
    pub fn proved(&mut self, source: &Address, port: u16, now: u64) -> Result<(), AllocError>
        ensures kept { OnOk result (self.new ≡ after_proved self.old (pair_of source.now port) now) }
        ensures unchanged { OnErr result (self.new ≡ self.old) }
        ensures limits { self.new.limits ≡ self.old.limits }

        // For the uses that it stood for: it stands for one use more.
        ensures stands { (uses : PairUses) (wilds : WildcardUses) → CacheStandsFor uses wilds self.old
            → OnOk result (CacheStandsFor (Proved (pair_of source.now port) now ∷ uses) wilds self.new) }
    {
        self.keep(
            Pair {
                source: *source,
                port,
            },
            now,
        )
    }

    /// Makes the domain a wildcard at the port where at least `threshold` distinct fresh sources of it stand there and
    /// no fresh wildcard does, and says whether it did. The wildcard made is the last touched, and its time is now.
    /// The sources keep their order. The only error is want of memory, and then nothing has changed.
    pub fn promote(&mut self, ad: &Id, port: u16, now: u64) -> Result<bool, AllocError>
        ensures answer { IfOk result (λ made. made ≡ is_promoted self.old (wildcard_of ad.now port) now) }
        ensures kept { IfOk result (λ made. self.new ≡ after_promote self.old (wildcard_of ad.now port) now made) }
        ensures unchanged { OnErr result (self.new ≡ self.old) }
        ensures limits { self.new.limits ≡ self.old.limits }

        // For the uses that it stood for: what promotes, and what it stands for then.
        ensures promotes { (uses : PairUses) (wilds : WildcardUses) → CacheStandsFor uses wilds self.old
            → IfOk result (λ made. made ≡ promotes self.old.limits uses wilds now (wildcard_of ad.now port)) }
        ensures stands { (uses : PairUses) (wilds : WildcardUses) → CacheStandsFor uses wilds self.old
            → IfOk result (λ made. CacheStandsFor uses (cond made (Proved (wildcard_of ad.now port) now ∷ wilds) wilds) self.new) }
    {
        self.keep_wild(Wildcard { ad: *ad, port }, now)
    }

    /// Whether the source is fresh at the port. Then it is the last touched, and its time stays.
    pub fn hit(&mut self, source: &Address, port: u16, now: u64) -> bool
        ensures answer { result ≡ has_fresh self.old (pair_of source.now port) now }
        ensures kept { self.new ≡ after_hit self.old (pair_of source.now port) result }
        ensures limits { self.new.limits ≡ self.old.limits }

        // For the uses that it stood for: whether the pair is fresh, and what it stands for then.
        ensures fresh { (uses : PairUses) (wilds : WildcardUses) → CacheStandsFor uses wilds self.old
            → result ≡ is_fresh_pair self.old.limits uses now (pair_of source.now port) }
        ensures stands { (uses : PairUses) (wilds : WildcardUses) → CacheStandsFor uses wilds self.old
            → CacheStandsFor (cond result (Hit (pair_of source.now port) ∷ uses) uses) wilds self.new }
    {
        self.touch(
            &Pair {
                source: *source,
                port,
            },
            now,
        )
    }

    /// Whether a wildcard of the domain is fresh at the port. Then it is the last touched, and its time stays.
    pub fn hit_wild(&mut self, ad: &Id, port: u16, now: u64) -> bool
        ensures answer { result ≡ has_fresh_wild self.old (wildcard_of ad.now port) now }
        ensures kept { self.new ≡ after_hit_wild self.old (wildcard_of ad.now port) result }
        ensures limits { self.new.limits ≡ self.old.limits }

        // For the uses that it stood for: whether the wildcard is fresh, and what it stands for then.
        ensures fresh { (uses : PairUses) (wilds : WildcardUses) → CacheStandsFor uses wilds self.old
            → result ≡ is_fresh_wildcard self.old.limits wilds now (wildcard_of ad.now port) }
        ensures stands { (uses : PairUses) (wilds : WildcardUses) → CacheStandsFor uses wilds self.old
            → CacheStandsFor uses (cond result (Hit (wildcard_of ad.now port) ∷ wilds) wilds) self.new }
    {
        self.touch_wild(&Wildcard { ad: *ad, port }, now)
    }

    /// Forgets every source and every wildcard.
    pub fn clear(&mut self)
        ensures kept { self.new ≡ nothing_kept self.old.limits }
        ensures stands { (uses : PairUses) (wilds : WildcardUses) → CacheStandsFor uses wilds self.old
            → CacheStandsFor [] [] self.new }
    {
        self.sources.clear();
        self.wildcards.clear();
    }

    /// How many sources are kept, fresh or not. No pair stands twice.
    pub fn source_count(&self) -> usize
        ensures count { result ≡ length self.now.sources }
        ensures distinct { IsDistinct same_pair (keys_of self.now.sources) }
        ensures bounded { length self.now.sources ≤ self.now.limits.cache }
    {
        self.sources.len()
    }

    /// How many wildcards are kept, fresh or not. No wildcard stands twice.
    pub fn wildcard_count(&self) -> usize
        ensures count { result ≡ length self.now.wildcards }
        ensures distinct { IsDistinct same_wildcard (keys_of self.now.wildcards) }
        ensures bounded { length self.now.wildcards ≤ self.now.limits.wildcache }
    {
        self.wildcards.len()
    }

    fn keep(&mut self, pair: Pair, now: u64) -> Result<(), AllocError>
        ensures kept { OnOk result (self.new ≡ after_proved self.old pair now) }
        ensures unchanged { OnErr result (self.new ≡ self.old) }
        ensures limits { self.new.limits ≡ self.old.limits }
    {
        self.sources.put(pair, now)?;
        Ok(())
    }

    fn keep_wild(&mut self, wildcard: Wildcard, now: u64) -> Result<bool, AllocError>
        ensures answer { IfOk result (λ made. made ≡ is_promoted self.old wildcard now) }
        ensures kept { IfOk result (λ made. self.new ≡ after_promote self.old wildcard now made) }
        ensures unchanged { OnErr result (self.new ≡ self.old) }
        ensures limits { self.new.limits ≡ self.old.limits }
    {
        let time = self.wildcards.peek(&wildcard).copied();
        if is_within(self.limits.wild, now, time) {
            return Ok(false);
        }
        if self.fresh_count(&wildcard, now) < self.limits.threshold as usize {
            return Ok(false);
        }
        self.wildcards.put(wildcard, now)?;
        Ok(true)
    }

    fn fresh_count(&self, wildcard: &Wildcard, now: u64) -> usize
        ensures { result ≡ fresh_count self.now wildcard.now now }
    {
        let accept = self.limits.accept;
        self.sources
            .iter()
            .filter(|(pair, time)| pair.source.ad == wildcard.ad
                && pair.port == wildcard.port
                && is_within(accept, now, Some(**time)))
            .count()
    }

    fn touch(&mut self, pair: &Pair, now: u64) -> bool
        ensures answer { result ≡ has_fresh self.old pair.now now }
        ensures kept { self.new ≡ after_hit self.old pair.now result }
    {
        let time = self.sources.peek(pair).copied();
        let fresh = is_within(self.limits.accept, now, time);
        if fresh {
            self.sources.promote(pair);
        }
        fresh
    }

    fn touch_wild(&mut self, wildcard: &Wildcard, now: u64) -> bool
        ensures answer { result ≡ has_fresh_wild self.old wildcard.now now }
        ensures kept { self.new ≡ after_hit_wild self.old wildcard.now result }
    {
        let time = self.wildcards.peek(wildcard).copied();
        let fresh = is_within(self.limits.wild, now, time);
        if fresh {
            self.wildcards.promote(wildcard);
        }
        fresh
    }
}

// Now is before the end of what lasts so long from the time on. It is asked without a sum, which might not fit.
fn is_within(lasting: u64, now: u64, time: Option<u64>) -> bool
    ensures { result ≡ is_within lasting now time }
{
    match time {
        Some(time) => now < time || now - time < lasting,
        None => false,
    }
}
