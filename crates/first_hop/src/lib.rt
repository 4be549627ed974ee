//! The check of a router at the ports of its hosts: a frame of a host has to come from the router's own domain, and its
//! source has to be proved at that port.
//!
//! ```text
//! match first_hop(&mut cache, &router.ad, &frame.source, port, now) {
//!     HostVerdict::Foreign => drop(frame),
//!     HostVerdict::Proved => forward(frame),
//!     HostVerdict::Ask => challenge(frame),
//! }
//! ```
#![tactic(auto)]

ghost use Rattle.std.specs.Prelude.{◌≡◌, cond, not, ◌∷◌};
ghost use Rattle.aip_addr.specs.Ids.{is_same_id};
ghost use Rattle.accept_cache.specs.Keys.{pair_of};
ghost use Rattle.accept_cache.specs.Kept.{has_fresh, after_hit};
ghost use Rattle.accept_cache.specs.Recency.{Hit};
ghost use Rattle.accept_cache.specs.Accepted.{PairUses, WildcardUses, is_fresh_pair};
ghost use Rattle.accept_cache.specs.StandsFor.{CacheStandsFor};
ghost use Rattle.first_hop.specs.Verdict.{host_verdict, is_proved};

use accept_cache::AcceptCache;
use aip_addr::{Address, Id};

#[cfg(test)]
mod tests;

/// What a router does with a frame that comes in at a host's port.
#[derive(Clone, Copy, Debug, PartialEq, Eq)]
pub enum HostVerdict {
    /// The source isn't of the router's domain: the frame is dropped.
    Foreign,
    /// The source is fresh at the port: the frame is forwarded.
    Proved,
    /// The source has to prove itself first.
    Ask,
}

/// The verdict on a frame from the source at the port, for a router of the domain `ad`. Only Proved touches, and it
/// touches the source at the port alone.
pub fn first_hop(
    cache: &mut AcceptCache,
    ad: &Id,
    source: &Address,
    port: u16,
    now: u64,
) -> HostVerdict
    ensures verdict { result ≡ host_verdict (not (is_same_id source.now.ad ad.now)) (has_fresh cache.old (pair_of source.now port) now) }
    ensures kept { cache.new ≡ after_hit cache.old (pair_of source.now port) (is_proved result) }
    ensures limits { cache.new.limits ≡ cache.old.limits }

    // For the uses that the cache stood for: the first verdict that applies, and what the cache stands for then.
    ensures by_uses { (uses : PairUses) (wilds : WildcardUses) → CacheStandsFor uses wilds cache.old
        → result ≡ host_verdict (not (is_same_id source.now.ad ad.now)) (is_fresh_pair cache.old.limits uses now (pair_of source.now port)) }
    ensures stands { (uses : PairUses) (wilds : WildcardUses) → CacheStandsFor uses wilds cache.old
        → CacheStandsFor (cond (is_proved result) (Hit (pair_of source.now port) ∷ uses) uses) wilds cache.new }
{
    if source.ad != *ad {
        return HostVerdict::Foreign;
    }
    if cache.hit(source, port, now) {
        return HostVerdict::Proved;
    }
    HostVerdict::Ask
}
