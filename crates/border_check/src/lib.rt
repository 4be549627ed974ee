//! The check of a router at the ports of its links: whether a frame from outside passes, or its source is asked.
//!
//! ```text
//! match border(&mut cache, trusted, routes.port(router, source), &frame.source, port, now) {
//!     PortVerdict::Ask => challenge(frame),
//!     cause => forward(frame, cause),
//! }
//! ```
#![tactic(auto)]

ghost use Rattle.std.specs.Prelude.{◌≡◌, cond, ◌∷◌};
ghost use Rattle.accept_cache.specs.Keys.{pair_of, wildcard_of};
ghost use Rattle.accept_cache.specs.Kept.{has_fresh, has_fresh_wild, after_hit, after_hit_wild};
ghost use Rattle.accept_cache.specs.Recency.{Hit};
ghost use Rattle.accept_cache.specs.Accepted.{PairUses, WildcardUses, is_fresh_pair, is_fresh_wildcard};
ghost use Rattle.accept_cache.specs.StandsFor.{CacheStandsFor};
ghost use Rattle.border_check.specs.Verdict.{port_verdict, leads_back, is_proved, is_wild};

use accept_cache::AcceptCache;
use aip_addr::Address;

#[cfg(test)]
mod tests;

/// What a router does with a frame that comes in at a link's port.
#[derive(Clone, Copy, Debug, PartialEq, Eq)]
pub enum PortVerdict {
    /// The router trusts its neighbour at the port.
    Trusted,
    /// The port is the one towards the source.
    Reverse,
    /// The source is fresh at the port.
    Proved,
    /// The source's domain is fresh at the port as a wildcard.
    Wild,
    /// The source has to prove itself first.
    Ask,
}

/// The verdict on a frame from the source at the port: the first of Trusted, Reverse, Proved, Wild and Ask that applies.
/// `back` is the router's port towards the source. Only Proved and Wild touch, each its own entry.
pub fn border(
    cache: &mut AcceptCache,
    trusted: bool,
    back: Option<u16>,
    source: &Address,
    port: u16,
    now: u64,
) -> PortVerdict
    ensures verdict { result ≡ port_verdict trusted (leads_back back port)
        (has_fresh cache.old (pair_of source.now port) now) (has_fresh_wild cache.old (wildcard_of source.now.ad port) now) }
    ensures kept { cache.new ≡ after_hit_wild (after_hit cache.old (pair_of source.now port) (is_proved result)) (wildcard_of source.now.ad port) (is_wild result) }
    ensures limits { cache.new.limits ≡ cache.old.limits }

    // For the uses that the cache stood for: the first verdict that applies, and what the cache stands for then.
    ensures by_uses { (uses : PairUses) (wilds : WildcardUses) → CacheStandsFor uses wilds cache.old
        → result ≡ port_verdict trusted (leads_back back port)
        (is_fresh_pair cache.old.limits uses now (pair_of source.now port)) (is_fresh_wildcard cache.old.limits wilds now (wildcard_of source.now.ad port)) }
    ensures stands { (uses : PairUses) (wilds : WildcardUses) → CacheStandsFor uses wilds cache.old
        → CacheStandsFor (cond (is_proved result) (Hit (pair_of source.now port) ∷ uses) uses)
        (cond (is_wild result) (Hit (wildcard_of source.now.ad port) ∷ wilds) wilds) cache.new }
{
    if trusted {
        return PortVerdict::Trusted;
    }
    if back == Some(port) {
        return PortVerdict::Reverse;
    }
    if cache.hit(source, port, now) {
        return PortVerdict::Proved;
    }
    if cache.hit_wild(&source.ad, port, now) {
        return PortVerdict::Wild;
    }
    PortVerdict::Ask
}
