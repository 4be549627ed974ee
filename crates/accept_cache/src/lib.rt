//! The sources that a router has accepted at its ports: a bounded cache of proved sources, and one of domains that are
//! accepted whole, the wildcards.
//!
//! A source is *touched* when it is proved and when it is hit. It is *held* while fewer than `cache` others were touched
//! after its last touch, and *fresh* while it is held and less than `accept` ticks have gone by since its last proof: a
//! hit keeps it among those held and doesn't renew its proof. Wildcards follow the same rule, by `wildcache` and `wild`.
//!
//! ```text
//! let mut cache = AcceptCache::new(alloc, &limits)?;
//! cache.proved(&source, port, now)?;
//! cache.promote(&source.ad, port, now)?;
//! let passes = cache.hit(&source, port, now) || cache.hit_wild(&source.ad, port, now);
//! ```
#![tactic(auto)]

mod cache;
mod keys;
#[cfg(test)]
mod tests;

pub use cache::AcceptCache;
pub use keys::{Limits, Pair, Wildcard};
