// The keys of a cache, and its limits.
use aip_addr::{Address, Id};

/// A source at the port of a router at which its frames come in.
#[derive(Clone, Copy, Debug, PartialEq, Eq, Hash)]
pub struct Pair {
    /// The address from which the frames come.
    pub source: Address,
    /// The router's port.
    pub port: u16,
}

/// A domain at a port of a router: all its sources there at once.
#[derive(Clone, Copy, Debug, PartialEq, Eq, Hash)]
pub struct Wildcard {
    /// The domain's id.
    pub ad: Id,
    /// The router's port.
    pub port: u16,
}

/// How much a router keeps, for how long, and how many sources make a wildcard. Each is at least 1.
#[derive(Clone, Copy, Debug, PartialEq, Eq)]
pub struct Limits {
    /// The most pairs that are kept.
    pub cache: u16,
    /// The most wildcards that are kept.
    pub wildcache: u16,
    /// The fresh sources of a domain at a port that make it a wildcard.
    pub threshold: u16,
    /// The ticks for which a pair stays fresh after its proof.
    pub accept: u64,
    /// The ticks for which a wildcard stays fresh after it was made.
    pub wild: u64,
}
