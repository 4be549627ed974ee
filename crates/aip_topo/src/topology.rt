use crate::lists::{Domains, Parts, Routers};
use aip_addr::{Address, Id, Name};
use lms_core::Tree;

/// The settings of a network. Times are in ticks, the others are numbers of entries.
#[derive(Clone, Copy, Debug, PartialEq, Eq)]
pub struct Settings {
    /// How long a source counts as proved, 1 to 2^32 - 1.
    pub accept: u64,
    /// How many proved sources a router keeps, 1 to 4096.
    pub cache: u16,
    /// How long an epoch of a router's secret lasts, 1 to 2^32 - 1.
    pub epoch: u64,
    /// How many shut-offs a host keeps, 1 to 256.
    pub filter: u16,
    /// How many sent packets a host remembers, 1 to 4096.
    pub log: u16,
    /// How many proved sources of a domain make a wildcard, 1 to 4096.
    pub threshold: u16,
    /// How long a wildcard lasts, 1 to 2^32 - 1.
    pub wild: u64,
    /// How many wildcards a router keeps, 1 to 4096.
    pub wildcache: u16,
}

/// Where an id comes from.
#[derive(Drop)]
pub enum Key {
    /// The id was given, and its key isn't known.
    Given,
    /// The key was made from a seed, and the id is that of its public key.
    Made(Tree),
}

/// A domain.
#[derive(Drop)]
pub struct Domain {
    /// Its name.
    pub name: Name,
    /// Its id.
    pub ad: Id,
    /// Its key.
    pub key: Key,
}

/// A router.
#[derive(Clone, Copy, Debug, PartialEq, Eq)]
pub struct Router {
    /// Its name.
    pub name: Name,
    /// The place of its domain among the domains.
    pub domain: u16,
    /// Whether it checks sources; an open router doesn't.
    pub checking: bool,
    /// The master secret that its challenges are made with.
    pub master: [u8; 32],
    /// Its domain's id, and its own.
    pub address: Address,
}

/// What takes a port of a router.
#[derive(Drop)]
pub enum Part {
    /// A host.
    Host(HostPart),
    /// A link of two routers.
    Link(LinkPart),
}

/// A host.
#[derive(Drop)]
pub struct HostPart {
    /// Its name.
    pub name: Name,
    /// The place of its router among the routers.
    pub router: u16,
    /// Whether a guard stands before its sending.
    pub guarded: bool,
    /// Its id.
    pub eid: Id,
    /// Its key.
    pub key: Key,
}

/// A link of two routers.
#[derive(Clone, Copy, Debug, PartialEq, Eq)]
pub struct LinkPart {
    /// The place of the first router among the routers.
    pub a: u16,
    /// The place of the second.
    pub b: u16,
    /// Whether the first router trusts what comes over this link.
    pub a_trusts: bool,
    /// Whether the second does.
    pub b_trusts: bool,
}

/// A network: its settings, its domains and routers, each named by its place from 0, and its hosts
/// and links in the order in which they take the routers' ports.
#[derive(Drop)]
pub struct Topology {
    /// The settings.
    pub settings: Settings,
    /// The domains, at most 64.
    pub domains: Domains,
    /// The routers, at most 256.
    pub routers: Routers,
    /// The hosts, at most 1024, and the links, at most 4096.
    pub parts: Parts,
}
