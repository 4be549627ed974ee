ghost use Rattle.std.specs.Prelude.{◌≡◌, ◌<◌, ◌≤◌, [], ◌∷◌, ◌++◌, count_by, length, IsTrue, OnOk, OnErr};
ghost use Rattle.aip_topo.specs.Parts.{has_room, is_host, is_link};

use crate::topology::{Domain, Part, Router};
use std::alloc::{AllocError, Global};
use std::marker::Model;

/// The most domains that a topology has.
pub const MOST_DOMAINS: usize = 64;

/// The most routers.
pub const MOST_ROUTERS: usize = 256;

/// The most hosts.
pub const MOST_HOSTS: usize = 1024;

/// The most links.
pub const MOST_LINKS: usize = 4096;

/// The domains of a topology. Contracts see the list of them.
#[derive(Drop)]
pub struct Domains {
    content: Vec<Domain>,
}

impl Model for Domains {
    ghost use Rattle.std.specs.Prelude.{List, ◌≤◌, length};
    ghost use Rattle.aip_topo.specs.declared.topology.Domain.{Domain};

    ghost Value = { List Domain };

    ghost view = { λ d. d.content.items };

    ghost invariant = { λ d. length d.content.items ≤ 64 };
}

impl Domains {
    /// No domain yet.
    pub fn new(alloc: Global) -> Domains
        ensures { result ≡ [] }
    {
        Domains {
            content: Vec::new(alloc),
        }
    }

    /// The domains, by their places from 0.
    pub fn as_slice(&self) -> &[Domain]
        ensures domains { result.now ≡ self.now }
        ensures limit { length self.now ≤ 64 }
    {
        self.content.as_slice()
    }

    /// Adds a domain behind the others. The only error is want of memory, and then nothing changes.
    pub fn push(&mut self, domain: Domain) -> Result<(), AllocError>
        requires { length self.old < 64 }
        ensures ok { OnOk result (self.new ≡ self.old ++ domain ∷ []) }
        ensures err { OnErr result (self.new ≡ self.old) }
    {
        self.content.push(domain)?;
        Ok(())
    }
}

/// The routers of a topology. Contracts see the list of them.
#[derive(Debug, Drop)]
pub struct Routers {
    content: Vec<Router>,
}

impl Model for Routers {
    ghost use Rattle.std.specs.Prelude.{List, ◌≤◌, length};
    ghost use Rattle.aip_topo.specs.declared.topology.Router.{Router};

    ghost Value = { List Router };

    ghost view = { λ r. r.content.items };

    ghost invariant = { λ r. length r.content.items ≤ 256 };
}

impl Routers {
    /// No router yet.
    pub fn new(alloc: Global) -> Routers
        ensures { result ≡ [] }
    {
        Routers {
            content: Vec::new(alloc),
        }
    }

    /// The routers, by their places from 0.
    pub fn as_slice(&self) -> &[Router]
        ensures routers { result.now ≡ self.now }
        ensures limit { length self.now ≤ 256 }
    {
        self.content.as_slice()
    }

    /// Adds a router behind the others. The only error is want of memory, and then nothing changes.
    pub fn push(&mut self, router: Router) -> Result<(), AllocError>
        requires { length self.old < 256 }
        ensures ok { OnOk result (self.new ≡ self.old ++ router ∷ []) }
        ensures err { OnErr result (self.new ≡ self.old) }
    {
        self.content.push(router)?;
        Ok(())
    }
}

fn is_host(part: &Part) -> bool
    ensures { result ≡ is_host part.now }
{
    match part {
        Part::Host(_) => true,
        Part::Link(_) => false,
    }
}

/// The hosts and links of a topology, in the order of their ports, and how many there are of each.
/// Contracts see the list of them.
#[derive(Drop)]
pub struct Parts {
    content: Vec<Part>,
    hosts: usize,
    links: usize,
}

impl Model for Parts {
    ghost use Rattle.std.specs.Prelude.{List, ◌≡◌, count_by};
    ghost use Rattle.aip_topo.specs.Parts.{is_host, is_link};
    ghost use Rattle.aip_topo.specs.declared.topology.Part.{Part};

    ghost Value = { List Part };

    ghost view = { λ p. p.content.items };

    ghost invariant = { λ p. (p.hosts ≡ count_by is_host p.content.items) × (p.links ≡ count_by is_link p.content.items) };
}

impl Parts {
    /// No host and no link yet.
    pub fn new(alloc: Global) -> Parts
        ensures { result ≡ [] }
    {
        Parts {
            content: Vec::new(alloc),
            hosts: 0,
            links: 0,
        }
    }

    /// The hosts and links in their order.
    pub fn as_slice(&self) -> &[Part]
        ensures { result.now ≡ self.now }
    {
        self.content.as_slice()
    }

    /// How many hosts there are.
    pub fn hosts(&self) -> usize
        ensures { result ≡ count_by is_host self.now }
    {
        self.hosts
    }

    /// How many links there are.
    pub fn links(&self) -> usize
        ensures { result ≡ count_by is_link self.now }
    {
        self.links
    }

    /// Adds a host or a link behind the others. The only error is want of memory, and then nothing
    /// changes.
    pub fn push(&mut self, part: Part) -> Result<(), AllocError>
        requires { IsTrue (has_room self.old part) }
        ensures ok { OnOk result (self.new ≡ self.old ++ part ∷ []) }
        ensures err { OnErr result (self.new ≡ self.old) }
    {
        let host = is_host(&part);
        self.content.push(part)?;
        if host {
            self.hosts += 1;
        } else {
            self.links += 1;
        }
        Ok(())
    }
}
