//! A draft with an index of its names.

ghost use Rattle.std.specs.Prelude.{◌≡◌, ◌<◌, ◌≤◌, ℕ, List, IsTrue, IfOk, OnOk, length, cond, true, Some, None};
ghost use Rattle.std.specs.BTreeMap.{get};
ghost use Rattle.std.specs.BTreeSet.{Updates};
ghost use Rattle.std.specs.List.{list_any};
ghost use Rattle.std.specs.Option.{option_or};
ghost use Rattle.std.specs.Str.{bytes_eq};
ghost use Rattle.aip_addr.specs.Ids.{key_id_of};
ghost use Rattle.aip_topo.specs.Index.{key_id_cmp, name_cmp};
ghost use Rattle.aip_topo.specs.Reading.{empty_draft};
ghost use Rattle.aip_topo.specs.Steps.{domain_place, draft_with, fits, has_key_id, is_named, most_of, names_host, router_place, was_set};
ghost use Rattle.aip_topo.specs.Parts.{has_room};

use crate::additions::Addition;
use crate::lines::Setting;
use crate::lists::{Domains, Parts, Routers};
use crate::steps::{Draft, with_setting};
use crate::topology::{Domain, HostPart, LinkPart, Part, Router, Settings, Topology};
use aip_addr::{Id, KeyId, Name};
use std::alloc::{AllocError, Global};
use std::collections::{BTreeMap, BTreeSet};
use std::marker::Model;

/// A draft whose names and key identifiers are found without a walk over its lists. Contracts see the draft.
#[derive(Drop)]
pub struct IndexedDraft {
    draft: Draft,
    // The places of the domains and the routers, by their names.
    domains: BTreeMap<Name, u16>,
    routers: BTreeMap<Name, u16>,
    // The names of the hosts, and their key identifiers.
    hosts: BTreeSet<Name>,
    keys: BTreeSet<KeyId>,
}

impl Model for IndexedDraft {
    ghost use Rattle.aip_topo.specs.declared.steps.Draft.{Draft};
    ghost use Rattle.aip_topo.specs.Index.{FindsNames};

    ghost Value = { Draft };

    ghost view = { λ d. d.draft };

    ghost invariant = { FindsNames };
}

fn empty_draft(alloc: Global) -> Draft
    ensures { result ≡ empty_draft }
{
    Draft {
        topology: Topology {
            settings: Settings {
                accept: 600,
                cache: 64,
                epoch: 60,
                filter: 16,
                log: 128,
                threshold: 8,
                wild: 600,
                wildcache: 8,
            },
            domains: Domains::new(alloc),
            routers: Routers::new(alloc),
            parts: Parts::new(alloc),
        },
        given: [false; 8],
    }
}

// Puts a name at this place, unless it has one. The only error is want of memory.
fn put(places: &mut BTreeMap<Name, u16>, name: Name, place: u16) -> Result<(), AllocError>
    ensures { OnOk result ((other : List ℕ) →
        get name_cmp places.new other ≡ option_or (get name_cmp places.old other) (cond (bytes_eq name other) (Some place) None)) }
{
    if !places.contains_key(&name) {
        places.insert(name, place)?;
    }
    Ok(())
}

// Notes the name of a host, and its key identifier. The only error is want of memory.
fn note(
    hosts: &mut BTreeSet<Name>,
    keys: &mut BTreeSet<KeyId>,
    host: &HostPart,
) -> Result<(), AllocError>
    ensures name { OnOk result (Updates name_cmp hosts.old hosts.new host.now.name true) }
    ensures key { OnOk result (Updates key_id_cmp keys.old keys.new (key_id_of host.now.eid) true) }
{
    hosts.insert(host.name)?;
    keys.insert(host.eid.key_id())?;
    Ok(())
}

impl IndexedDraft {
    /// The draft of no line. Each setting has its default value, and there is nothing else.
    pub(crate) fn new(alloc: Global) -> IndexedDraft
        ensures { result ≡ empty_draft }
    {
        IndexedDraft {
            draft: empty_draft(alloc),
            domains: BTreeMap::new(alloc),
            routers: BTreeMap::new(alloc),
            hosts: BTreeSet::new(alloc),
            keys: BTreeSet::new(alloc),
        }
    }

    /// The topology of the lines so far.
    pub(crate) fn topology(&self) -> &Topology
        ensures { result.now ≡ self.now.topology }
    {
        &self.draft.topology
    }

    /// The topology, once all lines were taken.
    pub(crate) fn into_topology(self) -> Topology
        ensures { result ≡ self.topology }
    {
        let IndexedDraft { draft, .. } = self;
        let Draft { topology, .. } = draft;
        topology
    }

    /// Whether the setting was set.
    pub(crate) fn was_set(&self, setting: Setting) -> bool
        ensures { result ≡ was_set setting self.now }
    {
        self.draft.given[setting.place()]
    }

    /// The place of the domain of this name.
    pub(crate) fn domain_place(&self, name: &Name) -> Option<u16>
        ensures { result ≡ domain_place name.now self.now.topology.domains }
    {
        self.domains.get(name).copied()
    }

    /// The place of the router of this name.
    pub(crate) fn router_place(&self, name: &Name) -> Option<u16>
        ensures { result ≡ router_place name.now self.now.topology.routers }
    {
        self.routers.get(name).copied()
    }

    fn names_host(&self, name: &Name) -> bool
        ensures { result ≡ list_any (names_host name.now) self.now.topology.parts }
    {
        self.hosts.contains(name)
    }

    /// Whether it is the name of a domain, a router or a host.
    pub(crate) fn is_named(&self, name: &Name) -> bool
        ensures { result ≡ is_named name.now self.now.topology }
    {
        self.domain_place(name).is_some()
            || self.router_place(name).is_some()
            || self.names_host(name)
    }

    /// Whether a host has the key identifier of this id.
    pub(crate) fn is_key_id_taken(&self, eid: &Id) -> bool
        ensures { result ≡ list_any (has_key_id eid.now) self.now.topology.parts }
    {
        self.keys.contains(&eid.key_id())
    }

    /// The draft with one addition more. The only error is want of memory.
    pub(crate) fn with(self, addition: Addition) -> Result<IndexedDraft, AllocError>
        requires { IsTrue (fits self.topology addition) }
        ensures { IfOk result (λ next. next ≡ draft_with self addition) }
    {
        match addition {
            Addition::Set { setting, value } => Ok(self.with_set(setting, value)),
            Addition::Domain(domain) => self.with_domain(domain),
            Addition::Router(router) => self.with_router(router),
            Addition::Part(Part::Host(host)) => self.with_host(host),
            Addition::Part(Part::Link(link)) => self.with_link(link),
        }
    }

    fn with_set(mut self, setting: Setting, value: u64) -> IndexedDraft
        requires { value ≤ most_of setting }
        ensures { result ≡ draft_with self (Addition.Set setting value) }
    {
        self.draft.topology.settings = with_setting(self.draft.topology.settings, setting, value);
        self.draft.given[setting.place()] = true;
        self
    }

    fn with_domain(mut self, domain: Domain) -> Result<IndexedDraft, AllocError>
        requires { length self.topology.domains < 64 }
        ensures { IfOk result (λ next. next ≡ draft_with self (Addition.Domain domain)) }
    {
        let place = self.draft.topology.domains.as_slice().len() as u16;
        put(&mut self.domains, domain.name, place)?;
        self.draft.topology.domains.push(domain)?;
        Ok(self)
    }

    fn with_router(mut self, router: Router) -> Result<IndexedDraft, AllocError>
        requires { length self.topology.routers < 256 }
        ensures { IfOk result (λ next. next ≡ draft_with self (Addition.Router router)) }
    {
        let place = self.draft.topology.routers.as_slice().len() as u16;
        put(&mut self.routers, router.name, place)?;
        self.draft.topology.routers.push(router)?;
        Ok(self)
    }

    fn with_host(mut self, host: HostPart) -> Result<IndexedDraft, AllocError>
        requires { IsTrue (has_room self.topology.parts (Part.Host host)) }
        ensures { IfOk result (λ next. next ≡ draft_with self (Addition.Part (Part.Host host))) }
    {
        note(&mut self.hosts, &mut self.keys, &host)?;
        self.draft.topology.parts.push(Part::Host(host))?;
        Ok(self)
    }

    fn with_link(mut self, link: LinkPart) -> Result<IndexedDraft, AllocError>
        requires { IsTrue (has_room self.topology.parts (Part.Link link)) }
        ensures { IfOk result (λ next. next ≡ draft_with self (Addition.Part (Part.Link link))) }
    {
        self.draft.topology.parts.push(Part::Link(link))?;
        Ok(self)
    }
}
