ghost use Rattle.std.specs.Prelude.{◌≡◌, false, IfOk, unwrap_or};
ghost use Rattle.std.specs.List.{list_any};
ghost use Rattle.aip_topo.specs.Steps.{ad_or_zeros, addition_of, has_ad, has_eid, id_from, is_domain_identified, is_host_identified, is_identified, is_key_taken, is_no_ad, is_no_eid, is_out_of_range, is_twin, key_of, router_from, router_place};

use crate::indexed::IndexedDraft;
use crate::lines::{Line, Origin, Setting};
use crate::lists::Domains;
use crate::topology::{Domain, HostPart, Key, LinkPart, Part, Router, Topology};
use aip_addr::{Address, Id, Name};
use lms_core::Tree;
use std::alloc::{AllocError, Global};

/// What a line adds to a topology, with its id and its key.
#[derive(Drop)]
pub enum Addition {
    /// The value of a setting.
    Set {
        /// The setting.
        setting: Setting,
        /// Its value.
        value: u64,
    },
    /// A domain.
    Domain(Domain),
    /// A router.
    Router(Router),
    /// A host or a link.
    Part(Part),
}

/// An id and its key.
#[derive(Drop)]
struct KeyedId {
    id: Id,
    key: Key,
}

// Makes the key that a line gives, where it gives one. The only error is want of memory.
fn keyed(alloc: Global, origin: &Origin) -> Result<KeyedId, AllocError>
    requires { is_no_eid origin.now ≡ false }
    ensures { IfOk result (λ keyed. (keyed.id ≡ id_from origin.now) × (keyed.key ≡ key_of origin.now)) }
{
    match origin {
        Origin::Given(id) => Ok(KeyedId {
            id: *id,
            key: Key::Given,
        }),
        Origin::Seed {
            width,
            height,
            interface,
            seed,
        } => {
            let tree = Tree::build(alloc, seed, *width, *height)?;
            let id = Id::of_key(&tree.public().bytes(), *interface as u8);
            Ok(KeyedId {
                id,
                key: Key::Made(tree),
            })
        }
    }
}

fn ad_or_zeros(domains: &Domains, place: u16) -> Id
    ensures { result ≡ ad_or_zeros place domains.now }
{
    match domains.as_slice().get(place as usize) {
        Some(domain) => domain.ad,
        None => Id { bytes: [0; 20] },
    }
}

fn domain_of(alloc: Global, name: Name, origin: &Origin) -> Result<Domain, AllocError>
    requires { is_no_ad origin.now ≡ false }
    ensures { IfOk result (λ domain. (domain.name ≡ name) × (domain.ad ≡ id_from origin.now) × (domain.key ≡ key_of origin.now)) }
{
    let keyed = keyed(alloc, origin)?;
    Ok(Domain {
        name,
        ad: keyed.id,
        key: keyed.key,
    })
}

fn router_of(
    draft: &IndexedDraft,
    name: &Name,
    domain: &Name,
    checking: bool,
    master: &[u8; 32],
) -> Router
    ensures { result ≡ router_from draft.now.topology.domains name.now domain.now checking master.now }
{
    let place = draft.domain_place(domain).unwrap_or(0);
    Router {
        name: *name,
        domain: place,
        checking,
        master: *master,
        address: Address {
            ad: ad_or_zeros(&draft.topology().domains, place),
            eid: Id::of_router(name),
        },
    }
}

fn router_or_first(draft: &IndexedDraft, name: &Name) -> u16
    ensures { result ≡ unwrap_or (router_place name.now draft.now.topology.routers) 0 }
{
    draft.router_place(name).unwrap_or(0)
}

// What the line adds. The only error is want of memory.
pub(crate) fn addition_of(
    alloc: Global,
    draft: &IndexedDraft,
    line: &Line,
) -> Result<Addition, AllocError>
    requires { is_out_of_range line.now ≡ false }
    ensures { IfOk result (λ addition. addition ≡ addition_of draft.now.topology line.now) }
{
    match line {
        Line::Set { setting, value } => Ok(Addition::Set {
            setting: *setting,
            value: *value,
        }),
        Line::Domain { name, origin } => Ok(Addition::Domain(domain_of(alloc, *name, origin)?)),
        Line::Router {
            name,
            domain,
            checking,
            master,
        } => Ok(Addition::Router(router_of(draft, name, domain, *checking, master))),
        Line::Host {
            name,
            router,
            guarded,
            origin,
        } => {
            let keyed = keyed(alloc, origin)?;
            Ok(Addition::Part(Part::Host(HostPart {
                name: *name,
                router: router_or_first(draft, router),
                guarded: *guarded,
                eid: keyed.id,
                key: keyed.key,
            })))
        }
        Line::Link {
            a,
            b,
            a_trusts,
            b_trusts,
        } => Ok(Addition::Part(Part::Link(LinkPart {
            a: router_or_first(draft, a),
            b: router_or_first(draft, b),
            a_trusts: *a_trusts,
            b_trusts: *b_trusts,
        }))),
    }
}

fn is_ad_taken(domains: &[Domain], ad: &Id) -> bool
    ensures { result ≡ list_any (has_ad ad.now) domains.now }
{
    domains.iter().any(|d| d.ad.bytes == ad.bytes)
}

fn is_eid_taken(routers: &[Router], eid: &Id) -> bool
    ensures { result ≡ list_any (has_eid eid.now) routers.now }
{
    routers.iter().any(|r| r.address.eid.bytes == eid.bytes)
}

// Whether the key was made and has this identifier.
fn is_identified(key: &Key, id: &[u8; 16]) -> bool
    ensures { result ≡ is_identified id.now key.now }
{
    match key {
        Key::Given => false,
        Key::Made(tree) => tree.id() == *id,
    }
}

fn is_host_identified(part: &Part, id: &[u8; 16]) -> bool
    ensures { result ≡ is_host_identified id.now part.now }
{
    match part {
        Part::Host(host) => is_identified(&host.key, id),
        Part::Link(_) => false,
    }
}

fn identifies_a_domain(domains: &[Domain], id: &[u8; 16]) -> bool
    ensures { result ≡ list_any (is_domain_identified id.now) domains.now }
{
    domains.iter().any(|d| is_identified(&d.key, id))
}

fn identifies_a_host(parts: &[Part], id: &[u8; 16]) -> bool
    ensures { result ≡ list_any (is_host_identified id.now) parts.now }
{
    parts.iter().any(|p| is_host_identified(p, id))
}

fn is_key_taken(topology: &Topology, key: &Key) -> bool
    ensures { result ≡ is_key_taken topology.now key.now }
{
    match key {
        Key::Given => false,
        Key::Made(tree) => {
            let id = tree.id();
            identifies_a_domain(topology.domains.as_slice(), &id)
                || identifies_a_host(topology.parts.as_slice(), &id)
        }
    }
}

fn is_part_twin(draft: &IndexedDraft, part: &Part) -> bool
    ensures { result ≡ is_twin draft.now.topology (Addition.Part part.now) }
{
    match part {
        Part::Host(host) => {
            draft.is_key_id_taken(&host.eid) || is_key_taken(draft.topology(), &host.key)
        }
        Part::Link(_) => false,
    }
}

pub(crate) fn is_twin(draft: &IndexedDraft, addition: &Addition) -> bool
    ensures { result ≡ is_twin draft.now.topology addition.now }
{
    let topology = draft.topology();
    match addition {
        Addition::Set { .. } => false,
        Addition::Domain(domain) => {
            is_ad_taken(topology.domains.as_slice(), &domain.ad)
                || is_key_taken(topology, &domain.key)
        }
        Addition::Router(router) => is_eid_taken(topology.routers.as_slice(), &router.address.eid),
        Addition::Part(part) => is_part_twin(draft, part),
    }
}
