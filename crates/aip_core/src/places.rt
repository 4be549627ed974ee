//! Where hosts and links take their places at the ports of routers.

ghost use Rattle.std.specs.Prelude.{◌≡◌, ◌+◌, ◌*◌, ◌<◌, ◌≤◌, ◌^◌, ◌==◌, ℕ, List, [], ◌∷◌, ◌++◌, length, slice_index, slice_set, All, IfOk, OnOk};
ghost use Rattle.aip_core.specs.Places.{CountPorts, IsAtRouters, neighbour_if, row_of};
ghost use Rattle.aip_rules.specs.Nodes.{seats_after, links_after, neighbours_after, neighbours_by, host_address, ports_in};
ghost use Rattle.aip_topo.specs.declared.topology.Part.{Part};
ghost use Rattle.aip_topo.specs.declared.topology.Part.TheVariants.{Host, Link};

use aip_addr::Address;
use aip_rules::{Neighbour, Seat};
use aip_topo::{HostPart, LinkPart, Part, Router};
use domain_routes::Edge;
use std::alloc::{AllocError, Global};

/// The hosts with their ports, the links with the ports at their ends, and for each router what lies at its ports.
#[derive(Drop)]
pub struct Places {
    pub seats: Vec<Seat>,
    pub links: Vec<Edge>,
    pub rows: Vec<Vec<Neighbour>>,
}

// No neighbours yet, for each of so many routers.
fn no_neighbours(alloc: Global, routers: usize) -> Result<Vec<Vec<Neighbour>>, AllocError>
    ensures count { IfOk result (λ rows. length rows.items ≡ routers) }
    ensures none { IfOk result (λ rows. (router : ℕ) → row_of rows.items router ≡ []) }
{
    let mut rows = Vec::new(alloc);
    for router in 0..routers {
        rows.push(Vec::new(alloc))?;
    }
    Ok(rows)
}

// Adds what lies at the next port of a router.
fn add_neighbour(
    rows: &mut Vec<Vec<Neighbour>>,
    router: u16,
    neighbour: Neighbour,
) -> Result<(), AllocError>
    requires { router < length rows.old.items }
    ensures count { length rows.new.items ≡ length rows.old.items }
    ensures added { OnOk result ((other : ℕ) →
        row_of rows.new.items other ≡ row_of rows.old.items other ++ neighbour_if (router == other) neighbour) }
{
    rows[router as usize].push(neighbour)?;
    Ok(())
}

// One more port of a router is taken.
fn count_port(counts: &mut [u16], router: u16)
    requires there { router < length counts.old }
    requires room { slice_index counts.old router + 1 < 2 ^ 16 }
    ensures { counts.new ≡ slice_set counts.old router (slice_index counts.old router + 1) }
{
    counts[router as usize] += 1;
}

fn seat_of(routers: &[Router], host: &HostPart, port: u16) -> Seat
    requires { host.now.router < length routers.now }
    ensures { result ≡ record { name = host.now.name; router = host.now.router; port = port; address = host_address routers.now host.now } }
{
    Seat {
        name: host.name,
        router: host.router,
        port,
        address: Address {
            ad: routers[host.router as usize].address.ad,
            eid: host.eid,
        },
    }
}

// A host takes the next port of its router.
fn place_host(
    routers: &[Router],
    host: &HostPart,
    counts: &mut [u16],
    seats: &mut Vec<Seat>,
    rows: &mut Vec<Vec<Neighbour>>,
) -> Result<(), AllocError>
    requires there { host.now.router < length routers.now }
    requires counted { length counts.old ≡ length routers.now }
    requires rows { length rows.old.items ≡ length routers.now }
    requires room { (k : ℕ) → slice_index counts.old k + 2 < 2 ^ 16 }
    ensures all { length rows.new.items ≡ length rows.old.items }
    ensures rows { OnOk result ((before : List Part) → CountPorts before counts.old → (router : ℕ) →
        row_of rows.new.items router ≡ row_of rows.old.items router ++ neighbours_by before (Host host.now) router) }
    ensures bound { (k : ℕ) → slice_index counts.new k ≤ slice_index counts.old k + 2 }
    ensures counts { (before : List Part) → CountPorts before counts.old → CountPorts (Host host.now ∷ before) counts.new }
    ensures seats { OnOk result ((before rest : List Part) → CountPorts before counts.old →
        seats.old.items ++ seats_after routers.now before (Host host.now ∷ rest)
        ≡ seats.new.items ++ seats_after routers.now (Host host.now ∷ before) rest) }
{
    let port = counts[host.router as usize];
    count_port(counts, host.router);
    seats.push(seat_of(routers, host, port))?;
    add_neighbour(rows, host.router, Neighbour::Host { name: host.name })
}

// A link takes the next port of each of its routers.
fn place_link(
    link: &LinkPart,
    counts: &mut [u16],
    links: &mut Vec<Edge>,
    rows: &mut Vec<Vec<Neighbour>>,
) -> Result<(), AllocError>
    requires a { link.now.a < length counts.old }
    requires b { link.now.b < length counts.old }
    requires rows { length rows.old.items ≡ length counts.old }
    requires room { (k : ℕ) → slice_index counts.old k + 2 < 2 ^ 16 }
    ensures all { length rows.new.items ≡ length rows.old.items }
    ensures rows { OnOk result ((before : List Part) → CountPorts before counts.old → (router : ℕ) →
        row_of rows.new.items router ≡ row_of rows.old.items router ++ neighbours_by before (Link link.now) router) }
    ensures bound { (k : ℕ) → slice_index counts.new k ≤ slice_index counts.old k + 2 }
    ensures counts { (before : List Part) → CountPorts before counts.old → CountPorts (Link link.now ∷ before) counts.new }
    ensures links { OnOk result ((before rest : List Part) → CountPorts before counts.old →
        links.old.items ++ links_after before (Link link.now ∷ rest)
        ≡ links.new.items ++ links_after (Link link.now ∷ before) rest) }
{
    let a_port = counts[link.a as usize];
    let b_port = counts[link.b as usize];
    count_port(counts, link.a);
    count_port(counts, link.b);
    links.push(Edge {
        a: link.a,
        a_port,
        b: link.b,
        b_port,
        up: true,
    })?;
    let there = Neighbour::Link {
        router: link.b,
        port: b_port,
        marked: link.a_trusts,
    };
    let back = Neighbour::Link {
        router: link.a,
        port: a_port,
        marked: link.b_trusts,
    };
    add_neighbour(rows, link.a, there)?;
    add_neighbour(rows, link.b, back)
}

fn place(
    routers: &[Router],
    part: &Part,
    counts: &mut [u16],
    places: &mut Places,
) -> Result<(), AllocError>
    requires there { IsAtRouters (length routers.now) part.now }
    requires counted { length counts.old ≡ length routers.now }
    requires rows { length places.old.rows.items ≡ length routers.now }
    requires room { (k : ℕ) → slice_index counts.old k + 2 < 2 ^ 16 }
    ensures all { length places.new.rows.items ≡ length places.old.rows.items }
    ensures rows { OnOk result ((before : List Part) → CountPorts before counts.old → (router : ℕ) →
        row_of places.new.rows.items router ≡ row_of places.old.rows.items router ++ neighbours_by before part.now router) }
    ensures bound { (k : ℕ) → slice_index counts.new k ≤ slice_index counts.old k + 2 }
    ensures counts { (before : List Part) → CountPorts before counts.old → CountPorts (part.now ∷ before) counts.new }
    ensures seats { OnOk result ((before rest : List Part) → CountPorts before counts.old →
        places.old.seats.items ++ seats_after routers.now before (part.now ∷ rest)
        ≡ places.new.seats.items ++ seats_after routers.now (part.now ∷ before) rest) }
    ensures links { OnOk result ((before rest : List Part) → CountPorts before counts.old →
        places.old.links.items ++ links_after before (part.now ∷ rest)
        ≡ places.new.links.items ++ links_after (part.now ∷ before) rest) }
{
    match part {
        Part::Host(host) => {
            place_host(routers, host, counts, &mut places.seats, &mut places.rows)
        }
        Part::Link(link) => place_link(link, counts, &mut places.links, &mut places.rows),
    }
}

/// The places of a topology's hosts and links. The only error is want of memory.
pub fn places_of(alloc: Global, routers: &[Router], parts: &[Part]) -> Result<Places, AllocError>
    requires there { All (IsAtRouters (length routers.now)) parts.now }
    requires few { length parts.now ≤ 5120 }
    ensures seats { IfOk result (λ p. p.seats.items ≡ seats_after routers.now [] parts.now) }
    ensures links { IfOk result (λ p. p.links.items ≡ links_after [] parts.now) }
    ensures rows { IfOk result (λ p. (router : ℕ) → row_of p.rows.items router ≡ neighbours_after [] parts.now router) }
    ensures short { IfOk result (λ p. (router : ℕ) → length (row_of p.rows.items router) < 2 ^ 16) }
{
    let mut counts = vec![in alloc; 0u16; routers.len()]?;
    let mut places = Places {
        seats: Vec::new(alloc),
        links: Vec::new(alloc),
        rows: no_neighbours(alloc, routers.len())?,
    };
    'parts: for part in parts {
        place(routers, part, &mut counts, &mut places)?;
    }
    Ok(places)
}
