//! The rows of the table of routes: for one goal the port of each router.

ghost use Rattle.std.specs.Prelude.{◌≡◌, ◌<◌, ◌≤◌, All, length, IfOk};
ghost use Rattle.domain_routes.specs.Walks.{JoinsRouters, is_one_less, lower_of, lowest, nearer_ports};
ghost use Rattle.domain_routes.specs.Levels.{AreWays, level_at};
ghost use Rattle.domain_routes.specs.Rows.{AreRows, IsRow, entry_of};

use crate::{Goal, Graph, Way, levels};
use std::alloc::{AllocError, Global};

/// Whether the one distance is one less than the other.
fn is_one_less(near: Option<u16>, far: Option<u16>) -> bool
    ensures { result ≡ is_one_less near far }
{
    match (near, far) {
        (Some(near), Some(far)) => u32::from(near) + 1 == u32::from(far),
        _ => false,
    }
}

/// The lower of the ports.
fn lower(lowest: Option<u16>, port: u16) -> Option<u16>
    ensures { result ≡ lower_of lowest (Some port) }
{
    match lowest {
        Some(other) => Some(other.min(port)),
        None => Some(port),
    }
}

/// The lowest port whose neighbour is one step nearer than the router's own distance.
fn lowest_port(ways: &[Way], distances: &[Option<u16>], own: Option<u16>) -> Option<u16>
    requires { All (λ w. w.neighbour < length distances.now) ways.now }
    ensures { result ≡ lowest (nearer_ports (level_at distances.now) own ways.now) }
{
    let mut lowest = None;
    for way in ways {
        if is_one_less(distances[way.neighbour as usize], own) {
            lowest = lower(lowest, way.port);
        }
    }
    lowest
}

/// The port of each router towards the goal.
pub(crate) fn row(
    alloc: Global,
    graph: &Graph,
    ways: &[Vec<Way>],
    goal: Goal,
) -> Result<Vec<Option<u16>>, AllocError>
    requires routers { length graph.now.domains.items ≤ 256 }
    requires edges { All (JoinsRouters graph.now.domains.items) graph.now.edges.items }
    requires ways { AreWays graph.now.domains.items graph.now.edges.items ways.now }
    ensures { IfOk result (λ ports.
        IsRow graph.now.domains.items graph.now.edges.items goal ports.items) }
{
    let distances = levels::distances(alloc, graph, ways, goal)?;
    let mut ports = Vec::new(alloc);
    for router in 0..ways.len() {
        ports.push(lowest_port(&ways[router], &distances, distances[router]))?;
    }
    Ok(ports)
}

/// The row of a domain, empty where no router has it.
fn domain_row(
    alloc: Global,
    graph: &Graph,
    ways: &[Vec<Way>],
    domain: u16,
) -> Result<Vec<Option<u16>>, AllocError>
    requires routers { length graph.now.domains.items ≤ 256 }
    requires edges { All (JoinsRouters graph.now.domains.items) graph.now.edges.items }
    requires ways { AreWays graph.now.domains.items graph.now.edges.items ways.now }
    ensures { IfOk result (λ ports.
        IsRow graph.now.domains.items graph.now.edges.items (Goal.Domain domain) ports.items) }
{
    if !graph.domains.as_slice().contains(&domain) {
        return Ok(Vec::new(alloc));
    }
    row(alloc, graph, ways, Goal::Domain(domain))
}

/// A number above every domain's.
fn domain_limit(domains: &[u16]) -> usize
    ensures above { All (λ domain. domain < result) domains.now }
    ensures room { result ≤ 65536 }
{
    let mut limit = 0;
    for domain in domains {
        let above = *domain as usize + 1;
        if limit < above {
            limit = above;
        }
    }
    limit
}

/// A row for each domain's number up to the greatest.
pub(crate) fn to_domains(
    alloc: Global,
    graph: &Graph,
    ways: &[Vec<Way>],
) -> Result<Vec<Vec<Option<u16>>>, AllocError>
    requires routers { length graph.now.domains.items ≤ 256 }
    requires edges { All (JoinsRouters graph.now.domains.items) graph.now.edges.items }
    requires ways { AreWays graph.now.domains.items graph.now.edges.items ways.now }
    ensures { IfOk result (λ rows.
        AreRows graph.now.domains.items graph.now.edges.items (λ d. Goal.Domain d) rows.items) }
{
    let mut rows = Vec::new(alloc);
    for domain in 0..domain_limit(&graph.domains) {
        rows.push(domain_row(alloc, graph, ways, domain as u16)?)?;
    }
    Ok(rows)
}

/// A row for each router as the goal.
pub(crate) fn to_routers(
    alloc: Global,
    graph: &Graph,
    ways: &[Vec<Way>],
) -> Result<Vec<Vec<Option<u16>>>, AllocError>
    requires routers { length graph.now.domains.items ≤ 256 }
    requires edges { All (JoinsRouters graph.now.domains.items) graph.now.edges.items }
    requires ways { AreWays graph.now.domains.items graph.now.edges.items ways.now }
    ensures { IfOk result (λ rows.
        AreRows graph.now.domains.items graph.now.edges.items (λ r. Goal.Router r) rows.items) }
{
    let mut rows = Vec::new(alloc);
    for target in 0..graph.domains.len() {
        rows.push(row(alloc, graph, ways, Goal::Router(target as u16))?)?;
    }
    Ok(rows)
}

/// The entry of the table at a goal's number and a router, none outside of the table.
pub(crate) fn entry(rows: &[Vec<Option<u16>>], goal: u16, router: u16) -> Option<u16>
    ensures { result ≡ entry_of rows.now goal router }
{
    match rows.get(goal as usize) {
        Some(row) => row.get(router as usize).copied().flatten(),
        None => None,
    }
}
