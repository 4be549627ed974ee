//! The ways out of each router.

ghost use Rattle.std.specs.Prelude.{◌≡◌, ◌++◌, ◌<◌, ℕ, [], IfOk, OnOk, length};
ghost use Rattle.domain_routes.specs.Walks.{IsSoundGraph, way_if};
ghost use Rattle.domain_routes.specs.Levels.{AreWays, row_of, is_at, ways_by};

use crate::{Edge, Graph, Way};
use std::alloc::{AllocError, Global};

/// No ways yet, for each of so many routers.
fn no_ways(alloc: Global, routers: usize) -> Result<Vec<Vec<Way>>, AllocError>
    ensures count { IfOk result (λ all. length all.items ≡ routers) }
    ensures none { IfOk result (λ all. (router : ℕ) → row_of all.items router ≡ []) }
{
    let mut all = Vec::new(alloc);
    for router in 0..routers {
        all.push(Vec::new(alloc))?;
    }
    Ok(all)
}

/// Adds a way to those out of a router.
fn add_way(all: &mut Vec<Vec<Way>>, router: u16, way: Way) -> Result<(), AllocError>
    requires { router < length all.old.items }
    ensures count { length all.new.items ≡ length all.old.items }
    ensures added { OnOk result ((other : ℕ) →
        row_of all.new.items other ≡ row_of all.old.items other ++ way_if (is_at router other) way) }
{
    all[router as usize].push(way)?;
    Ok(())
}

/// Adds the ways along a link, if it is up.
fn add_link(all: &mut Vec<Vec<Way>>, edge: &Edge) -> Result<(), AllocError>
    requires a { edge.now.a < length all.old.items }
    requires b { edge.now.b < length all.old.items }
    ensures count { length all.new.items ≡ length all.old.items }
    ensures added { OnOk result ((router : ℕ) →
        row_of all.new.items router ≡ row_of all.old.items router ++ ways_by edge.now router) }
{
    if !edge.up {
        return Ok(());
    }
    add_way(
        all,
        edge.a,
        Way {
            port: edge.a_port,
            neighbour: edge.b,
        },
    )?;
    add_way(
        all,
        edge.b,
        Way {
            port: edge.b_port,
            neighbour: edge.a,
        },
    )
}

/// The ways out of each router, in the order of the links.
pub(crate) fn all_ways(alloc: Global, graph: &Graph) -> Result<Vec<Vec<Way>>, AllocError>
    requires { IsSoundGraph graph.now.domains.items graph.now.edges.items }
    ensures { IfOk result (λ all. AreWays graph.now.domains.items graph.now.edges.items all.items) }
{
    let mut all = no_ways(alloc, graph.domains.len())?;
    'links: for edge in &graph.edges {
        add_link(&mut all, edge)?;
    }
    Ok(all)
}
