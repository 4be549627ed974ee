//! Computes the routes of a small ring, or with the word `limits` those of the largest graphs: 256 routers in 64
//! domains with 4096 links, once as one long line and once as a mesh.
#![tactic(auto)]

ghost use Rattle.std.specs.Prelude.{◌≤◌};

use domain_routes::{Edge, Goal, Graph, Routes};
use std::alloc::{AllocError, Global};
use std::{env, io};

/// How the links of a graph lie.
#[derive(Clone, Copy)]
enum Shape {
    /// Each router is linked to the next, by several links where there are many.
    Line,
    /// Each router is linked to others all over the graph.
    Mesh,
}

/// The k-th link of a graph of at least two routers.
fn link(shape: Shape, routers: u16, k: u16) -> Edge
    requires { 2 ≤ routers }
{
    let a = k % routers;
    let round = k / routers;
    let b = match shape {
        Shape::Line => (u32::from(a) + 1) % u32::from(routers),
        Shape::Mesh => (u32::from(a) * 5 + u32::from(round) * 31 + 1) % u32::from(routers),
    };
    // The line is not closed to a ring: its last router has links to itself alone.
    let up = !matches!(shape, Shape::Line) || a + 1 < routers;
    Edge {
        a,
        a_port: round,
        b: b as u16,
        b_port: round ^ 0x8000,
        up,
    }
}

fn graph(alloc: Global, shape: Shape, routers: u16, links: u16) -> Result<Graph, AllocError>
    requires { 2 ≤ routers }
{
    let mut domains = Vec::new(alloc);
    for router in 0..routers {
        domains.push(router / 4)?;
    }
    let mut edges = Vec::new(alloc);
    for k in 0..links {
        edges.push(link(shape, routers, k))?;
    }
    Ok(Graph { domains, edges })
}

/// How many routers have a port towards a router, over all pairs.
fn reachable_pairs(routes: &Routes, routers: u16) -> u64 {
    let mut pairs: u64 = 0;
    for from in 0..routers {
        for to in 0..routers {
            if routes.port(from, Goal::Router(to)).is_some() {
                pairs = pairs.wrapping_add(1);
            }
        }
    }
    pairs
}

/// Computes the routes of one graph, and prints what they reach.
fn run(
    rt: &(impl Print + Alloc<A = Global>),
    shape: Shape,
    routers: u16,
    links: u16,
) -> io::Result<()>
    requires { 2 ≤ routers }
{
    let graph = graph(rt.alloc(), shape, routers, links)?;
    if !graph.is_sound() {
        return println!(rt; "a link joins no routers");
    }
    let routes = Routes::compute(rt.alloc(), &graph)?;
    let pairs = reachable_pairs(&routes, routers);
    println!(rt; "{routers} routers, {links} links: {pairs} pairs with a route")
}

fn main(rt: HostRuntime) -> io::Result<()> {
    let mut limits = false;
    for word in env::args(&rt)? {
        if word.as_str() == "limits" {
            limits = true;
        }
    }
    if limits {
        run(&rt, Shape::Line, 256, 4096)?;
        return run(&rt, Shape::Mesh, 256, 4096);
    }
    run(&rt, Shape::Line, 8, 16)?;
    run(&rt, Shape::Mesh, 8, 16)
}
