//! The links as they are, and what lies at the ports of each router.

ghost use Rattle.std.specs.Prelude.{◌≡◌, ◌<◌, ◌^◌, ℕ, length, slice_get, IfOk, IfSome};
ghost use Rattle.domain_routes.specs.Walks.{IsSoundGraph, port_towards};
ghost use Rattle.aip_core.specs.Moves.{with_link};
ghost use Rattle.aip_core.specs.Places.{row_of};

use crate::routes::Routes;
use aip_rules::Neighbour;
use domain_routes::{Edge, Goal, Graph};
use std::alloc::{AllocError, Global};
use std::marker::Model;

/// The wiring of a network. Contracts see the domains of the routers, the links as they are, and the rows of neighbours.
#[derive(Drop)]
pub struct Wiring {
    graph: Graph,
    rows: Vec<Vec<Neighbour>>,
    // The routes that were needed since a link changed.
    routes: Routes,
}

impl Model for Wiring {
    ghost use Rattle.aip_core.specs.Wiring.{Wired};

    ghost Value = { Wired };

    ghost use Rattle.aip_core.specs.Wiring.{HoldsRoutes};

    ghost view = { λ w. record { domains = w.graph.domains.items; links = w.graph.edges.items; rows = w.rows.items } };

    ghost invariant = { HoldsRoutes };
}

#[tactic(auto, using(crate::proofs::Links::same_with))]
fn is_up(links: &[Edge], link: usize) -> bool
    requires { link < length links.now }
    ensures { with_link links.now link result ≡ links.now }
{
    links[link].up
}

#[tactic(auto, using(crate::proofs::Links::set_is_with))]
fn set_up(links: &mut [Edge], link: usize, up: bool)
    requires { link < length links.old }
    ensures { links.new ≡ with_link links.old link up }
{
    links[link].up = up;
}

fn relinked(links: Vec<Edge>, link: usize, up: bool) -> Vec<Edge>
    requires { link < length links.items }
    ensures { result.items ≡ with_link links.items link up }
{
    let mut links = links;
    set_up(&mut links, link, up);
    links
}

impl Wiring {
    /// The wiring with these links between routers of these domains, and these rows of neighbours.
    pub fn new(
        alloc: Global,
        domains: Vec<u16>,
        links: Vec<Edge>,
        rows: Vec<Vec<Neighbour>>,
    ) -> Wiring
        requires sound { IsSoundGraph domains.items links.items }
        requires short { (router : ℕ) → length (row_of rows.items router) < 2 ^ 16 }
        ensures { result ≡ record { domains = domains.items; links = links.items; rows = rows.items } }
    {
        Wiring {
            graph: Graph {
                domains,
                edges: links,
            },
            rows,
            routes: Routes::new(alloc),
        }
    }

    /// How many links there are.
    pub fn link_count(&self) -> usize
        ensures { result ≡ length self.now.links }
    {
        self.graph.edges.len()
    }

    /// The wiring with one link up or cut. The routes that are kept are given up, unless the link was so before.
    pub fn with_link(self, alloc: Global, link: usize, up: bool) -> Wiring
        requires { link < length self.links }
        ensures { result ≡ record self { links = with_link self.links link up } }
    {
        let Wiring {
            graph,
            rows,
            routes,
        } = self;
        if is_up(&graph.edges, link) == up {
            return Wiring {
                graph,
                rows,
                routes,
            };
        }
        let Graph { domains, edges } = graph;
        let edges = relinked(edges, link, up);
        let graph = Graph { domains, edges };
        let routes = Routes::new(alloc);
        Wiring {
            graph,
            rows,
            routes,
        }
    }

    /// What lies at a port of a router. Where something lies, the port's number has 16 bits.
    #[tactic(auto, using(crate::proofs::RouterPorts::port_is_low))]
    pub fn neighbour(&self, router: u16, port: u64) -> Option<Neighbour>
        ensures found { result ≡ slice_get (row_of self.now.rows router) port }
        ensures low { IfSome result (λ _. port < 2 ^ 16) }
    {
        match self.rows.get(router as usize) {
            Some(row) => row.get(port as usize).copied(),
            None => None,
        }
    }

    /// How many ports a router has.
    pub fn port_count(&self, router: u16) -> u16
        ensures { result ≡ length (row_of self.now.rows router) }
    {
        match self.rows.get(router as usize) {
            Some(row) => row.len() as u16,
            None => 0,
        }
    }

    /// The port of a router towards a goal, over the links that are up. The only error is want of memory.
    pub fn port_towards(
        &mut self,
        alloc: Global,
        router: u16,
        goal: Goal,
    ) -> Result<Option<u16>, AllocError>
        ensures same { self.new ≡ self.old }
        ensures port { IfOk result (λ port. port ≡ port_towards self.old.domains self.old.links router goal) }
    {
        self.routes.port(alloc, &self.graph, router, goal)
    }
}
