//! The least routes of a graph of routers. A router's port towards a goal, a domain or one router, is the lowest
//! port whose link is up and whose neighbour is one step nearer to the goal.
//!
//! ```rust
//! use domain_routes::{Edge, Goal, Graph, Routes};
//!
//! // Router 0 of domain 0 and router 1 of domain 1, joined by one link.
//! let link = Edge {
//!     a: 0,
//!     a_port: 2,
//!     b: 1,
//!     b_port: 5,
//!     up: true,
//! };
//! let graph = Graph {
//!     domains: Vec::from_slice(alloc, &[0, 1])?,
//!     edges: Vec::from_slice(alloc, &[link])?,
//! };
//! // The graph is sound, as `is_sound` would say: its link joins two of its routers.
//! let routes = Routes::compute(alloc, &graph)?;
//! assert_eq!(rt; routes.port(0, Goal::Domain(1)), Some(2));
//! assert_eq!(rt; routes.port(0, Goal::Domain(0)), None);
//! ```
#![tactic(auto)]

ghost use Rattle.std.specs.Prelude.{◌≡◌, ◌↔◌, ℕ, List, IfOk, IfSome, IsNone, IsTrue};
ghost use Rattle.domain_routes.specs.declared.Edge.{Edge as Link};
ghost use Rattle.domain_routes.specs.declared.Goal.{Goal as Towards};
ghost use Rattle.domain_routes.specs.Walks.{IsSoundGraph, port_towards, DistancesAreLeast};
ghost use Rattle.domain_routes.specs.Walks.{IsLowestStep, HasNoStep};
ghost use Rattle.domain_routes.specs.Table.{port_of, IsRoutesOf};
ghost use Rattle.domain_routes.specs.Rows.{port_in, IsGoalRoutesOf};

use std::alloc::{AllocError, Global};

mod levels;
mod rows;
#[cfg(test)]
mod tests;
mod ways;

/// A link between the routers `a` and `b`, which it meets at the ports `a_port` and `b_port`. While it is up it may
/// be followed both ways.
#[derive(Clone, Copy, PartialEq, Eq, Debug)]
pub struct Edge {
    /// The router at one end, by its place in the graph.
    pub a: u16,
    /// The port of `a` at which the link is plugged in.
    pub a_port: u16,
    /// The router at the other end.
    pub b: u16,
    /// The port of `b`.
    pub b_port: u16,
    /// Whether the link carries frames.
    pub up: bool,
}

/// The routers, each known by its place, and the links between them.
#[derive(Debug, Drop)]
pub struct Graph {
    /// The domain of each router.
    pub domains: Vec<u16>,
    /// The links, in any order; two routers may have several.
    pub edges: Vec<Edge>,
}

impl Graph {
    /// Whether the graph has at most 256 routers, and each link joins two of them.
    pub fn is_sound(&self) -> bool
        ensures { IsTrue result ↔ IsSoundGraph self.now.domains.items self.now.edges.items }
    {
        let routers = self.domains.len();
        routers <= 256
            && self.edges.iter().all(|edge| (edge.a as usize) < routers
                && (edge.b as usize) < routers)
    }
}

/// Where a walk is to end: at any router of a domain, or at one router.
#[derive(Clone, Copy, PartialEq, Eq, Debug)]
pub enum Goal {
    /// Any router of the domain with this number.
    Domain(u16),
    /// The router at this place of the graph.
    Router(u16),
}

/// A way out of a router: a port whose link is up, and the router at the link's other end.
#[derive(Clone, Copy, PartialEq, Eq, Debug)]
pub(crate) struct Way {
    pub(crate) port: u16,
    pub(crate) neighbour: u16,
}

/// The ports of all routers towards all goals.
#[derive(Debug, Drop)]
pub struct Routes {
    /// For each domain's number the port of each router; none for a number that no router has.
    by_domain: Vec<Vec<Option<u16>>>,
    /// For each router as the goal the port of each router.
    by_router: Vec<Vec<Option<u16>>>,
}

impl Routes {
    /// The routes of a graph of at most 256 routers. The only error is that memory runs out.
    pub fn compute(alloc: Global, graph: &Graph) -> Result<Routes, AllocError>
        requires { IsSoundGraph graph.now.domains.items graph.now.edges.items }
        ensures { IfOk result (λ routes.
            IsRoutesOf routes graph.now.domains.items graph.now.edges.items) }
    {
        let ways = ways::all_ways(alloc, graph)?;
        let by_domain = rows::to_domains(alloc, graph, &ways)?;
        let by_router = rows::to_routers(alloc, graph, &ways)?;
        Ok(Routes {
            by_domain,
            by_router,
        })
    }

    /// The port of the router towards the goal: the lowest whose link is up and whose neighbour is one step nearer.
    /// None where the router is in the goal, and where no walk over links that are up leads there.
    pub fn port(&self, router: u16, goal: Goal) -> Option<u16>
        ensures held { result ≡ port_of self.now router goal }

        // For the graph whose routes these are: the port, and what that means.
        ensures towards { (domains : List ℕ) (edges : List Link) → IsRoutesOf self.now domains edges
            → result ≡ port_towards domains edges router goal }
        ensures lowest { (domains : List ℕ) (edges : List Link) → IsRoutesOf self.now domains edges
            → IfSome result (IsLowestStep domains edges goal router) }
        ensures none { (domains : List ℕ) (edges : List Link) → IsRoutesOf self.now domains edges
            → (IsNone result ↔ HasNoStep domains edges goal router) }
        ensures least { (domains : List ℕ) (edges : List Link) → IsRoutesOf self.now domains edges
            → DistancesAreLeast domains edges goal }
    {
        match goal {
            Goal::Domain(domain) => rows::entry(&self.by_domain, domain, router),
            Goal::Router(target) => rows::entry(&self.by_router, target, router),
        }
    }
}

/// The ports of all routers towards one goal.
#[derive(Debug, Drop)]
pub struct GoalRoutes {
    /// The port of each router.
    ports: Vec<Option<u16>>,
}

impl GoalRoutes {
    /// The routes to a goal over a graph of at most 256 routers. The only error is that memory runs out.
    pub fn compute(alloc: Global, graph: &Graph, goal: Goal) -> Result<GoalRoutes, AllocError>
        requires { IsSoundGraph graph.now.domains.items graph.now.edges.items }
        ensures { IfOk result (λ routes.
            IsGoalRoutesOf routes graph.now.domains.items graph.now.edges.items goal) }
    {
        let ways = ways::all_ways(alloc, graph)?;
        let ports = rows::row(alloc, graph, &ways, goal)?;
        Ok(GoalRoutes { ports })
    }

    /// The port of the router towards the goal, as `Routes::port` gives it.
    #[tactic(auto, using(crate::proofs::PortLemmas::goal_port_lowest))]
    pub fn port(&self, router: u16) -> Option<u16>
        ensures held { result ≡ port_in self.now router }

        // For the graph and the goal whose routes these are: the port, and what that means.
        ensures towards { (domains : List ℕ) (edges : List Link) (goal : Towards) → IsGoalRoutesOf self.now domains edges goal
            → result ≡ port_towards domains edges router goal }
        ensures lowest { (domains : List ℕ) (edges : List Link) (goal : Towards) → IsGoalRoutesOf self.now domains edges goal
            → IfSome result (IsLowestStep domains edges goal router) }
        ensures none { (domains : List ℕ) (edges : List Link) (goal : Towards) → IsGoalRoutesOf self.now domains edges goal
            → (IsNone result ↔ HasNoStep domains edges goal router) }
        ensures least { (domains : List ℕ) (edges : List Link) (goal : Towards) → IsGoalRoutesOf self.now domains edges goal
            → DistancesAreLeast domains edges goal }
    {
        self.ports.get(router as usize).copied().flatten()
    }
}
