//! Routes, computed for the goal that is asked for and kept by their goals.

ghost use Rattle.std.specs.Prelude.{◌≡◌, ◌<◌, ℕ, List, Option, length, IfOk};
ghost use Rattle.domain_routes.specs.declared.Goal.{Goal as Towards};
ghost use Rattle.domain_routes.specs.declared.GoalRoutes.{GoalRoutes as Held};
ghost use Rattle.domain_routes.specs.declared.Edge.{Edge as Wire};
ghost use Rattle.domain_routes.specs.Rows.{IsGoalRoutesOf};
ghost use Rattle.domain_routes.specs.Walks.{IsSoundGraph, port_towards};
ghost use Rattle.aip_core.specs.Routes.{AreKept, AreRoutesOver};

use domain_routes::{Goal, GoalRoutes, Graph};
use std::alloc::{AllocError, Global};

/// The routes that were asked for, by the numbers of their goals.
#[derive(Drop)]
pub struct Routes {
    pub to_domains: Vec<Option<GoalRoutes>>,
    pub to_routers: Vec<Option<GoalRoutes>>,
}

// Makes place for a number, with nothing kept there.
#[tactic(auto, using(crate::proofs::Slots::kept_longer))]
fn make_place(slots: &mut Vec<Option<GoalRoutes>>, number: usize) -> Result<(), AllocError>
    ensures kept { (domains : List ℕ) (edges : List Wire) (kind : ℕ → Towards) →
        AreKept domains edges kind slots.old.items → AreKept domains edges kind slots.new.items }
    ensures there { IfOk result (λ done. number < length slots.new.items) }
{
    'places: while slots.len() <= number {
        slots.push(None)?;
    }
    Ok(())
}

// The port of a router by the routes that are kept at a number, once they are computed.
#[tactic(auto, using(crate::proofs::Slots::kept_set))]
fn port_by(
    slots: &mut Vec<Option<GoalRoutes>>,
    alloc: Global,
    graph: &Graph,
    goal: Goal,
    number: u16,
    router: u16,
) -> Result<Option<u16>, AllocError>
    requires { IsSoundGraph graph.now.domains.items graph.now.edges.items }
    ensures kept { (kind : ℕ → Towards) → kind number ≡ goal
        → AreKept graph.now.domains.items graph.now.edges.items kind slots.old.items
        → AreKept graph.now.domains.items graph.now.edges.items kind slots.new.items }
    ensures port { (kind : ℕ → Towards) → kind number ≡ goal
        → AreKept graph.now.domains.items graph.now.edges.items kind slots.old.items
        → IfOk result (λ port. port ≡ port_towards graph.now.domains.items graph.now.edges.items router goal) }
{
    if let Some(Some(routes)) = slots.get(number as usize) {
        return Ok(routes.port(router));
    }
    let routes = GoalRoutes::compute(alloc, graph, goal)?;
    let port = routes.port(router);
    make_place(slots, number as usize)?;
    slots[number as usize] = Some(routes);
    Ok(port)
}

impl Routes {
    /// No routes are kept.
    pub fn new(alloc: Global) -> Routes
        ensures { (domains : List ℕ) (edges : List Wire) → AreRoutesOver domains edges result }
    {
        Routes {
            to_domains: Vec::new(alloc),
            to_routers: Vec::new(alloc),
        }
    }

    /// The port of a router towards a goal, by the routes that are kept, or else by those that are computed now and kept.
    /// The only error is want of memory.
    pub fn port(
        &mut self,
        alloc: Global,
        graph: &Graph,
        router: u16,
        goal: Goal,
    ) -> Result<Option<u16>, AllocError>
        requires sound { IsSoundGraph graph.now.domains.items graph.now.edges.items }
        requires over { AreRoutesOver graph.now.domains.items graph.now.edges.items self.old }
        ensures over { AreRoutesOver graph.now.domains.items graph.now.edges.items self.new }
        ensures port { IfOk result (λ port. port ≡ port_towards graph.now.domains.items graph.now.edges.items router goal) }
    {
        match goal {
            Goal::Domain(number) => {
                port_by(&mut self.to_domains, alloc, graph, goal, number, router)
            }
            Goal::Router(number) => {
                port_by(&mut self.to_routers, alloc, graph, goal, number, router)
            }
        }
    }
}
