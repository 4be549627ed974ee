//! The distance of each router to a goal, found breadth first: level by level, from the goal outwards.

ghost use Rattle.std.specs.Prelude.{◌≡◌, ◌+◌, ◌<◌, ◌≤◌, true, false, All, length, IfOk};
ghost use Rattle.domain_routes.specs.Walks.{JoinsRouters, takes_in};
ghost use Rattle.domain_routes.specs.Levels.{AreDistances, AreWays, IsLevelZero, level_if, Reaches, Spreads, unset};

use crate::{Goal, Graph, Way};
use std::alloc::{AllocError, Global};

/// Level 0 for a router that is in the goal, by its number and its domain.
fn first_level(goal: Goal, router: usize, domain: u16) -> Option<u16>
    ensures { result ≡ level_if (takes_in goal router (Some domain)) }
{
    let is_in_goal = match goal {
        Goal::Domain(wanted) => domain == wanted,
        Goal::Router(wanted) => router == wanted as usize,
    };
    if is_in_goal { Some(0) } else { None }
}

/// Level 0, which is the goal's routers; no other router has a level yet.
fn level_zero(alloc: Global, domains: &[u16], goal: Goal) -> Result<Vec<Option<u16>>, AllocError>
    ensures { IfOk result (λ levels. IsLevelZero domains.now goal levels.items) }
{
    let mut levels = Vec::new(alloc);
    for (router, domain) in domains.iter().enumerate() {
        levels.push(first_level(goal, router, *domain))?;
    }
    Ok(levels)
}

/// Gives the next level to each neighbour that has none yet, and says whether there was one.
fn reach(ways: &[Way], next: u16, levels: &mut [Option<u16>]) -> bool
    requires { All (λ w. w.neighbour < length levels.old) ways.now }
    ensures reaches { Reaches ways.now next levels.old levels.new }
    ensures same { result ≡ false → levels.new ≡ levels.old }
    ensures fewer { result ≡ true → unset levels.new < unset levels.old }
{
    let mut found = false;
    for way in ways {
        let place = way.neighbour as usize;
        if levels[place].is_none() {
            levels[place] = Some(next);
            found = true;
        }
    }
    found
}

/// Gives the level after `level` to the neighbours of its routers that have none yet, and says whether there was one.
fn spread(graph: &Graph, ways: &[Vec<Way>], level: u16, levels: &mut [Option<u16>]) -> bool
    requires room { level ≤ 256 }
    requires edges { All (JoinsRouters graph.now.domains.items) graph.now.edges.items }
    requires ways { AreWays graph.now.domains.items graph.now.edges.items ways.now }
    requires count { length levels.old ≡ length graph.now.domains.items }
    ensures spreads { Spreads graph.now.edges.items level (length levels.old) levels.old levels.new }
    ensures same { result ≡ false → levels.new ≡ levels.old }
    ensures fewer { result ≡ true → unset levels.new < unset levels.old }
{
    let mut found = false;
    for router in 0..levels.len() {
        if levels[router] == Some(level) {
            found |= reach(&ways[router], level + 1, levels);
        }
    }
    found
}

/// The distance of each router to the goal.
pub(crate) fn distances(
    alloc: Global,
    graph: &Graph,
    ways: &[Vec<Way>],
    goal: Goal,
) -> Result<Vec<Option<u16>>, AllocError>
    requires routers { length graph.now.domains.items ≤ 256 }
    requires edges { All (JoinsRouters graph.now.domains.items) graph.now.edges.items }
    requires ways { AreWays graph.now.domains.items graph.now.edges.items ways.now }
    ensures { IfOk result (λ found.
        AreDistances graph.now.domains.items graph.now.edges.items goal found.items) }
{
    let mut levels = level_zero(alloc, &graph.domains, goal)?;
    let mut level = 0;
    'levels: while spread(graph, ways, level, &mut levels) {
        level += 1;
    }
    Ok(levels)
}
