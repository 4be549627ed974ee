use super::*;
use std::test::Fail;

/// A link between port `a_port` of `a` and port `b_port` of `b`.
fn link(a: u16, a_port: u16, b: u16, b_port: u16, up: bool) -> Edge {
    Edge {
        a,
        a_port,
        b,
        b_port,
        up,
    }
}

fn routes(alloc: Global, domains: &[u16], edges: &[Edge]) -> Result<Routes, Fail> {
    let graph = Graph {
        domains: Vec::from_slice(alloc, domains)?,
        edges: Vec::from_slice(alloc, edges)?,
    };
    if !graph.is_sound() {
        return Err("a link joins no routers".into());
    }
    Ok(Routes::compute(alloc, &graph)?)
}

#[test]
fn line(rt: HostRuntime) -> Result<(), Fail> {
    let edges = [
        link(0, 1, 1, 1, true),
        link(1, 2, 2, 1, true),
        link(2, 2, 3, 1, true),
    ];
    let table = routes(rt.alloc(), &[0, 1, 2, 3], &edges)?;
    assert_eq!(rt; table.port(0, Goal::Router(3)), Some(1));
    assert_eq!(rt; table.port(1, Goal::Router(3)), Some(2));
    assert_eq!(rt; table.port(2, Goal::Domain(3)), Some(2));
    assert_eq!(rt; table.port(3, Goal::Domain(0)), Some(1));
    assert_eq!(rt; table.port(3, Goal::Router(3)), None);
    Ok(())
}

#[test]
fn ring_with_two_shortest_ways(rt: HostRuntime) -> Result<(), Fail> {
    let edges = [
        link(0, 7, 1, 1, true),
        link(1, 2, 2, 9, true),
        link(2, 8, 3, 1, true),
        link(3, 2, 0, 4, true),
    ];
    let table = routes(rt.alloc(), &[0, 1, 2, 3], &edges)?;
    assert_eq!(rt; table.port(0, Goal::Router(2)), Some(4));
    assert_eq!(rt; table.port(2, Goal::Router(0)), Some(8));
    assert_eq!(rt; table.port(0, Goal::Router(1)), Some(7));
    Ok(())
}

#[test]
fn parallel_links_with_one_cut(rt: HostRuntime) -> Result<(), Fail> {
    let edges = [
        link(0, 6, 1, 1, true),
        link(0, 1, 1, 2, false),
        link(0, 5, 1, 3, true),
    ];
    let table = routes(rt.alloc(), &[0, 1], &edges)?;
    assert_eq!(rt; table.port(0, Goal::Domain(1)), Some(5));
    assert_eq!(rt; table.port(1, Goal::Domain(0)), Some(1));
    Ok(())
}

#[test]
fn domain_of_several_routers_and_an_island(rt: HostRuntime) -> Result<(), Fail> {
    // 0 - 1 - 2 - 3, where 0 and 3 are of domain 5; 4 has only a link that is down.
    let edges = [
        link(0, 1, 1, 1, true),
        link(1, 2, 2, 1, true),
        link(2, 2, 3, 1, true),
        link(3, 2, 4, 1, false),
    ];
    let table = routes(rt.alloc(), &[5, 1, 2, 5, 7], &edges)?;
    assert_eq!(rt; table.port(1, Goal::Domain(5)), Some(1));
    assert_eq!(rt; table.port(2, Goal::Domain(5)), Some(2));
    assert_eq!(rt; table.port(3, Goal::Domain(5)), None);
    assert_eq!(rt; table.port(3, Goal::Domain(7)), None);
    assert_eq!(rt; table.port(4, Goal::Router(0)), None);
    assert_eq!(rt; table.port(1, Goal::Domain(6)), None);
    assert_eq!(rt; table.port(1, Goal::Domain(9)), None);
    assert_eq!(rt; table.port(1, Goal::Router(5)), None);
    Ok(())
}
