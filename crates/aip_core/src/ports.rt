//! The ports of a router: the one towards an address, and what a frame goes towards that is put on one.

ghost use Rattle.std.specs.Prelude.{◌≡◌, ◌<◌, length, IfSome, IfOk};
ghost use Rattle.aip_rules.specs.Nodes.{target_at, target_towards};
ghost use Rattle.aip_rules.specs.Routes.{goal_of, port_of_seat, port_to_goal, port_over};
ghost use Rattle.aip_core.specs.Wiring.{IsWiringOf, LeadsBelow};

use crate::directory::Directory;
use crate::network::Network;
use crate::router::Arrival;
use crate::wiring::Wiring;
use aip_addr::Address;
use aip_event::Target;
use aip_rules::{Neighbour, Seat};
use std::alloc::{AllocError, Global};

// The port of a host that stands at this router.
fn port_of_seat(router: u16, seat: Option<Seat>) -> Option<u16>
    ensures { result ≡ port_of_seat router seat }
{
    match seat {
        Some(seat) => {
            if seat.router == router {
                Some(seat.port)
            } else {
                None
            }
        }
        None => None,
    }
}

// The port towards the goal of an address.
fn port_to_goal(
    alloc: Global,
    directory: &Directory,
    wiring: &mut Wiring,
    at: &Arrival,
    address: &Address,
) -> Result<Option<u16>, AllocError>
    requires { IsWiringOf directory.now wiring.old }
    ensures same { wiring.new ≡ wiring.old }
    ensures port { IfOk result (λ port. port ≡ port_to_goal directory.now wiring.old.links at.now.place (goal_of directory.now at.now.own.domain address.now)) }
{
    match directory.goal_of(at.own.domain, address) {
        Some(goal) => wiring.port_towards(alloc, at.place, goal),
        None => Ok(None),
    }
}

/// The port of the router that a flight reached towards an address, over the links as they are. The only error is want of memory.
pub fn port_over(
    alloc: Global,
    network: &mut Network,
    at: &Arrival,
    address: &Address,
) -> Result<Option<u16>, AllocError>
    requires { IsWiringOf network.old.directory network.old.wiring }
    ensures same { network.new ≡ network.old }
    ensures port { IfOk result (λ port. port ≡ port_over network.old.directory network.old.wiring.links at.now.place at.now.own address.now) }
{
    if at.own.address == *address {
        return Ok(None);
    }
    match port_of_seat(at.place, network.directory.seat_with_address(address)) {
        Some(port) => Ok(Some(port)),
        None => port_to_goal(alloc, &network.directory, &mut network.wiring, at, address),
    }
}

// What a frame goes towards that is put towards what lies at a port of the router.
fn towards(directory: &Directory, neighbour: Option<Neighbour>, router: u16, port: u16) -> Target
    requires there { router < length directory.now.routers }
    requires leads { IfSome neighbour (LeadsBelow (length directory.now.routers)) }
    ensures { result ≡ target_towards directory.now.routers neighbour router port }
{
    let Some(neighbour) = neighbour else {
        return Target::Port {
            router: directory.name_at(router),
            port: port.into(),
        };
    };
    match neighbour {
        Neighbour::Host { name } => Target::Host { name },
        Neighbour::Link {
            router: other,
            port: far,
            marked: _,
        } => Target::Port {
            router: directory.name_at(other),
            port: far.into(),
        },
    }
}

/// What a frame goes towards that the router puts on a port.
pub fn target_at(network: &Network, router: u16, port: u16) -> Target
    requires wired { IsWiringOf network.now.directory network.now.wiring }
    requires there { router < length network.now.directory.routers }
    ensures { result ≡ target_at network.now.directory router port }
{
    towards(
        &network.directory,
        network.wiring.neighbour(router, port.into()),
        router,
        port,
    )
}
