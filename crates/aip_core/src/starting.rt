//! The hosts of a topology before any input.

ghost use Rattle.std.specs.Prelude.{◌≡◌, ◌<◌, ◌≤◌, ◌+◌, ◌∷◌, [], ℕ, List, length, All, IfOk, OnOk};
ghost use Rattle.aip_event.specs.declared.input.Target.TheVariants as target;
ghost use Rattle.aip_topo.specs.declared.topology.HostPart.{HostPart as HostLine};
ghost use Rattle.aip_topo.specs.declared.topology.Part.{Part as Line};
ghost use Rattle.aip_rules.specs.Nodes.{made_key, name_at};
ghost use Rattle.aip_core.specs.Directory.{SitsBelow};
ghost use Rattle.aip_core.specs.Starting.{AreBegun, AreNewHosts, IsNewHost, hosts_on};

use aip_event::Target;
use aip_host::Host;
use aip_rules::Seat;
use aip_topo::{HostPart, Key, Part, Router, Settings};
use lms_core::Tree;
use std::alloc::{AllocError, Global};

// The host's port of its router.
fn towards(routers: &[Router], seat: &Seat) -> Target
    requires { seat.now.router < length routers.now }
    ensures { result ≡ target.Port (name_at routers.now seat.now.router) seat.now.port }
{
    Target::Port {
        router: routers[seat.router as usize].name,
        port: seat.port.into(),
    }
}

// A private key that was made, once more.
fn private(alloc: Global, key: &Key) -> Result<Option<Tree>, AllocError>
    ensures { IfOk result (λ tree. tree ≡ made_key key.now) }
{
    match key {
        Key::Given => Ok(None),
        Key::Made(tree) => Ok(Some(tree.try_clone(alloc)?)),
    }
}

// The host of a line at its seat that has done nothing yet.
fn new_host(
    alloc: Global,
    settings: &Settings,
    routers: &[Router],
    seat: Seat,
    line: &HostPart,
) -> Result<Host, AllocError>
    requires log { 1 ≤ settings.now.log }
    requires some { 1 ≤ settings.now.filter }
    requires few { settings.now.filter ≤ 256 }
    requires there { seat.router < length routers.now }
    ensures { IfOk result (IsNewHost settings.now routers.now seat line.now) }
{
    let key = private(alloc, &line.key)?;
    Host::new(
        alloc,
        seat,
        towards(routers, &seat),
        settings,
        key,
        line.guarded,
    )
}

// Adds the host of a line, if it is one.
fn add_host(
    alloc: Global,
    settings: &Settings,
    routers: &[Router],
    seats: &[Seat],
    part: &Part,
    hosts: &mut Vec<Host>,
) -> Result<(), AllocError>
    requires log { 1 ≤ settings.now.log }
    requires some { 1 ≤ settings.now.filter }
    requires few { settings.now.filter ≤ 256 }
    requires seated { All (SitsBelow (length routers.now)) seats.now }
    requires room { length hosts.old.items + length (hosts_on (part.now ∷ [])) ≤ length seats.now }
    ensures { OnOk result ((lines : List HostLine) (rest : List Line) →
        AreBegun settings.now routers.now seats.now lines (part.now ∷ rest) hosts.old.items
        → AreBegun settings.now routers.now seats.now lines rest hosts.new.items) }
{
    match part {
        Part::Host(host) => {
            let seat = seats[hosts.len()];
            hosts.push(new_host(alloc, settings, routers, seat, host)?)?;
            Ok(())
        }
        Part::Link(_) => Ok(()),
    }
}

/// The hosts of these lines, each new at its seat. The only error is want of memory.
pub fn hosts_of(
    alloc: Global,
    settings: &Settings,
    routers: &[Router],
    seats: &[Seat],
    parts: &[Part],
) -> Result<Vec<Host>, AllocError>
    requires log { 1 ≤ settings.now.log }
    requires some { 1 ≤ settings.now.filter }
    requires few { settings.now.filter ≤ 256 }
    requires seated { All (SitsBelow (length routers.now)) seats.now }
    requires each { length seats.now ≡ length (hosts_on parts.now) }
    ensures count { IfOk result (λ hosts. length hosts.items ≡ length seats.now) }
    ensures new { IfOk result (λ hosts. AreNewHosts settings.now routers.now seats.now (hosts_on parts.now) hosts.items) }
{
    let mut hosts = Vec::new(alloc);
    'parts: for part in parts {
        add_host(alloc, settings, routers, seats, part, &mut hosts)?;
    }
    Ok(hosts)
}
