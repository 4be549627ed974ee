//! The names and addresses of a topology, and where they are found.

ghost use Rattle.std.specs.Prelude.{◌≡◌, ◌<◌, ◌≤◌, ℕ, List, length, All, IfSome, IfOk, find, map, position, slice_get, option_and_then, Option};
ghost use Rattle.std.specs.Str.{bytes_eq};
ghost use Rattle.std.specs.BTreeMap.{get};
ghost use Rattle.aip_addr.specs.declared.ids.Id.{Id as Ad};
ghost use Rattle.aip_addr.specs.declared.ids.Address.{Address as Place};
ghost use Rattle.aip_addr.specs.Ids.{is_same_address};
ghost use Rattle.aip_rules.specs.Nodes.{seats_of, seat_named, seat_with_address, place_of_router, router_with_address, domain_with_ad, address_named, name_at};
ghost use Rattle.aip_rules.specs.Routes.{goal_of, goal_inside};
ghost use Rattle.aip_core.specs.Machine.{seat_place};
ghost use Rattle.aip_topo.specs.Index.{name_cmp};
ghost use Rattle.aip_core.specs.Directory.{id_cmp, address_cmp, SitsBelow};

use crate::index::places_of;
use aip_addr::{Address, Id, Name};
use aip_rules::Seat;
use aip_topo::{Domain, Router, Settings, Topology};
use domain_routes::Goal;
use std::alloc::{AllocError, Global};
use std::collections::BTreeMap;
use std::marker::Model;

/// A topology with its names and addresses. Contracts see the topology.
#[derive(Drop)]
pub struct Directory {
    topology: Topology,
    // The hosts with their ports, in the order of their lines.
    seats: Vec<Seat>,
    // The places of hosts, routers and domains, by what names them.
    host_names: BTreeMap<Name, u16>,
    host_addresses: BTreeMap<Address, u16>,
    router_names: BTreeMap<Name, u16>,
    router_addresses: BTreeMap<Address, u16>,
    domain_ads: BTreeMap<Id, u16>,
}

impl Model for Directory {
    ghost use Rattle.aip_topo.specs.declared.topology.Topology.{Topology};

    ghost Value = { Topology };

    ghost use Rattle.aip_core.specs.Directory.{FindsPlaces};

    ghost view = { λ d. d.topology };

    ghost invariant = { FindsPlaces };
}

fn names_of_hosts(alloc: Global, seats: &[Seat]) -> Result<Vec<Name>, AllocError>
    ensures { IfOk result (λ names. names.items ≡ map (λ seat. seat.name) seats.now) }
{
    seats.iter().map(|seat| seat.name).collect(alloc)
}

fn addresses_of_hosts(alloc: Global, seats: &[Seat]) -> Result<Vec<Address>, AllocError>
    ensures { IfOk result (λ addresses. addresses.items ≡ map (λ seat. seat.address) seats.now) }
{
    seats.iter().map(|seat| seat.address).collect(alloc)
}

fn names_of_routers(alloc: Global, routers: &[Router]) -> Result<Vec<Name>, AllocError>
    ensures { IfOk result (λ names. names.items ≡ map (λ router. router.name) routers.now) }
{
    routers.iter().map(|router| router.name).collect(alloc)
}

fn addresses_of_routers(alloc: Global, routers: &[Router]) -> Result<Vec<Address>, AllocError>
    ensures { IfOk result (λ addresses. addresses.items ≡ map (λ router. router.address) routers.now) }
{
    routers.iter().map(|router| router.address).collect(alloc)
}

fn ads_of_domains(alloc: Global, domains: &[Domain]) -> Result<Vec<Id>, AllocError>
    ensures { IfOk result (λ ads. ads.items ≡ map (λ domain. domain.ad) domains.now) }
{
    domains.iter().map(|domain| domain.ad).collect(alloc)
}

fn host_names(alloc: Global, seats: &[Seat]) -> Result<BTreeMap<Name, u16>, AllocError>
    requires { length seats.now ≤ 65536 }
    ensures { IfOk result (λ places. (name : List ℕ) →
        get name_cmp places name ≡ position (λ seat. bytes_eq seat.name name) seats.now) }
{
    let names = names_of_hosts(alloc, seats)?;
    places_of(alloc, &names)
}

fn host_addresses(alloc: Global, seats: &[Seat]) -> Result<BTreeMap<Address, u16>, AllocError>
    requires { length seats.now ≤ 65536 }
    ensures { IfOk result (λ places. (address : Place) →
        get address_cmp places address ≡ position (λ seat. is_same_address seat.address address) seats.now) }
{
    let addresses = addresses_of_hosts(alloc, seats)?;
    places_of(alloc, &addresses)
}

fn router_names(alloc: Global, routers: &[Router]) -> Result<BTreeMap<Name, u16>, AllocError>
    requires { length routers.now ≤ 65536 }
    ensures { IfOk result (λ places. (name : List ℕ) → get name_cmp places name ≡ place_of_router routers.now name) }
{
    let names = names_of_routers(alloc, routers)?;
    places_of(alloc, &names)
}

fn router_addresses(alloc: Global, routers: &[Router]) -> Result<BTreeMap<Address, u16>, AllocError>
    requires { length routers.now ≤ 65536 }
    ensures { IfOk result (λ places. (address : Place) →
        get address_cmp places address ≡ router_with_address routers.now address) }
{
    let addresses = addresses_of_routers(alloc, routers)?;
    places_of(alloc, &addresses)
}

fn domain_ads(alloc: Global, domains: &[Domain]) -> Result<BTreeMap<Id, u16>, AllocError>
    requires { length domains.now ≤ 65536 }
    ensures { IfOk result (λ places. (ad : Ad) → get id_cmp places ad ≡ domain_with_ad domains.now ad) }
{
    let ads = ads_of_domains(alloc, domains)?;
    places_of(alloc, &ads)
}

// The host at a place.
fn seat_at(seats: &[Seat], place: Option<u16>) -> Option<Seat>
    ensures there { (n : ℕ) → All (SitsBelow n) seats.now → IfSome result (SitsBelow n) }
    ensures found { result ≡ option_and_then (λ n. slice_get seats.now n) place }
{
    match place {
        Some(place) => seats.get(place as usize).copied(),
        None => None,
    }
}

// The router at a place.
fn router_at(routers: &[Router], place: Option<u16>) -> Option<Router>
    ensures { result ≡ option_and_then (λ n. slice_get routers.now n) place }
{
    match place {
        Some(place) => routers.get(place as usize).copied(),
        None => None,
    }
}

// The goal inside of the router's own domain: the router with the address, or the router of the host with it.
fn goal_inside(router: Option<u16>, seat: Option<Seat>) -> Option<Goal>
    ensures { result ≡ goal_inside router seat }
{
    match router {
        Some(router) => Some(Goal::Router(router)),
        None => match seat {
            Some(seat) => Some(Goal::Router(seat.router)),
            None => None,
        },
    }
}

impl Directory {
    /// The directory of a topology, whose hosts are at these ports. The only error is want of memory.
    pub fn new(alloc: Global, topology: Topology, seats: Vec<Seat>) -> Result<Directory, AllocError>
        requires domains { length topology.domains ≤ 64 }
        requires routers { length topology.routers ≤ 256 }
        requires few { length seats.items ≤ 65536 }
        requires seats { seats.items ≡ seats_of topology }
        requires seated { All (SitsBelow (length topology.routers)) seats.items }
        ensures { IfOk result (λ directory. directory ≡ topology) }
    {
        Ok(Directory {
            host_names: host_names(alloc, &seats)?,
            host_addresses: host_addresses(alloc, &seats)?,
            router_names: router_names(alloc, topology.routers.as_slice())?,
            router_addresses: router_addresses(alloc, topology.routers.as_slice())?,
            domain_ads: domain_ads(alloc, topology.domains.as_slice())?,
            topology,
            seats,
        })
    }

    /// The settings.
    pub fn settings(&self) -> Settings
        ensures { result ≡ self.now.settings }
    {
        self.topology.settings
    }

    /// The routers, by their places.
    pub fn routers(&self) -> &[Router]
        ensures routers { result.now ≡ self.now.routers }
        ensures few { length self.now.routers ≤ 256 }
    {
        self.topology.routers.as_slice()
    }

    /// The place of the host of this name.
    pub fn place_of_host(&self, name: &Name) -> Option<u16>
        ensures found { result ≡ seat_place (seats_of self.now) name.now }
        ensures there { IfSome result (λ place. place < length (seats_of self.now)) }
    {
        self.host_names.get(name).copied()
    }

    /// The host of this name.
    pub fn seat_named(&self, name: &Name) -> Option<Seat>
        ensures found { result ≡ seat_named (seats_of self.now) name.now }
        ensures there { IfSome result (λ seat. seat.router < length self.now.routers) }
    {
        seat_at(&self.seats, self.host_names.get(name).copied())
    }

    /// The host with this address.
    pub fn seat_with_address(&self, address: &Address) -> Option<Seat>
        ensures { result ≡ seat_with_address (seats_of self.now) address.now }
    {
        seat_at(&self.seats, self.host_addresses.get(address).copied())
    }

    /// The place of the router of this name.
    pub fn place_of_router(&self, name: &Name) -> Option<u16>
        ensures { result ≡ place_of_router self.now.routers name.now }
    {
        self.router_names.get(name).copied()
    }

    // The router of this name.
    fn router_found(&self, name: &Name) -> Option<Router>
        ensures { result ≡ find (λ router. bytes_eq router.name name.now) self.now.routers }
    {
        router_at(self.routers(), self.place_of_router(name))
    }

    /// The address of the host or router of this name.
    pub fn address_named(&self, name: &Name) -> Option<Address>
        ensures { result ≡ address_named self.now name.now }
    {
        match self.seat_named(name) {
            Some(seat) => Some(seat.address),
            None => match self.router_found(name) {
                Some(router) => Some(router.address),
                None => None,
            },
        }
    }

    /// The name of the router at a place.
    pub fn name_at(&self, router: u16) -> Name
        requires { router < length self.now.routers }
        ensures { result ≡ name_at self.now.routers router }
    {
        self.topology.routers.as_slice()[router as usize].name
    }

    /// The goal of an address at a router of this domain.
    pub fn goal_of(&self, own: u16, address: &Address) -> Option<Goal>
        ensures { result ≡ goal_of self.now own address.now }
    {
        match self.domain_ads.get(&address.ad).copied() {
            Some(domain) => {
                if domain == own {
                    goal_inside(
                        self.router_addresses.get(address).copied(),
                        self.seat_with_address(address),
                    )
                } else {
                    Some(Goal::Domain(domain))
                }
            }
            None => None,
        }
    }
}
