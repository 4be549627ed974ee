//! What a router does.

ghost use Rattle.std.specs.Prelude.{◌≡◌, ◌<◌, length, slice_get, IsSome, IfSome, IfOk, OnOk};
ghost use Rattle.aip_frame.specs.Frame.{frame_of};
ghost use Rattle.aip_rules.specs.Router.{is_link, proved};
ghost use Rattle.aip_core.specs.RouterMachine.{arrival_of, basis_of, kept_responded, kept_own, kept_taken, kept_at_place, after_response, after_own, after_taken, after_place};
ghost use Rattle.aip_core.specs.Wiring.{IsWiringOf};

use crate::asking::key_of;
use crate::checks::Checks;
use crate::network::Network;
use crate::passing::pass;
use aip_addr::Address;
use aip_event::{Event, Events, Reason};
use aip_frame::{Kind, hop_of, is_frame, kind_of, to_of};
use aip_rules::{Neighbour, Reaction};
use aip_topo::Router;
use std::alloc::{AllocError, Global};
use verify_packet::{Checked, check};

/// Where and when a flight arrives: a router, at its place among the routers, its port, and the time.
#[derive(Clone, Copy)]
pub struct Arrival {
    /// The router's place.
    pub place: u16,
    /// The router.
    pub own: Router,
    /// Its port.
    pub port: u64,
    /// The time.
    pub time: u64,
}

// Whether a link lies at a port.
fn is_link(neighbour: Option<Neighbour>) -> bool
    ensures { result ≡ is_link neighbour }
{
    match neighbour {
        Some(Neighbour::Link { .. }) => true,
        Some(Neighbour::Host { .. }) | None => false,
    }
}

// The router tells that a source is proved at a port, and that its domain is a wildcard there, if it is.
fn proved(
    alloc: Global,
    own: &Router,
    source: Address,
    port: u16,
    wild: bool,
) -> Result<Reaction, AllocError>
    ensures { IfOk result (λ reaction. reaction ≡ proved own.now source port wild) }
{
    let mut events = Events::new(alloc);
    events.push(Event::Proved {
        router: own.name,
        source,
        port: port.into(),
    })?;
    if wild {
        events.push(Event::Wild {
            router: own.name,
            ad: source.ad,
            port: port.into(),
        })?;
    }
    Ok(Reaction { events, put: None })
}

// What the router does with a response that it has judged.
fn respond(
    alloc: Global,
    network: &Network,
    checks: &mut Checks,
    at: &Arrival,
    verdict: Checked,
) -> Result<Reaction, AllocError>
    requires wired { IsWiringOf network.now.directory network.now.wiring }
    ensures reaction { IfOk result (λ reaction.
        reaction ≡ kept_responded (basis_of network.now checks.old at.now.time) at.now.place at.now.own verdict) }
    ensures after { OnOk result (checks.new ≡ after_response (basis_of network.now checks.old at.now.time) at.now.place verdict) }
    ensures boot { checks.new.boot ≡ checks.old.boot }
{
    match verdict {
        Checked::Proved { source, port } => {
            let link = is_link(network.wiring.neighbour(at.place, port.into()));
            let wild = checks.prove(&source, port, link, at.time)?;
            proved(alloc, &at.own, source, port, wild)
        }
        refusal => Reaction::happens(
            alloc,
            Event::Refuse {
                router: at.own.name,
                number: refusal.number(),
            },
        ),
    }
}

// A frame for the router itself.
fn take_own(
    alloc: Global,
    network: &Network,
    checks: &mut Checks,
    at: &Arrival,
    bytes: &[u8],
) -> Result<Reaction, AllocError>
    requires wired { IsWiringOf network.now.directory network.now.wiring }
    requires epochs { 0 < network.now.directory.settings.epoch }
    requires frame { IsSome (frame_of bytes.now) }
    ensures reaction { IfOk result (λ reaction. IfSome (frame_of bytes.now) (λ frame.
        reaction ≡ kept_own (basis_of network.now checks.old at.now.time) (arrival_of at.now) frame)) }
    ensures after { OnOk result (IfSome (frame_of bytes.now) (λ frame.
        checks.new ≡ after_own (basis_of network.now checks.old at.now.time) (arrival_of at.now) frame)) }
    ensures boot { checks.new.boot ≡ checks.old.boot }
{
    if !at.own.checking {
        return Reaction::dropped(alloc, at.own.name, Reason::Mine);
    }
    match kind_of(bytes) {
        Kind::Response => {
            let key = key_of(network, checks.boot(), at);
            let verdict = check(&key, at.time, bytes);
            respond(alloc, network, checks, at, verdict)
        }
        Kind::Data | Kind::Challenge | Kind::ShutOff => {
            Reaction::dropped(alloc, at.own.name, Reason::Mine)
        }
    }
}

// What happens where bytes arrive at a router.
fn take_in(
    alloc: Global,
    network: &mut Network,
    checks: &mut Checks,
    at: &Arrival,
    bytes: &[u8],
) -> Result<Reaction, AllocError>
    requires wired { IsWiringOf network.old.directory network.old.wiring }
    requires there { at.now.place < length network.old.directory.routers }
    requires epochs { 0 < network.old.directory.settings.epoch }
    ensures same { network.new ≡ network.old }
    ensures reaction { IfOk result (λ reaction.
        reaction ≡ kept_taken (basis_of network.old checks.old at.now.time) (arrival_of at.now) (frame_of bytes.now)) }
    ensures after { OnOk result (
        checks.new ≡ after_taken (basis_of network.old checks.old at.now.time) (arrival_of at.now) (frame_of bytes.now)) }
    ensures boot { checks.new.boot ≡ checks.old.boot }
{
    if !is_frame(bytes) {
        return Reaction::dropped(alloc, at.own.name, Reason::Bad);
    }
    if at.own.address == to_of(bytes) {
        return take_own(alloc, network, checks, at, bytes);
    }
    if hop_of(bytes) <= 1 {
        return Reaction::dropped(alloc, at.own.name, Reason::Hops);
    }
    pass(alloc, network, checks, at, bytes)
}

/// What happens where bytes arrive at a port of the router at a place at a time, if there is one; `checks` is what the router
/// keeps, before and after. The only error is want of memory; what the router keeps is of no use after it.
pub fn arrive(
    alloc: Global,
    network: &mut Network,
    checks: &mut Checks,
    place: u16,
    port: u64,
    now: u64,
    bytes: &[u8],
) -> Result<Reaction, AllocError>
    requires wired { IsWiringOf network.old.directory network.old.wiring }
    requires epochs { 0 < network.old.directory.settings.epoch }
    ensures same { network.new ≡ network.old }
    ensures reaction { IfOk result (λ reaction.
        reaction ≡ kept_at_place (basis_of network.old checks.old now) place (slice_get network.old.directory.routers place) port bytes.now) }
    ensures after { OnOk result (
        checks.new ≡ after_place (basis_of network.old checks.old now) place (slice_get network.old.directory.routers place) port bytes.now) }
    ensures boot { checks.new.boot ≡ checks.old.boot }
{
    match network.directory.routers().get(place as usize) {
        Some(own) => {
            let at = Arrival {
                place,
                own: *own,
                port,
                time: now,
            };
            take_in(alloc, network, checks, &at, bytes)
        }
        None => Ok(Reaction::nothing(alloc)),
    }
}
