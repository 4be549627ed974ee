//! What comes of an input at the host that it lets act, stops, halts or restarts.

ghost use Rattle.std.specs.Prelude.{◌≡◌, ◌<◌, ◌^◌, length, map, slice_get, option_copied, IsTrue, Ok, Some};
ghost use Rattle.aip_frame.specs.Frame.{frame_of};
ghost use Rattle.aip_host.specs.HostState.{HostState, standing_of};
ghost use Rattle.aip_rules.specs.Host.{back_up};
ghost use Rattle.aip_rules.specs.State.{frame_in};
ghost use Rattle.aip_rules.specs.Step.{can_be_put};
ghost use Rattle.aip_core.specs.Machine.{kept_sent, kept_raw, kept_heard, kept_shut_named, kept_stop, kept_halt, host_outcome, is_at_host};
ghost use Rattle.aip_core.specs.Moves.{Does, GoesOn, HostMoves, IsAnew, IsHalted, IsStopped, MovesAt};

use crate::directory::Directory;
use crate::flights::Flights;
use crate::reactions::NoReaction;
use aip_addr::Address;
use aip_event::Input;
use aip_frame::{MOST_BODY, is_frame};
use aip_host::Host;
use aip_rules::{Flight, MOST_BYTES, Reaction, StepFault};
use std::alloc::Global;

/// Whether so many bytes can be put.
pub fn can_be_put(count: usize) -> bool
    ensures { result ≡ can_be_put count }
{
    count != 0 && count <= MOST_BYTES
}

// The host sends a data frame to an address, if it is known.
fn send(
    alloc: Global,
    host: &mut Host,
    now: u64,
    to: Option<Address>,
    packet: u64,
    body: &[u8],
) -> Result<Reaction, NoReaction>
    requires soon { now < 2 ^ 48 }
    ensures does { Does (kept_sent now host.old to packet body.now) (GoesOn now) host.old result host.new }
    ensures seat { host.new.seat ≡ host.old.seat }
{
    let Some(to) = to else {
        return Err(NoReaction::Fault(StepFault::Unknown));
    };
    if packet >= 1 << 32 || body.len() > MOST_BODY {
        return Err(NoReaction::Fault(StepFault::Range));
    }
    Ok(host.send(alloc, now, to, packet as u32, body)?)
}

// The host puts bytes as they are.
fn put(alloc: Global, host: &mut Host, now: u64, bytes: &[u8]) -> Result<Reaction, NoReaction>
    requires soon { now < 2 ^ 48 }
    ensures does { Does (kept_raw now host.old bytes.now) (GoesOn now) host.old result host.new }
    ensures seat { host.new.seat ≡ host.old.seat }
{
    if !can_be_put(bytes.len()) {
        return Err(NoReaction::Fault(StepFault::Range));
    }
    Ok(host.raw(alloc, now, bytes)?)
}

// A flight arrives at the host, if it was put.
fn hear(
    alloc: Global,
    host: &mut Host,
    now: u64,
    flight: Option<&Flight>,
) -> Result<Reaction, NoReaction>
    requires soon { now < 2 ^ 48 }
    ensures does { Does (kept_heard now host.old (option_copied flight.entry)) (GoesOn now) host.old result host.new }
    ensures seat { host.new.seat ≡ host.old.seat }
{
    match flight {
        Some(flight) => Ok(host.arrive(alloc, now, flight.bytes.as_slice())?),
        None => Err(NoReaction::Fault(StepFault::NoFlight)),
    }
}

// The host signs a shut-off that names these bytes.
fn silence(
    alloc: Global,
    host: &mut Host,
    now: u64,
    bytes: &[u8],
    ttl: u64,
) -> Result<Reaction, NoReaction>
    requires soon { now < 2 ^ 48 }
    ensures does { Does (kept_shut_named now host.old (frame_of bytes.now) ttl) (GoesOn now) host.old result host.new }
    ensures seat { host.new.seat ≡ host.old.seat }
{
    if !is_frame(bytes) {
        return Err(NoReaction::Fault(StepFault::NoFlight));
    }
    if ttl >= 1 << 32 {
        return Err(NoReaction::Fault(StepFault::Range));
    }
    if !host.has_key() {
        return Err(NoReaction::Fault(StepFault::Keyless));
    }
    Ok(host.shut(alloc, now, bytes, ttl as u32)?)
}

// The host signs a shut-off of a flight, if it was put.
fn shut(
    alloc: Global,
    host: &mut Host,
    now: u64,
    flight: Option<&Flight>,
    ttl: u64,
) -> Result<Reaction, NoReaction>
    requires soon { now < 2 ^ 48 }
    ensures does { Does (kept_shut_named now host.old (frame_in (option_copied flight.entry)) ttl) (GoesOn now) host.old result host.new }
    ensures seat { host.new.seat ≡ host.old.seat }
{
    match flight {
        Some(flight) => silence(alloc, host, now, flight.bytes.as_slice(), ttl),
        None => Err(NoReaction::Fault(StepFault::NoFlight)),
    }
}

// A stop of the host's signings is armed.
fn stop(alloc: Global, host: &mut Host, call: u64, byte: u64) -> Result<Reaction, NoReaction>
    ensures does { Does (kept_stop host.old call byte) (λ reaction. IsStopped (record { call = call; byte = byte })) host.old result host.new }
    ensures seat { host.new.seat ≡ host.old.seat }
{
    if call == 0 || call > 2 || byte >= 256 {
        return Err(NoReaction::Fault(StepFault::Range));
    }
    if !host.has_key() {
        return Err(NoReaction::Fault(StepFault::Keyless));
    }
    host.stop(call as u8, byte as u8);
    Ok(Reaction::nothing(alloc))
}

// A halt of the host's guard is armed, if it has one.
fn halt(alloc: Global, host: &mut Host, call: u64, byte: u64) -> Result<Reaction, NoReaction>
    ensures does { Does (kept_halt call byte) (λ reaction. IsHalted (record { call = call; byte = byte })) host.old result host.new }
    ensures seat { host.new.seat ≡ host.old.seat }
{
    if call == 0 || call > 4 || byte >= 256 {
        return Err(NoReaction::Fault(StepFault::Range));
    }
    host.halt(call as u8, byte as u8);
    Ok(Reaction::nothing(alloc))
}

// The host starts anew.
fn restart(alloc: Global, host: &mut Host, now: u64) -> Result<Reaction, NoReaction>
    requires soon { now < 2 ^ 48 }
    ensures does { Does (Ok (back_up (standing_of host.old now))) (λ reaction. IsAnew) host.old result host.new }
    ensures seat { host.new.seat ≡ host.old.seat }
{
    Ok(host.restart(alloc, now)?)
}

// What comes of an input at the host that it names.
fn act(
    alloc: Global,
    directory: &Directory,
    flights: &Flights,
    now: u64,
    host: &mut Host,
    input: &Input,
) -> Result<Reaction, NoReaction>
    requires acts { IsTrue (is_at_host input.now) }
    requires soon { now < 2 ^ 48 }
    ensures does { Does (host_outcome directory.now flights.now now host.old input.now) (HostMoves now input.now) host.old result host.new }
    ensures seat { host.new.seat ≡ host.old.seat }
{
    match input {
        Input::Send {
            host: _,
            node,
            packet,
            body,
        } => send(
            alloc,
            host,
            now,
            directory.address_named(node),
            *packet,
            body.as_slice(),
        ),
        Input::Raw { host: _, bytes } => put(alloc, host, now, bytes.as_slice()),
        Input::Deliver { flight } => hear(alloc, host, now, flights.find(*flight as usize)),
        Input::Shutoff {
            host: _,
            flight,
            ttl,
        } => shut(alloc, host, now, flights.find(*flight as usize), *ttl),
        Input::Restart { node: _ } => restart(alloc, host, now),
        Input::Stop {
            host: _,
            call,
            byte,
        } => stop(alloc, host, *call, *byte),
        Input::Halt {
            host: _,
            call,
            byte,
        } => halt(alloc, host, *call, *byte),
        _ => unreachable!(),
    }
}

/// What comes of an input at the host that it names, which stands at this place. After a fault the hosts are as they were,
/// and after want of memory they are of no use.
pub fn act_at(
    alloc: Global,
    directory: &Directory,
    flights: &Flights,
    now: u64,
    hosts: &mut Vec<Host>,
    place: u16,
    input: &Input,
) -> Result<Reaction, NoReaction>
    requires acts { IsTrue (is_at_host input.now) }
    requires soon { now < 2 ^ 48 }
    requires there { place < length hosts.old.items }
    ensures seats { map (λ host. host.seat) hosts.new.items ≡ map (λ host. host.seat) hosts.old.items }
    ensures acts { (host : HostState) → slice_get hosts.old.items place ≡ Some host
        → Does (host_outcome directory.now flights.now now host input.now)
        (λ reaction old new. MovesAt HostState (Some place) (HostMoves now input.now reaction) old new) hosts.old.items result hosts.new.items }
{
    act(
        alloc,
        directory,
        flights,
        now,
        &mut hosts[place as usize],
        input,
    )
}
