//! A network with a checking router at which sources of two other domains are checked, and what comes to that router.

use aip_addr::{Address, Bytes, Id, Name};
use aip_core::{Core, StepEnd};
use aip_event::{Events, Input, Target};
use aip_topo::TopoEnd;
use std::alloc::{AllocError, Global};

/// The router r has a host and two links to the router s, behind which t is. A packet of the domains of s and t that comes
/// by the second link has its way back by the first, so its source is checked. No domain has the 4,096 sources that would
/// make a wildcard.
const NODES: &str = "set threshold 4096\n\
    domain d0 id 0111111111111111111111111111111111111100\n\
    domain d1 id 0122222222222222222222222222222222222200\n\
    domain d2 id 0133333333333333333333333333333333333300\n\
    router r d0 checking 0000000000000000000000000000000000000000000000000000000000000000\n\
    router s d1 open 0000000000000000000000000000000000000000000000000000000000000000\n\
    router t d2 open 0000000000000000000000000000000000000000000000000000000000000000\n\
    host h r plain id 0144444444444444444444444444444444444400\n\
    link r s checked checked\n\
    link r s checked checked\n\
    link s t checked checked\n";

/// The port of r at which the packets come.
const PORT: u64 = 2;

/// Why nothing is timed.
#[derive(Clone, Copy, Debug, PartialEq, Eq, Drop)]
pub enum Fault {
    /// There was no memory.
    Memory,
    /// The topology or an input is refused.
    Refused,
    /// A packet of a source brought no challenge.
    Unasked,
    /// A response of a source didn't prove it.
    Unproved,
    /// The clock can't be read.
    Clock,
}

impl From<AllocError> for Fault {
    ghost use Rattle.std.specs.Prelude.{◌≡◌};
    ghost use Rattle.router_bench.specs.declared.network.Fault.TheVariants.{Memory};

    ghost from_gives = { λ _ fault. fault ≡ Memory };

    fn from(_: AllocError) -> Self {
        Fault::Memory
    }
}

/// An id that the topology spells: version 1, this byte 18 times, and interface 0.
fn spelled(byte: u8) -> Id {
    let mut bytes = [byte; 20];
    bytes[0] = 1;
    bytes[19] = 0;
    Id { bytes }
}

/// The host at r.
pub fn receiver() -> Address {
    Address {
        ad: spelled(0x11),
        eid: spelled(0x44),
    }
}

/// The address of the source of a number, in one of the two domains by turns.
pub fn source(number: u32, eid: Id) -> Address {
    let ad = if number % 2 == 0 {
        spelled(0x22)
    } else {
        spelled(0x33)
    };
    Address { ad, eid }
}

/// The network before any input, whose routers remember so many sources.
pub fn network(alloc: Global, sources: usize) -> Result<Core, Fault> {
    let text = format!(in alloc; "set cache {sources}\n{NODES}")?;
    match aip_topo::read(alloc, text.as_bytes()) {
        Ok(topology) => Ok(Core::new(alloc, topology)?),
        Err(TopoEnd::Line { .. }) => Err(Fault::Refused),
        Err(TopoEnd::Memory) => Err(Fault::Memory),
    }
}

/// Takes an input.
fn step(alloc: Global, core: Core, input: Input) -> Result<(Core, Events), Fault> {
    match core.step(alloc, input) {
        Ok(taken) => Ok(taken),
        Err(StepEnd::Refused { .. }) => Err(Fault::Refused),
        Err(StepEnd::Memory) => Err(Fault::Memory),
    }
}

/// Puts a flight with these bytes on its way to r, without delivering it. It gives the number of the flight.
pub fn bring(alloc: Global, core: Core, bytes: &[u8]) -> Result<(Core, u32), Fault> {
    let Some(router) = Name::read(b"r") else {
        return Err(Fault::Refused);
    };
    let target = Target::Port { router, port: PORT };
    let bytes = Bytes::from_slice(alloc, bytes)?;
    let flight = core.flights();
    let (core, _) = step(alloc, core, Input::Inject { target, bytes })?;
    Ok((core, flight))
}

/// Delivers a flight.
pub fn deliver(alloc: Global, core: Core, flight: u32) -> Result<(Core, Events), Fault> {
    let flight = u64::from(flight);
    step(alloc, core, Input::Deliver { flight })
}
