//! What the router does with packets once it has accepted its sources, and the time that it takes.

ghost use Rattle.std.specs.Prelude.{◌≤◌, length};

use crate::network::{Fault, bring, deliver, network};
use crate::sources::{Source, sources, stranger};
use aip_core::Core;
use aip_event::{Cause, Event};
use std::alloc::Global;
use std::io;
use std::time::{CpuClock, Duration};

/// How many packets come, and from how many sources.
#[derive(Drop)]
pub struct Load {
    /// How many keys have sources, 32 each.
    pub keys: u32,
    /// How many packets come between two starts of the network, which takes 65,536 inputs in all.
    pub packets: u32,
    /// How often the network starts.
    pub rounds: u32,
}

/// From how many sources packets come that the router isn't told of.
const STRANGERS: u32 = 2048;

/// What the router did.
#[derive(Clone, Copy, Drop)]
struct Counts {
    forwarded: u32,
    asked: u32,
}

impl Counts {
    /// Counts the forwards of proved sources and the challenges.
    fn add(&mut self, events: &[Event]) {
        for event in events {
            match event {
                Event::Forward {
                    cause: Cause::Proved,
                    ..
                } => self.forwarded = self.forwarded.wrapping_add(1),
                Event::Ask { .. } => self.asked = self.asked.wrapping_add(1),
                _ => {}
            }
        }
    }
}

/// Brings a response to the router, by which it takes the source as proved, and no domain as a wildcard.
fn prove(alloc: Global, core: Core, response: &[u8]) -> Result<Core, Fault> {
    let (core, flight) = bring(alloc, core, response)?;
    let (core, events) = deliver(alloc, core, flight)?;
    match events.as_slice() {
        [Event::Proved { .. }] => Ok(core),
        _ => Err(Fault::Unproved),
    }
}

/// The network with the packets of the sources as its first flights, and then those of strangers. Its router has
/// accepted the sources, in their order.
fn filled(alloc: Global, sources: &[Source]) -> Result<Core, Fault> {
    let mut core = network(alloc, sources.len())?;
    for source in sources {
        core = bring(alloc, core, source.packet.as_slice())?.0;
    }
    for number in 0..STRANGERS {
        core = bring(alloc, core, stranger(alloc, number)?.as_slice())?.0;
    }
    for source in sources {
        core = prove(alloc, core, source.response.as_slice())?;
    }
    Ok(core)
}

/// The flight that comes as the k-th packet: of four packets one is of a source that was accepted, in the order in which
/// they were, one of such a source in the opposite order, and two are of strangers.
fn flight(sources: u32, k: u32) -> u32
    requires some { 1 ≤ sources }
    requires few { sources ≤ 4096 }
{
    let turn = k / 4;
    match k % 4 {
        0 => turn % sources,
        1 => sources - 1 - turn % sources,
        2 => sources + turn % (STRANGERS / 2),
        _ => sources + STRANGERS / 2 + turn % (STRANGERS / 2),
    }
}

/// Brings so many packets to the router.
fn pass(
    alloc: Global,
    filled: Core,
    sources: u32,
    packets: u32,
    counts: &mut Counts,
) -> Result<Core, Fault>
    requires some { 1 ≤ sources }
    requires few { sources ≤ 4096 }
{
    let mut core = filled;
    'packets: for k in 0..packets {
        let (next, events) = deliver(alloc, core, flight(sources, k))?;
        core = next;
        counts.add(events.as_slice());
    }
    Ok(core)
}

/// The processor time so far.
fn now(rt: &impl CpuClock) -> Result<Duration, Fault> {
    match rt.process_cpu_time() {
        Ok(time) => Ok(time),
        Err(_) => Err(Fault::Clock),
    }
}

/// The time that so many packets take at a router that has accepted the sources.
fn round(
    rt: &(impl CpuClock + Alloc<A = Global>),
    sources: &[Source],
    packets: u32,
    counts: &mut Counts,
) -> Result<Duration, Fault> {
    let count = sources.len();
    if count == 0 || count > 4096 {
        return Err(Fault::Refused);
    }
    let core = filled(rt.alloc(), sources)?;
    let start = now(rt)?;
    let _kept = pass(rt.alloc(), core, count as u32, packets, counts)?;
    Ok(now(rt)?.saturating_sub(start))
}

/// The time of all rounds.
fn rounds(
    rt: &(impl CpuClock + Alloc<A = Global>),
    sources: &[Source],
    load: &Load,
    counts: &mut Counts,
) -> Result<Duration, Fault> {
    let mut time = Duration::from_secs(0);
    'rounds: for _ in 0..load.rounds {
        time = time.saturating_add(round(rt, sources, load.packets, counts)?);
    }
    Ok(time)
}

/// Carries a load, prints what the router did, and where it is asked for, the nanoseconds that a packet took.
pub fn run(
    rt: &(impl CpuClock + Print + Alloc<A = Global>),
    load: &Load,
    timed: bool,
) -> io::Result<()> {
    let mut counts = Counts {
        forwarded: 0,
        asked: 0,
    };
    let sources = match sources(rt.alloc(), load.keys) {
        Ok(sources) => sources,
        Err(fault) => return println!(rt; "nothing is timed: {fault:?}"),
    };
    let time = match rounds(rt, &sources, load, &mut counts) {
        Ok(time) => time,
        Err(fault) => return println!(rt; "nothing is timed: {fault:?}"),
    };
    let known = sources.len();
    let Counts { forwarded, asked } = counts;
    println!(rt; "{known} sources: {forwarded} packets forwarded, {asked} asked about")?;
    if timed {
        let packets = forwarded.saturating_add(asked).max(1);
        let nanos = (time / packets).as_nanos();
        println!(rt; "{nanos} nanoseconds a packet")?;
    }
    Ok(())
}
