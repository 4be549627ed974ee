//! Random stops, halts and restarts of three guarded hosts, each step against a plain count.
ghost use Rattle.std.specs.Prelude.{◌≡◌, ◌<◌, ◌≤◌, IfOk};
ghost use Rattle.aip_topo.specs.Sound.{IsSound};

use crate::count::{Counts, NAMES, Told, Totals, in_force, place_of, sender_of};
use aip_addr::{Bytes, Name};
use aip_core::Core;
use aip_event::{Event, Events, Input};
use aip_topo::{Topology, read};
use rand_core::{Rng, SeedableRng};
use rand_xoshiro::Xoshiro256PlusPlus;
use std::alloc::Global;
use std::test::Fail;

// One open router, and three guarded hosts with a key each.
const TOPOLOGY: &[u8] =
    b"domain d id 0111111111111111111111111111111111111100\nrouter r d open 0000000000000000000000000000000000000000000000000000000000000000\nhost a r guarded seed W4 H5 0 0101010101010101010101010101010101010101010101010101010101010101\nhost b r guarded seed W4 H5 0 0202020202020202020202020202020202020202020202020202020202020202\nhost c r guarded seed W4 H5 0 0303030303030303030303030303030303030303030303030303030303030303\n";

// What is drawn, what was counted, and the last flight in which each host sent a packet to each.
#[derive(Drop)]
struct Draws {
    rng: Xoshiro256PlusPlus,
    counts: Counts,
    packets: [Option<u64>; 9],
}

fn topology(alloc: Global) -> Result<Topology, Fail>
    ensures { IfOk result IsSound }
{
    match read(alloc, TOPOLOGY) {
        Ok(topology) => Ok(topology),
        Err(_) => Err(Fail::from("a topology")),
    }
}

// A number below another.
fn below(rng: &mut Xoshiro256PlusPlus, most: u64) -> u64
    requires { 1 ≤ most }
    ensures { result < most }
{
    rng.next_u64() % most
}

// The place of a host.
fn place(rng: &mut Xoshiro256PlusPlus) -> usize
    ensures { result < 3 }
{
    below(rng, 3) as usize
}

fn name(place: usize) -> Result<Name, Fail>
    requires { place < 3 }
{
    let name = Name::read(&NAMES[place]).ok_or("a name")?;
    Ok(name)
}

// Takes an input.
fn taken(alloc: Global, core: Core, input: Input) -> Result<(Core, Events), Fail> {
    match core.step(alloc, input) {
        Ok(taken) => Ok(taken),
        Err(_) => Err(Fail::from("an input that is taken")),
    }
}

// Counts all events, and gives the flight that was put.
fn counted(counts: &mut Counts, now: u64, events: &Events) -> Result<Option<u64>, Fail> {
    let mut put = None;
    for event in events.as_slice() {
        if !counts.agree(now, event) {
            return Err(Fail::from("events as they are counted"));
        }
        if let Event::Put { flight, .. } = event {
            put = Some(*flight);
        }
    }
    Ok(put)
}

// Takes an input, and gives the flight that was put.
fn step(
    alloc: Global,
    core: Core,
    counts: &mut Counts,
    input: Input,
) -> Result<(Core, Option<u64>), Fail> {
    let (core, events) = taken(alloc, core, input)?;
    let put = counted(counts, core.now(), &events)?;
    Ok((core, put))
}

// A host sends a packet to another.
fn send(alloc: Global, core: Core, draws: &mut Draws) -> Result<Core, Fail> {
    let from = place(&mut draws.rng);
    let to = place(&mut draws.rng);
    let input = Input::Send {
        host: name(from)?,
        node: name(to)?,
        packet: 1,
        body: Bytes::from_slice(alloc, &[0])?,
    };
    let (core, put) = step(alloc, core, &mut draws.counts, input)?;
    if put.is_some() {
        draws.packets[3 * from + to] = put;
    }
    Ok(core)
}

// A flight crosses the router, and reaches its host.
fn cross(alloc: Global, core: Core, counts: &mut Counts, flight: u64) -> Result<Core, Fail> {
    let (core, put) = step(alloc, core, counts, Input::Deliver { flight })?;
    let flight = put.ok_or("a forward")?;
    let (core, _) = step(alloc, core, counts, Input::Deliver { flight })?;
    Ok(core)
}

// A host names a packet that another sent to it, if there is one, and its shut-off reaches that.
fn shut(alloc: Global, core: Core, draws: &mut Draws) -> Result<Core, Fail> {
    let from = place(&mut draws.rng);
    let to = place(&mut draws.rng);
    let ttl = 1 + below(&mut draws.rng, 30);
    let Some(flight) = draws.packets[3 * to + from] else {
        return Ok(core);
    };
    let host = name(from)?;
    let (core, put) = step(
        alloc,
        core,
        &mut draws.counts,
        Input::Shutoff { host, flight, ttl },
    )?;
    match put {
        Some(flight) => cross(alloc, core, &mut draws.counts, flight),
        None => Ok(core),
    }
}

// A byte that a stop or a halt leaves.
fn left(rng: &mut Xoshiro256PlusPlus) -> u64 {
    match below(rng, 4) {
        0 => 0,
        1 => 1,
        2 => 165,
        _ => 255,
    }
}

// A stop of the signings of a host is armed, or a halt of its guard.
fn arm(alloc: Global, core: Core, draws: &mut Draws, halts: bool) -> Result<Core, Fail> {
    let at = place(&mut draws.rng);
    let call = 1 + below(&mut draws.rng, if halts { 4 } else { 2 });
    let byte = left(&mut draws.rng);
    let host = name(at)?;
    let input = if halts {
        Input::Halt { host, call, byte }
    } else {
        Input::Stop { host, call, byte }
    };
    let (core, _) = step(alloc, core, &mut draws.counts, input)?;
    if halts {
        draws.counts.hosts[at].halt = Some((call, byte));
    } else {
        draws.counts.hosts[at].stop = Some((call, byte));
    }
    Ok(core)
}

// What the host at a place tells, and it alone.
fn told_in(alloc: Global, events: &Events, at: usize) -> Result<Vec<Told>, Fail> {
    let mut told = Vec::new(alloc);
    for event in events.as_slice() {
        match event {
            Event::Kept {
                host,
                sender,
                until,
            } if place_of(host) == Some(at) => {
                let sender = sender_of(sender).ok_or("a host")?;
                told.push(Told {
                    sender,
                    until: *until,
                })?;
            }
            _ => return Err(Fail::from("what is kept, alone")),
        }
    }
    Ok(told)
}

// A host starts anew, and tells what it kept.
fn restart(alloc: Global, core: Core, draws: &mut Draws) -> Result<Core, Fail> {
    let at = place(&mut draws.rng);
    let node = name(at)?;
    let (core, events) = taken(alloc, core, Input::Restart { node })?;
    let told = told_in(alloc, &events, at)?;
    let due = in_force(alloc, &draws.counts.hosts[at], core.now())?;
    if told.as_slice() != due.as_slice() {
        return Err(Fail::from("what is kept, as it is counted"));
    }
    draws.counts.rise(at);
    let totals = &mut draws.counts.totals;
    totals.kept = totals.kept.saturating_add(told.len() as u64);
    Ok(core)
}

// Time passes.
fn wait(alloc: Global, core: Core, draws: &mut Draws) -> Result<Core, Fail> {
    let ticks = 1 + below(&mut draws.rng, 8);
    let (core, _) = step(alloc, core, &mut draws.counts, Input::Tick { ticks })?;
    Ok(core)
}

// One turn of a schedule.
fn turn(alloc: Global, core: Core, draws: &mut Draws) -> Result<Core, Fail> {
    match below(&mut draws.rng, 12) {
        0..=2 => send(alloc, core, draws),
        3..=6 => shut(alloc, core, draws),
        7 => arm(alloc, core, draws, false),
        8 => arm(alloc, core, draws, true),
        9 | 10 => restart(alloc, core, draws),
        _ => wait(alloc, core, draws),
    }
}

// Runs the schedule of a seed, of so many turns, and gives what happened.
fn run(alloc: Global, seed: u64, turns: u32) -> Result<Totals, Fail> {
    let mut draws = Draws {
        rng: Xoshiro256PlusPlus::seed_from_u64(seed),
        counts: Counts::new(),
        packets: [None; 9],
    };
    let mut core = Core::new(alloc, topology(alloc)?)?;
    for _ in 0..turns {
        core = turn(alloc, core, &mut draws)?;
    }
    Ok(draws.counts.totals)
}

// Runs the schedules of the seeds from one on and below another, and gives what happened in all.
fn run_all(alloc: Global, first: u64, past: u64) -> Result<Totals, Fail> {
    let mut totals = Totals::new();
    for seed in first..past {
        totals = totals.and(&run(alloc, seed, 80)?);
    }
    Ok(totals)
}

// Whether there are as many signatures as schedules, and half as many stops, halts and shut-offs that are kept.
fn is_much(totals: &Totals, schedules: u64) -> bool {
    let half = schedules / 2;
    totals.signed >= schedules
        && totals.stopped >= half
        && totals.halted >= half
        && totals.kept >= half
}

#[test]
fn schedules_0_to_29_are_as_they_are_counted(rt: HostRuntime) -> Result<(), Fail> {
    let totals = run_all(rt.alloc(), 0, 30)?;
    assert!(rt;
        is_much(&totals, 30),
        "{} {} {} {}",
        totals.signed,
        totals.stopped,
        totals.halted,
        totals.kept
    );
    Ok(())
}

#[test]
fn schedules_30_to_59_are_as_they_are_counted(rt: HostRuntime) -> Result<(), Fail> {
    let totals = run_all(rt.alloc(), 30, 60)?;
    assert!(rt;
        is_much(&totals, 30),
        "{} {} {} {}",
        totals.signed,
        totals.stopped,
        totals.halted,
        totals.kept
    );
    Ok(())
}
