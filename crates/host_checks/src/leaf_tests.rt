//! A host whose signings are stopped at each of its leaves.
ghost use Rattle.std.specs.Prelude.{◌≤◌};

use crate::host_tests::{HOST_B, PACKET, drop_in, host, leaf_in, seed, stop_in};
use aip_event::Reason;
use aip_frame::is_frame;
use aip_host::Host;
use aip_rules::Reaction;
use std::alloc::Global;
use std::process::Abort;
use std::test::Fail;

// Host b, with its 32 leaves.
fn host_b(alloc: Global) -> Result<Host, Fail> {
    let tree = seed(alloc, 2)?;
    host(alloc, b"b", HOST_B, Some(tree), 128, None)
}

// What host b does that is to sign a shut-off.
fn shut(alloc: Global, host: &mut Host) -> Result<Reaction, Fail> {
    if !host.has_key() || !is_frame(&PACKET) {
        return Err(Fail::from("a key and a frame"));
    }
    let reaction = host.shut(alloc, 0, &PACKET, 10)?;
    Ok(reaction)
}

// The leaf that signs now, once the host was started anew.
fn signed(alloc: Global, host: &mut Host) -> Result<Option<u64>, Fail> {
    host.restart(alloc, 0)?;
    let reaction = shut(alloc, host)?;
    Ok(leaf_in(&reaction))
}

// The leaf at which a stop falls now.
fn stopped(alloc: Global, host: &mut Host, call: u8, byte: u8) -> Result<Option<u64>, Fail>
    requires first { 1 ≤ call }
    requires last { call ≤ 2 }
{
    if !host.has_key() {
        return Err(Fail::from("a key"));
    }
    host.stop(call, byte);
    let reaction = shut(alloc, host)?;
    Ok(stop_in(&reaction))
}

// Why the host signs no more.
fn unsigned(alloc: Global, host: &mut Host) -> Result<Option<Reason>, Fail> {
    let reaction = shut(alloc, host)?;
    Ok(drop_in(&reaction))
}

// A stop at the first call or at the second, by turns.
fn call_at(leaf: u64) -> u8
    ensures first { 1 ≤ result }
    ensures last { result ≤ 2 }
{
    if leaf % 2 == 0 { 1 } else { 2 }
}

// Where the stop leaves 0, its leaf signs once the host is up again, and never another time.
fn signs_once(rt: &impl Abort, alloc: Global, host: &mut Host) -> Result<(), Fail> {
    let mut spent: Vec<u64> = Vec::new(alloc);
    for leaf in 0..32u64 {
        assert_eq!(rt; stopped(alloc, host, call_at(leaf), 0)?, Some(leaf));
        assert_eq!(rt; unsigned(alloc, host)?, Some(Reason::Down));
        let leaf = signed(alloc, host)?.ok_or("a signature")?;
        assert!(rt; !spent.contains(&leaf));
        spent.push(leaf)?;
    }
    assert_eq!(rt; spent.len(), 32);
    assert_eq!(rt; unsigned(alloc, host)?, Some(Reason::Dry));
    Ok(())
}

#[test]
fn each_leaf_is_stopped_and_signs_once(rt: HostRuntime) -> Result<(), Fail> {
    let mut host = host_b(rt.alloc())?;
    signs_once(&rt, rt.alloc(), &mut host)
}

// Where the stop leaves another byte, its leaf never signs: 16 are stopped so, and the 16 others sign.
fn never_signs_what_a_stop_spent(
    rt: &impl Abort,
    alloc: Global,
    host: &mut Host,
) -> Result<(), Fail> {
    for turn in 0..16u64 {
        let leaf = 2 * turn;
        assert_eq!(rt; stopped(alloc, host, call_at(turn), 1)?, Some(leaf));
        assert_eq!(rt; signed(alloc, host)?, Some(leaf + 1));
    }
    assert_eq!(rt; unsigned(alloc, host)?, Some(Reason::Dry));
    Ok(())
}

#[test]
fn a_leaf_that_a_stop_spent_never_signs(rt: HostRuntime) -> Result<(), Fail> {
    let mut host = host_b(rt.alloc())?;
    never_signs_what_a_stop_spent(&rt, rt.alloc(), &mut host)
}
