//! Guards that obey orders, and guards whose disk halts.
ghost use Rattle.std.specs.Prelude.{◌≡◌, ◌<◌, ◌≤◌, ◌^◌};

use aip_addr::KeyId;
use aip_host::{Guard, Obeying};
use shutoff_filter::ShutOffEntry;
use std::alloc::{AllocError, Global};
use std::process::Abort;
use std::test::Fail;

fn entry(of: u8, until: u64) -> ShutOffEntry {
    ShutOffEntry {
        to: KeyId { bytes: [of; 19] },
        until,
    }
}

// What a guard that is up keeps.
fn kept(alloc: Global, guard: &Guard, now: u64) -> Result<Vec<ShutOffEntry>, AllocError>
    requires soon { now < 2 ^ 48 }
{
    if guard.is_down() {
        return Ok(Vec::new(alloc));
    }
    guard.kept(alloc, now)
}

// How an order ends, where the guard is up and has room for it.
#[tactic(auto, using(crate::proofs::Few::others_few))]
fn obeyed(
    alloc: Global,
    guard: &mut Guard,
    room: u16,
    order: &ShutOffEntry,
    now: u64,
) -> Result<Option<Obeying>, AllocError>
    requires soon { now < 2 ^ 48 }
    requires room { guard.old.room ≡ room }
    ensures room { guard.new.room ≡ room }
{
    if guard.is_down() || order.until <= now {
        return Ok(None);
    }
    let count = guard.kept(alloc, now)?.len();
    if count >= room as usize {
        return Ok(None);
    }
    Ok(Some(guard.obey(&order.to, order.until, now)?))
}

// Whether a guard that is up keeps this entry alone.
fn keeps(alloc: Global, guard: &Guard, entry: &ShutOffEntry, now: u64) -> Result<bool, AllocError>
    requires soon { now < 2 ^ 48 }
{
    let entries = kept(alloc, guard, now)?;
    Ok(entries.as_slice() == [*entry].as_slice())
}

// A guard with room for one entry.
fn takes_another(rt: &impl Abort, alloc: Global, guard: &mut Guard) -> Result<(), Fail>
    requires room { guard.old.room ≡ 1 }
{
    assert_eq!(rt;
        obeyed(alloc, guard, 1, &entry(7, 10), 0)?,
        Some(Obeying::Obeyed)
    );
    assert_eq!(rt; obeyed(alloc, guard, 1, &entry(8, 20), 9)?, None);
    assert_eq!(rt;
        obeyed(alloc, guard, 1, &entry(8, 20), 10)?,
        Some(Obeying::Obeyed)
    );
    guard.restart();
    assert!(rt; keeps(alloc, guard, &entry(8, 20), 10)?);
    assert!(rt; kept(alloc, guard, 20)?.is_empty());
    Ok(())
}

#[test]
fn a_guard_of_one_takes_another_once_the_first_lapsed(rt: HostRuntime) -> Result<(), Fail> {
    let mut guard = Guard::new(rt.alloc(), 1)?;
    takes_another(&rt, rt.alloc(), &mut guard)
}

// Whether a guard of two obeys a first order, and a halt falls while it writes a second.
fn falls(alloc: Global, guard: &mut Guard, call: u8, byte: u8) -> Result<bool, AllocError>
    requires first { 1 ≤ call }
    requires last { call ≤ 4 }
    requires room { guard.old.room ≡ 2 }
{
    let first = obeyed(alloc, guard, 2, &entry(8, 10), 0)?;
    guard.halt(call, byte);
    let second = obeyed(alloc, guard, 2, &entry(7, 20), 0)?;
    let halted = Some(Obeying::Halted { call, byte });
    Ok(first == Some(Obeying::Obeyed) && second == halted && guard.is_down())
}

// What a guard of two keeps once it is restarted: it obeys a first order, and a halt falls while it writes a second.
fn kept_past(alloc: Global, call: u8, byte: u8) -> Result<Vec<ShutOffEntry>, Fail>
    requires first { 1 ≤ call }
    requires last { call ≤ 4 }
{
    let mut guard = Guard::new(alloc, 2)?;
    if !falls(alloc, &mut guard, call, byte)? {
        return Err(Fail::from("the first is obeyed, and the second halted"));
    }
    guard.halt(call, byte);
    guard.restart();
    Ok(kept(alloc, &guard, 0)?)
}

// Whether it keeps these entries.
fn is_kept_past(alloc: Global, call: u8, byte: u8, left: &[ShutOffEntry]) -> Result<bool, Fail>
    requires first { 1 ≤ call }
    requires last { call ≤ 4 }
{
    let entries = kept_past(alloc, call, byte)?;
    Ok(entries.as_slice() == left)
}

#[test]
fn a_halt_leaves_the_entry_where_it_opens_its_gate(rt: HostRuntime) -> Result<(), Fail> {
    let alloc = rt.alloc();
    let both = [entry(7, 20), entry(8, 10)];
    let first = [entry(8, 10)];
    for byte in [0, 1, 165, 255] {
        for call in 1..5 {
            let left = if call > 2 && byte == 165 {
                both.as_slice()
            } else {
                first.as_slice()
            };
            let is_left = is_kept_past(alloc, call, byte, left)?;
            assert!(rt; is_left, "call {call}, byte {byte}");
        }
    }
    Ok(())
}

// A guard with room for two entries.
fn leaves_the_halt_armed(rt: &impl Abort, alloc: Global, guard: &mut Guard) -> Result<(), Fail>
    requires room { guard.old.room ≡ 2 }
{
    assert_eq!(rt;
        obeyed(alloc, guard, 2, &entry(7, 10), 0)?,
        Some(Obeying::Obeyed)
    );
    guard.halt(4, 9);
    guard.halt(1, 0);
    assert_eq!(rt;
        obeyed(alloc, guard, 2, &entry(7, 10), 3)?,
        Some(Obeying::Obeyed)
    );
    assert_eq!(rt;
        obeyed(alloc, guard, 2, &entry(7, 9), 3)?,
        Some(Obeying::Obeyed)
    );
    let end = Obeying::Halted { call: 1, byte: 0 };
    assert_eq!(rt; obeyed(alloc, guard, 2, &entry(7, 11), 3)?, Some(end));
    assert_eq!(rt; obeyed(alloc, guard, 2, &entry(7, 11), 3)?, None);
    guard.restart();
    assert!(rt; keeps(alloc, guard, &entry(7, 10), 0)?);
    assert_eq!(rt;
        obeyed(alloc, guard, 2, &entry(7, 11), 3)?,
        Some(Obeying::Obeyed)
    );
    assert!(rt; keeps(alloc, guard, &entry(7, 11), 10)?);
    Ok(())
}

#[test]
fn a_covered_order_leaves_the_halt_armed(rt: HostRuntime) -> Result<(), Fail> {
    let mut guard = Guard::new(rt.alloc(), 2)?;
    leaves_the_halt_armed(&rt, rt.alloc(), &mut guard)
}
