//! A filter of each room from 1 to 4, over each device call that fails, and over stops.
ghost use Rattle.std.specs.Prelude.{◌≤◌};

use super::*;
use crate::store_tests::{added, entry, filled, half_filled, holds, new_disk, new_filter, opened};
use lease_disk::MemDisk;
use std::alloc::Global;
use std::test::Fail;

// The bytes that a stop leaves: the one that opens a gate, and others.
const FILLS: [u8; 4] = [0, 1, 165, 255];

// Whether a format is done, or was already where it was to be, and the filter is empty then.
fn is_formatted(alloc: Global, disk: MemDisk, room: u16, already: bool) -> Result<bool, Fail>
    requires some { 1 ≤ room }
    requires few { room ≤ 256 }
{
    match format_store(disk, room) {
        Ok(disk) => Ok(!already && holds(alloc, disk, room, 0, &[])?),
        Err(StoreFormatEnd::Already { disk, room: named }) => {
            Ok(already && named == room && holds(alloc, disk, room, 0, &[])?)
        }
        Err(StoreFormatEnd::Failed { .. }) => Ok(false),
    }
}

#[test]
fn a_format_that_fails_is_done_again(rt: HostRuntime) -> Result<(), Fail> {
    let alloc = rt.alloc();
    for room in 1..5 {
        for call in 1..9 {
            match format_store(new_disk(alloc, room, call)?, room) {
                Err(StoreFormatEnd::Failed { disk }) => {
                    assert!(rt; is_formatted(alloc, disk, room, call == 8)?);
                }
                _ => panic!(rt; "call {call} fails"),
            }
        }
    }
    Ok(())
}

#[test]
fn a_format_that_stops_is_done_again(rt: HostRuntime) -> Result<(), Fail> {
    let alloc = rt.alloc();
    for room in 1..5 {
        for call in 1..5 {
            for fill in FILLS {
                let mut disk = new_disk(alloc, room, 0)?;
                disk.stop_at(call, fill);
                match format_store(disk, room) {
                    Err(StoreFormatEnd::Failed { disk }) => {
                        assert!(rt; is_formatted(alloc, disk.restart(), room, false)?);
                    }
                    _ => panic!(rt; "the disk stops"),
                }
            }
        }
    }
    Ok(())
}

// The disk of a filter whose opening fails.
fn unopened(alloc: Global, disk: MemDisk, room: u16) -> Result<MemDisk, Fail>
    requires some { 1 ≤ room }
    requires few { room ≤ 256 }
{
    match FilterStore::open(disk, Slots::new(alloc, room)?) {
        Err(StoreEnd::Failed { disk, .. }) => Ok(disk),
        _ => Err(Fail::from("an opening fails")),
    }
}

// The disk of a filter with its three entries, of which the call of this number fails.
fn filled_disk(alloc: Global, room: u16, failing: u64) -> Result<MemDisk, Fail>
    requires some { 1 ≤ room }
    requires few { room ≤ 256 }
{
    match filled(new_filter(alloc, room, failing)?) {
        Ok(store) => {
            let (disk, _) = store.close();
            Ok(disk)
        }
        Err(_) => Err(Fail::from("entries are added")),
    }
}

// The format makes 8 calls, the opening 3, the entries 4, 4 and 6.
#[test]
fn an_opening_that_fails_is_done_again(rt: HostRuntime) -> Result<(), Fail> {
    let alloc = rt.alloc();
    for room in 1..5 {
        for call in 26..29 {
            let disk = unopened(alloc, filled_disk(alloc, room, call)?, room)?;
            assert!(rt; holds(alloc, disk, room, 10, &[1, 2])?);
        }
        for fill in FILLS {
            let mut disk = filled_disk(alloc, room, 0)?;
            disk.stop_at(1, fill);
            let disk = unopened(alloc, disk, room)?;
            assert!(rt; holds(alloc, disk.restart(), room, 10, &[1, 2])?);
        }
    }
    Ok(())
}

// The keys in force at tick 0, and at tick 10, after a call of the entries failed. A gate that was written stays.
fn keys_after(call: u64) -> (&'static [u8], &'static [u8]) {
    match call {
        0..=14 => (&[], &[]),
        15..=18 => (&[3], &[]),
        19..=20 => (&[1, 3], &[1]),
        21..=24 => (&[1], &[1]),
        _ => (&[1, 2], &[1, 2]),
    }
}

// The disk of a filter whose entries aren't all added, since a call fails.
fn failed(alloc: Global, room: u16, failing: u64) -> Result<MemDisk, Fail>
    requires some { 1 ≤ room }
    requires few { room ≤ 256 }
{
    match filled(new_filter(alloc, room, failing)?) {
        Err(end) => Ok(end.disk),
        Ok(_) => Err(Fail::from("a call fails")),
    }
}

#[test]
fn a_call_that_fails_leaves_each_entry_that_was_written(rt: HostRuntime) -> Result<(), Fail> {
    let alloc = rt.alloc();
    for room in 1..5 {
        for call in 12..26 {
            let (early, late) = keys_after(call);
            assert!(rt; holds(alloc, failed(alloc, room, call)?, room, 0, early)?);
            assert!(rt; holds(alloc, failed(alloc, room, call)?, room, 10, late)?);
        }
    }
    Ok(())
}

// The disk after a stop at a call of the entry 1, which takes the second slot.
fn stopped_keep(alloc: Global, room: u16, call: u8, fill: u8) -> Result<MemDisk, Fail>
    requires some { 1 ≤ room }
    requires few { room ≤ 256 }
    requires first { 1 ≤ call }
    requires last { call ≤ 4 }
{
    let mut store = match added(new_filter(alloc, room, 0)?, &entry(3), 0) {
        Ok(store) => store,
        Err(_) => return Err(Fail::from("an entry is added")),
    };
    store.reserve(6, 29)?;
    store.stop_at(call, fill);
    match added(store, &entry(1), 0) {
        Err(end) => Ok(end.disk.restart()),
        Ok(_) => Err(Fail::from("the disk stops")),
    }
}

#[test]
fn a_stop_adds_an_entry_where_its_byte_opens_the_gate(rt: HostRuntime) -> Result<(), Fail> {
    let alloc = rt.alloc();
    for room in 1..5 {
        for call in 1..5 {
            for fill in FILLS {
                let keys: &[u8] = if call >= 3 && fill == 165 {
                    &[1, 3]
                } else {
                    &[3]
                };
                let disk = stopped_keep(alloc, room, call, fill)?;
                assert!(rt; holds(alloc, disk, room, 0, keys)?);
            }
        }
    }
    Ok(())
}

// The disk after a stop at a call in which the slot of the entry 3 is closed, which has lapsed.
fn stopped_ready(alloc: Global, room: u16, call: u8, fill: u8) -> Result<MemDisk, Fail>
    requires some { 1 ≤ room }
    requires few { room ≤ 256 }
    requires first { 1 ≤ call }
    requires last { call ≤ 2 }
{
    let mut store = match half_filled(new_filter(alloc, room, 0)?) {
        Ok(store) => store,
        Err(_) => return Err(Fail::from("entries are added")),
    };
    store.stop_at(call, fill);
    match store.ready(10) {
        Err(end) => Ok(end.disk.restart()),
        Ok(_) => Err(Fail::from("the disk stops")),
    }
}

#[test]
fn a_stop_opens_at_most_the_slot_of_a_lapsed_entry(rt: HostRuntime) -> Result<(), Fail> {
    let alloc = rt.alloc();
    for room in 1..5 {
        for call in 1..3 {
            for fill in FILLS {
                let keys: &[u8] = if fill == 165 { &[1, 3] } else { &[1] };
                let early = stopped_ready(alloc, room, call, fill)?;
                assert!(rt; holds(alloc, early, room, 0, keys)?);
                let late = stopped_ready(alloc, room, call, fill)?;
                assert!(rt; holds(alloc, late, room, 10, &[1])?);
            }
        }
    }
    Ok(())
}
