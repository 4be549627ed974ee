//! A filter with three entries, and what its tests are made of.
ghost use Rattle.std.specs.Prelude.{◌<◌, ◌≤◌, ◌^◌};

use super::*;
use aip_addr::KeyId;
use lease_disk::MemDisk;
use std::alloc::Global;
use std::test::Fail;

// The entry of a key that is named by its bytes.
pub(crate) fn entry(key: u8) -> ShutOffEntry {
    ShutOffEntry {
        to: KeyId { bytes: [key; 19] },
        until: match key {
            1 => 20,
            2 => 30,
            _ => 10,
        },
    }
}

// An empty disk for a filter of a room, of which the call of this number fails.
pub(crate) fn new_disk(alloc: Global, room: u16, failing: u64) -> Result<MemDisk, Fail>
    requires { room ≤ 256 }
{
    let mut disk = MemDisk::new(
        alloc,
        3 + 28 * (room as usize + 1),
        [failing].to_vec(alloc)?,
    )?;
    disk.reserve(40, 1000)?;
    Ok(disk)
}

pub(crate) fn opened(alloc: Global, disk: MemDisk, room: u16) -> Result<FilterStore<MemDisk>, Fail>
    requires some { 1 ≤ room }
    requires few { room ≤ 256 }
{
    match FilterStore::open(disk, Slots::new(alloc, room)?) {
        Ok(store) => Ok(store),
        Err(_) => Err(Fail::from("a filter is opened")),
    }
}

// A new filter on a disk of which the call of this number fails.
pub(crate) fn new_filter(
    alloc: Global,
    room: u16,
    failing: u64,
) -> Result<FilterStore<MemDisk>, Fail>
    requires some { 1 ≤ room }
    requires few { room ≤ 256 }
{
    match format_store(new_disk(alloc, room, failing)?, room) {
        Ok(disk) => opened(alloc, disk, room),
        Err(_) => Err(Fail::from("a new disk is formatted")),
    }
}

// Adds an entry where a slot is spare.
pub(crate) fn added(
    store: FilterStore<MemDisk>,
    new: &ShutOffEntry,
    now: u64,
) -> Result<FilterStore<MemDisk>, KeepEnd<MemDisk>>
    requires { now < 2 ^ 48 }
{
    let store = match store.ready(now) {
        Ok(store) => store,
        Err(end) => return Err(end),
    };
    if store.spare().is_none() || new.until <= now {
        return Ok(store);
    }
    store.keep(&new.to, new.until, now)
}

// Adds the entries 3 and 1.
pub(crate) fn half_filled(
    store: FilterStore<MemDisk>,
) -> Result<FilterStore<MemDisk>, KeepEnd<MemDisk>> {
    match added(store, &entry(3), 0) {
        Ok(store) => added(store, &entry(1), 0),
        Err(end) => Err(end),
    }
}

// Adds the entries 3 and 1, and 2 once the first has lapsed.
pub(crate) fn filled(
    store: FilterStore<MemDisk>,
) -> Result<FilterStore<MemDisk>, KeepEnd<MemDisk>> {
    match half_filled(store) {
        Ok(store) => added(store, &entry(2), 10),
        Err(end) => Err(end),
    }
}

// Whether the keys in force at a time are just these, once the disk is opened again.
pub(crate) fn holds(
    alloc: Global,
    disk: MemDisk,
    room: u16,
    now: u64,
    keys: &[u8],
) -> Result<bool, Fail>
    requires some { 1 ≤ room }
    requires few { room ≤ 256 }
    requires soon { now < 2 ^ 48 }
{
    let kept = opened(alloc, disk, room)?.kept(alloc, now)?;
    Ok(
        kept.len() == keys.len()
            && kept
                .iter()
                .zip(keys)
                .all(|(found, key)| *found == entry(*key)),
    )
}

#[test]
fn a_filter_keeps_its_entries(rt: HostRuntime) -> Result<(), Fail> {
    let alloc = rt.alloc();
    for room in 1..5 {
        let store = new_filter(alloc, room, 0)?;
        assert!(rt; store.kept(alloc, 0)?.is_empty());
        let store = match filled(store) {
            Ok(store) => store,
            Err(_) => panic!(rt; "entries are added"),
        };
        let (disk, _) = store.close();
        let store = opened(alloc, disk, room)?;
        assert!(rt; store.kept(alloc, 10)?.as_slice() == [entry(1), entry(2)].as_slice());
        assert!(rt; store.kept(alloc, 20)?.as_slice() == [entry(2)].as_slice());
        assert!(rt; store.withholds(&entry(2).to, 29));
        assert!(rt; !store.withholds(&entry(2).to, 30));
        assert!(rt; store.covers(&entry(2).to, 30));
        assert!(rt; !store.covers(&entry(2).to, 31));
    }
    Ok(())
}
