use super::*;
use lease_disk::{Disk, FileDisk, MemDisk};
use std::alloc::{AllocError, Global};
use std::fs;
use std::test::Fail;

const ID: [u8; 16] = [7; 16];

// The disk after a format, however it ended.
fn after_format<D: Disk>(disk: D) -> D {
    match format(disk, ID, 5) {
        Ok(disk) => disk,
        Err(FormatEnd::Already { disk, .. }) => disk,
        Err(FormatEnd::Failed { disk }) => disk,
    }
}

// The disk after a leaf was leased, the leaf that was next, and the one that was handed out.
fn after_lease<D: Disk>(disk: D) -> (D, Option<u32>, Option<u32>) {
    let leases = match open(disk, ID, 5) {
        Ok(leases) => leases,
        Err(OpenEnd::Failed { disk }) => return (disk, None, None),
        Err(OpenEnd::Unformatted { disk, .. }) => return (disk, None, None),
        Err(OpenEnd::OtherKey { disk, .. }) => return (disk, None, None),
    };
    let next = leases.next();
    match leases.lease() {
        Ok((leases, lease)) => (leases.close(), Some(next), Some(lease.spend())),
        Err(LeaseEnd::Dry { leases }) => (leases.close(), Some(next), None),
        Err(LeaseEnd::Failed { disk }) => (disk, Some(next), None),
    }
}

#[test]
fn each_leaf_is_leased_once(rt: HostRuntime) -> Result<(), Fail> {
    let alloc = rt.alloc();
    let mut disk = MemDisk::new(alloc, 64, Vec::new(alloc))?;
    disk.reserve(80, 200)?;
    let mut disk = after_format(disk);
    assert_eq!(rt; disk.bytes().len(), 50);
    for leaf in 0..32 {
        let (later, next, given) = after_lease(disk);
        assert_eq!(rt; next, Some(leaf));
        assert_eq!(rt; given, Some(leaf));
        disk = later;
    }
    let (disk, next, given) = after_lease(disk);
    assert_eq!(rt; next, Some(32));
    assert_eq!(rt; given, None);
    assert_eq!(rt; disk.bytes().last().copied(), Some(1));
    Ok(())
}

#[test]
fn a_call_that_fails_frees_no_leaf(rt: HostRuntime) -> Result<(), Fail> {
    let alloc = rt.alloc();
    for call in 1..26 {
        let mut disk = MemDisk::new(alloc, 64, [call].to_vec(alloc)?)?;
        disk.reserve(40, 300)?;
        let mut disk = after_format(after_format(disk));
        let mut gone = 0;
        for _ in 0..3 {
            let (later, next, given) = after_lease(disk);
            assert!(rt;
                next.unwrap_or(gone) >= gone,
                "a leaf is free again after call {call}"
            );
            if let Some(leaf) = given {
                gone = leaf;
            }
            disk = later;
        }
        assert!(rt; gone > 0, "leaves are leased though call {call} fails");
    }
    Ok(())
}

// The leases of a fresh file on a disk in memory, once the first leaf is gone.
fn once_leased(alloc: Global) -> Result<Option<Leases<MemDisk>>, AllocError> {
    let mut disk = MemDisk::new(alloc, 50, Vec::new(alloc))?;
    disk.reserve(10, 54)?;
    let leases = match open(after_format(disk), ID, 5) {
        Ok(leases) => leases,
        Err(_) => return Ok(None),
    };
    match leases.lease() {
        Ok((leases, lease)) => {
            lease.waste();
            Ok(Some(leases))
        }
        Err(_) => Ok(None),
    }
}

#[test]
fn a_stop_leaves_its_byte(rt: HostRuntime) -> Result<(), Fail> {
    let alloc = rt.alloc();
    for fill in [0, 1, 165, 255] {
        for call in 1..3 {
            let mut leases = once_leased(alloc)?.ok_or("no leaf is leased")?;
            leases.stop_at(call, fill);
            match leases.lease() {
                Err(LeaseEnd::Failed { disk }) => {
                    let disk = disk.restart();
                    assert_eq!(rt; disk.bytes().get(18).copied(), Some(1));
                    assert_eq!(rt; disk.bytes().get(19).copied(), Some(fill));
                    assert_eq!(rt; disk.bytes().len(), 50);
                    let (_, next, given) = after_lease(disk);
                    assert_eq!(rt; next, Some(if fill == 0 { 1 } else { 2 }));
                    assert_eq!(rt; given, next);
                }
                _ => panic!(rt; "the lease is stopped"),
            }
        }
    }
    Ok(())
}

#[test]
fn a_file_keeps_its_leases(rt: HostRuntime) -> Result<(), Fail> {
    let alloc = rt.alloc();
    let path = "leaf_lease_test";
    let disk = FileDisk::new(&rt, format!(in alloc; "{path}")?);
    let (_, next, given) = after_lease(after_format(disk));
    assert_eq!(rt; next, Some(0));
    assert_eq!(rt; given, Some(0));
    let disk = FileDisk::new(&rt, format!(in alloc; "{path}")?);
    match format(disk, ID, 10) {
        Err(FormatEnd::Already { disk, id, height }) => {
            assert_eq!(rt; id.as_slice(), ID.as_slice());
            assert_eq!(rt; height, 5);
            let (_, next, _) = after_lease(disk);
            assert_eq!(rt; next, Some(1));
        }
        _ => panic!(rt; "a file is formatted twice"),
    }
    fs::remove_file(&rt, path)?;
    Ok(())
}

#[test]
fn a_file_that_is_not_the_keys_is_refused(rt: HostRuntime) -> Result<(), Fail> {
    let alloc = rt.alloc();
    let disk = MemDisk::new(alloc, 64, Vec::new(alloc))?;
    let disk = match open(disk, ID, 5) {
        Err(OpenEnd::Unformatted { disk, length, gate }) => {
            assert_eq!(rt; length, 0);
            assert_eq!(rt; gate, 0);
            disk
        }
        _ => panic!(rt; "an empty file is opened"),
    };
    match open(after_format(disk), [8; 16], 5) {
        Err(
            OpenEnd::OtherKey {
                disk: _,
                id,
                height,
            },
        ) => {
            assert_eq!(rt; id.as_slice(), ID.as_slice());
            assert_eq!(rt; height, 5);
        }
        _ => panic!(rt; "another key's file is opened"),
    }
    Ok(())
}

#[test]
fn place_is_reserved(rt: HostRuntime) -> Result<(), Fail> {
    let alloc = rt.alloc();
    let disk = MemDisk::new(alloc, 64, Vec::new(alloc))?;
    let leases = match open(after_format(disk), ID, 5) {
        Ok(leases) => leases,
        Err(_) => panic!(rt; "a fresh file is refused"),
    };
    let (mut leases, lease) = match leases.lease() {
        Ok(given) => given,
        Err(_) => panic!(rt; "no first leaf is leased"),
    };
    assert_eq!(rt; lease.id().as_slice(), ID.as_slice());
    assert_eq!(rt; lease.waste(), 0);
    leases.reserve(2, 1)?;
    match leases.lease() {
        Ok((_, lease)) => {
            assert_eq!(rt; lease.leaf(), 1);
            assert_eq!(rt; lease.waste(), 1);
        }
        Err(_) => panic!(rt; "no second leaf is leased"),
    }
    Ok(())
}
