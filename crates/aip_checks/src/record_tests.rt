//! Records and leases over a disk of which each call fails in turn, and a sink of which each put does.
use crate::tests::{KEYED, file, obey, one};
use aip_io::{MemShelf, MemSink};
use aip_top::{LeaseFault, Status};
use lease_disk::MemDisk;
use std::alloc::{AllocError, Global};
use std::test::Fail;

// How many digits of a record's line stand before the number of the leaf, in 8 digits.
const DIGITS: usize = 228;

// The line that says that e is the peer of d, up to the signature's leaf: version and kind, both ids, number and tick, and
// the key, as an independent implementation gives them.
const FRONT: &[u8] =
    b"010001fd22979883654eeff4dbd61711167a3467d700011111111111111111111111111111111111110000000000000000010000000000000064";

// Obeys the words over the topology, a disk, and a sink of which the put of this number fails.
fn obeyed(
    alloc: Global,
    line: &[&str],
    put: u64,
    disk: MemDisk,
) -> Result<(Status, MemDisk, MemSink), AllocError> {
    let mut files = Vec::new(alloc);
    files.push(file(alloc, "topo.txt", KEYED)?)?;
    let mut shelf = MemShelf::new(alloc, files, Vec::new(alloc), 64)?;
    let mut sink = MemSink::new(alloc, 8192, one(alloc, put)?, 1000)?;
    let (status, disk, _) = obey(alloc, line, &mut shelf, &mut sink, disk)?;
    Ok((status, disk, sink))
}

fn recorded(
    alloc: Global,
    put: u64,
    disk: MemDisk,
) -> Result<(Status, MemDisk, MemSink), AllocError> {
    let line = ["record", "topo.txt", "d", "peer", "e", "1", "100"];
    obeyed(alloc, &line, put, disk)
}

// A lease file of d on a disk of which the call of this number fails, counted from 1 behind the eight of the format.
fn formatted(alloc: Global, call: u64) -> Result<MemDisk, AllocError> {
    let failing = if call > 0 && call < 1000 { call + 8 } else { 0 };
    let mut disk = MemDisk::new(alloc, 100, one(alloc, failing)?)?;
    disk.reserve(100, 1000)?;
    let (_, disk, _) = obeyed(alloc, &["lease", "topo.txt", "d"], 0, disk)?;
    Ok(disk)
}

// One past the last leaf that is gone in the bytes of a lease file.
fn first_free(bytes: &[u8]) -> usize {
    match bytes.iter().skip(18).rposition(|byte| *byte != 0) {
        Some(last) => last.saturating_add(1),
        None => 0,
    }
}

// Whether a line is the whole record, signed with this leaf.
fn is_whole(line: &[u8], leaf: usize) -> bool {
    let digits = [
        b"0123456789abcdef"[leaf / 16 % 16],
        b"0123456789abcdef"[leaf % 16],
    ];
    line.len() == 4925
        && line.starts_with(FRONT)
        && line.get(DIGITS..DIGITS + 6) == Some(b"000000".as_slice())
        && line.get(DIGITS + 6..DIGITS + 8) == Some(digits.as_slice())
}

#[test]
fn a_record_is_signed_with_the_next_leaf(rt: HostRuntime) -> Result<(), Fail> {
    let alloc = rt.alloc();
    let (status, disk, sink) = recorded(alloc, 0, formatted(alloc, 0)?)?;
    assert_eq!(rt; status, Status::Done);
    assert!(rt; is_whole(sink.taken(), 0));
    let (status, disk, sink) = recorded(alloc, 0, disk)?;
    assert_eq!(rt; status, Status::Done);
    assert!(rt; is_whole(sink.taken(), 1));
    assert_eq!(rt; first_free(disk.bytes()), 2);
    Ok(())
}

#[test]
fn each_call_of_the_disk_fails_in_a_record(rt: HostRuntime) -> Result<(), Fail> {
    let alloc = rt.alloc();
    let mut faults = 0u64;
    for call in 1..40u64 {
        let (status, disk, sink) = recorded(alloc, 0, formatted(alloc, call)?)?;
        if status == Status::Done {
            assert!(rt; is_whole(sink.taken(), 0));
            faults = call - 1;
            break;
        }
        assert_eq!(rt; status, Status::DiskFault);
        assert!(rt; sink.taken().is_empty());
        let next = first_free(disk.bytes());
        let (status, _, sink) = recorded(alloc, 0, disk)?;
        assert_eq!(rt; status, Status::Done);
        assert!(rt; is_whole(sink.taken(), next));
    }
    // A sync, the length and a read to open, and a write with its sync to spend the leaf.
    assert_eq!(rt; faults, 5);
    Ok(())
}

#[test]
fn each_put_of_a_record_fails(rt: HostRuntime) -> Result<(), Fail> {
    let alloc = rt.alloc();
    let mut faults = 0u64;
    for put in 1..40u64 {
        let (status, disk, sink) = recorded(alloc, put, formatted(alloc, 0)?)?;
        if status == Status::Done {
            assert!(rt; is_whole(sink.taken(), 0));
            faults = put - 1;
            break;
        }
        assert_eq!(rt; status, Status::WriteFault);
        assert_eq!(rt; sink.taken().len() as u64, 1000 * (put - 1));
        // The leaf is gone, also where no byte was taken, and signs no second record.
        assert_eq!(rt; first_free(disk.bytes()), 1);
        let (status, _, sink) = recorded(alloc, 0, disk)?;
        assert_eq!(rt; status, Status::Done);
        assert!(rt; is_whole(sink.taken(), 1));
    }
    // 4,925 bytes go in five pieces.
    assert_eq!(rt; faults, 5);
    Ok(())
}

#[test]
fn a_lease_after_a_fault_of_the_disk(rt: HostRuntime) -> Result<(), Fail> {
    let alloc = rt.alloc();
    let mut id = [0; 16];
    id.copy_from_slice(b"\xc4\xea\x08\x21\x66\x81\xde\x1a\x49\x00\x57\x1d\xcf\x09\xe5\xf7");
    let mut opened = 0u64;
    for call in 1..9u64 {
        let mut disk = MemDisk::new(alloc, 100, one(alloc, call)?)?;
        disk.reserve(100, 1000)?;
        let (status, disk, _) = obeyed(alloc, &["lease", "topo.txt", "d"], 0, disk)?;
        assert_eq!(rt; status, Status::DiskFault);
        let open = disk.bytes().len() >= 18 && disk.bytes().first() == Some(&0xa5);
        let (status, disk, _) = obeyed(alloc, &["lease", "topo.txt", "d"], 0, disk)?;
        let already = Status::Lease(LeaseFault::Already { id, height: 5 });
        assert_eq!(rt; status, if open { already } else { Status::Done });
        assert_eq!(rt; disk.bytes().len(), 50);
        opened = opened.saturating_add(u64::from(open));
    }
    // Only a failed sync of the gate leaves it open.
    assert_eq!(rt; opened, 1);
    Ok(())
}
