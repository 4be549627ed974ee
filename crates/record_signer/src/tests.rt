//! Records that are signed on disks in memory, and what a file or a failing disk makes of them.
use super::*;
use aip_addr::Id;
use aip_registry::{Record, RecordKind};
use leaf_lease::{FormatEnd, format};
use lease_disk::{Disk, MemDisk};
use lms_core::{Height, Tree, Width};
use sha2::{Digest, Sha256};
use std::alloc::{AllocError, Global};
use std::test::Fail;

// The SHA-256 of the line of hex in which domain d says that e is its peer, with number 1 until tick 100, signed with leaf 0.
const PEERING_DIGEST: [u8; 32] = *b"\
    \xe0\x06\x06\xbd\x91\x6b\xe4\xa9\xcf\x2e\xd5\x23\xc1\x30\x09\x2f\x94\x9a\xe4\x12\x46\xee\x6b\x9e\x38\x34\x8d\x50\xb7\xd2\xf2\x5d";

// What domain d, whose seed is 32 bytes 0x31, says of domain e.
const PEERING: Record = Record {
    kind: RecordKind::Peer,
    ad: Id {
        bytes: *b"\x01\xfd\x22\x97\x98\x83\x65\x4e\xef\xf4\xdb\xd6\x17\x11\x16\x7a\x34\x67\xd7\x00",
    },
    other: Id {
        bytes: *b"\x01\x11\x11\x11\x11\x11\x11\x11\x11\x11\x11\x11\x11\x11\x11\x11\x11\x11\x11\x00",
    },
    number: 1,
    until: 100,
};

fn tree_of(alloc: Global) -> Result<Tree, AllocError> {
    Tree::build(alloc, &[0x31; 32], Width::W4, Height::H5)
}

// A disk that is formatted for the tree, by eight calls, of which none is listed as failing.
fn formatted<D: Disk>(disk: D, tree: &Tree) -> D {
    match format(disk, tree.id(), 5) {
        Ok(disk) => disk,
        Err(FormatEnd::Already { disk, .. }) => disk,
        Err(FormatEnd::Failed { disk }) => disk,
    }
}

#[test]
fn a_record_is_a_line_of_hex(rt: HostRuntime) -> Result<(), Fail> {
    let alloc = rt.alloc();
    let disk = formatted(MemDisk::new(alloc, 50, Vec::new(alloc))?, &tree_of(alloc)?);
    let (signed, disk) = sign_record(alloc, disk, tree_of(alloc)?, &PEERING);
    let line = signed?;
    assert_eq!(rt; line.as_slice().len(), 4925);
    assert!(rt; Sha256::digest(line.as_slice()) == PEERING_DIGEST);
    assert_eq!(rt; disk.bytes().get(18).copied(), Some(1));
    assert_eq!(rt; disk.bytes().get(19).copied(), Some(0));
    Ok(())
}

#[test]
fn a_file_of_no_key_is_told(rt: HostRuntime) -> Result<(), Fail> {
    let alloc = rt.alloc();
    let disk = MemDisk::new(alloc, 50, Vec::new(alloc))?;
    let (signed, disk) = sign_record(alloc, disk, tree_of(alloc)?, &PEERING);
    let unformatted = SigningFault::Unformatted { length: 0, gate: 0 };
    assert_eq!(rt; signed.err(), Some(unformatted));
    assert!(rt; disk.bytes().is_empty());
    let disk = MemDisk::new(alloc, 50, vec![in alloc; 9]?)?;
    let disk = formatted(disk, &tree_of(alloc)?);
    let (signed, _) = sign_record(alloc, disk, tree_of(alloc)?, &PEERING);
    assert_eq!(rt; signed.err(), Some(SigningFault::Disk));
    Ok(())
}
