//! A record that another implementation signed, each refusal in its turn, and the order of the list.
use super::*;
use aip_addr::{Bytes, Id};
use lms_core::{Height, Tree, Width, signature_len};
use sha2::{Digest, Sha256};
use std::alloc::Global;
use std::test::Fail;

// The SHA-256 of the record in which domain d says that e is its peer, with number 1 until tick 100, signed with leaf 0.
const PEERING_DIGEST: [u8; 32] = *b"\
    \xfd\x2f\x66\xa1\x1f\xb9\x7e\xa0\x1c\xe5\xf1\x2f\x04\xb9\xb8\x12\x00\x48\xdc\x1c\x67\x1c\x2e\xb3\x8c\xde\xf6\x7f\x39\xc4\xda\xe0";

// The AD of domain d, whose seed is 32 bytes 0x31.
const AD: Id = Id {
    bytes: *b"\x01\xfd\x22\x97\x98\x83\x65\x4e\xef\xf4\xdb\xd6\x17\x11\x16\x7a\x34\x67\xd7\x00",
};

// The AD of domain e.
const PEER: Id = Id {
    bytes: *b"\x01\x11\x11\x11\x11\x11\x11\x11\x11\x11\x11\x11\x11\x11\x11\x11\x11\x11\x11\x00",
};

// Another id, which is after e's.
const OTHER: Id = Id {
    bytes: *b"\x01\x55\x55\x55\x55\x55\x55\x55\x55\x55\x55\x55\x55\x55\x55\x55\x55\x55\x55\x00",
};

fn domain(alloc: Global) -> Result<Tree, Fail> {
    Ok(Tree::build(alloc, &[0x31; 32], Width::W4, Height::H5)?)
}

// A record of domain d, signed with a leaf.
fn signed(alloc: Global, tree: &Tree, leaf: u32, fields: &Record) -> Result<Bytes, Fail> {
    if leaf >= 32 {
        return Err(Fail::from("a leaf of the tree"));
    }
    let mut signature = vec![in alloc; 0; signature_len(tree.width(), tree.height())]?;
    tree.sign(leaf, &record_text(fields), &mut signature);
    Ok(record_bytes(alloc, fields, &tree.public(), &signature)?)
}

fn saying(kind: RecordKind, other: Id, number: u64) -> Record {
    Record {
        kind,
        ad: AD,
        other,
        number,
        until: 100,
    }
}

// What is said of bytes with another byte at a place.
fn altered(
    registry: &mut Registry,
    alloc: Global,
    bytes: &[u8],
    place: usize,
    byte: u8,
) -> Result<Published, Fail> {
    let mut other = Vec::from_slice(alloc, bytes)?;
    if let Some(old) = other.get_mut(place) {
        *old = byte;
    }
    Ok(registry.publish(&other)?)
}

// What is said of the first bytes of a record.
fn shortened(
    registry: &mut Registry,
    alloc: Global,
    bytes: &[u8],
    length: usize,
) -> Result<Published, Fail> {
    let mut cut = Vec::from_slice(alloc, bytes)?;
    cut.truncate(length);
    Ok(registry.publish(&cut)?)
}

#[test]
fn a_peering_is_kept_once(rt: HostRuntime) -> Result<(), Fail> {
    let alloc = rt.alloc();
    let tree = domain(alloc)?;
    let bytes = signed(alloc, &tree, 0, &saying(RecordKind::Peer, PEER, 1))?;
    assert_eq!(rt; bytes.as_slice().len(), 2462);
    assert!(rt; Sha256::digest(bytes.as_slice()) == PEERING_DIGEST);
    assert_eq!(rt; signer_of(bytes.as_slice()), Some(AD));
    assert_eq!(rt;
        read_record(bytes.as_slice()),
        Some(saying(RecordKind::Peer, PEER, 1))
    );
    let mut registry = Registry::new(alloc);
    assert_eq!(rt; registry.until(RecordKind::Peer, &AD, &PEER), None);
    assert_eq!(rt; registry.publish(bytes.as_slice())?, Published::Ok);
    assert_eq!(rt;
        registry.publish(bytes.as_slice())?,
        Published::Old { kept: 1 }
    );
    assert_eq!(rt; registry.until(RecordKind::Peer, &AD, &PEER), Some(100));
    assert_eq!(rt; registry.until(RecordKind::Bind, &AD, &PEER), None);
    assert_eq!(rt; registry.until(RecordKind::Peer, &PEER, &AD), None);
    Ok(())
}

#[test]
fn each_refusal_comes_in_its_turn(rt: HostRuntime) -> Result<(), Fail> {
    let alloc = rt.alloc();
    let tree = domain(alloc)?;
    let bytes = signed(alloc, &tree, 0, &saying(RecordKind::Peer, PEER, 1))?;
    let mut registry = Registry::new(alloc);
    let rows: [(usize, u8, Published); 8] = [
        (0, 2, Published::Body),
        (1, 2, Published::Body),
        (1, 1, Published::Signature),
        (3, 0x55, Published::Key),
        (23, 0x55, Published::Signature),
        (57, 101, Published::Signature),
        (113, 0, Published::Key),
        (2461, 0, Published::Signature),
    ];
    for (place, byte, said) in rows {
        assert_eq!(rt;
            altered(&mut registry, alloc, bytes.as_slice(), place, byte)?,
            said
        );
    }
    assert_eq!(rt;
        shortened(&mut registry, alloc, bytes.as_slice(), 113)?,
        Published::Body
    );
    assert_eq!(rt;
        shortened(&mut registry, alloc, bytes.as_slice(), 114)?,
        Published::Signature
    );
    assert_eq!(rt; registry.publish(b"")?.number(), 1);
    assert_eq!(rt; signer_of(b""), None);
    assert_eq!(rt; registry.list(alloc)?.len(), 0);
    Ok(())
}

#[test]
fn the_newest_are_listed_in_order(rt: HostRuntime) -> Result<(), Fail> {
    let alloc = rt.alloc();
    let tree = domain(alloc)?;
    let mut registry = Registry::new(alloc);
    let rows: [(RecordKind, Id, u64, Published); 6] = [
        (RecordKind::Bind, PEER, 9, Published::Ok),
        (RecordKind::Peer, OTHER, 7, Published::Ok),
        (RecordKind::Peer, PEER, 3, Published::Ok),
        (RecordKind::Peer, OTHER, 6, Published::Old { kept: 7 }),
        (RecordKind::Peer, OTHER, 8, Published::Ok),
        (RecordKind::Bind, PEER, 9, Published::Old { kept: 9 }),
    ];
    for (kind, other, number, said) in rows {
        let bytes = signed(alloc, &tree, 0, &saying(kind, other, number))?;
        assert_eq!(rt; registry.publish(bytes.as_slice())?, said);
    }
    let list = registry.list(alloc)?;
    let expected = [
        saying(RecordKind::Peer, PEER, 3),
        saying(RecordKind::Peer, OTHER, 8),
        saying(RecordKind::Bind, PEER, 9),
    ];
    assert!(rt; list.as_slice() == expected.as_slice());
    Ok(())
}
