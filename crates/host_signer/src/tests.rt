//! Signers on disks in memory, in step with outside vectors, and on disks that fail.
use crate::{SignEnd, Signer, SignerEnd};
use leaf_lease::{FormatEnd, OpenEnd, format};
use lease_disk::{Disk, FileDisk, MemDisk};
use lms_core::{Height, Tree, Width, verify};
use sha2::{Digest, Sha256};
use std::alloc::{AllocError, Global};
use std::fs;
use std::test::Fail;

// The tree of the vectors.
fn tree_of(alloc: Global, seed: u8) -> Result<Tree, AllocError> {
    Tree::build(alloc, &[seed; 32], Width::W4, Height::H5)
}

// A disk that is formatted for the tree, by eight calls, where none of them fails.
fn formatted<D: Disk>(disk: D, tree: &Tree) -> D {
    match format(disk, tree.id(), 5) {
        Ok(disk) => disk,
        Err(FormatEnd::Already { disk, .. }) => disk,
        Err(FormatEnd::Failed { disk }) => disk,
    }
}

// What the leaf signs, and the hash of the signature where it is one of the vectors.
fn message_of(leaf: u32) -> &'static [u8] {
    match leaf {
        0 => b"",
        1 => {
            b"\x11\x91\x22\xa0\xba\xef\xd8\x55\x17\x79\xb2\x7a\x9a\xdf\xd5\x77\x70\x17\x82\x2b\
            \xfe\x26\x00\x8d\x53\x6e\xfa\x8d\xc6\x02\x2a\x47\x99\x6d\xf6\x2a\xe3\x6c\x71\x61\
            \x4c\xde\x76\x2e\xbe\xae\x40\x85"
        }
        17 => b"\x47\x76\xbc\xb0\x1b\x46\xf7\x60\x53\x87\x4d\x06\xea\x7f\x9c\x56\x48\xfc\x94",
        31 => {
            b"\x6a\xa4\xbd\x99\xbd\x59\x9a\xbc\x70\x84\x15\x5a\x76\x31\x18\xb7\x4a\xa1\x7a\x0b\
            \xbc\x2e\x1a\xbc\x50\x2c\x75\xc3\xa1\x96\x15\x7d\xb7\x70"
        }
        _ => b"text",
    }
}

fn digest_of(leaf: u32) -> Option<[u8; 32]> {
    match leaf {
        0 => Some([
            0x78, 0x17, 0xef, 0xbb, 0x27, 0x41, 0xac, 0x2e, 0xbb, 0x1b, 0xc9, 0xe4, 0x98, 0x53,
            0x12, 0xea, 0x01, 0x60, 0xb9, 0xf7, 0xb8, 0xd2, 0x9d, 0x12, 0xe8, 0x39, 0xe5, 0x7d,
            0xf5, 0xa4, 0xb9, 0xaa,
        ]),
        1 => Some([
            0x33, 0xac, 0x1e, 0x34, 0x12, 0x62, 0xf8, 0x5b, 0xf1, 0x6c, 0xcb, 0x80, 0x84, 0xff,
            0xab, 0xb7, 0x56, 0xb9, 0x14, 0x77, 0xbf, 0xa0, 0xc7, 0xf5, 0x0f, 0x48, 0x92, 0x76,
            0x2d, 0x1b, 0x5d, 0x10,
        ]),
        17 => Some([
            0xe8, 0xbe, 0xf7, 0xe1, 0xdf, 0x41, 0x36, 0x6e, 0x82, 0xaa, 0xe0, 0x13, 0x35, 0xd8,
            0xaf, 0x7f, 0x3b, 0x9b, 0x2a, 0x3d, 0x29, 0x48, 0xd9, 0x92, 0x18, 0x2b, 0xf5, 0x29,
            0xb9, 0xbf, 0xe9, 0x45,
        ]),
        31 => Some([
            0x0a, 0x1a, 0x85, 0xef, 0x67, 0xdc, 0x24, 0xd9, 0x6e, 0x61, 0x96, 0x2d, 0xe2, 0x7c,
            0x23, 0x09, 0x56, 0xdf, 0x88, 0x46, 0xa8, 0xbb, 0x5a, 0x2b, 0x10, 0xb9, 0x72, 0xa1,
            0x57, 0x72, 0x32, 0xd1,
        ]),
        _ => None,
    }
}

// What comes of signing once: the leaf that signed, if one did, and the disk and the tree.
fn signed_once<D: Disk + Drop>(
    alloc: Global,
    disk: D,
    tree: Tree,
) -> Result<(Option<u32>, D, Tree), AllocError> {
    let signer = match Signer::open(disk, tree) {
        Ok(signer) => signer,
        Err(SignerEnd { tree, end }) => return Ok((None, disk_of(end), tree)),
    };
    match signer.sign(alloc, b"text") {
        Ok((signer, leaf, _)) => {
            let (disk, tree) = signer.close();
            Ok((Some(leaf), disk, tree))
        }
        Err(SignEnd::Failed { disk, tree }) => Ok((None, disk, tree)),
        Err(SignEnd::Dry { signer }) => {
            let (disk, tree) = signer.close();
            Ok((None, disk, tree))
        }
        Err(SignEnd::Memory { .. }) => Err(AllocError),
    }
}

fn disk_of<D>(end: OpenEnd<D>) -> D {
    match end {
        OpenEnd::Failed { disk } => disk,
        OpenEnd::Unformatted { disk, .. } => disk,
        OpenEnd::OtherKey { disk, .. } => disk,
    }
}

#[test]
fn each_leaf_signs_once(rt: HostRuntime) -> Result<(), Fail> {
    let alloc = rt.alloc();
    let tree = tree_of(alloc, 0x45)?;
    let public = tree.public();
    let disk = formatted(MemDisk::new(alloc, 50, Vec::new(alloc))?, &tree);
    let mut signer = match Signer::open(disk, tree) {
        Ok(signer) => signer,
        Err(_) => panic!(rt; "a fresh file is opened"),
    };
    signer.reserve(64, 32)?;
    assert!(rt; signer.public().bytes() == public.bytes());
    for leaf in 0..32 {
        assert_eq!(rt; signer.next(), leaf);
        let message = message_of(leaf);
        // Where memory was wanting, no leaf was spent.
        let answer = match signer.sign(alloc, message) {
            Err(SignEnd::Memory { signer }) => signer.sign(alloc, message),
            answer => answer,
        };
        let (next, given, signature) = match answer {
            Ok(given) => given,
            Err(_) => panic!(rt; "a leaf is left"),
        };
        assert_eq!(rt; given, leaf);
        assert_eq!(rt; signature.as_slice().len(), 2348);
        assert!(rt; verify(&public, message, signature.as_slice()));
        if let Some(digest) = digest_of(leaf) {
            assert!(rt; Sha256::digest(signature.as_slice()) == digest);
        }
        signer = next;
    }
    match signer.sign(alloc, b"text") {
        Err(SignEnd::Dry { signer }) => {
            assert_eq!(rt; signer.next(), 32);
            let (disk, tree) = signer.close();
            assert_eq!(rt; disk.bytes().last().copied(), Some(1));
            assert!(rt; tree.public().bytes() == public.bytes());
        }
        _ => panic!(rt; "no leaf is left"),
    }
    Ok(())
}

// A format has eight calls, an opening three, and a signing two: the calls 9 to 11 are those of the first opening, and
// 12 and 13 those of the first signing. The second opening and signing have the calls 14 to 18.
#[test]
fn a_call_that_fails_frees_no_leaf(rt: HostRuntime) -> Result<(), Fail> {
    let alloc = rt.alloc();
    let mut tree = tree_of(alloc, 0x45)?;
    for call in 9..19 {
        let failing = [call].to_vec(alloc)?;
        let mut disk = formatted(MemDisk::new(alloc, 50, failing)?, &tree);
        disk.reserve(6, 3)?;
        let (first, disk, tree_1) = signed_once(alloc, disk, tree)?;
        let (second, disk, tree_2) = signed_once(alloc, disk, tree_1)?;
        let signer = match Signer::open(disk, tree_2) {
            Ok(signer) => signer,
            Err(_) => panic!(rt; "the disk serves again"),
        };
        assert_eq!(rt; first.is_none(), call <= 13);
        assert_eq!(rt; second.is_none(), call > 13);
        if let Some(leaf) = first {
            assert_eq!(rt; leaf, 0);
            assert!(rt;
                leaf < signer.next(),
                "a leaf is free again after call {call}"
            );
        }
        if let Some(leaf) = second {
            assert!(rt;
                leaf < signer.next(),
                "a leaf is free again after call {call}"
            );
        }
        let (_, tree_3) = signer.close();
        tree = tree_3;
    }
    Ok(())
}

// The disk and the tree after a signing that is stopped at its write or at its sync, and a restart.
fn stopped_once(
    alloc: Global,
    disk: MemDisk,
    tree: Tree,
    at_sync: bool,
    fill: u8,
) -> Result<(MemDisk, Tree), AllocError> {
    let mut signer = match Signer::open(disk, tree) {
        Ok(signer) => signer,
        Err(SignerEnd { tree, end }) => return Ok((disk_of(end), tree)),
    };
    signer.stop_at(if at_sync { 2 } else { 1 }, fill);
    match signer.sign(alloc, b"stopped") {
        Ok((signer, _, _)) => Ok(signer.close()),
        Err(SignEnd::Failed { disk, tree }) => Ok((disk.restart(), tree)),
        Err(SignEnd::Dry { signer }) => Ok(signer.close()),
        Err(SignEnd::Memory { .. }) => Err(AllocError),
    }
}

// A stop that leaves 0 leaves the leaf free, and then it signs once. Any other byte spends it.
#[test]
fn a_signer_stops_at_each_leaf(rt: HostRuntime) -> Result<(), Fail> {
    let alloc = rt.alloc();
    let mut tree = tree_of(alloc, 0x45)?;
    let mut disk = formatted(MemDisk::new(alloc, 50, Vec::new(alloc))?, &tree);
    disk.reserve(8, 4)?;
    for leaf in 0..32 {
        let fill = match leaf % 8 {
            1 => 1,
            3 => 165,
            5 => 255,
            _ => 0,
        };
        let (stopped, stopped_tree) = stopped_once(alloc, disk, tree, leaf % 4 > 1, fill)?;
        assert_eq!(rt;
            stopped.bytes().get(18 + leaf as usize).copied(),
            Some(fill)
        );
        if fill == 0 {
            let (signed, later, later_tree) = signed_once(alloc, stopped, stopped_tree)?;
            assert_eq!(rt; signed, Some(leaf));
            disk = later.restart();
            tree = later_tree;
        } else {
            disk = stopped;
            tree = stopped_tree;
        }
    }
    let (signed, _, _) = signed_once(alloc, disk, tree)?;
    assert_eq!(rt; signed, None);
    Ok(())
}

#[test]
fn a_file_that_is_not_the_keys_is_given_back(rt: HostRuntime) -> Result<(), Fail> {
    let alloc = rt.alloc();
    let other = tree_of(alloc, 0x46)?;
    let tree = tree_of(alloc, 0x45)?;
    let SignerEnd { tree, end } = match Signer::open(
        MemDisk::new(alloc, 50, Vec::new(alloc))?,
        tree,
    ) {
        Err(end) => end,
        Ok(_) => panic!(rt; "an empty file is opened"),
    };
    assert!(rt; tree.seed() == [0x45; 32]);
    let disk = match end {
        OpenEnd::Unformatted { disk, length, gate } => {
            assert_eq!(rt; length, 0);
            assert_eq!(rt; gate, 0);
            disk
        }
        _ => panic!(rt; "an empty file is not formatted"),
    };
    let SignerEnd { tree, end } = match Signer::open(formatted(disk, &other), tree) {
        Err(end) => end,
        Ok(_) => panic!(rt; "another key's file is opened"),
    };
    assert!(rt; tree.seed() == [0x45; 32]);
    match end {
        OpenEnd::OtherKey { disk, id, height } => {
            assert_eq!(rt; disk.bytes().len(), 50);
            assert!(rt; id == other.id());
            assert_eq!(rt; height, 5);
        }
        _ => panic!(rt; "a file of another key"),
    }
    Ok(())
}

#[test]
fn a_file_keeps_the_leaves(rt: HostRuntime) -> Result<(), Fail> {
    let alloc = rt.alloc();
    let path = "host_signer_test";
    let tree = tree_of(alloc, 0x45)?;
    let disk = formatted(FileDisk::new(&rt, format!(in alloc; "{path}")?), &tree);
    let (first, _, tree) = signed_once(alloc, disk, tree)?;
    let disk = FileDisk::new(&rt, format!(in alloc; "{path}")?);
    let (second, _, _) = signed_once(alloc, disk, tree)?;
    fs::remove_file(&rt, path)?;
    assert_eq!(rt; first, Some(0));
    assert_eq!(rt; second, Some(1));
    Ok(())
}
