//! Shut-offs of a network that two other implementations ran, and each refusal in its turn.
use super::*;
use crate::judging::judge;
use crate::slots::Slot;
use aip_addr::{Address, Id};
use aip_frame::{Frame, Kind, encode, is_frame, kind_of};
use lease_disk::MemDisk;
use lms_core::{Height, Tree, Width, signature_len};
use sent_log::SentLog;
use sha2::{Digest, Sha256};
use std::alloc::{AllocError, Global};
use std::test::Fail;

// The hash of the packet that host a sent to host b.
const HASH: [u8; 32] = *b"\
    \x5a\x81\x57\xae\xaa\x44\x76\x40\x5f\x61\xe1\x3e\x90\x74\x84\xc3\x9f\xe4\x2c\x4a\xeb\x8f\xb8\x8a\x07\x5e\xcf\x44\
    \x55\x36\xaa\x35";

// The SHA-256 of the frame in which host b shuts a off for 10 ticks at tick 0, with its leaf 0.
const FRAME_DIGEST: [u8; 32] = *b"\
    \xef\x01\x0f\xc6\xd2\xab\xdf\xb3\x50\x18\xa7\xfd\xe7\x0a\xcc\xdd\x74\xb8\x06\x86\xf7\xbb\x26\x2f\x95\xd9\xb5\x0d\
    \x7b\x5f\x3c\x8c";

// The same at tick 5.
const FIFTH_DIGEST: [u8; 32] = *b"\
    \xf0\x9e\xf6\x5b\x86\x15\x50\x81\x60\xa2\x19\xe6\x40\x17\x60\xa7\x32\xd0\xa9\xcd\x62\xcb\xa2\xef\xa5\x99\x01\x71\
    \xfc\x5f\x4b\x0a";

const HOST_A: [u8; 20] =
    *b"\x01\x4b\x9c\x00\xc6\x6d\x49\x57\x0c\x20\xa6\xf6\xd6\x8a\xcc\x49\x4f\xcd\xdb\x00";

const HOST_B: [u8; 20] =
    *b"\x01\x80\x32\x6a\xee\x46\x27\xa6\x80\xa8\x2b\x2e\x03\xb5\x4a\x12\x77\xd7\xee\x00";

fn address(eid: [u8; 20]) -> Address {
    Address {
        ad: Id {
            bytes: *b"\x01\x11\x11\x11\x11\x11\x11\x11\x11\x11\x11\x11\x11\x11\x11\x11\x11\x11\x11\x00",
        },
        eid: Id { bytes: eid },
    }
}

// The frame in which host b shuts a off for 10 ticks, with its leaf 0.
fn shutoff(alloc: Global, issue: u64) -> Result<Vec<u8>, Fail> {
    let tree = Tree::build(alloc, &[2; 32], Width::W4, Height::H5)?;
    let mut signature = vec![in alloc; 0; signature_len(tree.width(), tree.height())]?;
    let text = shutoff_text(&address(HOST_B), &address(HOST_A), &HASH, issue, 10);
    tree.sign(0, &text, &mut signature);
    let body = shutoff_body(alloc, &HASH, issue, 10, &tree.public(), &signature)?;
    if body.as_slice().len() > 9126 {
        return Err(Fail::from("a body that fits"));
    }
    let frame = Frame {
        kind: Kind::ShutOff,
        hop: 64,
        packet: 0,
        to: address(HOST_A),
        from: address(HOST_B),
        body,
    };
    Ok(encode(alloc, &frame)?.into_vec())
}

// A log with the packet to b.
fn log(alloc: Global) -> Result<SentLog, AllocError> {
    let mut log = SentLog::new(alloc, 4)?;
    log.note(&HASH, &Id { bytes: HOST_B }.key_id());
    Ok(log)
}

// How a shut-off is judged at a time, as a number; 9 for what is none.
fn number_at(slots: &Slots, log: &SentLog, frame: &[u8], now: u64) -> u64 {
    if is_frame(frame) && kind_of(frame) == Kind::ShutOff && now < 1000 {
        judge(slots, log, frame, now).number()
    } else {
        9
    }
}

// The frame with other bytes from a place on.
fn altered(alloc: Global, frame: &[u8], place: usize, bytes: &[u8]) -> Result<Vec<u8>, Fail> {
    let mut other = Vec::from_slice(alloc, frame)?;
    for (k, byte) in bytes.iter().enumerate() {
        if let Some(old) = other.get_mut(place.saturating_add(k)) {
            *old = *byte;
        }
    }
    Ok(other)
}

#[test]
fn a_shut_off_is_obeyed_while_it_lasts(rt: HostRuntime) -> Result<(), Fail> {
    let alloc = rt.alloc();
    let slots = Slots::new(alloc, 1)?;
    let log = log(alloc)?;
    let frame = shutoff(alloc, 5)?;
    assert!(rt; Sha256::digest(frame.as_slice()) == FIFTH_DIGEST);
    assert_eq!(rt; number_at(&slots, &log, &frame, 4), 4);
    assert_eq!(rt; number_at(&slots, &log, &frame, 5), 0);
    assert_eq!(rt; number_at(&slots, &log, &frame, 14), 0);
    assert_eq!(rt; number_at(&slots, &log, &frame, 15), 5);
    Ok(())
}

#[test]
fn each_refusal_comes_in_its_turn(rt: HostRuntime) -> Result<(), Fail> {
    let alloc = rt.alloc();
    let slots = Slots::new(alloc, 1)?;
    let log = log(alloc)?;
    let frame = shutoff(alloc, 0)?;
    assert!(rt; Sha256::digest(frame.as_slice()) == FRAME_DIGEST);
    let rows: [(usize, &[u8], u64); 7] = [
        (69, b"\x02", 2),
        (150, b"\x00", 2),
        (49, b"\x12", 3),
        (9, b"\x12", 3),
        (90, b"\x00", 3),
        (2537, b"\x00", 3),
        (2, b"\x01", 0),
    ];
    for (place, bytes, number) in rows {
        let other = altered(alloc, &frame, place, bytes)?;
        assert_eq!(rt; number_at(&slots, &log, &other, 0), number);
    }
    let nothing = SentLog::new(alloc, 4)?;
    assert_eq!(rt; number_at(&slots, &nothing, &frame, 0), 6);
    Ok(())
}

// The frame cut to a length; with `mended`, with the length that is left as the length of its body.
fn cut(alloc: Global, frame: &[u8], length: u16, mended: bool) -> Result<Vec<u8>, Fail> {
    let mut part = Vec::from_slice(alloc, frame)?;
    part.truncate(length.into());
    if mended {
        return altered(alloc, &part, 88, &length.saturating_sub(90).to_be_bytes());
    }
    Ok(part)
}

// What the shut-off comes to that is cut to a length and mended: no frame has fewer than 90 bytes, no body that is read fewer
// than 100, and no shorter signature is valid.
fn number_of_cut(length: u16) -> u64 {
    if length < 90 {
        9
    } else if length < 190 {
        1
    } else {
        3
    }
}

#[test]
fn an_altered_shut_off_is_refused(rt: HostRuntime) -> Result<(), Fail> {
    let alloc = rt.alloc();
    let slots = Slots::new(alloc, 1)?;
    let log = log(alloc)?;
    let frame = shutoff(alloc, 0)?;
    'lengths: for length in 1..2538 {
        let short = cut(alloc, &frame, length, false)?;
        assert_eq!(rt; number_at(&slots, &log, &short, 0), 9);
        let mended = cut(alloc, &frame, length, true)?;
        assert_eq!(rt; number_at(&slots, &log, &mended, 0), number_of_cut(length));
    }
    assert_eq!(rt; frame.len(), 2538);
    assert_eq!(rt; number_at(&slots, &log, &shutoff(alloc, 1)?, 0), 4);
    Ok(())
}

#[test]
fn a_full_filter_takes_no_other_key(rt: HostRuntime) -> Result<(), Fail> {
    let alloc = rt.alloc();
    let log = log(alloc)?;
    let frame = shutoff(alloc, 0)?;
    for (eid, number) in [(HOST_A, 7), (HOST_B, 0)] {
        let slot = Slot {
            is_open: true,
            to: Id { bytes: eid }.key_id(),
            until: 9,
        };
        let slots = Slots {
            room: 1,
            slots: vec![in alloc; slot; 2]?,
        };
        assert_eq!(rt; number_at(&slots, &log, &frame, 8), number);
        assert_eq!(rt; number_at(&slots, &log, &frame, 9), 0);
    }
    Ok(())
}

// Whether the disk has the file of an empty filter of room 1.
fn is_empty_filter(disk: &MemDisk) -> bool {
    let bytes = disk.bytes();
    bytes.len() == 59
        && bytes.starts_with(b"\xa5\x00\x01")
        && bytes.iter().skip(3).all(|byte| *byte == 0)
}

#[test]
fn a_filter_of_room_1_has_59_bytes(rt: HostRuntime) -> Result<(), Fail> {
    let alloc = rt.alloc();
    let disk = MemDisk::new(alloc, 59, Vec::new(alloc))?;
    let disk = match format_store(disk, 1) {
        Ok(disk) => disk,
        Err(_) => panic!(rt; "an empty disk is formatted"),
    };
    assert!(rt; is_empty_filter(&disk));
    match format_store(disk, 2) {
        Err(StoreFormatEnd::Already { disk, room }) => {
            assert_eq!(rt; room, 1);
            assert!(rt; is_empty_filter(&disk));
        }
        _ => panic!(rt; "a filter is formatted twice"),
    }
    Ok(())
}
