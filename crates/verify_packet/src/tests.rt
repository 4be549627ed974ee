//! Challenges and responses of a network that two other implementations ran, and each refusal in its turn.
ghost use Rattle.std.specs.Prelude.{◌<◌};

use super::*;
use aip_addr::{Address, Bytes, Id};
use aip_frame::{Frame, Kind, encode, is_frame, kind_of};
use lms_core::{Height, Tree, Width, signature_len};
use sha2::{Digest, Sha256};
use std::alloc::Global;
use std::test::Fail;

// The challenge that router r of domain d puts to host a, for a packet of a's at port 0 and time 0.
const CHALLENGE: [u8; 154] = *b"\
    \x01\x11\x11\x11\x11\x11\x11\x11\x11\x11\x11\x11\x11\x11\x11\x11\x11\x11\x11\x00\x00\xc6\xdc\xb4\xc7\x7c\xf2\
    \x00\xec\xbb\x25\x2a\x5f\x85\x0e\x01\x2c\xc5\xa5\x00\x01\x11\x11\x11\x11\x11\x11\x11\x11\x11\x11\x11\x11\x11\
    \x11\x11\x11\x11\x11\x00\x01\x4b\x9c\x00\xc6\x6d\x49\x57\x0c\x20\xa6\xf6\xd6\x8a\xcc\x49\x4f\xcd\xdb\x00\x5a\
    \x81\x57\xae\xaa\x44\x76\x40\x5f\x61\xe1\x3e\x90\x74\x84\xc3\x9f\xe4\x2c\x4a\xeb\x8f\xb8\x8a\x07\x5e\xcf\x44\
    \x55\x36\xaa\x35\x00\x00\x00\x00\x00\x00\x00\x00\x00\x00\xc0\x53\xf3\xd8\xfd\x13\x16\x96\x8d\x33\x96\xce\xbc\
    \x56\xe3\x32\x05\x5c\x58\xb9\xba\x82\xc1\x7d\x2f\xa5\xc6\xff\x58\xa3\xea\xed";

// The SHA-256 of the frame in which host a answers with its leaf 0.
const RESPONSE_DIGEST: [u8; 32] = *b"\
    \x2a\x91\xa9\x6c\x7a\xcc\x6e\x8e\x9c\xc1\xf7\x4e\xb6\xc1\xb4\xf0\x1a\x34\x3d\x55\x31\xd0\xfe\x5d\x2b\x22\xe7\x79\x5c\x11\xdc\x73";

// Port 9, and the router's tag over the challenge with that port in place of 0.
const TAG_OF_PORT_9: [u8; 32] = *b"\
    \xee\x81\x36\xa7\x25\xca\xb8\xf0\xc7\x7f\x36\x80\x24\xf2\x11\x28\x87\x93\x92\xe9\x24\x4d\x17\xce\xf9\x28\x52\x4c\x55\x69\xb0\x83";

// The key of host b.
const OTHER_KEY: [u8; 56] = *b"\
    \x00\x00\x00\x05\x00\x00\x00\x03\x14\x0d\xa0\xfb\x3d\x1c\x1d\xc2\xe1\xb7\x16\x13\x6f\x1c\x8d\xb9\xe0\xeb\x65\x3b\
    \xef\x14\xe7\xd3\xf5\x60\xef\x30\x47\xe8\xf9\x83\x69\x39\x76\x98\x78\xc0\xbf\xc5\x91\x33\xfd\x37\x69\xd9\x1e\xd5";

fn domain() -> Id {
    Id {
        bytes: *b"\x01\x11\x11\x11\x11\x11\x11\x11\x11\x11\x11\x11\x11\x11\x11\x11\x11\x11\x11\x00",
    }
}

fn address(eid: [u8; 20]) -> Address {
    Address {
        ad: domain(),
        eid: Id { bytes: eid },
    }
}

fn router() -> RouterKey
    ensures { 0 < result.epoch_length }
{
    RouterKey {
        address: address(
            *b"\x00\xc6\xdc\xb4\xc7\x7c\xf2\x00\xec\xbb\x25\x2a\x5f\x85\x0e\x01\x2c\xc5\xa5\x00",
        ),
        master: [0; 32],
        boot: 0,
        epoch_length: 60,
        ports: 3,
    }
}

fn host_a() -> Address {
    address(*b"\x01\x4b\x9c\x00\xc6\x6d\x49\x57\x0c\x20\xa6\xf6\xd6\x8a\xcc\x49\x4f\xcd\xdb\x00")
}

// The frame in which host a answers the challenge with its leaf 0.
fn response(alloc: Global) -> Result<Vec<u8>, Fail> {
    let tree = Tree::build(alloc, &[1; 32], Width::W4, Height::H5)?;
    let mut signature = vec![in alloc; 0; signature_len(tree.width(), tree.height())]?;
    tree.sign(0, &response_text(&CHALLENGE), &mut signature);
    let body = response_body(alloc, &CHALLENGE, &tree.public(), &signature)?;
    if body.as_slice().len() > 9126 {
        return Err(Fail::from("a body that fits"));
    }
    let frame = Frame {
        kind: Kind::Response,
        hop: 64,
        packet: 1,
        to: router().address,
        from: host_a(),
        body,
    };
    Ok(encode(alloc, &frame)?.into_vec())
}

// How the router judges a response at a time, as a number; 9 for what is no response.
fn number_at(now: u64, frame: &[u8]) -> u64 {
    let asks = router();
    if is_frame(frame) && kind_of(frame) == Kind::Response && asks.epoch_length > 0 {
        check(&asks, now, frame).number()
    } else {
        9
    }
}

// The response with other bytes from a place on.
fn altered(alloc: Global, frame: &[u8], place: usize, bytes: &[u8]) -> Result<Vec<u8>, Fail> {
    let mut other = Vec::from_slice(alloc, frame)?;
    for (k, byte) in bytes.iter().enumerate() {
        if let Some(old) = other.get_mut(place.saturating_add(k)) {
            *old = *byte;
        }
    }
    Ok(other)
}

// The challenge that the router puts at the last tick of its first epoch.
fn challenge_at_59(hash: &[u8; 32]) -> [u8; 154] {
    challenge(&router(), 59, &host_a(), hash, 0)
}

#[test]
fn a_challenge_is_made_and_read(rt: HostRuntime) {
    let mut hash = [0; 32];
    hash.copy_from_slice(&CHALLENGE[80..112]);
    let body = challenge_at_59(&hash);
    assert!(rt; body == CHALLENGE);
    assert!(rt; asked_router(&body) == router().address);
    assert!(rt; asked_source(&body) == host_a());
    assert!(rt; asked_hash(&body) == hash);
}

#[test]
fn an_answer_is_proved_for_two_epochs(rt: HostRuntime) -> Result<(), Fail> {
    let frame = response(rt.alloc())?;
    assert_eq!(rt; frame.len(), 2648);
    assert!(rt; Sha256::digest(frame.as_slice()) == RESPONSE_DIGEST);
    assert_eq!(rt; number_at(0, &frame), 0);
    assert_eq!(rt; number_at(119, &frame), 0);
    assert_eq!(rt; number_at(120, &frame), 3);
    Ok(())
}

// The response for port 9, with the router's tag for it.
fn of_port_9(alloc: Global, frame: &[u8]) -> Result<Vec<u8>, Fail> {
    let other = altered(alloc, frame, 202, b"\x00\x09")?;
    altered(alloc, &other, 212, &TAG_OF_PORT_9)
}

#[test]
fn each_refusal_comes_in_its_turn(rt: HostRuntime) -> Result<(), Fail> {
    let alloc = rt.alloc();
    let frame = response(alloc)?;
    let rows: [(usize, &[u8], u64); 7] = [
        (109, b"\x01", 2),
        (169, b"\x01", 2),
        (212, b"\x00", 4),
        (243, b"\x00", 4),
        (202, b"\x00\x09", 4),
        (2647, b"\x00", 7),
        (300, b"\x00\x00\x00\x01", 7),
    ];
    for (place, bytes, number) in rows {
        let other = altered(alloc, &frame, place, bytes)?;
        assert_eq!(rt; number_at(0, &other), number);
    }
    Ok(())
}

// The response cut to a length; with `mended`, with the length that is left as the length of its body.
fn cut(alloc: Global, frame: &[u8], length: u16, mended: bool) -> Result<Vec<u8>, Fail> {
    let mut part = Vec::from_slice(alloc, frame)?;
    part.truncate(length.into());
    if mended {
        return altered(alloc, &part, 88, &length.saturating_sub(90).to_be_bytes());
    }
    Ok(part)
}

// What the response comes to that is cut to a length and mended: no frame has fewer than 90 bytes, no body of a response
// that is read fewer than 210, and no shorter signature is valid.
fn number_of_cut(length: u16) -> u64 {
    if length < 90 {
        9
    } else if length < 300 {
        1
    } else {
        7
    }
}

// The response with one bit turned, counted from its first.
fn turned(alloc: Global, frame: &[u8], bit: usize) -> Result<Vec<u8>, Fail> {
    let mut other = Vec::from_slice(alloc, frame)?;
    if let Some(byte) = other.get_mut(bit / 8) {
        *byte ^= 0x80 >> (bit % 8);
    }
    Ok(other)
}

#[test]
fn an_altered_response_is_refused(rt: HostRuntime) -> Result<(), Fail> {
    let alloc = rt.alloc();
    let frame = response(alloc)?;
    'lengths: for length in 1..2648 {
        assert_eq!(rt; number_at(0, &cut(alloc, &frame, length, false)?), 9);
        assert_eq!(rt;
            number_at(0, &cut(alloc, &frame, length, true)?),
            number_of_cut(length)
        );
    }
    // The tag's 32 bytes begin at byte 212.
    'bits: for bit in 1696..1952 {
        assert_eq!(rt; number_at(0, &turned(alloc, &frame, bit)?), 4);
    }
    assert_eq!(rt; number_at(0, &of_port_9(alloc, &frame)?), 5);
    assert_eq!(rt; number_at(0, &altered(alloc, &frame, 244, &OTHER_KEY)?), 6);
    Ok(())
}

#[test]
fn the_first_refusal_decides(rt: HostRuntime) -> Result<(), Fail> {
    let alloc = rt.alloc();
    let frame = response(alloc)?;
    // Each has the faults of the one before, and one that is looked for earlier.
    let seventh = altered(alloc, &frame, 2647, b"\x00")?;
    let sixth = altered(alloc, &seventh, 244, &OTHER_KEY)?;
    let fifth = of_port_9(alloc, &sixth)?;
    let fourth = turned(alloc, &fifth, 1951)?;
    let second = altered(alloc, &fourth, 109, b"\x01")?;
    let first = cut(alloc, &second, 299, true)?;
    assert_eq!(rt; number_at(0, &seventh), 7);
    assert_eq!(rt; number_at(0, &sixth), 6);
    assert_eq!(rt; number_at(0, &fifth), 5);
    assert_eq!(rt; number_at(0, &fourth), 4);
    assert_eq!(rt; number_at(120, &fourth), 3);
    assert_eq!(rt; number_at(120, &second), 2);
    assert_eq!(rt; number_at(120, &first), 1);
    Ok(())
}
