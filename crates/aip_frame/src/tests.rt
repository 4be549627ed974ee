use super::*;
use aip_addr::{Address, Bytes, Id};
use std::test::Fail;

// A packet with two bytes of content, as another implementation of the network writes it: the head,
// the destination, the source, the body's length and the body.
const PACKET: [u8; 92] = *b"\
    \x01\x00\x40\x00\x00\x00\x00\x07\
    \x01\x11\x11\x11\x11\x11\x11\x11\x11\x11\x11\x11\x11\x11\x11\x11\x11\x11\x11\x00\
    \x01\xbb\xbb\xbb\xbb\xbb\xbb\xbb\xbb\xbb\xbb\xbb\xbb\xbb\xbb\xbb\xbb\xbb\xbb\x00\
    \x01\x11\x11\x11\x11\x11\x11\x11\x11\x11\x11\x11\x11\x11\x11\x11\x11\x11\x11\x00\
    \x01\xaa\xaa\xaa\xaa\xaa\xaa\xaa\xaa\xaa\xaa\xaa\xaa\xaa\xaa\xaa\xaa\xaa\xaa\x00\
    \x00\x02\x68\x69";

fn id(middle: u8) -> Id {
    let mut bytes = [middle; 20];
    bytes[0] = 1;
    bytes[19] = 0;
    Id { bytes }
}

fn destination() -> Address {
    Address {
        ad: id(0x11),
        eid: id(0xbb),
    }
}

fn source() -> Address {
    Address {
        ad: id(0x11),
        eid: id(0xaa),
    }
}

#[test]
fn a_packet_is_written(rt: HostRuntime) -> Result<(), Fail> {
    let body = Bytes::from_slice(rt.alloc(), b"hi")?;
    assert_eq!(rt; body.as_slice().len(), 2);
    let frame = Frame {
        kind: Kind::Data,
        hop: 64,
        packet: 7,
        to: destination(),
        from: source(),
        body,
    };
    let bytes = encode(rt.alloc(), &frame)?;
    assert_eq!(rt; bytes.as_slice(), PACKET.as_slice());
    Ok(())
}

#[test]
fn the_fields_of_a_packet_are_read(rt: HostRuntime) {
    assert!(rt; is_frame(&PACKET));
    assert_eq!(rt; kind_of(&PACKET), Kind::Data);
    assert_eq!(rt; hop_of(&PACKET), 64);
    assert_eq!(rt; packet_of(&PACKET), 7);
    assert_eq!(rt; to_of(&PACKET), destination());
    assert_eq!(rt; from_of(&PACKET), source());
    assert_eq!(rt; body_of(&PACKET), b"hi".as_slice());
}

#[test]
fn the_hop_limit_is_set(rt: HostRuntime) {
    let mut bytes = PACKET;
    assert!(rt; is_frame(&bytes));
    set_hop(&mut bytes, 63);
    assert_eq!(rt; bytes[2], 63);
    assert_eq!(rt; bytes[..2], PACKET[..2]);
    assert_eq!(rt; bytes[3..], PACKET[3..]);
}

#[test]
fn only_the_form_is_a_frame(rt: HostRuntime) {
    let mut bytes = [0; 91];
    bytes[0] = 1;
    assert!(rt; is_frame(&bytes[..90]));
    assert!(rt; !is_frame(&bytes[..89]));
    assert!(rt; !is_frame(&bytes), "a byte after the body");
    bytes[3] = 1;
    assert!(rt; !is_frame(&bytes[..90]), "the fourth byte is 0");
    bytes[3] = 0;
    bytes[1] = 4;
    assert!(rt; !is_frame(&bytes[..90]), "there are four kinds");
}

#[test]
fn a_challenge_has_154_bytes(rt: HostRuntime) {
    let mut bytes = [0; 244];
    bytes[0] = 1;
    bytes[1] = 1;
    bytes[89] = 154;
    assert!(rt; is_frame(&bytes));
    bytes[89] = 153;
    assert!(rt; !is_frame(&bytes[..243]));
}

#[test]
fn a_frame_has_at_most_9216_bytes(rt: HostRuntime) -> Result<(), Fail> {
    let mut bytes = vec![in rt.alloc(); 0; 9217]?;
    assert_eq!(rt; bytes.len(), 9217);
    bytes[0] = 1;
    bytes[88] = 0x23;
    bytes[89] = 0xa7;
    assert!(rt; !is_frame(&bytes));
    bytes[89] = 0xa6;
    bytes.truncate(9216);
    assert!(rt; is_frame(&bytes));
    Ok(())
}

#[test]
fn a_packet_is_parsed_whole(rt: HostRuntime) -> Result<(), Fail> {
    let frame = parse(rt.alloc(), &PACKET)?.ok_or("a frame")?;
    assert_eq!(rt; frame.kind, Kind::Data);
    assert_eq!(rt; frame.hop, 64);
    assert_eq!(rt; frame.packet, 7);
    assert_eq!(rt; frame.to, destination());
    assert_eq!(rt; frame.from, source());
    assert_eq!(rt; frame.body.as_slice(), b"hi".as_slice());
    assert!(rt; parse(rt.alloc(), &PACKET[..91])?.is_none());
    Ok(())
}

#[test]
fn the_hash_of_a_packet_leaves_the_hop_limit_out(rt: HostRuntime) {
    // SHA-256 of the packet's bytes with 0 as the third, by another implementation of the hash.
    let hash =
        b"\x83\xd8\x8c\x18\x09\xaf\x4f\x4f\xee\xc6\x32\x73\xa0\xe8\x00\x43\x59\x9b\x9c\xf2\x93\x60\x45\xc1\xcb\x6c\x3d\x9c\x2c\x07\x75\x3b";
    let mut bytes = PACKET;
    assert!(rt; is_frame(&bytes));
    assert_eq!(rt; packet_hash(&bytes)[..], hash[..]);
    set_hop(&mut bytes, 1);
    assert_eq!(rt; packet_hash(&bytes)[..], hash[..]);
}
