//! Hosts of networks that two other implementations ran: what they put, answer, drop and sign, and what they forget.
ghost use Rattle.std.specs.Prelude.{◌≡◌, ◌≤◌, IfSome};

use aip_addr::{Address, Id, Name};
use aip_event::{Event, Reason, Target};
use aip_frame::is_frame;
use aip_host::Host;
use aip_rules::{Reaction, Seat};
use aip_topo::Settings;
use lms_core::{Height, Tree, Width};
use sha2::{Digest, Sha256};
use std::alloc::Global;
use std::process::Abort;
use std::test::Fail;

/// The packet 1 that host a sends to host b.
pub const PACKET: [u8; 91] = *b"\
    \x01\x00\x40\x00\x00\x00\x00\x01\x01\x11\x11\x11\x11\x11\x11\x11\x11\x11\x11\x11\x11\x11\x11\x11\x11\x11\x11\
    \x00\x01\x80\x32\x6a\xee\x46\x27\xa6\x80\xa8\x2b\x2e\x03\xb5\x4a\x12\x77\xd7\xee\x00\x01\x11\x11\x11\x11\x11\
    \x11\x11\x11\x11\x11\x11\x11\x11\x11\x11\x11\x11\x11\x00\x01\x4b\x9c\x00\xc6\x6d\x49\x57\x0c\x20\xa6\xf6\xd6\
    \x8a\xcc\x49\x4f\xcd\xdb\x00\x00\x01\x00";

// The challenge that router r puts to host a for that packet, from a network whose routers don't check tags of others.
const CHALLENGE: [u8; 244] = *b"\
    \x01\x01\x05\x00\x00\x00\x00\x01\x01\x11\x11\x11\x11\x11\x11\x11\x11\x11\x11\x11\x11\x11\x11\x11\x11\x11\x11\
    \x00\x01\x4b\x9c\x00\xc6\x6d\x49\x57\x0c\x20\xa6\xf6\xd6\x8a\xcc\x49\x4f\xcd\xdb\x00\x01\x11\x11\x11\x11\x11\
    \x11\x11\x11\x11\x11\x11\x11\x11\x11\x11\x11\x11\x11\x00\x00\xc6\xdc\xb4\xc7\x7c\xf2\x00\xec\xbb\x25\x2a\x5f\
    \x85\x0e\x01\x2c\xc5\xa5\x00\x00\x9a\x01\x11\x11\x11\x11\x11\x11\x11\x11\x11\x11\x11\x11\x11\x11\x11\x11\x11\
    \x11\x00\x00\xc6\xdc\xb4\xc7\x7c\xf2\x00\xec\xbb\x25\x2a\x5f\x85\x0e\x01\x2c\xc5\xa5\x00\x01\x11\x11\x11\x11\
    \x11\x11\x11\x11\x11\x11\x11\x11\x11\x11\x11\x11\x11\x11\x00\x01\x4b\x9c\x00\xc6\x6d\x49\x57\x0c\x20\xa6\xf6\
    \xd6\x8a\xcc\x49\x4f\xcd\xdb\x00\x5a\x81\x57\xae\xaa\x44\x76\x40\x5f\x61\xe1\x3e\x90\x74\x84\xc3\x9f\xe4\x2c\
    \x4a\xeb\x8f\xb8\x8a\x07\x5e\xcf\x44\x55\x36\xaa\x35\x00\x00\x00\x00\x00\x00\x00\x00\x00\x00\x00\x00\x00\x00\
    \x00\x00\x00\x00\x00\x00\x00\x00\x00\x00\x00\x00\x00\x00\x00\x00\x00\x00\x00\x00\x00\x00\x00\x00\x00\x00\x00\
    \x00";

// The SHA-256 of the frame in which host a answers the challenge with its leaf 0.
const RESPONSE_DIGEST: [u8; 32] = *b"\
    \x9f\x1a\x74\x3c\x2a\xf7\xc5\xb4\x16\x6d\x29\x7a\x43\x5c\xaf\xbc\xd3\xaf\x0c\xcf\x2f\x5a\x7d\x44\x80\xa5\xea\x04\xe0\xe9\x85\x3d";

// The SHA-256 of the shut-off by which host b names the packet at tick 5, for 10 ticks, with its leaf 0.
const SHUTOFF_DIGEST: [u8; 32] = *b"\
    \xf0\x9e\xf6\x5b\x86\x15\x50\x81\x60\xa2\x19\xe6\x40\x17\x60\xa7\x32\xd0\xa9\xcd\x62\xcb\xa2\xef\xa5\x99\x01\x71\xfc\x5f\x4b\x0a";

/// The id of host a.
pub const HOST_A: [u8; 20] = *b"\
    \x01\x4b\x9c\x00\xc6\x6d\x49\x57\x0c\x20\xa6\xf6\xd6\x8a\xcc\x49\x4f\xcd\xdb\x00";

/// The id of host b.
pub const HOST_B: [u8; 20] = *b"\
    \x01\x80\x32\x6a\xee\x46\x27\xa6\x80\xa8\x2b\x2e\x03\xb5\x4a\x12\x77\xd7\xee\x00";

/// The address of a host of the network's one domain.
pub fn address(eid: [u8; 20]) -> Address {
    let mut ad = [0x11; 20];
    ad[0] = 1;
    ad[19] = 0;
    Address {
        ad: Id { bytes: ad },
        eid: Id { bytes: eid },
    }
}

fn settings(log: u16, filter: u16) -> Settings
    ensures { (result.log ≡ log) × (result.filter ≡ filter) }
{
    Settings {
        accept: 600,
        cache: 64,
        epoch: 60,
        filter,
        log,
        threshold: 8,
        wild: 600,
        wildcache: 16,
    }
}

/// The key of the seed of 32 of these bytes.
pub fn seed(alloc: Global, byte: u8) -> Result<Tree, Fail> {
    let tree = Tree::build(alloc, &[byte; 32], Width::W4, Height::H5)?;
    Ok(tree)
}

/// Host `name`, with a log of so many frames, behind a guard with room for so many key identifiers or without one.
pub fn host(
    alloc: Global,
    name: &[u8],
    eid: [u8; 20],
    key: Option<Tree>,
    log: u16,
    guard: Option<u16>,
) -> Result<Host, Fail>
    requires log { 1 ≤ log }
    requires guard { IfSome guard (λ filter. (1 ≤ filter) × (filter ≤ 256)) }
{
    let seat = Seat {
        name: Name::read(name).ok_or("a name")?,
        router: 0,
        port: 0,
        address: address(eid),
    };
    let towards = Target::Port {
        router: Name::read(b"r").ok_or("a name")?,
        port: 0,
    };
    let host = match guard {
        Some(filter) => Host::new(alloc, seat, towards, &settings(log, filter), key, true)?,
        None => Host::new(alloc, seat, towards, &settings(log, 16), key, false)?,
    };
    Ok(host)
}

// Host a, with its key.
fn host_a(alloc: Global, log: u16) -> Result<Host, Fail>
    requires { 1 ≤ log }
{
    let tree = seed(alloc, 1)?;
    host(alloc, b"a", HOST_A, Some(tree), log, None)
}

/// Why a host dropped what reached it, if that is all that happened.
pub fn drop_in(reaction: &Reaction) -> Option<Reason> {
    match (reaction.events.as_slice(), &reaction.put) {
        ([Event::Drop { node: _, reason }], None) => Some(*reason),
        _ => None,
    }
}

/// The leaf that signed, if that is all that happened.
pub fn leaf_in(reaction: &Reaction) -> Option<u64> {
    match reaction.events.as_slice() {
        [Event::Signed { host: _, leaf }] => Some(*leaf),
        _ => None,
    }
}

/// The leaf at which a stop fell, if that is all that happened.
pub fn stop_in(reaction: &Reaction) -> Option<u64> {
    match (reaction.events.as_slice(), &reaction.put) {
        (
            [
                Event::Stopped {
                    host: _,
                    leaf,
                    call: _,
                    byte: _,
                },
            ],
            None,
        ) => Some(*leaf),
        _ => None,
    }
}

/// The SHA-256 of the bytes that are put.
pub fn digest_in(reaction: &Reaction) -> Option<[u8; 32]> {
    match &reaction.put {
        Some(flight) => Some(Sha256::digest(flight.bytes.as_slice())),
        None => None,
    }
}

// What host a does that is to send the packet of this id to host b: the SHA-256 of what it puts.
fn sent(alloc: Global, host: &mut Host, packet: u32) -> Result<Option<[u8; 32]>, Fail> {
    let reaction = host.send(alloc, 0, address(HOST_B), packet, &[0])?;
    Ok(digest_in(&reaction))
}

// Why host a drops a packet that it is to send to host b.
fn unsent(alloc: Global, host: &mut Host) -> Result<Option<Reason>, Fail> {
    let reaction = host.send(alloc, 0, address(HOST_B), 1, &[0])?;
    Ok(drop_in(&reaction))
}

// Why a host drops bytes that arrive at it.
fn refused(alloc: Global, host: &mut Host, bytes: &[u8]) -> Result<Option<Reason>, Fail> {
    let reaction = host.arrive(alloc, 0, bytes)?;
    Ok(drop_in(&reaction))
}

// The leaf with which a host answers the challenge.
fn answered(alloc: Global, host: &mut Host) -> Result<Option<u64>, Fail> {
    let reaction = host.arrive(alloc, 0, &CHALLENGE)?;
    Ok(leaf_in(&reaction))
}

// The leaf with which a host answers the challenge, and the SHA-256 of the answer.
fn answer_of(alloc: Global, host: &mut Host) -> Result<(Option<u64>, Option<[u8; 32]>), Fail> {
    let reaction = host.arrive(alloc, 0, &CHALLENGE)?;
    Ok((leaf_in(&reaction), digest_in(&reaction)))
}

// Host a, with its key.
fn answers(rt: &impl Abort, alloc: Global, host: &mut Host) -> Result<(), Fail> {
    assert_eq!(rt; sent(alloc, host, 1)?, Some(Sha256::digest(&PACKET)));
    let (leaf, digest) = answer_of(alloc, host)?;
    assert_eq!(rt; leaf, Some(0));
    assert_eq!(rt; digest, Some(RESPONSE_DIGEST));
    Ok(())
}

#[test]
fn a_challenge_is_answered(rt: HostRuntime) -> Result<(), Fail> {
    let mut host = host_a(rt.alloc(), 128)?;
    answers(&rt, rt.alloc(), &mut host)
}

// The challenge, with the id of host b at this place.
fn altered(place: usize) -> [u8; 244]
    requires { place ≤ 224 }
{
    let mut other = CHALLENGE;
    other[place..place + 20].copy_from_slice(&HOST_B);
    other
}

// The challenge, with another packet hash.
fn unknown() -> [u8; 244] {
    let mut other = CHALLENGE;
    other[201] = 0x34;
    other
}

// Host a, with its key.
fn drops_others(rt: &impl Abort, alloc: Global, host: &mut Host) -> Result<(), Fail> {
    sent(alloc, host, 1)?;
    assert_eq!(rt; refused(alloc, host, &altered(150))?, Some(Reason::NotMine));
    assert_eq!(rt; refused(alloc, host, &altered(28))?, Some(Reason::Stray));
    assert_eq!(rt; refused(alloc, host, &unknown())?, Some(Reason::Unlogged));
    assert_eq!(rt; refused(alloc, host, &CHALLENGE[..243])?, Some(Reason::Bad));
    Ok(())
}

#[test]
fn a_challenge_for_another_host_or_packet_is_dropped(rt: HostRuntime) -> Result<(), Fail> {
    let mut host = host_a(rt.alloc(), 128)?;
    drops_others(&rt, rt.alloc(), &mut host)
}

// Host a, without a key.
fn is_mute(rt: &impl Abort, alloc: Global, host: &mut Host) -> Result<(), Fail> {
    assert!(rt; !host.has_key());
    sent(alloc, host, 1)?;
    assert_eq!(rt; refused(alloc, host, &CHALLENGE)?, Some(Reason::Mute));
    Ok(())
}

#[test]
fn a_host_without_a_key_is_mute(rt: HostRuntime) -> Result<(), Fail> {
    let mut host = host(rt.alloc(), b"a", HOST_A, None, 128, None)?;
    is_mute(&rt, rt.alloc(), &mut host)
}

// Puts the first bytes of a packet.
fn make_noise(alloc: Global, host: &mut Host, length: usize) -> Result<(), Fail>
    requires { length ≤ 91 }
{
    host.raw(alloc, 0, &PACKET[..length])?;
    Ok(())
}

// Host a, with a log of two frames. Bytes that are no frame push nothing out of it.
fn forgets(rt: &impl Abort, alloc: Global, host: &mut Host) -> Result<(), Fail> {
    sent(alloc, host, 1)?;
    sent(alloc, host, 2)?;
    make_noise(alloc, host, 1)?;
    make_noise(alloc, host, 90)?;
    assert_eq!(rt; answered(alloc, host)?, Some(0));
    // The answer is a frame that is put.
    assert_eq!(rt; refused(alloc, host, &CHALLENGE)?, Some(Reason::Unlogged));
    Ok(())
}

#[test]
fn a_log_of_two_forgets_the_third_last_frame(rt: HostRuntime) -> Result<(), Fail> {
    let mut host = host_a(rt.alloc(), 2)?;
    forgets(&rt, rt.alloc(), &mut host)
}

// Host a, with its 32 leaves.
fn becomes_dry(rt: &impl Abort, alloc: Global, host: &mut Host) -> Result<(), Fail> {
    sent(alloc, host, 1)?;
    for leaf in 0..32u64 {
        assert_eq!(rt; answered(alloc, host)?, Some(leaf));
    }
    assert_eq!(rt; refused(alloc, host, &CHALLENGE)?, Some(Reason::Dry));
    Ok(())
}

#[test]
fn a_dry_host_answers_no_more(rt: HostRuntime) -> Result<(), Fail> {
    let mut host = host_a(rt.alloc(), 128)?;
    becomes_dry(&rt, rt.alloc(), &mut host)
}

// Host b, with its key.
fn host_b(alloc: Global) -> Result<Host, Fail> {
    let tree = seed(alloc, 2)?;
    host(alloc, b"b", HOST_B, Some(tree), 128, None)
}

// The leaf with which a host names the packet at tick 5, for 10 ticks, and the SHA-256 of the shut-off.
fn shut_off_of(alloc: Global, host: &mut Host) -> Result<(Option<u64>, Option<[u8; 32]>), Fail> {
    if !host.has_key() || !is_frame(&PACKET) {
        return Err(Fail::from("a key and a frame"));
    }
    let reaction = host.shut(alloc, 5, &PACKET, 10)?;
    Ok((leaf_in(&reaction), digest_in(&reaction)))
}

// Host b, with its key.
fn names_a_frame(rt: &impl Abort, alloc: Global, host: &mut Host) -> Result<(), Fail> {
    let (leaf, digest) = shut_off_of(alloc, host)?;
    assert_eq!(rt; leaf, Some(0));
    assert_eq!(rt; digest, Some(SHUTOFF_DIGEST));
    Ok(())
}

#[test]
fn a_shut_off_names_a_frame(rt: HostRuntime) -> Result<(), Fail> {
    let mut host = host_b(rt.alloc())?;
    names_a_frame(&rt, rt.alloc(), &mut host)
}

// The leaf at which a stop brings a host down while it answers the challenge.
fn stopped(alloc: Global, host: &mut Host) -> Result<Option<u64>, Fail> {
    if !host.has_key() {
        return Err(Fail::from("a key"));
    }
    host.stop(1, 255);
    host.halt(1, 255);
    let reaction = host.arrive(alloc, 0, &CHALLENGE)?;
    Ok(stop_in(&reaction))
}

// Host a, which a stop brought down while it signed with its leaf 0.
fn fallen(alloc: Global) -> Result<Host, Fail> {
    let mut host = host_a(alloc, 128)?;
    sent(alloc, &mut host, 1)?;
    if stopped(alloc, &mut host)? != Some(0) {
        return Err(Fail::from("a stop at leaf 0"));
    }
    Ok(host)
}

// Host a, which is down.
fn drops_all(rt: &impl Abort, alloc: Global, host: &mut Host) -> Result<(), Fail> {
    assert_eq!(rt; unsent(alloc, host)?, Some(Reason::Down));
    assert_eq!(rt; refused(alloc, host, &CHALLENGE)?, Some(Reason::Down));
    Ok(())
}

#[test]
fn a_host_that_is_down_drops_what_is_asked_of_it(rt: HostRuntime) -> Result<(), Fail> {
    let mut host = fallen(rt.alloc())?;
    drops_all(&rt, rt.alloc(), &mut host)
}

// Host a, which fell at its leaf 0.
fn starts_anew(rt: &impl Abort, alloc: Global, host: &mut Host) -> Result<(), Fail> {
    host.restart(alloc, 0)?;
    assert_eq!(rt; refused(alloc, host, &CHALLENGE)?, Some(Reason::Unlogged));
    sent(alloc, host, 1)?;
    assert_eq!(rt; answered(alloc, host)?, Some(1));
    Ok(())
}

#[test]
fn a_restarted_host_has_its_next_leaf_and_an_empty_log(rt: HostRuntime) -> Result<(), Fail> {
    let mut host = fallen(rt.alloc())?;
    starts_anew(&rt, rt.alloc(), &mut host)
}
