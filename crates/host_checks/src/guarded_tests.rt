//! Guarded hosts of networks that two other implementations ran: what they withhold, obey, refuse and keep.
ghost use Rattle.std.specs.Prelude.{◌<◌, ◌≤◌, ◌^◌};

use crate::host_tests::{HOST_A, HOST_B, PACKET, address, digest_in, drop_in, host, seed};
use aip_addr::{Bytes, KeyId};
use aip_event::{Event, Reason};
use aip_frame::is_frame;
use aip_host::Host;
use aip_rules::Reaction;
use std::alloc::Global;
use std::process::Abort;
use std::test::Fail;

const HOST_C: [u8; 20] = *b"\
    \x01\x37\xb3\x8d\xc4\x9c\xf7\xd3\xe1\x50\x07\x5d\x96\xe2\xb7\x18\x16\x27\x49\x00";

// The key identifier of host b.
const KEY_OF_B: KeyId = KeyId {
    bytes: *b"\x01\x80\x32\x6a\xee\x46\x27\xa6\x80\xa8\x2b\x2e\x03\xb5\x4a\x12\x77\xd7\xee",
};

// Host a, behind a guard with room for so many key identifiers.
fn host_a(alloc: Global, room: u16) -> Result<Host, Fail>
    requires some { 1 ≤ room }
    requires few { room ≤ 256 }
{
    let tree = seed(alloc, 1)?;
    host(alloc, b"a", HOST_A, Some(tree), 128, Some(room))
}

// The bytes that a reaction puts.
fn put_in(reaction: Reaction) -> Result<Bytes, Fail> {
    let Reaction { events: _, put } = reaction;
    match put {
        Some(flight) => Ok(flight.bytes),
        None => Err(Fail::from("a flight")),
    }
}

// The packet that host a sends to another at tick 0.
fn sent(alloc: Global, host: &mut Host, to: [u8; 20]) -> Result<Bytes, Fail> {
    let reaction = host.send(alloc, 0, address(to), 1, &[0])?;
    put_in(reaction)
}

// The host of this id, whose key has a seed of these bytes.
fn signer(alloc: Global, eid: [u8; 20], byte: u8) -> Result<Host, Fail> {
    let tree = seed(alloc, byte)?;
    host(alloc, b"s", eid, Some(tree), 128, Some(16))
}

// The shut-off by which this host names a frame.
fn shut_by(alloc: Global, host: &mut Host, named: &Bytes, now: u64) -> Result<Bytes, Fail>
    requires { now < 2 ^ 48 }
{
    if !host.has_key() || !is_frame(named.as_slice()) {
        return Err(Fail::from("a key and a frame"));
    }
    put_in(host.shut(alloc, now, named.as_slice(), 10)?)
}

// The shut-off by which a host names a frame, for 10 ticks, with its leaf 0.
fn shut_off(alloc: Global, of: ([u8; 20], u8), named: &Bytes, now: u64) -> Result<Bytes, Fail>
    requires { now < 2 ^ 48 }
{
    let (eid, byte) = of;
    let mut host = signer(alloc, eid, byte)?;
    shut_by(alloc, &mut host, named, now)
}

// The shut-off by which host b names a packet that host a sends to it.
fn order_of_b(alloc: Global, host: &mut Host, now: u64) -> Result<Bytes, Fail>
    requires { now < 2 ^ 48 }
{
    let packet = sent(alloc, host, HOST_B)?;
    shut_off(alloc, (HOST_B, 2), &packet, now)
}

// Until when a host obeys host b, or keeps that it does, if that is all that happened.
fn until_in(reaction: &Reaction) -> Option<u64> {
    match (reaction.events.as_slice(), &reaction.put) {
        (
            [
                Event::Obeyed {
                    host: _,
                    sender,
                    until,
                },
            ],
            None,
        ) if *sender == KEY_OF_B => Some(*until),
        (
            [
                Event::Kept {
                    host: _,
                    sender,
                    until,
                },
            ],
            None,
        ) if *sender == KEY_OF_B => Some(*until),
        _ => None,
    }
}

// The number of the reason for which a host refuses a shut-off, if that is all that happened.
fn refusal_in(reaction: &Reaction) -> Option<u64> {
    match (reaction.events.as_slice(), &reaction.put) {
        ([Event::Heard { host: _, number }], None) => Some(*number),
        _ => None,
    }
}

// Whether a frame to host b is withheld, and nothing else happened.
fn is_withheld(reaction: &Reaction) -> bool {
    match (reaction.events.as_slice(), &reaction.put) {
        ([Event::Withheld { host: _, to }], None) => *to == KEY_OF_B,
        _ => false,
    }
}

// Whether a halt at this call and with this byte falls while host a obeys host b until tick 10, and nothing else happened.
fn is_halted(reaction: &Reaction, at: u64, left: u64) -> bool {
    match (reaction.events.as_slice(), &reaction.put) {
        (
            [
                Event::Halted {
                    host: _,
                    sender,
                    until,
                    call,
                    byte,
                },
            ],
            None,
        ) => *sender == KEY_OF_B && *until == 10 && *call == at && *byte == left,
        _ => false,
    }
}

// Until when a host obeys host b, once it heard at tick 5 that it is to for 10 ticks.
fn until_heard(alloc: Global, host: &mut Host) -> Result<Option<u64>, Fail> {
    let order = order_of_b(alloc, host, 5)?;
    let reaction = host.arrive(alloc, 5, order.as_slice())?;
    Ok(until_in(&reaction))
}

// Host a, which obeys host b until tick 15.
fn silenced(alloc: Global) -> Result<Host, Fail> {
    let mut host = host_a(alloc, 16)?;
    if until_heard(alloc, &mut host)? != Some(15) {
        return Err(Fail::from("host b is obeyed until tick 15"));
    }
    Ok(host)
}

// Whether host a withholds a packet that it is to send to host b at a tick.
fn is_silent(alloc: Global, host: &mut Host, now: u64) -> Result<bool, Fail>
    requires { now < 2 ^ 48 }
{
    let reaction = host.send(alloc, now, address(HOST_B), 2, &[0])?;
    Ok(is_withheld(&reaction))
}

// Whether host a puts bytes at tick 14.
fn goes(alloc: Global, host: &mut Host, bytes: &[u8]) -> Result<bool, Fail> {
    let reaction = host.raw(alloc, 14, bytes)?;
    Ok(digest_in(&reaction).is_some())
}

// Host a, which obeys host b until tick 15.
fn is_silent_to_b(rt: &impl Abort, alloc: Global, host: &mut Host) -> Result<(), Fail> {
    assert!(rt; is_silent(alloc, host, 14)?);
    assert!(rt; !is_silent(alloc, host, 15)?);
    Ok(())
}

#[test]
fn a_guard_withholds_until_a_shut_off_lapses(rt: HostRuntime) -> Result<(), Fail> {
    let mut host = silenced(rt.alloc())?;
    is_silent_to_b(&rt, rt.alloc(), &mut host)
}

// Host a, which obeys host b at tick 14. Bytes that are no frame go, and so does a frame to another.
fn sends_to_others(rt: &impl Abort, alloc: Global, host: &mut Host) -> Result<(), Fail> {
    assert!(rt; !goes(alloc, host, &PACKET)?);
    assert!(rt; goes(alloc, host, &PACKET[..90])?);
    sent(alloc, host, HOST_C)?;
    Ok(())
}

#[test]
fn a_guard_withholds_frames_to_a_key_alone(rt: HostRuntime) -> Result<(), Fail> {
    let mut host = silenced(rt.alloc())?;
    sends_to_others(&rt, rt.alloc(), &mut host)
}

// The number of the reason for which host a refuses a shut-off at a tick.
fn refused(alloc: Global, host: &mut Host, order: &Bytes, now: u64) -> Result<Option<u64>, Fail>
    requires { now < 2 ^ 48 }
{
    let reaction = host.arrive(alloc, now, order.as_slice())?;
    Ok(refusal_in(&reaction))
}

// The number of the reason for which a host refuses the shut-off of tick 5 once it lapsed.
fn refused_late(alloc: Global, host: &mut Host) -> Result<Option<u64>, Fail> {
    let order = order_of_b(alloc, host, 5)?;
    refused(alloc, host, &order, 15)
}

// Host a, behind a guard.
fn refuses_late(rt: &impl Abort, alloc: Global, host: &mut Host) -> Result<(), Fail> {
    assert_eq!(rt; refused_late(alloc, host)?, Some(5));
    Ok(())
}

#[test]
fn a_shut_off_that_lapsed_is_refused(rt: HostRuntime) -> Result<(), Fail> {
    let mut host = host_a(rt.alloc(), 16)?;
    refuses_late(&rt, rt.alloc(), &mut host)
}

// The shut-off by which host c names a packet that host a sends to it.
fn order_of_c(alloc: Global, host: &mut Host) -> Result<Bytes, Fail> {
    let packet = sent(alloc, host, HOST_C)?;
    shut_off(alloc, (HOST_C, 3), &packet, 0)
}

// The numbers of the reasons for which a host refuses the shut-off of host b, and then the one of host c.
fn refused_in_turn(alloc: Global, host: &mut Host) -> Result<(Option<u64>, Option<u64>), Fail> {
    let first = order_of_b(alloc, host, 0)?;
    let second = order_of_c(alloc, host)?;
    let of_first = refused(alloc, host, &first, 0)?;
    let of_second = refused(alloc, host, &second, 0)?;
    Ok((of_first, of_second))
}

// Host a, behind a guard with room for one key identifier.
fn refuses_another(rt: &impl Abort, alloc: Global, host: &mut Host) -> Result<(), Fail> {
    let (of_first, of_second) = refused_in_turn(alloc, host)?;
    assert_eq!(rt; of_first, None);
    assert_eq!(rt; of_second, Some(7));
    Ok(())
}

#[test]
fn a_full_guard_refuses_another(rt: HostRuntime) -> Result<(), Fail> {
    let mut host = host_a(rt.alloc(), 1)?;
    refuses_another(&rt, rt.alloc(), &mut host)
}

// Whether a halt brings a host down while it obeys host b.
fn falls(alloc: Global, host: &mut Host, call: u8, byte: u8) -> Result<bool, Fail>
    requires first { 1 ≤ call }
    requires last { call ≤ 4 }
{
    let order = order_of_b(alloc, host, 0)?;
    host.halt(call, byte);
    let halted = host.arrive(alloc, 0, order.as_slice())?;
    Ok(is_halted(&halted, call.into(), byte.into()))
}

// Host a, which a halt brought down while it obeyed host b.
fn fallen(alloc: Global, call: u8, byte: u8) -> Result<Host, Fail>
    requires first { 1 ≤ call }
    requires last { call ≤ 4 }
{
    let mut host = host_a(alloc, 16)?;
    if !falls(alloc, &mut host, call, byte)? {
        return Err(Fail::from("a halt"));
    }
    Ok(host)
}

// Why a host drops a packet that it is to send to host c.
fn unsent(alloc: Global, host: &mut Host) -> Result<Option<Reason>, Fail> {
    let reaction = host.send(alloc, 0, address(HOST_C), 2, &[0])?;
    Ok(drop_in(&reaction))
}

// Host a, which is down.
fn sends_nothing(rt: &impl Abort, alloc: Global, host: &mut Host) -> Result<(), Fail> {
    assert_eq!(rt; unsent(alloc, host)?, Some(Reason::Down));
    Ok(())
}

#[test]
fn a_host_whose_guard_fell_drops_what_is_asked_of_it(rt: HostRuntime) -> Result<(), Fail> {
    let mut host = fallen(rt.alloc(), 1, 0)?;
    sends_nothing(&rt, rt.alloc(), &mut host)
}

// Until when a host says at its restart that it obeys host b: 0 where it says nothing.
fn told(alloc: Global, host: &mut Host) -> Result<Option<u64>, Fail> {
    let said = host.restart(alloc, 0)?;
    if said.events.as_slice().is_empty() {
        Ok(Some(0))
    } else {
        Ok(until_in(&said))
    }
}

// Until when host a keeps that it obeys host b once it is up again, where a halt fell while it obeyed.
fn kept_past(alloc: Global, call: u8, byte: u8) -> Result<Option<u64>, Fail>
    requires first { 1 ≤ call }
    requires last { call ≤ 4 }
{
    let mut host = fallen(alloc, call, byte)?;
    told(alloc, &mut host)
}

#[test]
fn a_restarted_host_tells_what_it_kept(rt: HostRuntime) -> Result<(), Fail> {
    let alloc = rt.alloc();
    assert_eq!(rt; kept_past(alloc, 3, 165)?, Some(10));
    assert_eq!(rt; kept_past(alloc, 4, 165)?, Some(10));
    assert_eq!(rt; kept_past(alloc, 2, 165)?, Some(0));
    assert_eq!(rt; kept_past(alloc, 4, 0)?, Some(0));
    Ok(())
}
