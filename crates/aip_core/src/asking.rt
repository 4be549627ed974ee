//! How a router asks the source of a frame to prove itself.

ghost use Rattle.std.specs.Prelude.{◌≡◌, ◌<◌, length, IsSome, IfSome, IfOk};
ghost use Rattle.byteorder.specs.Endian.{big_bytes};
ghost use Rattle.aip_frame.specs.Frame.{frame_bytes, frame_of};
ghost use Rattle.aip_rules.specs.Router.{asked, challenge_frame, key_after};
ghost use Rattle.aip_core.specs.RouterMachine.{arrival_of};
ghost use Rattle.aip_core.specs.Wiring.{IsWiringOf};

use crate::network::Network;
use crate::ports::target_at;
use crate::router::Arrival;
use aip_addr::Bytes;
use aip_event::{Event, Reason};
use aip_frame::{Frame, Kind, encode, from_of, packet_hash, packet_of};
use aip_rules::Reaction;
use std::alloc::{AllocError, Global};
use verify_packet::{RouterKey, challenge};

/// What a router judges responses by and makes challenges with, after so many restarts.
pub fn key_of(network: &Network, boot: u32, at: &Arrival) -> RouterKey
    requires { IsWiringOf network.now.directory network.now.wiring }
    ensures { result ≡ key_after network.now.directory boot at.now.place at.now.own }
{
    RouterKey {
        address: at.own.address,
        master: at.own.master,
        boot,
        epoch_length: network.directory.settings().epoch,
        ports: network.wiring.port_count(at.place),
    }
}

// The number of a port as its two bytes in a challenge tell it.
#[tactic(auto, using(crate::proofs::RouterPorts::low_bytes))]
fn told_port(port: u64) -> u16
    ensures { big_bytes 2 result ≡ big_bytes 2 port }
{
    (port % 65536) as u16
}

// The body of the challenge that asks the source of a frame.
fn challenge_body(key: &RouterKey, at: &Arrival, bytes: &[u8]) -> [u8; 154]
    requires epochs { 0 < key.now.epoch_length }
    requires frame { IsSome (frame_of bytes.now) }
    ensures body { IfSome (frame_of bytes.now) (λ frame. result ≡ (challenge_frame key.now at.now.time at.now.port frame).body) }
{
    challenge(
        key,
        at.time,
        &from_of(bytes),
        &packet_hash(bytes),
        told_port(at.port),
    )
}

// The bytes of the challenge that asks the source of a frame.
fn challenge_bytes(
    alloc: Global,
    key: &RouterKey,
    at: &Arrival,
    bytes: &[u8],
) -> Result<Bytes, AllocError>
    requires epochs { 0 < key.now.epoch_length }
    requires frame { IsSome (frame_of bytes.now) }
    ensures { IfOk result (λ asking. IfSome (frame_of bytes.now) (λ frame.
        asking ≡ frame_bytes (challenge_frame key.now at.now.time at.now.port frame))) }
{
    let body = challenge_body(key, at, bytes);
    let frame = Frame {
        kind: Kind::Challenge,
        hop: 64,
        packet: packet_of(bytes),
        to: from_of(bytes),
        from: key.address,
        body: Bytes::from_slice(alloc, &body)?,
    };
    encode(alloc, &frame)
}

/// The router asks the source of a frame, by the port `back`; without one it drops the frame. The only error is want of
/// memory.
pub fn ask(
    alloc: Global,
    network: &Network,
    key: &RouterKey,
    at: &Arrival,
    back: Option<u16>,
    bytes: &[u8],
) -> Result<Reaction, AllocError>
    requires wired { IsWiringOf network.now.directory network.now.wiring }
    requires there { at.now.place < length network.now.directory.routers }
    requires epochs { 0 < key.now.epoch_length }
    requires frame { IsSome (frame_of bytes.now) }
    ensures { IfOk result (λ reaction. IfSome (frame_of bytes.now) (λ frame.
        reaction ≡ asked network.now.directory key.now at.now.time (arrival_of at.now) frame back)) }
{
    match back {
        Some(back) => {
            let event = Event::Ask {
                router: at.own.name,
                in_port: at.port,
                out_port: back.into(),
            };
            let target = target_at(network, at.place, back);
            let asking = challenge_bytes(alloc, key, at, bytes)?;
            Reaction::happens_and_puts(alloc, event, target, asking)
        }
        None => Reaction::dropped(alloc, at.own.name, Reason::NoBack),
    }
}
