//! Sources with keys, and what they send: each a packet, and the response to the challenge that this brings.

ghost use Rattle.std.specs.Prelude.{◌<◌};
ghost use Rattle.lms_core.specs.Parameters.{leaves_of};

use crate::network::{Fault, bring, deliver, network, receiver, source};
use aip_addr::{Address, Bytes, Id};
use aip_core::Core;
use aip_event::Event;
use aip_frame::{Frame, Kind, MOST_BODY, body_of, encode, from_of, is_frame, kind_of};
use lms_core::{Height, Tree, Width, signature_len};
use std::alloc::{AllocError, Global};
use verify_packet::{response_body, response_text};

/// What a source sends.
#[derive(Drop)]
pub struct Source {
    /// A packet for the host.
    pub packet: Bytes,
    /// The answer to the challenge about it.
    pub response: Bytes,
}

/// A packet for the host, without content.
pub fn packet(alloc: Global, from: Address) -> Result<Bytes, AllocError> {
    let frame = Frame {
        kind: Kind::Data,
        hop: 64,
        packet: 7,
        to: receiver(),
        from,
        body: Bytes::from_vec(Vec::new(alloc)),
    };
    encode(alloc, &frame)
}

/// The bytes that were put, if any were.
fn put(events: &[Event]) -> Option<&[u8]> {
    for event in events {
        if let Event::Put { bytes, .. } = event {
            return Some(bytes.as_slice());
        }
    }
    None
}

/// The response of a source, signed with a leaf of its key.
fn response(
    alloc: Global,
    tree: &Tree,
    leaf: u32,
    to: Address,
    from: Address,
    asked: &[u8; 154],
) -> Result<Bytes, Fault>
    requires { leaf < leaves_of tree.now.height }
{
    let mut signature = vec![in alloc; 0; signature_len(tree.width(), tree.height())]?;
    tree.sign(leaf, &response_text(asked), &mut signature);
    let body = response_body(alloc, asked, &tree.public(), &signature)?;
    if body.as_slice().len() > MOST_BODY {
        return Err(Fault::Refused);
    }
    let frame = Frame {
        kind: Kind::Response,
        hop: 64,
        packet: 7,
        to,
        from,
        body,
    };
    Ok(encode(alloc, &frame)?)
}

/// The response of a source to a challenge.
fn answer(
    alloc: Global,
    tree: &Tree,
    leaf: u32,
    from: Address,
    challenge: &[u8],
) -> Result<Bytes, Fault>
    requires { leaf < leaves_of tree.now.height }
{
    if !is_frame(challenge) || kind_of(challenge) != Kind::Challenge {
        return Err(Fault::Unasked);
    }
    let body = body_of(challenge);
    if body.len() != 154 {
        return Err(Fault::Unasked);
    }
    let mut asked = [0; 154];
    asked.copy_from_slice(body);
    response(alloc, tree, leaf, from_of(challenge), from, &asked)
}

/// Asks a source that answers with a leaf of a key, whose number is the interface of its id too.
fn ask(alloc: Global, core: Core, tree: &Tree, leaf: u32) -> Result<(Core, Source), Fault>
    requires { leaf < leaves_of tree.now.height }
{
    let eid = Id::of_key(&tree.public().bytes(), (leaf % 256) as u8);
    let from = source(leaf, eid);
    let packet = packet(alloc, from)?;
    let (core, flight) = bring(alloc, core, packet.as_slice())?;
    let (core, events) = deliver(alloc, core, flight)?;
    match put(events.as_slice()) {
        Some(challenge) => {
            let response = answer(alloc, tree, leaf, from, challenge)?;
            Ok((core, Source { packet, response }))
        }
        None => Err(Fault::Unasked),
    }
}

/// The key of a number.
fn key(alloc: Global, number: u32) -> Result<Tree, AllocError> {
    let mut seed = [7; 32];
    [seed[0], seed[1], seed[2], seed[3]] = number.to_be_bytes();
    Tree::build(alloc, &seed, Width::W2, Height::H5)
}

/// Asks a source for each leaf of the key of a number, and adds them.
fn ask_all(alloc: Global, core: Core, number: u32, out: &mut Vec<Source>) -> Result<Core, Fault> {
    let tree = key(alloc, number)?;
    let mut core = core;
    'leaves: for leaf in 0..tree.height().leaves() {
        let (next, source) = ask(alloc, core, &tree, leaf)?;
        core = next;
        if out.push(source).is_err() {
            return Err(Fault::Memory);
        }
    }
    Ok(core)
}

/// The sources of so many keys, 32 of each.
pub fn sources(alloc: Global, keys: u32) -> Result<Vec<Source>, Fault> {
    let mut core = network(alloc, 64)?;
    let mut out = Vec::new(alloc);
    'keys: for number in 0..keys {
        core = ask_all(alloc, core, number, &mut out)?;
    }
    Ok(out)
}

/// A packet of the source of a number that has no key.
pub fn stranger(alloc: Global, number: u32) -> Result<Bytes, AllocError> {
    let mut bytes = [9; 20];
    bytes[0] = 1;
    [bytes[1], bytes[2], bytes[3], bytes[4]] = number.to_be_bytes();
    packet(alloc, source(number, Id { bytes }))
}
