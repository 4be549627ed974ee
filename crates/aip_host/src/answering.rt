// How a host answers a challenge.
ghost use Rattle.std.specs.Prelude.{◌≡◌, ◌≤◌, false, length, IfOk, OnOk};
ghost use Rattle.aip_frame.specs.Frame.{frame_bytes, most_body};
ghost use Rattle.lms_core.specs.Tree.{public_key_of};
ghost use Rattle.lms_core.specs.Parameters.{most_signature};
ghost use Rattle.verify_packet.specs.Response.{response_of, response_text_of};
ghost use Rattle.aip_host.specs.Signing.{IsShort, Spends, signing_of, next_after, stop_after, down_after};
ghost use Rattle.aip_host.specs.Ended.{ended, response_frame};

use crate::framing::{framed, signed, stopped};
use crate::signing::{Signing, SigningKey};
use aip_addr::{Address, Bytes};
use aip_event::{Reason, Target};
use aip_frame::{Frame, Kind};
use aip_rules::{Reaction, Seat};
use lms_core::PublicKey;
use std::alloc::{AllocError, Global};
use verify_packet::{asked_router, response_body, response_text};

/// The body of a challenge.
pub fn challenge_in(challenge: &Frame) -> [u8; 154]
    requires { length challenge.now.body ≡ 154 }
    ensures { result ≡ challenge.now.body }
{
    let mut body = [0; 154];
    body.copy_from_slice(challenge.body.as_slice());
    body
}

// The body of a response, which fits a frame.
fn short_response(
    alloc: Global,
    challenge: &[u8; 154],
    key: &PublicKey,
    signature: &[u8],
) -> Result<Bytes, AllocError>
    requires { length signature.now ≤ most_signature }
    ensures body { IfOk result (λ body. body ≡ response_of challenge.now key.now signature.now) }
    ensures size { IfOk result (λ body. length body ≤ most_body) }
{
    let _key = key.bytes();
    response_body(alloc, challenge, key, signature)
}

// The bytes of a response.
fn response(
    alloc: Global,
    from: Address,
    challenge: &Frame,
    key: &PublicKey,
    signature: &[u8],
) -> Result<Bytes, AllocError>
    requires challenge { length challenge.now.body ≡ 154 }
    requires short { length signature.now ≤ most_signature }
    ensures { IfOk result (λ bytes. bytes ≡ frame_bytes (response_frame from challenge.now key.now signature.now)) }
{
    let asked = challenge_in(challenge);
    let body = short_response(alloc, &asked, key, signature)?;
    framed(
        alloc,
        Kind::Response,
        challenge.packet,
        asked_router(&asked),
        from,
        body,
    )
}

// What comes of a signing for a response.
fn responded(
    alloc: Global,
    seat: &Seat,
    towards: Target,
    challenge: &Frame,
    key: &PublicKey,
    signing: Signing,
) -> Result<Reaction, AllocError>
    requires challenge { length challenge.now.body ≡ 154 }
    requires short { IsShort signing }
    ensures { IfOk result (λ reaction. reaction
        ≡ ended seat.now towards (response_frame seat.now.address challenge.now key.now) signing) }
{
    match signing {
        Signing::Dry => Reaction::dropped(alloc, seat.name, Reason::Dry),
        Signing::Stopped { leaf, call, byte } => stopped(alloc, seat.name, leaf, call, byte),
        Signing::Signed { leaf, signature } => {
            let bytes = response(alloc, seat.address, challenge, key, signature.as_slice())?;
            signed(alloc, seat.name, towards, leaf, bytes)
        }
    }
}

/// Answers a challenge with a key that is up. The only error is want of memory.
pub fn answer(
    alloc: Global,
    key: &mut SigningKey,
    seat: &Seat,
    towards: Target,
    challenge: &Frame,
) -> Result<Reaction, AllocError>
    requires up { key.old.is_down ≡ false }
    requires challenge { length challenge.now.body ≡ 154 }
    ensures reaction { IfOk result (λ reaction. reaction ≡ ended seat.now towards
        (response_frame seat.now.address challenge.now (public_key_of key.old.key))
        (signing_of key.old (response_text_of challenge.now.body))) }
    ensures next { OnOk result (key.new.next ≡ next_after key.old) }
    ensures stop { OnOk result (key.new.stop ≡ stop_after key.old) }
    ensures down { OnOk result (key.new.is_down ≡ down_after key.old) }
    ensures key { key.new.key ≡ key.old.key }
    ensures spends { Spends key.new }
{
    let public = key.public();
    match key.sign(alloc, &response_text(&challenge_in(challenge))) {
        Ok(signing) => responded(alloc, seat, towards, challenge, &public, signing),
        Err(end) => Err(end),
    }
}
