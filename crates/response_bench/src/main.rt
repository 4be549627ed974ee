//! Times what a router does with a response, beside the verification of the response's signature alone, by the time that the
//! whole program takes. With the word `check` it judges one response 4,000 times, with the word `verify` it verifies the
//! signature as often, and with no word it does each twice.
#![tactic(auto)]

ghost use Rattle.std.specs.Prelude.{◌≡◌, ◌<◌, IfSome, IsSome};
ghost use Rattle.aip_frame.specs.Frame.{frame_of};
ghost use Rattle.aip_frame.specs.declared.frame.Kind.TheVariants as kind;

use aip_addr::{Address, Id};
use aip_frame::{Frame, Kind, MOST_BODY, encode, is_frame, kind_of};
use lms_core::{Height, PublicKey, Tree, Width, signature_len, verify};
use std::alloc::{AllocError, Global};
use std::{env, io};
use verify_packet::{Checked, RouterKey, challenge, check, response_body, response_text};

fn domain() -> Id {
    Id { bytes: [1; 20] }
}

fn router() -> RouterKey
    ensures { 0 < result.epoch_length }
{
    RouterKey {
        address: Address {
            ad: domain(),
            eid: Id { bytes: [0; 20] },
        },
        master: [7; 32],
        boot: 0,
        epoch_length: 60,
        ports: 3,
    }
}

/// The host that owns a key.
fn host(key: &PublicKey) -> Address {
    Address {
        ad: domain(),
        eid: Id::of_key(&key.bytes(), 0),
    }
}

/// What the router asks of the host.
fn asked(key: &PublicKey) -> [u8; 154] {
    challenge(&router(), 0, &host(key), &[5; 32], 0)
}

/// The host's signature under its leaf 0.
fn signature(alloc: Global, tree: &Tree) -> Result<Vec<u8>, AllocError> {
    let mut signature = vec![in alloc; 0; signature_len(tree.width(), tree.height())]?;
    tree.sign(0, &response_text(&asked(&tree.public())), &mut signature);
    Ok(signature)
}

/// The frame in which the host answers.
fn response(alloc: Global, key: &PublicKey, signature: &[u8]) -> Result<Vec<u8>, AllocError> {
    let body = response_body(alloc, &asked(key), key, signature)?;
    if body.as_slice().len() > MOST_BODY {
        return Ok(Vec::new(alloc));
    }
    let frame = Frame {
        kind: Kind::Response,
        hop: 64,
        packet: 1,
        to: router().address,
        from: host(key),
        body,
    };
    Ok(encode(alloc, &frame)?.into_vec())
}

/// How often the router takes the source of a response as proved, of so many times.
fn proved_times(asks: &RouterKey, frame: &[u8], count: u32) -> u32
    requires epochs { 0 < asks.now.epoch_length }
    requires frame { IsSome (frame_of frame.now) }
    requires response { IfSome (frame_of frame.now) (λ f. f.kind ≡ kind.Response) }
{
    let mut proved: u32 = 0;
    'times: for now in 0..count {
        if check(asks, u64::from(now % 60), frame).number() == 0 {
            proved = proved.wrapping_add(1);
        }
    }
    proved
}

/// How often the signature of a response is valid, of so many times.
fn valid_times(key: &PublicKey, signature: &[u8], count: u32) -> u32 {
    let text = response_text(&asked(key));
    let mut valid: u32 = 0;
    'times: for _ in 0..count {
        if verify(key, &text, signature) {
            valid = valid.wrapping_add(1);
        }
    }
    valid
}

/// Judges the response, if the word is no other.
fn time_check<R: Print>(rt: &R, word: &str, frame: &[u8], count: u32) -> io::Result<()> {
    let asks = router();
    if word != "verify" && is_frame(frame) && kind_of(frame) == Kind::Response {
        let proved = proved_times(&asks, frame, count);
        println!(rt; "{proved} of {count} are proved")?;
    }
    Ok(())
}

/// Verifies the signature, if the word is no other.
fn time_verify<R: Print>(
    rt: &R,
    word: &str,
    key: &PublicKey,
    signature: &[u8],
    count: u32,
) -> io::Result<()> {
    if word != "check" {
        let valid = valid_times(key, signature, count);
        println!(rt; "{valid} of {count} are valid")?;
    }
    Ok(())
}

fn main(rt: HostRuntime) -> io::Result<()> {
    let word = env::args(&rt)?.nth(1);
    let word = match &word {
        Some(word) => word.as_str(),
        None => "",
    };
    let count = if word.is_empty() { 2 } else { 4000 };
    let tree = Tree::build(rt.alloc(), &[1; 32], Width::W4, Height::H5)?;
    let signature = signature(rt.alloc(), &tree)?;
    let frame = response(rt.alloc(), &tree.public(), &signature)?;
    time_check(&rt, word, &frame, count)?;
    time_verify(&rt, word, &tree.public(), &signature, count)
}
