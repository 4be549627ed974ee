// How a source answers, and how a router checks the answer.
ghost use Rattle.std.specs.Prelude.{◌≡◌, ◌<◌, ◌≤◌, ◌++◌, length, take, drop, IfOk, IfSome, IsSome};
ghost use Rattle.aip_frame.specs.Frame.{frame_of};
ghost use Rattle.aip_frame.specs.declared.frame.Kind.TheVariants as kind;
ghost use Rattle.lms_core.specs.Verify.{is_valid_signature};
ghost use Rattle.verify_packet.specs.Challenge.{asked_in, epoch_at};
ghost use Rattle.verify_packet.specs.Response.{answer_verdict, challenge_in, has_tag, is_asked, is_current, key_in, refusal_number, response_of, response_text_of, response_verdict, signature_in};

use crate::challenges::{
    ASKED_LEN, RouterKey, asked_epoch, asked_port, asked_router, asked_source, asked_tag,
    router_tag,
};
use aip_addr::{Address, Bytes, owns};
use aip_frame::{body_of, from_of};
use lms_core::{PublicKey, verify_under};
use std::alloc::{AllocError, Global};

/// How a response is judged: the source is proved, or the first reason why not.
#[derive(Clone, Copy, Debug, PartialEq, Eq)]
pub enum Checked {
    /// The source is proved for the port at which its packet came.
    Proved {
        /// The source.
        source: Address,
        /// The port.
        port: u16,
    },
    /// The body has fewer than 210 bytes.
    Body,
    /// The challenge wasn't this router's, or asked another source.
    Other,
    /// The challenge's epoch is neither the current one nor the one before.
    Old,
    /// The tag isn't this router's, under its secret of that epoch since its boot.
    Tag,
    /// The router has no such port.
    Port,
    /// The key doesn't own the source's id.
    Key,
    /// The signature isn't valid.
    Signature,
}

impl Checked {
    /// The number of a refusal, 1 to 7 in the order of the list, and 0 for a source that is proved.
    pub fn number(self) -> u64
        ensures { result ≡ refusal_number self }
    {
        match self {
            Checked::Proved { .. } => 0,
            Checked::Body => 1,
            Checked::Other => 2,
            Checked::Old => 3,
            Checked::Tag => 4,
            Checked::Port => 5,
            Checked::Key => 6,
            Checked::Signature => 7,
        }
    }
}

/// The text that a source signs to answer a challenge: "AIP1 response" (13 bytes) and the challenge's body.
pub fn response_text(body: &[u8; 154]) -> [u8; 167]
    ensures { result ≡ response_text_of body.now }
{
    let mut text = [0; 167];
    let (title, asked) = text.split_at_mut(13);
    title.copy_from_slice(b"AIP1 response");
    asked.copy_from_slice(body);
    text
}

/// The body of a response: the challenge's body (154 bytes), the source's public key (56), and its signature of the
/// response text, to the end. The only error is want of memory.
pub fn response_body(
    alloc: Global,
    asked: &[u8; 154],
    key: &PublicKey,
    signature: &[u8],
) -> Result<Bytes, AllocError>
    ensures { IfOk result (λ body. body ≡ response_of asked.now key.now signature.now) }
{
    let mut body = Vec::with_capacity(alloc, 210 + signature.len())?;
    body.extend_from_slice(asked)?;
    body.extend_from_slice(&key.bytes())?;
    body.extend_from_slice(signature)?;
    Ok(Bytes::from_vec(body))
}

// Whether a challenge was this router's, and asked this source.
#[tactic(auto, unfolding(crate::specs::Response::is_asked))]
fn is_asked(router: &RouterKey, source: &Address, asked: &[u8; 154]) -> bool
    ensures { result ≡ is_asked router.now source.now (asked_in asked.now) }
{
    asked_router(asked) == router.address && asked_source(asked) == *source
}

// Whether the current epoch is that of a challenge, or the next.
#[tactic(auto, unfolding(crate::specs::Response::is_current))]
fn is_current(current: u64, epoch: u64) -> bool
    ensures { result ≡ is_current current epoch }
{
    current == epoch || (current > 0 && current - 1 == epoch)
}

// Whether the tag of a challenge is the router's.
#[tactic(auto, unfolding(crate::specs::Response::has_tag))]
fn has_tag(router: &RouterKey, asked: &[u8; 154], epoch: u64) -> bool
    ensures { result ≡ has_tag router.now asked.now epoch }
{
    asked_tag(asked) == router_tag(router, epoch, &asked[..ASKED_LEN])
}

// A challenge's body as an array.
fn challenge_in(bytes: &[u8]) -> [u8; 154]
    requires { length bytes.now ≡ 154 }
    ensures { result ≡ bytes.now }
{
    let mut asked = [0; 154];
    asked.copy_from_slice(bytes);
    asked
}

// A public key as an array.
fn key_in(bytes: &[u8]) -> [u8; 56]
    requires { length bytes.now ≡ 56 }
    ensures { result ≡ bytes.now }
{
    let mut key = [0; 56];
    key.copy_from_slice(bytes);
    key
}

/// How a router judges a response that reaches it at a time: the first refusal that applies, or the source as proved.
#[tactic(auto, using(crate::proofs::Answering::judged, crate::proofs::Answering::short))]
pub fn check(router: &RouterKey, now: u64, frame: &[u8]) -> Checked
    requires epochs { 0 < router.now.epoch_length }
    requires frame { IsSome (frame_of frame.now) }
    requires response { IfSome (frame_of frame.now) (λ f. f.kind ≡ kind.Response) }
    ensures { IfSome (frame_of frame.now) (λ f. result ≡ response_verdict router.now now f) }
{
    let body = body_of(frame);
    if body.len() < 210 {
        return Checked::Body;
    }
    judge_body(router, now, &from_of(frame), body)
}

// How a router judges the answer in a body that is long enough.
fn judge_body(router: &RouterKey, now: u64, source: &Address, body: &[u8]) -> Checked
    requires epochs { 0 < router.now.epoch_length }
    requires long { 210 ≤ length body.now }
    ensures { result ≡ answer_verdict router.now now source.now
        (challenge_in body.now) (key_in body.now) (signature_in body.now) }
{
    let (asked, rest) = body.split_at(154);
    let (key, signature) = rest.split_at(56);
    judge(
        router,
        now,
        source,
        &challenge_in(asked),
        &key_in(key),
        signature,
    )
}

// How a router judges the answer to a challenge.
fn judge(
    router: &RouterKey,
    now: u64,
    source: &Address,
    asked: &[u8; 154],
    key: &[u8; 56],
    signature: &[u8],
) -> Checked
    requires epochs { 0 < router.now.epoch_length }
    ensures { result ≡ answer_verdict router.now now source.now asked.now key.now signature.now }
{
    if !is_asked(router, source, asked) {
        return Checked::Other;
    }
    let epoch = asked_epoch(asked);
    if !is_current(now / router.epoch_length, epoch) {
        return Checked::Old;
    }
    if !has_tag(router, asked, epoch) {
        return Checked::Tag;
    }
    let port = asked_port(asked);
    if port >= router.ports {
        return Checked::Port;
    }
    if !owns(key, &source.eid) {
        return Checked::Key;
    }
    if !verify_under(key, &response_text(asked), signature) {
        return Checked::Signature;
    }
    Checked::Proved {
        source: *source,
        port,
    }
}
