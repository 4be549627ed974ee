// Whole frames: what bytes spell, and their hash.
ghost use Rattle.std.specs.Prelude.{◌≡◌, IfOk, IfSome, IsSome};
ghost use Rattle.aip_frame.specs.Frame.{IsFrame, frame_of, packet_hash_of};
ghost use Rattle.aip_frame.specs.Laws.{NoPrefixIsAFrame, NoLongerIsAFrame};

use crate::fields::{body_of, from_of, hop_of, is_frame, kind_of, packet_of, to_of};
use crate::frame::Frame;
use aip_addr::Bytes;
use sha2::{Digest, Sha256};
use std::alloc::{AllocError, Global};

/// The frame that the bytes spell, and None exactly where they spell none. The only error is want of memory.
pub fn parse(alloc: Global, bytes: &[u8]) -> Result<Option<Frame>, AllocError>
    ensures exact { IfOk result (λ parsed. parsed ≡ frame_of bytes.now) }
    ensures sound { IfOk result (λ parsed. IfSome parsed (λ f. IsFrame bytes.now f)) }
{
    if !is_frame(bytes) {
        return Ok(None);
    }
    let body = Bytes::from_slice(alloc, body_of(bytes))?;
    Ok(Some(Frame {
        kind: kind_of(bytes),
        hop: hop_of(bytes),
        packet: packet_of(bytes),
        to: to_of(bytes),
        from: from_of(bytes),
        body,
    }))
}

/// The packet hash of a frame: SHA-256 of its bytes with hop limit 0. Routers that forward the frame don't change it.
#[tactic(auto, using(crate::proofs::Frames::long))]
pub fn packet_hash(bytes: &[u8]) -> [u8; 32]
    requires { IsSome (frame_of bytes.now) }
    ensures { IfSome (frame_of bytes.now) (λ f. result ≡ packet_hash_of f) }
{
    let mut hasher = Sha256::new();
    hasher.update(&bytes[..2]);
    hasher.update(&[0]);
    hasher.update(&bytes[3..]);
    hasher.finalize()
}

/// A law: no proper prefix of a frame is a frame.
#[tactic(auto, using(crate::proofs::Ends::no_prefix))]
pub fn no_prefix_is_a_frame()
    ensures { NoPrefixIsAFrame }
{}

/// A law: no frame with bytes behind it is a frame.
#[tactic(auto, using(crate::proofs::Ends::no_longer))]
pub fn no_longer_is_a_frame()
    ensures { NoLongerIsAFrame }
{}
