// The bytes of a shut-off, and of the text that it signs.
ghost use Rattle.std.specs.Prelude.{◌≡◌, ◌≤◌, IfOk, length, take, drop};
ghost use Rattle.aip_addr.specs.Ids.{address_bytes};
ghost use Rattle.shutoff_filter.specs.Body.{order_in, shutoff_of, shutoff_text_of, text_tail};

use aip_addr::{Address, Bytes};
use byteorder::{BigEndian, ByteOrder};
use lms_core::PublicKey;
use std::alloc::{AllocError, Global};

/// The least bytes that the body of a shut-off has.
pub const SHORTEST: usize = 100;

/// What the body of a shut-off says before its signature.
#[derive(Clone, Copy)]
pub struct Order {
    /// The hash of the packet that is complained of.
    pub hash: [u8; 32],
    /// When it was issued, in ticks.
    pub issue: u64,
    /// For how many ticks from then on it is in force.
    pub ttl: u32,
    /// The public key of its sender.
    pub key: [u8; 56],
}

// Writes the packet hash, the time of issue and the ticks that a shut-off lasts.
fn write_tail(out: &mut [u8], hash: &[u8; 32], issue: u64, ttl: u32)
    requires { length out.old ≡ 44 }
    ensures { out.new ≡ text_tail hash.now issue ttl }
{
    let (hash_part, rest) = out.split_at_mut(32);
    hash_part.copy_from_slice(hash);
    let (issue_part, ttl_part) = rest.split_at_mut(8);
    issue_part.copy_from_slice(&issue.to_be_bytes());
    ttl_part.copy_from_slice(&ttl.to_be_bytes());
}

/// The text that a receiver signs to shut a source off: "AIP1 shutoff" (12 bytes), the source and the destination of the
/// shut-off's own frame (40 bytes each), the packet hash (32), the tick of issue (8) and the number of ticks that it
/// lasts (4), numbers big-endian.
pub fn shutoff_text(
    from: &Address,
    to: &Address,
    hash: &[u8; 32],
    issue: u64,
    ttl: u32,
) -> [u8; 136]
    ensures { result ≡ shutoff_text_of from.now to.now hash.now issue ttl }
{
    let mut text = [0; 136];
    let (title, rest) = text.split_at_mut(12);
    title.copy_from_slice(b"AIP1 shutoff");
    let (from_part, rest) = rest.split_at_mut(40);
    from_part.copy_from_slice(&from.write());
    let (to_part, tail) = rest.split_at_mut(40);
    to_part.copy_from_slice(&to.write());
    write_tail(tail, hash, issue, ttl);
    text
}

/// The body of a shut-off: the packet hash (32 bytes), the tick of issue (8), the number of ticks that it lasts (4), the
/// receiver's public key (56), and its signature of the text to the end, numbers big-endian. The only error is want of
/// memory.
pub fn shutoff_body(
    alloc: Global,
    hash: &[u8; 32],
    issue: u64,
    ttl: u32,
    key: &PublicKey,
    signature: &[u8],
) -> Result<Bytes, AllocError>
    ensures { IfOk result (λ body. body ≡ shutoff_of hash.now issue ttl key.now signature.now) }
{
    let mut tail = [0; 44];
    write_tail(&mut tail, hash, issue, ttl);
    let mut body = Vec::with_capacity(alloc, SHORTEST + signature.len())?;
    body.extend_from_slice(&tail)?;
    body.extend_from_slice(&key.bytes())?;
    body.extend_from_slice(signature)?;
    Ok(Bytes::from_vec(body))
}

// A packet hash as an array.
fn hash_at(bytes: &[u8]) -> [u8; 32]
    requires { 32 ≤ length bytes.now }
    ensures { result ≡ take 32 bytes.now }
{
    let mut hash = [0; 32];
    hash.copy_from_slice(&bytes[..32]);
    hash
}

// A public key as an array.
fn key_at(bytes: &[u8]) -> [u8; 56]
    requires { 100 ≤ length bytes.now }
    ensures { result ≡ take 56 (drop 44 bytes.now) }
{
    let mut key = [0; 56];
    key.copy_from_slice(&bytes[44..100]);
    key
}

/// What a body of a shut-off says before its signature.
#[tactic(auto, unfolding(crate::specs::Body::order_in))]
pub fn order_in(body: &[u8]) -> Order
    requires { 100 ≤ length body.now }
    ensures { result ≡ order_in body.now }
{
    Order {
        hash: hash_at(body),
        issue: BigEndian::read_u64(&body[32..40]),
        ttl: BigEndian::read_u32(&body[40..44]),
        key: key_at(body),
    }
}
