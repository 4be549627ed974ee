//! One-time signatures: LM-OTS of RFC 8554, section 4, with SHA-256, n = 32, and digits of 1, 2, 4 or 8 bits.
//!
//! A private key is a secret SEED of 32 bytes, an identifier I of 16 bytes and the number q of a leaf; it may sign one
//! message. `public` gives its public key K, `sign` a signature, and `candidate` the key that a signature leads to:
//! the signature is valid exactly where that is K. All numbers are written high byte first.
//!
//! ```text
//! let key = public(Width::W4, &seed, &id, 0);
//! let mut signature = [0; 2180];
//! sign(Width::W4, &seed, &id, 0, b"text", &mut signature);
//! let is_valid = candidate(&id, 0, b"text", &signature) == Some(key);
//! ```
#![tactic(auto)]

ghost use Rattle.std.specs.Prelude.{◌≡◌, ◌+◌, ◌≤◌, ◌++◌, length, take, Some};
ghost use Rattle.std.specs.Int.{w32, to_be_bytes};
ghost use Rattle.sha2.specs.Hashers.{Holds256};
ghost use Rattle.lmots_core.specs.Parameters.{chains_of, code_of, signature_len_of};
ghost use Rattle.lmots_core.specs.Chains.{candidate_of, candidate_under, joined, key_of, message_hash, prefix, public_of, randomizer_of, signature_of, signed_part, whole_width_in};

pub use parameters::Width;
use parts::MOST_CHAINS;
use sha2::{Digest, Sha256};
use values::bytes_of;

mod chains;
mod digits;
mod lanes;
mod parameters;
mod parts;
mod rounds;
#[cfg(test)]
mod tests;
mod values;

// What stands in the place of a chain's number in the hash of the chains' ends, and of a message
// (RFC 8554, sections 4.3 and 4.5).
const D_PBLC: u16 = 0x8080;

const D_MESG: u16 = 0x8181;

// What stands in the place of a chain's number in the secret that is the randomizer.
const RANDOMIZER: u16 = 0xfffd;

// Where the randomizer and the parts begin in a signature.
const PLACE_OF_RANDOMIZER: usize = 4;

const PLACE_OF_PARTS: usize = 36;

// A hasher of the leaf `q` and `kind`, which stands in the place of a chain's number.
fn hasher_of(id: &[u8; 16], q: u32, kind: u16) -> Sha256
    ensures { Holds256 result (prefix id.now q kind) }
{
    let mut hasher = Sha256::new();
    hasher.update(id);
    hasher.update(q.to_be_bytes());
    hasher.update(kind.to_be_bytes());
    hasher
}

// Q, the hash of a message (RFC 8554, section 4.5).
fn message_hash(id: &[u8; 16], q: u32, randomizer: &[u8], message: &[u8]) -> [u8; 32]
    ensures { result ≡ message_hash id.now q randomizer.now message.now }
{
    let mut hasher = hasher_of(id, q, D_MESG);
    hasher.update(randomizer);
    hasher.update(message);
    hasher.finalize()
}

/// The public key K of the leaf `q` (RFC 8554, section 4.3), of 32 bytes.
pub fn public(width: Width, seed: &[u8; 32], id: &[u8; 16], q: u32) -> [u8; 32]
    ensures { result ≡ public_of width seed.now id.now q }
{
    let block = chains::leaf_block(id, q);
    let count = width.chains();
    let mut hasher = hasher_of(id, q, D_PBLC);
    // Four chains at a time, side by side.
    'groups: for group in 0..count.div_ceil(4) {
        let first = 4 * group;
        let ends = lanes::four_chains(&block, first as u32, width.greatest(), seed);
        lanes::add_lanes(&mut hasher, &ends, (count - first).min(4));
    }
    hasher.finalize()
}

// Writes 32 bytes to `out` from `place` on.
fn put(out: &mut [u8], place: usize, bytes: &[u8; 32])
    requires { place + 32 ≤ length out.old }
    ensures { take (place + 32) out.new ≡ take place out.old ++ bytes.now }
{
    let (_, back) = out.split_at_mut(place);
    let (part, _) = back.split_at_mut(32);
    part.copy_from_slice(bytes);
}

// Writes the code and the randomizer of a signature to `out`.
fn put_head(out: &mut [u8], width: Width, randomizer: &[u8; 32])
    requires { 36 ≤ length out.old }
    ensures { take 36 out.new ≡ to_be_bytes w32 (code_of width) ++ randomizer.now }
{
    let (code, _) = out.split_at_mut(PLACE_OF_RANDOMIZER);
    code.copy_from_slice(&width.code().to_be_bytes());
    put(out, PLACE_OF_RANDOMIZER, randomizer);
}

// Writes the parts of a signature of the hash `hash` to `out`, behind its head.
fn put_parts(width: Width, seed: &[u8; 32], id: &[u8; 16], q: u32, hash: &[u8; 32], out: &mut [u8])
    requires { length out.old ≡ signature_len_of width }
    ensures { out.new ≡ take 36 out.old ++ joined (signed_part width seed.now id.now q hash.now) (chains_of width) }
{
    let mut values = [[0; 8]; MOST_CHAINS];
    let (values, _) = values.split_at_mut(width.chains());
    parts::sign_values(width, seed, id, q, hash, values);
    'chains: for i in 0..width.chains() {
        put(out, PLACE_OF_PARTS + 32 * i, &bytes_of(&values[i]));
    }
}

/// Writes the signature of `message` under the leaf `q` to `out` (RFC 8554, section 4.5): the code of the width in four
/// bytes, the randomizer of 32 bytes, and a part of 32 bytes for each chain.
pub fn sign(width: Width, seed: &[u8; 32], id: &[u8; 16], q: u32, message: &[u8], out: &mut [u8])
    requires { length out.old ≡ signature_len_of width }
    ensures exact { out.new ≡ signature_of width seed.now id.now q message.now }
    // Each signature leads to the public key, so it is accepted.
    ensures valid { candidate_of id.now q message.now out.new ≡ Some (public_of width seed.now id.now q) }
{
    let randomizer = chains::secret(&mut chains::leaf_block(id, q), RANDOMIZER, seed);
    let hash = message_hash(id, q, &randomizer, message);
    put_head(out, width, &randomizer);
    put_parts(width, seed, id, q, &hash, out);
}

// The width that a signature names and has the length of.
fn width_of_signature(signature: &[u8]) -> Option<Width>
    ensures { result ≡ whole_width_in signature.now }
{
    if signature.len() < PLACE_OF_RANDOMIZER {
        return None;
    }
    let code = u32::from_be_bytes([signature[0], signature[1], signature[2], signature[3]]);
    let width = Width::from_code(code)?;
    if signature.len() == width.signature_len() {
        Some(width)
    } else {
        None
    }
}

// The key that a signature of the width `width` leads to.
fn candidate_under(
    width: Width,
    id: &[u8; 16],
    q: u32,
    message: &[u8],
    signature: &[u8],
) -> [u8; 32]
    requires { length signature.now ≡ signature_len_of width }
    ensures { result ≡ candidate_under width id.now q message.now signature.now }
{
    let randomizer = &signature[PLACE_OF_RANDOMIZER..PLACE_OF_PARTS];
    let hash = message_hash(id, q, randomizer, message);
    let mut values = [[0; 8]; MOST_CHAINS];
    let (values, _) = values.split_at_mut(width.chains());
    parts::end_values(width, id, q, &hash, signature, values);
    let mut hasher = hasher_of(id, q, D_PBLC);
    'chains: for i in 0..width.chains() {
        hasher.update(&bytes_of(&values[i]));
    }
    hasher.finalize()
}

/// The key that `signature` leads to for `message` under the leaf `q` (RFC 8554, section 4.6, algorithm 4b).
/// `None` where the signature has fewer than four bytes, its first four are the code of no width, or its length isn't
/// that width's.
pub fn candidate(id: &[u8; 16], q: u32, message: &[u8], signature: &[u8]) -> Option<[u8; 32]>
    ensures { result ≡ candidate_of id.now q message.now signature.now }
{
    let width = width_of_signature(signature)?;
    Some(candidate_under(width, id, q, message, signature))
}
