//! HMAC-SHA-256 (RFC 2104), and the secrets that a router makes by it for each boot and epoch.
//!
//! Nothing here takes memory, and no key or message is refused.
//!
//! ```rust
//! use aip_mac::{hmac, secret};
//!
//! // The tag of a text under a router's secret of its first boot and epoch 3.
//! let master = [7; 32];
//! let tag = hmac(&secret(&master, 0, 3), b"a text");
//! assert!(rt; tag != hmac(&secret(&master, 0, 4), b"a text"));
//! ```
#![tactic(auto)]

ghost use Rattle.std.specs.Prelude.{◌≡◌, ◌≤◌, ◌++◌, length};
ghost use Rattle.sha2.specs.Sha256.{sha256};
ghost use Rattle.aip_mac.specs.Hmac.{short_key, padded, masked, hmac_of, secret_of};

use sha2::{Digest, Sha256};

#[cfg(test)]
mod tests;

// The length of a block of SHA-256, in bytes.
const BLOCK: usize = 64;

const INNER_PAD: u8 = 0x36;

const OUTER_PAD: u8 = 0x5c;

/// The HMAC-SHA-256 of `message` under `key`, each of any length (RFC 2104, section 2).
#[tactic(auto, unfolding(crate::specs::Hmac::hmac_of))]
pub fn hmac(key: &[u8], message: &[u8]) -> [u8; 32]
    ensures { result ≡ hmac_of key.now message.now }
{
    let block = key_block(key);
    let inner = digest_of(&masked_by(&block, INNER_PAD), message);
    digest_of(&masked_by(&block, OUTER_PAD), &inner)
}

/// The secret for the epoch `epoch` after the boot numbered `boot`: the HMAC of `boot` (4 bytes) and
/// `epoch` (8 bytes), high bytes first, under the master secret.
pub fn secret(master: &[u8; 32], boot: u32, epoch: u64) -> [u8; 32]
    ensures { result ≡ secret_of master.now boot epoch }
{
    let mut numbers = [0u8; 12];
    let (first, last) = numbers.split_at_mut(4);
    first.copy_from_slice(&boot.to_be_bytes());
    last.copy_from_slice(&epoch.to_be_bytes());
    hmac(master, &numbers)
}

// The key as one block: hashed if it is longer, and filled up with zeros.
fn key_block(key: &[u8]) -> [u8; 64]
    ensures { result ≡ padded (short_key key.now) }
{
    if key.len() > BLOCK {
        filled_up(&Sha256::digest(key))
    } else {
        filled_up(key)
    }
}

// The bytes, followed by zeros up to a block.
fn filled_up(bytes: &[u8]) -> [u8; 64]
    requires { length bytes.now ≤ 64 }
    ensures { result ≡ padded bytes.now }
{
    let mut block = [0u8; 64];
    let (front, _) = block.split_at_mut(bytes.len());
    front.copy_from_slice(bytes);
    block
}

// The block with each byte changed by the pad.
fn masked_by(block: &[u8; 64], pad: u8) -> [u8; 64]
    ensures { result ≡ masked block.now pad }
{
    let mut out = *block;
    'bytes: for i in 0..BLOCK {
        out[i] ^= pad;
    }
    out
}

// The hash of two pieces taken as one message.
fn digest_of(first: &[u8], second: &[u8]) -> [u8; 32]
    ensures { result ≡ sha256 (first.now ++ second.now) }
{
    let mut hasher = Sha256::new();
    hasher.update(first);
    hasher.update(second);
    hasher.finalize()
}
