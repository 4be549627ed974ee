// The hash value after a block, and of a message of one block.

ghost use Rattle.std.specs.Prelude.{◌≡◌, ℕ, ◌<◌, ◌≤◌, List, length};
ghost use Rattle.sha2.specs.Sha256.{add_state, compress, digest_bytes, initial_hash_256, padded_message, sha256};
ghost use Rattle.sha256_lanes.specs.Lanes.{AreWordsOf, lane, value_in};

use crate::rounds::{first_four_steps, sixteen_steps};
use crate::words::{add, splat};
use std::simd::u32x4;

/// The initial hash value in each lane (FIPS 180-4, section 5.3.3).
#[inline(always)]
pub fn initial() -> [u32x4; 8]
    ensures { (j : ℕ) → j < 4 → value_in j result ≡ initial_hash_256 }
{
    [
        splat(0x6a09_e667),
        splat(0xbb67_ae85),
        splat(0x3c6e_f372),
        splat(0xa54f_f53a),
        splat(0x510e_527f),
        splat(0x9b05_688c),
        splat(0x1f83_d9ab),
        splat(0x5be0_cd19),
    ]
}

#[inline(always)]
fn add_values(h: [u32x4; 8], v: [u32x4; 8]) -> [u32x4; 8]
    ensures { (j : ℕ) → j < 4 → value_in j result ≡ add_state (value_in j h) (value_in j v) }
{
    [
        add(h[0], v[0]),
        add(h[1], v[1]),
        add(h[2], v[2]),
        add(h[3], v[3]),
        add(h[4], v[4]),
        add(h[5], v[5]),
        add(h[6], v[6]),
        add(h[7], v[7]),
    ]
}

/// The hash value after one more block, in each lane (FIPS 180-4, section 6.2.2): from the hash value `state` before it
/// and the 16 words of the blocks, high byte first.
pub fn compress(state: [u32x4; 8], words: &[u32x4; 16]) -> [u32x4; 8]
    ensures { (j : ℕ) → j < 4 → (b : List ℕ) → AreWordsOf (lane j words.now) b
        → value_in j result ≡ compress (value_in j state) b }
{
    let mut w = *words;
    let v = first_four_steps(&w, state, 0);
    let v = first_four_steps(&w, v, 4);
    let v = first_four_steps(&w, v, 8);
    let v = first_four_steps(&w, v, 12);
    let v = sixteen_steps(&mut w, v, 1);
    let v = sixteen_steps(&mut w, v, 2);
    let v = sixteen_steps(&mut w, v, 3);
    add_values(state, v)
}

/// The words of the digests of four messages of at most 55 bytes, which fill one block each, from the words of the
/// padded messages (FIPS 180-4, section 5.1.1).
pub fn hash_block(words: &[u32x4; 16]) -> [u32x4; 8]
    ensures { (j : ℕ) → j < 4 → (m : List ℕ) → length m ≤ 55 → AreWordsOf (lane j words.now) (padded_message m)
        → digest_bytes (value_in j result) 8 ≡ sha256 m }
{
    compress(initial(), words)
}
