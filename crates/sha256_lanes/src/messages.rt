// Four messages that fill one block each.

ghost use Rattle.std.specs.Prelude.{◌≡◌, ℕ, ◌*◌, ◌<◌, ◌≤◌, [], ◌∷◌, length, slice_index_or};
ghost use Rattle.sha2.specs.Sha256.{padded_message, sha256, word_at};

use crate::blocks::hash_block;
use crate::bytes::{lane_bytes, word_at};
use crate::words::splat;
use std::simd::u32x4;

// A message with its padding (FIPS 180-4, section 5.1.1): the bit 1, zeros, and its length in bits.
fn padded(message: &[u8]) -> [u8; 64]
    requires { length message.now ≤ 55 }
    ensures { result ≡ padded_message message.now }
{
    let len = message.len();
    let bits = 8 * len as u64;
    let mut block = [0; 64];
    let (front, back) = block.split_at_mut(len);
    front.copy_from_slice(message);
    let (zeros, end) = back.split_at_mut(56 - len);
    zeros[0] = 0x80;
    end.copy_from_slice(&bits.to_be_bytes());
    block
}

// The words of four blocks, side by side.
fn words_of(a: &[u8; 64], b: &[u8; 64], c: &[u8; 64], d: &[u8; 64]) -> [u32x4; 16]
    ensures { (k : ℕ) → k < 16 → slice_index_or result k [] ≡
        word_at a.now (4 * k) ∷ word_at b.now (4 * k) ∷ word_at c.now (4 * k) ∷ word_at d.now (4 * k) ∷ [] }
{
    let mut words = [splat(0); 16];
    'words: for k in 0..16 {
        let place = 4 * k;
        words[k] = u32x4::from_array([
            word_at(a, place),
            word_at(b, place),
            word_at(c, place),
            word_at(d, place),
        ]);
    }
    words
}

/// The SHA-256 digests of four messages of at most 55 bytes each (FIPS 180-4, section 6.2), at the price of little more
/// than one.
pub fn digests(first: &[u8], second: &[u8], third: &[u8], fourth: &[u8]) -> [[u8; 32]; 4]
    requires first { length first.now ≤ 55 }
    requires second { length second.now ≤ 55 }
    requires third { length third.now ≤ 55 }
    requires fourth { length fourth.now ≤ 55 }
    ensures { result ≡ sha256 first.now ∷ sha256 second.now ∷ sha256 third.now ∷ sha256 fourth.now ∷ [] }
{
    let a = padded(first);
    let b = padded(second);
    let c = padded(third);
    let d = padded(fourth);
    let words = words_of(&a, &b, &c, &d);
    let values = hash_block(&words);
    [
        lane_bytes(&values, 0),
        lane_bytes(&values, 1),
        lane_bytes(&values, 2),
        lane_bytes(&values, 3),
    ]
}
