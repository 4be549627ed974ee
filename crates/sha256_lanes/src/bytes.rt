// The bytes of words, high byte first.

ghost use Rattle.std.specs.Prelude.{◌≡◌, ℕ, ◌+◌, ◌<◌, ◌≤◌, length};
ghost use Rattle.sha2.specs.Sha256.{digest_bytes, word_at};
ghost use Rattle.sha256_lanes.specs.Lanes.{value_in};

use crate::words::splat;
use std::simd::u32x4;

/// The word of the four bytes of `bytes` from `place` on, high byte first.
pub fn word_at(bytes: &[u8], place: usize) -> u32
    requires { place + 4 ≤ length bytes.now }
    ensures { result ≡ word_at bytes.now place }
{
    u32::from_be_bytes([
        bytes[place],
        bytes[place + 1],
        bytes[place + 2],
        bytes[place + 3],
    ])
}

/// The words of the same 32 bytes in each lane, high byte first.
pub fn splat_bytes(bytes: &[u8; 32]) -> [u32x4; 8]
    ensures { (j : ℕ) → j < 4 → digest_bytes (value_in j result) 8 ≡ bytes.now }
{
    [
        splat(word_at(bytes, 0)),
        splat(word_at(bytes, 4)),
        splat(word_at(bytes, 8)),
        splat(word_at(bytes, 12)),
        splat(word_at(bytes, 16)),
        splat(word_at(bytes, 20)),
        splat(word_at(bytes, 24)),
        splat(word_at(bytes, 28)),
    ]
}

/// The 32 bytes of a hash value in lane `j`, high byte of each word first.
pub fn lane_bytes(value: &[u32x4; 8], j: usize) -> [u8; 32]
    requires { j < 4 }
    ensures { result ≡ digest_bytes (value_in j value.now) 8 }
{
    let mut bytes = [0; 32];
    'words: for k in 0..8 {
        bytes[4 * k..4 * k + 4].copy_from_slice(&value[k].to_array()[j].to_be_bytes());
    }
    bytes
}
