// The value of a chain as eight words, high byte first, and four of them side by side.

ghost use Rattle.std.specs.Prelude.{◌≡◌, ◌<◌, length, slice_index, slice_set};
ghost use Rattle.sha2.specs.Sha256.{digest_bytes};
ghost use Rattle.sha256_lanes.specs.Lanes.{value_in};

use sha256_lanes::word_at;
use std::simd::u32x4;

// The words of 32 bytes.
pub(crate) fn words_of(bytes: &[u8]) -> [u32; 8]
    requires { length bytes.now ≡ 32 }
    ensures { digest_bytes result 8 ≡ bytes.now }
{
    [
        word_at(bytes, 0),
        word_at(bytes, 4),
        word_at(bytes, 8),
        word_at(bytes, 12),
        word_at(bytes, 16),
        word_at(bytes, 20),
        word_at(bytes, 24),
        word_at(bytes, 28),
    ]
}

// The bytes of eight words.
pub(crate) fn bytes_of(words: &[u32; 8]) -> [u8; 32]
    ensures { result ≡ digest_bytes words.now 8 }
{
    let mut bytes = [0; 32];
    'words: for k in 0..8 {
        bytes[4 * k..4 * k + 4].copy_from_slice(&words[k].to_be_bytes());
    }
    bytes
}

// Four values side by side.
#[inline(always)]
pub(crate) fn side_by_side(a: [u32; 8], b: [u32; 8], c: [u32; 8], d: [u32; 8]) -> [u32x4; 8]
    ensures first { digest_bytes (value_in 0 result) 8 ≡ digest_bytes a 8 }
    ensures second { digest_bytes (value_in 1 result) 8 ≡ digest_bytes b 8 }
    ensures third { digest_bytes (value_in 2 result) 8 ≡ digest_bytes c 8 }
    ensures fourth { digest_bytes (value_in 3 result) 8 ≡ digest_bytes d 8 }
{
    [
        u32x4::from_array([a[0], b[0], c[0], d[0]]),
        u32x4::from_array([a[1], b[1], c[1], d[1]]),
        u32x4::from_array([a[2], b[2], c[2], d[2]]),
        u32x4::from_array([a[3], b[3], c[3], d[3]]),
        u32x4::from_array([a[4], b[4], c[4], d[4]]),
        u32x4::from_array([a[5], b[5], c[5], d[5]]),
        u32x4::from_array([a[6], b[6], c[6], d[6]]),
        u32x4::from_array([a[7], b[7], c[7], d[7]]),
    ]
}

// The value in lane `j`.
#[inline(always)]
fn lane_words(value: &[u32x4; 8], j: usize) -> [u32; 8]
    requires { j < 4 }
    ensures { result ≡ value_in j value.now }
{
    [
        value[0].to_array()[j],
        value[1].to_array()[j],
        value[2].to_array()[j],
        value[3].to_array()[j],
        value[4].to_array()[j],
        value[5].to_array()[j],
        value[6].to_array()[j],
        value[7].to_array()[j],
    ]
}

// Puts a value at `at`; past the end there is no place for it.
#[inline(always)]
fn put_at(values: &mut [[u32; 8]], at: usize, value: [u32; 8])
    ensures { values.new ≡ slice_set values.old at value }
{
    if at < values.len() {
        values[at] = value;
    }
}

// Puts the values of the four lanes at four places.
#[inline(always)]
pub(crate) fn put_lanes(values: &mut [[u32; 8]], places: [usize; 4], lanes: &[u32x4; 8])
    ensures { values.new ≡ slice_set (slice_set (slice_set (slice_set values.old
        (slice_index places 0) (value_in 0 lanes.now))
        (slice_index places 1) (value_in 1 lanes.now))
        (slice_index places 2) (value_in 2 lanes.now))
        (slice_index places 3) (value_in 3 lanes.now) }
{
    put_at(values, places[0], lane_words(lanes, 0));
    put_at(values, places[1], lane_words(lanes, 1));
    put_at(values, places[2], lane_words(lanes, 2));
    put_at(values, places[3], lane_words(lanes, 3));
}
