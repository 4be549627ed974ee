// Four chains of a leaf side by side, with SHA-256 of four blocks at a time. The values of a chain stay words from step
// to step.

ghost use Rattle.std.specs.Prelude.{◌≡◌, ℕ, ◌+◌, ◌-◌, ◌^◌, ◌<◌, ◌≤◌, List, ◌∷◌, ◌++◌, slice_index, take};
ghost use Rattle.std.specs.Int.{w16, to_be_bytes};
ghost use Rattle.sha2.specs.Sha256.{digest_bytes, sha256};
ghost use Rattle.sha2.specs.Hashers.{Holds256};
ghost use Rattle.sha256_lanes.specs.Lanes.{lane, value_in};
ghost use Rattle.lmots_core.specs.Chains.{joined, step, steps};
ghost use Rattle.lmots_core.specs.Lanes.{IsHead, across, block_words, place_word};

use sha2::{Digest, Sha256};
use sha256_lanes::{
    add, hash_block, lane_bytes, shift_left, shift_right, splat, splat_bytes, word_at,
};
use std::simd::u32x4;

// The word of the last three bytes of `x` and the first byte of `y`.
#[inline(always)]
fn across(x: u32x4, y: u32x4) -> u32x4
    ensures { (j : ℕ) → j < 4 → slice_index result j ≡ across (slice_index x j) (slice_index y j) }
{
    add(shift_left(x, 8), shift_right(y, 24))
}

// The word of the number of a chain, the number of a step, and the first byte of `x`.
#[inline(always)]
fn place_word(chains: u32x4, numbers: u32x4, x: u32x4) -> u32x4
    requires chains { (j : ℕ) → j < 4 → slice_index chains j < 2 ^ 16 }
    requires numbers { (j : ℕ) → j < 4 → slice_index numbers j < 2 ^ 8 }
    ensures { (j : ℕ) → j < 4
        → slice_index result j ≡ place_word (slice_index chains j) (slice_index numbers j) (slice_index x j) }
{
    add(
        add(shift_left(chains, 16), shift_left(numbers, 8)),
        shift_right(x, 24),
    )
}

// The words of the blocks of a step, padded: the leaf's, the place, the value, the padding, and the length of 440 bits.
#[inline(always)]
fn block_words(head: &[u32; 5], chains: u32x4, numbers: u32x4, value: [u32x4; 8]) -> [u32x4; 16]
    requires chains { (j : ℕ) → j < 4 → slice_index chains j < 2 ^ 16 }
    requires numbers { (j : ℕ) → j < 4 → slice_index numbers j < 2 ^ 8 }
    ensures { (j : ℕ) → j < 4
        → lane j result ≡ block_words head.now (slice_index chains j) (slice_index numbers j) (value_in j value) }
{
    let [t0, t1, t2, t3, t4, t5, t6, t7] = value;
    [
        splat(head[0]),
        splat(head[1]),
        splat(head[2]),
        splat(head[3]),
        splat(head[4]),
        place_word(chains, numbers, t0),
        across(t0, t1),
        across(t1, t2),
        across(t2, t3),
        across(t3, t4),
        across(t4, t5),
        across(t5, t6),
        across(t6, t7),
        across(t7, splat(0x8000_0000)),
        splat(0),
        splat(440),
    ]
}

// One step of four chains of a leaf, each with a number of its own.
pub(crate) fn chain_step(
    head: [u32; 5],
    chains: u32x4,
    numbers: u32x4,
    value: [u32x4; 8],
) -> [u32x4; 8]
    requires chains { (j : ℕ) → j < 4 → slice_index chains j < 2 ^ 16 }
    requires numbers { (j : ℕ) → j < 4 → slice_index numbers j < 2 ^ 8 }
    ensures { (j : ℕ) → j < 4 → (p : List ℕ) → IsHead head p → digest_bytes (value_in j result) 8
        ≡ step (p ++ to_be_bytes w16 (slice_index chains j)) (slice_index numbers j) (digest_bytes (value_in j value) 8) }
{
    hash_block(&block_words(&head, chains, numbers, value))
}

// One step of four chains of a leaf, with one number.
pub(crate) fn equal_step(head: [u32; 5], chains: u32x4, number: u8, value: [u32x4; 8]) -> [u32x4; 8]
    requires { (j : ℕ) → j < 4 → slice_index chains j < 2 ^ 16 }
    ensures { (j : ℕ) → j < 4 → (p : List ℕ) → IsHead head p → digest_bytes (value_in j result) 8
        ≡ step (p ++ to_be_bytes w16 (slice_index chains j)) number (digest_bytes (value_in j value) 8) }
{
    chain_step(head, chains, splat(u32::from(number)), value)
}

// The steps of four chains of a leaf, from the first up to number `to`.
fn run(head: [u32; 5], chains: u32x4, to: u8, start: [u32x4; 8]) -> [u32x4; 8]
    requires { (j : ℕ) → j < 4 → slice_index chains j < 2 ^ 16 }
    ensures { (j : ℕ) → j < 4 → (p : List ℕ) → IsHead head p → digest_bytes (value_in j result) 8
        ≡ steps (p ++ to_be_bytes w16 (slice_index chains j)) 0 (to - 0) (digest_bytes (value_in j start) 8) }
{
    let mut value = start;
    'steps: for number in 0..to {
        let next = equal_step(head, chains, number, value);
        value = next;
    }
    value
}

// The words of the first 20 bytes of a leaf's block.
pub(crate) fn head_words(block: &[u8; 55]) -> [u32; 5]
    ensures { IsHead result (take 20 block.now) }
{
    [
        word_at(block, 0),
        word_at(block, 4),
        word_at(block, 8),
        word_at(block, 12),
        word_at(block, 16),
    ]
}

// The numbers of four chains from `first` on.
pub(crate) fn chain_numbers(first: u32) -> u32x4
    requires { first < 2 ^ 15 }
    ensures { (j : ℕ) → j < 4 → slice_index result j ≡ first + j }
{
    u32x4::from_array([first, first + 1, first + 2, first + 3])
}

// Four chains of the leaf of `block`, from `first` on, from their secrets up to number `to`.
pub(crate) fn four_chains(block: &[u8; 55], first: u32, to: u8, seed: &[u8; 32]) -> [u32x4; 8]
    requires { first < 2 ^ 15 }
    ensures { (j : ℕ) → j < 4 → digest_bytes (value_in j result) 8
        ≡ steps (take 20 block.now ++ to_be_bytes w16 (first + j)) 0 (to - 0)
        (sha256 (take 20 block.now ++ to_be_bytes w16 (first + j) ++ 0xff ∷ seed.now)) }
{
    let head = head_words(block);
    let chains = chain_numbers(first);
    let start = equal_step(head, chains, 0xff, splat_bytes(seed));
    run(head, chains, to, start)
}

// Adds the bytes of the first `count` lanes to the message of `hasher`.
pub(crate) fn add_lanes(hasher: &mut Sha256, value: &[u32x4; 8], count: usize)
    requires { count ≤ 4 }
    ensures { (m : List ℕ) (f : ℕ → List ℕ) (n : ℕ)
        → ((j : ℕ) → j < 4 → digest_bytes (value_in j value.now) 8 ≡ f (n + j))
        → Holds256 hasher.old (m ++ joined f n) → Holds256 hasher.new (m ++ joined f (n + count)) }
{
    'lanes: for j in 0..count {
        hasher.update(&lane_bytes(value, j));
    }
}
