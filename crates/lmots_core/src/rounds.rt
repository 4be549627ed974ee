// Chains of unequal lengths, four at a time. Chain k has come to number `from[k]`, and goes up to number `to[k]`. Each time
// the next four chains that aren't at their ends take a step, each its own: round and round, until all are there.

ghost use Rattle.std.specs.Prelude.{◌≡◌, ℕ, ◌+◌, ◌-◌, ◌^◌, ◌<◌, ◌≤◌, List, [], ◌∷◌, ◌++◌, length, slice_index, slice_index_or};
ghost use Rattle.std.specs.Int.{w16, to_be_bytes};
ghost use Rattle.sha2.specs.Sha256.{digest_bytes, sha256};
ghost use Rattle.lmots_core.specs.Chains.{steps};
ghost use Rattle.lmots_core.specs.Lanes.{IsHead};
ghost use Rattle.lmots_core.specs.Standing.{IsOpen, Stand, left};

use crate::lanes::{chain_numbers, chain_step, equal_step};
use crate::values::{put_lanes, side_by_side};
use sha256_lanes::splat_bytes;
use std::simd::u32x4;

// The first chain from `at` on that isn't at its end, or the number of chains where there is none.
fn next_at(from: &[u8], to: &[u8], at: usize) -> usize
    requires { length to.now ≡ length from.now }
    ensures goes_on { result < length from.now → slice_index from.now result < slice_index to.now result }
    ensures others { (k : ℕ) → at ≤ k → k < length from.now → slice_index from.now k < slice_index to.now k → result ≤ k }
{
    'chains: for k in at..from.len() {
        if from[k] < to[k] {
            return k;
        }
    }
    from.len()
}

// The next chain from `at` on that isn't at its end, or the first of all where there is none behind.
fn next_open(from: &[u8], to: &[u8], at: usize) -> usize
    requires { length to.now ≡ length from.now }
    ensures goes_on { result < length from.now → slice_index from.now result < slice_index to.now result }
    ensures found { (k : ℕ) → IsOpen from.now to.now k → result < length from.now }
{
    let next = next_at(from, to, at);
    if next < from.len() {
        return next;
    }
    next_at(from, to, 0)
}

// A step of the chains at four places. One place may be there twice: its step is written twice.
fn step_at(head: [u32; 5], from: &mut [u8], to: &[u8], places: [usize; 4], values: &mut [[u32; 8]])
    requires starts { length from.old ≡ length values.old }
    requires ends { length to.now ≡ length values.old }
    requires few { length values.old < 2 ^ 16 }
    requires go_on { (j : ℕ) → j < 4 → IsOpen from.old to.now (slice_index places j) }
    ensures starts { length from.new ≡ length values.old }
    ensures length { length values.new ≡ length values.old }
    ensures fewer { left from.new to.now < left from.old to.now }
    ensures stand { (p : List ℕ) (goal : ℕ → List ℕ) → IsHead head p
        → Stand p from.old to.now goal values.old → Stand p from.new to.now goal values.new }
{
    let [a, b, c, d] = places;
    let chains = u32x4::from_array([a as u32, b as u32, c as u32, d as u32]);
    let (i, j, k, l) = (from[a], from[b], from[c], from[d]);
    let numbers = u32x4::from_array([u32::from(i), u32::from(j), u32::from(k), u32::from(l)]);
    let value = side_by_side(values[a], values[b], values[c], values[d]);
    let next = chain_step(head, chains, numbers, value);
    put_lanes(values, places, &next);
    from[a] = i + 1;
    from[b] = j + 1;
    from[c] = k + 1;
    from[d] = l + 1;
}

// A step of chain `a` and of the next three that aren't at their ends. Gives the next behind them.
fn turn(head: [u32; 5], from: &mut [u8], to: &[u8], a: usize, values: &mut [[u32; 8]]) -> usize
    requires starts { length from.old ≡ length values.old }
    requires ends { length to.now ≡ length values.old }
    requires few { length values.old < 2 ^ 16 }
    requires go_on { IsOpen from.old to.now a }
    ensures starts { length from.new ≡ length values.old }
    ensures length { length values.new ≡ length values.old }
    ensures goes_on { result < length from.new → slice_index from.new result < slice_index to.now result }
    ensures found { (k : ℕ) → IsOpen from.new to.now k → result < length from.new }
    ensures fewer { left from.new to.now < left from.old to.now }
    ensures stand { (p : List ℕ) (goal : ℕ → List ℕ) → IsHead head p
        → Stand p from.old to.now goal values.old → Stand p from.new to.now goal values.new }
{
    let b = next_open(from, to, a + 1);
    let c = next_open(from, to, b + 1);
    let d = next_open(from, to, c + 1);
    step_at(head, from, to, [a, b, c, d], values);
    next_open(from, to, d + 1)
}

// Takes each chain from its value on to its end.
pub(crate) fn advance(head: [u32; 5], from: &mut [u8], to: &[u8], values: &mut [[u32; 8]])
    requires starts { length from.old ≡ length values.old }
    requires ends { length to.now ≡ length values.old }
    requires few { length values.old < 2 ^ 16 }
    ensures length { length values.new ≡ length values.old }
    ensures stand { (p : List ℕ) → IsHead head p → (k : ℕ) → k < length values.old
        → digest_bytes (slice_index_or values.new k []) 8 ≡ steps (p ++ to_be_bytes w16 k) (slice_index from.old k)
        (slice_index to.now k - slice_index from.old k) (digest_bytes (slice_index_or values.old k []) 8) }
{
    let mut next = next_open(from, to, 0);
    'turns: while next < from.len() {
        next = turn(head, from, to, next, values);
    }
}

// The secrets with which the chains begin (RFC 8554, appendix A).
pub(crate) fn fill_secrets(head: [u32; 5], seed: &[u8; 32], values: &mut [[u32; 8]])
    requires few { length values.old < 2 ^ 15 }
    ensures length { length values.new ≡ length values.old }
    ensures secrets { (p : List ℕ) → IsHead head p → (k : ℕ) → k < length values.old
        → digest_bytes (slice_index_or values.new k []) 8 ≡ sha256 (p ++ to_be_bytes w16 k ++ 0xff ∷ seed.now) }
{
    let start = splat_bytes(seed);
    'groups: for group in 0..values.len().div_ceil(4) {
        let first = 4 * group;
        let next = equal_step(head, chain_numbers(first as u32), 0xff, start);
        put_lanes(values, [first, first + 1, first + 2, first + 3], &next);
    }
}
