// The parts of signatures, and the ends of chains that they lead to, as words.

ghost use Rattle.std.specs.Prelude.{◌≡◌, ℕ, ◌+◌, ◌*◌, ◌<◌, ◌≤◌, List, [], ◌∷◌, ◌++◌, length, slice_index, slice_index_or};
ghost use Rattle.std.specs.Int.{w32, to_be_bytes};
ghost use Rattle.sha2.specs.Sha256.{digest_bytes};
ghost use Rattle.lmots_core.specs.Parameters.{chains_of, signature_len_of};
ghost use Rattle.lmots_core.specs.Chains.{candidate_part, digit, part_in, signed_part};
ghost use Rattle.lmots_core.specs.Lanes.{IsHead};

use crate::PLACE_OF_PARTS;
use crate::chains::leaf_block;
use crate::digits::{digit, with_checksum};
use crate::lanes::head_words;
use crate::parameters::Width;
use crate::rounds::{advance, fill_secrets};
use crate::values::words_of;

// The number of chains of the narrowest digits, which have the most.
pub(crate) const MOST_CHAINS: usize = 265;

// The words that each block of the leaf `q` begins with.
fn leaf_head(id: &[u8; 16], q: u32) -> [u32; 5]
    ensures { IsHead result (id.now ++ to_be_bytes w32 q) }
{
    head_words(&leaf_block(id, q))
}

// Fills in the digits of a hash and its checksum.
fn fill_digits(width: Width, hash: &[u8; 32], digits: &mut [u8])
    requires { length digits.old ≡ chains_of width }
    ensures length { length digits.new ≡ chains_of width }
    ensures digits { (k : ℕ) → k < chains_of width → slice_index digits.new k ≡ digit width hash.now k }
{
    let bytes = with_checksum(width, hash);
    'digits: for i in 0..width.chains() {
        digits[i] = digit(width, &bytes, i);
    }
}

// The words of the parts of a signature of the hash `hash`: each chain as far as its digit.
pub(crate) fn sign_values(
    width: Width,
    seed: &[u8; 32],
    id: &[u8; 16],
    q: u32,
    hash: &[u8; 32],
    values: &mut [[u32; 8]],
)
    requires { length values.old ≡ chains_of width }
    ensures length { length values.new ≡ chains_of width }
    ensures parts { (k : ℕ) → k < chains_of width
        → digest_bytes (slice_index_or values.new k []) 8 ≡ signed_part width seed.now id.now q hash.now k }
{
    let mut digits = [0; MOST_CHAINS];
    let (digits, _) = digits.split_at_mut(width.chains());
    fill_digits(width, hash, digits);
    let mut starts = [0; MOST_CHAINS];
    let (starts, _) = starts.split_at_mut(width.chains());
    let head = leaf_head(id, q);
    fill_secrets(head, seed, values);
    advance(head, starts, digits, values);
}

// The words of the parts that a signature has.
fn read_parts(width: Width, signature: &[u8], values: &mut [[u32; 8]])
    requires whole { length signature.now ≡ signature_len_of width }
    requires count { length values.old ≡ chains_of width }
    ensures length { length values.new ≡ chains_of width }
    ensures parts { (k : ℕ) → k < chains_of width
        → digest_bytes (slice_index_or values.new k []) 8 ≡ part_in signature.now k }
{
    'parts: for i in 0..width.chains() {
        let place = PLACE_OF_PARTS + 32 * i;
        values[i] = words_of(&signature[place..place + 32]);
    }
}

// The words of the ends that a signature of the hash `hash` leads to: each chain from its digit on.
pub(crate) fn end_values(
    width: Width,
    id: &[u8; 16],
    q: u32,
    hash: &[u8; 32],
    signature: &[u8],
    values: &mut [[u32; 8]],
)
    requires whole { length signature.now ≡ signature_len_of width }
    requires count { length values.old ≡ chains_of width }
    ensures length { length values.new ≡ chains_of width }
    ensures ends { (k : ℕ) → k < chains_of width
        → digest_bytes (slice_index_or values.new k []) 8 ≡ candidate_part width id.now q hash.now signature.now k }
{
    let mut digits = [0; MOST_CHAINS];
    let (digits, _) = digits.split_at_mut(width.chains());
    fill_digits(width, hash, digits);
    let ends = [width.greatest(); MOST_CHAINS];
    let (ends, _) = ends.split_at(width.chains());
    read_parts(width, signature, values);
    advance(leaf_head(id, q), digits, ends, values);
}
