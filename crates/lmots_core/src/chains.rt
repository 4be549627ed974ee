// The chains of a leaf (RFC 8554, section 4.3). Each step hashes one block of 55 bytes, which is kept and
// changed in place: I (16), u32str(q), u16str(i), u8str(j), and the value that the step takes on (32).

ghost use Rattle.std.specs.Prelude.{◌≡◌, ◌+◌, ◌-◌, ◌≤◌, ◌++◌, ◌∷◌, length, take, drop};
ghost use Rattle.std.specs.Int.{w16, w32, to_be_bytes};
ghost use Rattle.sha2.specs.Sha256.{sha256};
ghost use Rattle.lmots_core.specs.Chains.{step, steps};

use sha2::{Digest, Sha256};

// Where the fields begin.
const PLACE_OF_Q: usize = 16;

const PLACE_OF_CHAIN: usize = 20;

const PLACE_OF_NUMBER: usize = 22;

const PLACE_OF_VALUE: usize = 23;

pub(crate) const BLOCK_LEN: usize = 55;

// The block of the leaf `q`, of no chain yet.
pub(crate) fn leaf_block(id: &[u8; 16], q: u32) -> [u8; BLOCK_LEN]
    ensures { take 20 result ≡ id.now ++ to_be_bytes w32 q }
{
    let mut block = [0; BLOCK_LEN];
    let (identifier, rest) = block.split_at_mut(PLACE_OF_Q);
    identifier.copy_from_slice(id);
    let (leaf, _) = rest.split_at_mut(PLACE_OF_CHAIN - PLACE_OF_Q);
    leaf.copy_from_slice(&q.to_be_bytes());
    block
}

// Puts the value that the next step takes on into the block.
fn put_value(block: &mut [u8; BLOCK_LEN], value: &[u8])
    requires { length value.now ≡ 32 }
    ensures front { take 23 block.new ≡ take 23 block.old }
    ensures value { drop 23 block.new ≡ value.now }
{
    let (_, old) = block.split_at_mut(PLACE_OF_VALUE);
    old.copy_from_slice(value);
}

// Begins chain `i` at `value`.
fn begin(block: &mut [u8; BLOCK_LEN], i: u16, value: &[u8])
    requires { length value.now ≡ 32 }
    ensures chain { take 22 block.new ≡ take 20 block.old ++ to_be_bytes w16 i }
    ensures value { drop 23 block.new ≡ value.now }
{
    let [high, low] = i.to_be_bytes();
    block[PLACE_OF_CHAIN] = high;
    block[PLACE_OF_CHAIN + 1] = low;
    put_value(block, value);
}

// Makes the step from number `j` on.
fn step(block: &mut [u8; BLOCK_LEN], j: u8)
    ensures chain { take 22 block.new ≡ take 22 block.old }
    ensures value { drop 23 block.new ≡ step (take 22 block.old) j (drop 23 block.old) }
{
    block[PLACE_OF_NUMBER] = j;
    let digest = Sha256::digest(&block[..]);
    put_value(block, &digest);
}

// The value that the block holds.
fn value_of(block: &[u8; BLOCK_LEN]) -> [u8; 32]
    ensures { result ≡ drop 23 block.now }
{
    let mut value = [0; 32];
    value.copy_from_slice(&block[PLACE_OF_VALUE..]);
    value
}

// The secret that is numbered `i` (RFC 8554, appendix A).
pub(crate) fn secret(block: &mut [u8; BLOCK_LEN], i: u16, seed: &[u8; 32]) -> [u8; 32]
    ensures leaf { take 20 block.new ≡ take 20 block.old }
    ensures value { result ≡ sha256 (take 20 block.old ++ to_be_bytes w16 i ++ 0xff ∷ seed.now) }
{
    begin(block, i, seed);
    step(block, 0xff);
    value_of(block)
}
