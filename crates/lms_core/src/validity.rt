// When a signature is valid (RFC 8554, section 5.4.2). Nothing here takes memory.

ghost use Rattle.std.specs.Prelude.{◌≡◌, ◌<◌, ◌↔◌, length, IsTrue};
ghost use Rattle.lms_core.specs.Parameters.{leaves_of, signature_len_of};
ghost use Rattle.lms_core.specs.Verify.{candidate_root, is_formed, is_valid_signature, leaf_in, IsValidSignature};

use crate::height::{Height, signature_len};
use crate::nodes::{leaf_node, root_along};
use crate::public_key::{PublicKey, number_in};
use lmots_core::Width;

// Where the fields of a signature begin.
const PLACE_OF_LEAF: usize = 0;

const PLACE_OF_ONE_TIME: usize = 4;

/// Whether `signature` is a valid signature of `message` under `key` (RFC 8554, section 5.4.2, algorithm 6): it has the
/// length of the key's two codes, both codes are the key's, its leaf is one of the tree's, and the root that it leads to
/// is the key's.
#[tactic(auto, unfolding(crate::specs::Verify::is_valid_signature))]
pub fn verify(key: &PublicKey, message: &[u8], signature: &[u8]) -> bool
    ensures valid { IsTrue result ↔ IsValidSignature key.now message.now signature.now }
    ensures value { result ≡ is_valid_signature key.now message.now signature.now }
{
    let width = key.width();
    let height = key.height();
    is_formed(width, height, signature)
        && match candidate_root(width, height, &key.id(), message, signature) {
            Some(root) => root == key.root(),
            None => false,
        }
}

/// Whether `signature` is a valid signature of `message` under the public key that `key` is (RFC 8554, section 5.4.2,
/// algorithm 6). Under bytes that are no public key none is.
pub fn verify_under(key: &[u8], message: &[u8], signature: &[u8]) -> bool
    ensures { result ≡ is_valid_signature key.now message.now signature.now }
{
    match PublicKey::read(key) {
        Some(key) => verify(&key, message, signature),
        None => false,
    }
}

// Whether a signature has the length of the parameter sets, both their codes, and the number of a leaf.
fn is_formed(width: Width, height: Height, signature: &[u8]) -> bool
    ensures { result ≡ is_formed width height signature.now }
{
    let one_time_len = width.signature_len();
    signature.len() == signature_len(width, height)
        && number_in(signature, PLACE_OF_ONE_TIME) == width.code()
        && number_in(signature, PLACE_OF_ONE_TIME + one_time_len) == height.code()
        && number_in(signature, PLACE_OF_LEAF) < height.leaves()
}

// The root that a signature leads to.
fn candidate_root(
    width: Width,
    height: Height,
    id: &[u8; 16],
    message: &[u8],
    signature: &[u8],
) -> Option<[u8; 32]>
    requires whole { length signature.now ≡ signature_len_of width height }
    requires leaf { leaf_in signature.now < leaves_of height }
    ensures { result ≡ candidate_root width height id.now message.now signature.now }
{
    let q = number_in(signature, PLACE_OF_LEAF);
    let one_time_len = width.signature_len();
    let one_time = &signature[PLACE_OF_ONE_TIME..PLACE_OF_ONE_TIME + one_time_len];
    let key = lmots_core::candidate(id, q, message, one_time)?;
    let r = height.leaves() + q;
    // Behind the leaf's number, the one-time signature and the code of the height.
    let path = &signature[8 + one_time_len..];
    Some(root_along(id, r, &leaf_node(id, r, &key), height.levels(), path))
}
