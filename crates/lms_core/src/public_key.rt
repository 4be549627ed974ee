// Public keys of 56 bytes (RFC 8554, section 5.3): the codes of the height and of the width, four bytes each with the
// high byte first, the identifier I of 16 bytes, and the root T[1] of 32 bytes.

ghost use Rattle.std.specs.Prelude.{◌≡◌, ◌+◌, ◌≤◌, ◌++◌, ℕ, List, length, IfNone, Some};
ghost use Rattle.std.specs.Int.{w32, to_be_bytes};
ghost use Rattle.std.specs.Option.{SomeIff};
ghost use Rattle.lms_core.specs.Tree.{identifier_of};
ghost use Rattle.lmots_core.specs.Parameters.{code_of};
ghost use Rattle.lms_core.specs.Parameters.{height_code_of};
ghost use Rattle.lms_core.specs.Verify.{number_in, width_in, height_in, identifier_in, root_in, IsPublicKey, IsValidSignature};

use crate::height::Height;
use lmots_core::Width;
use sha2::{Digest, Sha256};
use std::marker::Model;

// Where the fields of a public key begin.
const PLACE_OF_HEIGHT: usize = 0;

const PLACE_OF_WIDTH: usize = 4;

const PLACE_OF_ID: usize = 8;

const PLACE_OF_ROOT: usize = 24;

const KEY_LEN: usize = 56;

/// A public key. Contracts see it as its 56 bytes.
#[derive(Drop)]
pub struct PublicKey {
    bytes: [u8; 56],
    width: Width,
    height: Height,
}

impl Model for PublicKey {
    ghost use Rattle.std.specs.Prelude.{ℕ, List};
    ghost use Rattle.lms_core.specs.Codes.{IsCoded};

    ghost Value = { List ℕ };

    ghost view = { λ key. key.bytes };

    ghost invariant = { λ key. IsCoded key.bytes key.width key.height };
}

impl PublicKey {
    /// The public key that these bytes are: `None` exactly where there aren't 56 of them or one of the two codes is
    /// unknown.
    #[tactic(auto, unfolding(crate::specs::Verify::is_valid_signature))]
    pub fn read(bytes: &[u8]) -> Option<PublicKey>
        ensures read { SomeIff result (IsPublicKey bytes.now) bytes.now }
        // Under bytes that are no public key, no signature is valid.
        ensures none { IfNone result ((message signature : List ℕ) → ¬ IsValidSignature bytes.now message signature) }
    {
        if bytes.len() != KEY_LEN {
            return None;
        }
        let height = Height::from_code(number_in(bytes, PLACE_OF_HEIGHT))?;
        let width = Width::from_code(number_in(bytes, PLACE_OF_WIDTH))?;
        let mut copy = [0; 56];
        copy.copy_from_slice(bytes);
        Some(PublicKey {
            bytes: copy,
            width,
            height,
        })
    }

    // The public key with these fields.
    pub(crate) fn from_parts(
        width: Width,
        height: Height,
        id: &[u8; 16],
        root: &[u8; 32],
    ) -> PublicKey
        ensures { result ≡ to_be_bytes w32 (height_code_of height) ++ to_be_bytes w32 (code_of width) ++ id.now ++ root.now }
    {
        let mut bytes = [0; 56];
        let (code, rest) = bytes.split_at_mut(4);
        code.copy_from_slice(&height.code().to_be_bytes());
        let (code, rest) = rest.split_at_mut(4);
        code.copy_from_slice(&width.code().to_be_bytes());
        let (identifier, rest) = rest.split_at_mut(16);
        identifier.copy_from_slice(id);
        rest.copy_from_slice(root);
        PublicKey {
            bytes,
            width,
            height,
        }
    }

    // The width of its one-time signatures.
    pub(crate) fn width(&self) -> Width
        ensures whole { length self.now ≡ 56 }
        ensures width { width_in self.now ≡ Some result }
    {
        self.width
    }

    // The height of its tree.
    pub(crate) fn height(&self) -> Height
        ensures { height_in self.now ≡ Some result }
    {
        self.height
    }

    // Its identifier I.
    pub(crate) fn id(&self) -> [u8; 16]
        ensures { result ≡ identifier_in self.now }
    {
        let mut id = [0; 16];
        id.copy_from_slice(&self.bytes[PLACE_OF_ID..PLACE_OF_ROOT]);
        id
    }

    // Its root T[1].
    pub(crate) fn root(&self) -> [u8; 32]
        ensures { result ≡ root_in self.now }
    {
        let mut root = [0; 32];
        root.copy_from_slice(&self.bytes[PLACE_OF_ROOT..KEY_LEN]);
        root
    }

    /// The 56 bytes of the key, which `read` takes.
    pub fn bytes(&self) -> [u8; 56]
        ensures bytes { result ≡ self.now }
        ensures key { IsPublicKey result }
    {
        self.bytes
    }
}

/// The identifier I of the key that is made from a seed: the first 16 bytes of the hash of "aip-I" and the seed.
pub fn key_id(seed: &[u8; 32]) -> [u8; 16]
    ensures { result ≡ identifier_of seed.now }
{
    let mut hasher = Sha256::new();
    hasher.update(b"aip-I");
    hasher.update(seed);
    let digest = hasher.finalize();
    let mut id = [0; 16];
    id.copy_from_slice(&digest[..16]);
    id
}

// The number in the four bytes from a place on, high byte first.
pub(crate) fn number_in(bytes: &[u8], place: usize) -> u32
    requires { place + 4 ≤ length bytes.now }
    ensures { result ≡ number_in bytes.now place }
{
    let mut four = [0; 4];
    four.copy_from_slice(&bytes[place..place + 4]);
    u32::from_be_bytes(four)
}
