// The bytes of a signature.
ghost use Rattle.std.specs.Prelude.{◌≡◌};

use std::marker::Model;

/// A signature (RFC 8554, section 5.4). Contracts see it as its bytes.
#[derive(Drop)]
pub struct Signature {
    pub(crate) bytes: Vec<u8>,
}

impl Model for Signature {
    ghost use Rattle.std.specs.Prelude.{ℕ, List};

    ghost Value = { List ℕ };

    ghost view = { λ signature. signature.bytes.items };
}

impl Signature {
    /// The bytes: the number of the leaf, the one-time signature, the code of the height, and the path.
    pub fn as_slice(&self) -> &[u8]
        ensures bytes { result.now ≡ self.now }
    {
        &self.bytes
    }
}
