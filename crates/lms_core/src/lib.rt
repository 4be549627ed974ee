//! Signatures of many leaves: LMS of RFC 8554, section 5, with SHA-256, m = 32 and trees of height 5 or 10.
//!
//! A private key is a secret seed of 32 bytes with the width of its one-time signatures and the height of its tree.
//! `Tree::build` makes it, `Tree::sign` signs under one of its leaves, and `verify` tells whether a signature is valid
//! under a `PublicKey`. All numbers are written high byte first.
//!
//! ```text
//! let tree = Tree::build(alloc, &seed, Width::W4, Height::H5)?;
//! let mut signature = vec![in alloc; 0; signature_len(tree.width(), tree.height())]?;
//! tree.sign(0, b"text", &mut signature);
//! let is_valid = verify(&tree.public(), b"text", &signature);
//! ```
#![tactic(auto)]

pub use height::{Height, signature_len};
pub use lmots_core::Width;
pub use public_key::{PublicKey, key_id};
pub use tree::Tree;
pub use validity::{verify, verify_under};

mod height;
mod nodes;
mod public_key;
#[cfg(test)]
mod tests;
mod tree;
mod validity;
