//! Signatures of many leaves (RFC 8554, section 5), each under a leaf that was leased on a disk before.
//!
//! A `Signer` has the tree of a key and the leases of its leaves. `Signer::sign` first makes firm on the disk that the
//! next leaf is gone, and only then signs with it: no leaf signs two messages, over crashes too.
//!
//! ```text
//! let signer = Signer::open(disk, Tree::build(alloc, &seed, Width::W4, Height::H5)?)?;
//! let (signer, leaf, signature) = signer.sign(alloc, b"text")?;
//! let (disk, tree) = signer.close();
//! ```
#![tactic(auto)]

mod signature;
mod signer;

pub use signature::Signature;
pub use signer::{SignEnd, Signer, SignerEnd};

#[cfg(test)]
mod tests;
