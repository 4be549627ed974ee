//! SHA-256 (FIPS 180-4) of four blocks at a time, side by side in vectors of four words of 32 bits.
//!
//! `digests` takes four messages of up to 55 bytes, which fill one block each with their padding:
//!
//! ```
//! let [one, two, three, four] = digests(b"one", b"two", b"three", b"four");
//! ```
//!
//! Who has words already stays in words: `hash_block` and `compress` take a block as 16 vectors and give a hash value as
//! eight, lane j of each a word of hash j, and `lane_bytes` gives the bytes of a lane. Each result is SHA-256's own.
#![tactic(auto)]

mod blocks;
mod bytes;
mod messages;
mod rounds;
mod words;

pub use blocks::{compress, hash_block, initial};
pub use bytes::{lane_bytes, splat_bytes, word_at};
pub use messages::digests;
pub use words::{add, shift_left, shift_right, splat};

#[cfg(test)]
mod tests;
