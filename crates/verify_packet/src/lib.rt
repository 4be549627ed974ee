//! Proof of a packet's source: a router asks, the source signs the answer, and the router checks it without having kept
//! anything.
//!
//! A challenge names the router, the source, the packet's hash, the port at which the packet came, and the epoch; it bears
//! a tag that only the router can make. The source signs the whole, and sends it back with its public key. The router
//! recognizes its tag, which grows old with the epoch, and the key's hash is the source's id.
//!
//! ```text
//! let asked = challenge(&router, now, &source, &packet_hash(frame), port);
//! let text = response_text(&asked);
//! // .. the source signs the text, and its response comes back:
//! match check(&router, later, response) {
//!     Checked::Proved { source, port } => ..
//!     refusal => ..
//! }
//! ```
#![tactic(auto)]

mod challenges;
mod responses;

pub use challenges::{RouterKey, asked_hash, asked_router, asked_source, challenge};
pub use responses::{Checked, check, response_body, response_text};

#[cfg(test)]
mod tests;
