//! Frames: what travels over the links of the network.
//!
//! A frame has 90 bytes and a body. Each frame has one spelling, with numbers big-endian:
//!
//! | bytes | field |
//! |---|---|
//! | 0 | version, 1 |
//! | 1 | kind: 0 data, 1 challenge, 2 response, 3 shut-off |
//! | 2 | hop limit |
//! | 3 | 0 |
//! | 4..8 | packet id |
//! | 8..48 | destination, a domain's id and a host's or router's |
//! | 48..88 | source, likewise |
//! | 88..90 | length of the body, at most 9126, and 154 in a challenge |
//! | 90.. | body |
//!
//! ```rust
//! use aip_frame::{Frame, Kind, encode, hop_of, is_frame};
//!
//! let frame = Frame {
//!     kind: Kind::Data,
//!     hop: 64,
//!     packet: 7,
//!     to,
//!     from,
//!     body: Bytes::from_slice(alloc, b"hi")?,
//! };
//! let bytes = encode(alloc, &frame)?;
//! assert!(rt; is_frame(bytes.as_slice()));
//! assert_eq!(rt; hop_of(bytes.as_slice()), 64);
//! ```
#![tactic(auto)]

mod fields;
mod frame;
mod spelling;
mod whole;

pub use fields::{body_of, from_of, hop_of, is_frame, kind_of, packet_of, set_hop, to_of};
pub use frame::{Frame, Kind, MOST_BODY};
pub use spelling::encode;
pub use whole::{no_longer_is_a_frame, no_prefix_is_a_frame, packet_hash, parse};

#[cfg(test)]
mod tests;
