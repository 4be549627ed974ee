//! What a host remembers of the frames that it put: the last of them, each by its packet hash and by the key identifier
//! that it was for.
//!
//! A host answers a challenge only for a packet of its log, and obeys a shut-off only from whom a packet of its log was
//! for.
//!
//! ```text
//! let mut log = SentLog::new(alloc, 128)?;
//! log.note(&packet_hash(frame), &to_of(frame).eid.key_id());
//! if log.holds_any(&asked_hash) { .. }
//! ```
#![tactic(auto)]

mod log;

pub use log::{Noted, SentLog};

#[cfg(test)]
mod tests;
