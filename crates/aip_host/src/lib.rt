//! A host inside a run: what it puts, what it remembers of that, how it answers challenges and signs shut-offs, its key with
//! the disk on which each leaf is spent before it signs, and its guard with the disk on which that keeps what it was told.
//!
//! ```text
//! let mut host = Host::new(alloc, seat, towards, &settings, Some(tree), true)?;
//! let sent = host.send(alloc, 0, to, 7, b"hi")?;
//! // .. a flight arrives, at time 0:
//! let reaction = host.arrive(alloc, 0, flight.bytes.as_slice())?;
//! for event in reaction.events.as_slice() { .. }
//! ```
#![tactic(auto)]

mod answering;
mod calls;
mod falls;
mod framing;
mod guard;
mod hearing;
mod host;
mod logging;
mod signing;
mod silencing;
mod withholding;

pub use aip_rules::Arming;
pub use guard::{Guard, Obeying};
pub use host::Host;
pub use signing::{Signing, SigningKey};
