//! Leaves of a one-time key, each handed out once, over crashes too.
//!
//! A lease file has a gate (0xa5 is open), the 16 bytes of the key's identifier, its height, and a byte for each leaf:
//! 0 is free, and anything else is gone. What stands past the last leaf is ignored.
//!
//! ```text
//! let disk = format(disk, id, 5)?;
//! let leases = open(disk, id, 5)?;
//! let (leases, lease) = leases.lease()?;
//! let leaf = lease.spend();
//! ```
#![tactic(auto)]

mod formatting;
mod judging;
mod layout;
mod leases;
mod opening;

pub use formatting::{FormatEnd, format};
pub use layout::{LEASE_BYTES, LEASE_CALLS, file_size};
pub use leases::{LeafLease, LeaseEnd, Leases};
pub use opening::{OpenEnd, open};

#[cfg(test)]
mod tests;
