//! Records that a domain signs with the next leaf of its key, which is gone on the disk before the record is there.
//!
//! `sign_record` opens the lease file of the key, signs what a record says, and gives the record as a line of hex. Whatever
//! it answers, the disk comes back: no leaf that was gone is free again, and every other byte is as it was.
//!
//! ```text
//! let (signed, disk) = sign_record(alloc, disk, tree, &fields);
//! match signed {
//!     Ok(line) => put_all(&mut sink, line.as_slice())?,
//!     Err(fault) => ..
//! }
//! ```
#![tactic(auto)]

mod faults;
mod line;
mod signing;

pub use aip_addr::Bytes;
pub use faults::SigningFault;
pub use signing::sign_record;

#[cfg(test)]
mod tests;
