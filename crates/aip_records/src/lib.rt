//! Record files: a line of hex for each signed record.
//!
//! `read_records` takes a file line by line and publishes each record to a registry. The first line that is refused ends it,
//! with the first fault that applies: a record is refused by its spelling, by a signer that is no domain of the topology, or
//! by the registry. `list_text` writes what the registry keeps, a line for each record.
//!
//! ```text
//! let registry = read_records(alloc, &mut shelf, "records.txt", topology.domains.as_slice())?;
//! let text = list_text(alloc, &registry)?;
//! ```
#![tactic(auto)]

mod faults;
mod listing;
mod reading;
mod written;

pub use faults::{RecordFault, RecordsEnd};
pub use listing::list_text;
pub use reading::read_records;

#[cfg(test)]
mod tests;
