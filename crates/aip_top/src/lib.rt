//! The commands of the program, over a shelf of texts, a sink and a disk.
//!
//! `aip` takes the words of a command line and answers a status. What it reads, what it writes and why it answers as it
//! does are clauses of that one call.
//!
//! ```text
//! let (status, disk, core) = aip(alloc, &words, &mut shelf, &mut out, disk);
//! ```
#![tactic(auto)]

mod address;
mod command;
mod issue;
mod lease;
mod registry;
mod replay;
mod run;
mod status;
mod top;
mod topology;
mod workload;
mod writing;

pub use aip_records::RecordFault;
pub use status::{LeaseFault, Status};
pub use top::aip;
