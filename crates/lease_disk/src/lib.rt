//! A disk as a program sees it that must survive a crash: what a read gives, and what a crash may leave.
//!
//! ```text
//! disk.write_at(18, &[1])?;
//! // a crash here may leave any byte at 18
//! disk.sync()?;
//! // and here it leaves what a read gives
//! ```
#![tactic(auto)]

mod content;
mod disk;
mod file_disk;
mod mem_disk;
mod steps;
mod stop;

pub use disk::{Disk, Failed};
pub use file_disk::FileDisk;
pub use mem_disk::MemDisk;
pub use steps::{Seen, inspect, inspect_firm, write_firm, write_gated};
pub use stop::Stop;

#[cfg(test)]
mod tests;
