//! Texts that are read by name, and a sink that bytes are written to.
//!
//! A `Shelf` has texts under names and a `Sink` takes bytes. Each is a trait, so that what is written
//! over them is proved once, for files in memory and for those of the system. What a shelf holds and
//! what a sink has taken is told or not; where it is told, each clause speaks of the bytes. A count of
//! faults shows that a failure came from the shelf or the sink and not from the code that uses it.
//!
//! ```text
//! let mut lines = Lines::new(alloc, 20_000)?;
//! while let Got::Line | Got::Last = lines.next(&mut shelf, "net.sched") {
//!     put_all(&mut sink, lines.line())?;
//! }
//! ```
#![tactic(auto)]

mod dir_shelf;
mod failed;
mod got;
mod lines;
mod mem_shelf;
mod mem_sink;
mod shelf;
mod sink;
mod std_sink;

pub use dir_shelf::DirShelf;
pub use failed::Failed;
pub use got::Got;
pub use lines::Lines;
pub use mem_shelf::{File, MemShelf};
pub use mem_sink::MemSink;
pub use shelf::{ReadEnd, Shelf, read_all};
pub use sink::{Sink, put_all};
pub use std_sink::StdSink;

#[cfg(test)]
mod lines_tests;
#[cfg(test)]
mod tests;
