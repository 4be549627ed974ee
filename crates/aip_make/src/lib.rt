//! A made workload: the run of the lines that a generator draws over the topology that it draws, and
//! the summary of its trace.
//!
//! Nothing that grows is kept but the flights of the network: the lines of each step go into one
//! buffer, and from there into the hash of the trace's text.
//!
//! ```text
//! let summary = made(alloc, 1, MADE_LINES)?;
//! let text = summary.text(alloc)?;
//! ```
#![tactic(auto)]

mod ends;
mod laws;
mod lines;
mod opening;
mod runs;
mod summary;
mod tally;
mod writing;

pub use ends::MadeEnd;
pub use laws::{a_made_line_is_scheduled, a_workload_is_a_run, made_lines_run_so};
pub use runs::{MADE_LINES, made};
pub use summary::Summary;

#[cfg(test)]
mod tests;
