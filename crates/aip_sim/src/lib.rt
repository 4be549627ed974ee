//! Runs of a schedule over a topology, line by line.
//!
//! `run` reads the topology, then takes the schedule a line at a time: it reads the line, steps the core, and writes the
//! lines of the input and its events before it asks for the next. It keeps no trace and no text, but the core alone, and hands
//! that back.
//!
//! ```text
//! let (end, core) = run(alloc, &mut shelf, "topo.txt", "sched.txt", &mut out);
//! ```
#![tactic(auto)]

mod ends;
mod runs;
mod schedules;
mod topologies;
mod turns;
mod writing;

pub use ends::RunEnd;
pub use runs::run;
pub use topologies::{TopologyEnd, read_topology};
