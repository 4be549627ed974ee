//! A checker of recorded traces.
//!
//! `replay` reads the topology, then takes the file a line at a time, and judges each line once: it is that of the next event
//! that is due, or of an input that the core takes. It keeps no trace. Nothing grows with the file but the
//! flights and the records that the core keeps.
//!
//! ```text
//! match replay(alloc, &mut shelf, "topo.txt", "trace.txt") {
//!     ReplayEnd::Holds => ..,
//!     ReplayEnd::Wrong { line } => ..,
//!     end => ..,
//! }
//! ```
#![tactic(auto)]

mod ends;
mod laws;
mod lines;
mod replays;
mod turns;

pub use ends::ReplayEnd;
pub use laws::{
    a_first_part_begins_a_trace, a_run_writes_a_trace_text, a_text_has_one_trace,
    at_most_one_answer_is_right,
};
pub use replays::replay;
