//! The network as it runs: nodes, links, flights and time, moved by one input at a time.
//!
//! A `Core` takes inputs and gives the events that the rules of the network give. It keeps no trace, and stands for one:
//! its contracts say what a step does for every trace that the core stands for. An input that the rules refuse leaves the
//! core as it was.
//!
//! ```text
//! let mut core = Core::new(alloc, topology)?;
//! for input in inputs {
//!     let (next, events) = core.step(alloc, input)?;
//!     core = next;
//!     // the events are written, and dropped
//! }
//! ```
#![tactic(auto)]

mod after;
mod asking;
mod checks;
mod directory;
mod ends;
mod engine;
mod flights;
mod host;
mod index;
mod network;
mod passing;
mod places;
mod ports;
mod publishing;
mod reactions;
mod router;
mod routers;
mod routes;
mod starting;
mod trust;
mod wiring;

pub use aip_rules::{Entry, Flight, StepFault};
pub use ends::StepEnd;
pub use engine::Core;
