//! The generator of made workloads: from a number, a topology and the inputs of a schedule.
//!
//! All is drawn from one stream of words, so the calls come in one order: first the topology, then
//! the lines from number 0 on, each told how many flights have left by then.
//!
//! ```text
//! let mut made = Gen::new(1);
//! let topology = made.topology(alloc)?;
//! for index in 0..60_000 {
//!     let input = made.line(alloc, index, flights)?;
//!     // .. a step of the network takes the input; the flights that it puts are counted
//! }
//! ```
#![tactic(auto)]

mod choices;
mod draws;
mod generator;
mod topology;

pub use generator::Gen;

#[cfg(test)]
mod tests;
