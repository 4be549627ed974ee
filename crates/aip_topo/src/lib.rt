//! Topologies: the settings, domains, routers, hosts and links of a network, read from their text
//! and written to it.
//!
//! A text is a line for each of these. The first line that is refused ends the reading, with the
//! first fault that applies to it. A domain or a host is given by its id, or by the seed of its key:
//! then the tree of the key is built, and the id is that of the public key.
//!
//! ```
//! let topology = aip_topo::read(alloc, text)?;
//! let canonical = aip_topo::write(alloc, &topology)?;
//! ```
#![tactic(auto)]

mod additions;
mod faults;
mod indexed;
mod judging;
mod line_reader;
mod lines;
mod lists;
mod reading;
mod steps;
mod topology;
mod words;
mod writing;

pub use additions::Addition;
pub use faults::{TopoEnd, TopoFault};
pub use line_reader::read_line;
pub use lines::{Line, Origin, Setting};
pub use lists::{Domains, Parts, Routers};
pub use reading::{MOST_READ, read};
pub use steps::Draft;
pub use topology::{Domain, HostPart, Key, LinkPart, Part, Router, Settings, Topology};
pub use writing::write;

#[cfg(test)]
mod tests;
