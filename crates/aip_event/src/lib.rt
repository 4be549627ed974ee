//! The inputs and the events of a simulated network, and the one line that each of them has in a
//! text.
//!
//! ```text
//! if let Some(input) = read_input(alloc, b"deliver 3")? {
//!     // .. a step of the network takes the input, and gives events:
//!     write_events(alloc, events.as_slice(), &mut text)?;
//! }
//! ```
#![tactic(auto)]

mod event;
mod event_reading;
mod event_writing;
mod fields;
mod input;
mod input_reading;
mod input_writing;
mod shapes;

pub use event::{Cause, Event, Events, Reason};
pub use event_reading::read_event;
pub use event_writing::{write_event, write_events};
pub use input::{Input, Target};
pub use input_reading::read_input;
pub use input_writing::write_input;
