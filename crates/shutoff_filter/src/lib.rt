//! Shut-offs: how a receiver tells a source to be silent, and when the source obeys.
//!
//! A host that has obeyed a shut-off keeps the key identifier of its sender in a filter until a tick, and sends nothing to
//! it before. A filter has room for some key identifiers in force, and one slot more than that.
//!
//! ```text
//! let mut store = FilterStore::open(format_store(disk, 8)?, Slots::new(alloc, 8)?)?;
//! if let Heard::Obeyed { until } = store.judge(&log, frame, now) {
//!     // The sender of the frame is in force until then, also after a crash.
//!     store = store.ready(now)?.keep(&sender, until, now)?;
//! }
//! ```
#![tactic(auto)]

mod bodies;
mod entries;
mod formatting;
mod in_force;
mod judgement;
mod judging;
mod keeping;
mod laws;
mod layout;
mod opening;
mod slots;
mod spare;
mod store;
mod writing;

pub use bodies::{shutoff_body, shutoff_text};
pub use entries::ShutOffEntry;
pub use formatting::{StoreFormatEnd, format_store};
pub use judging::Heard;
pub use keeping::KeepEnd;
pub use laws::what_is_in_force_is_listed;
pub use layout::{KEEP_BYTES, KEEP_CALLS, file_size};
pub use opening::StoreEnd;
pub use slots::Slots;
pub use store::FilterStore;

#[cfg(test)]
mod fault_tests;
#[cfg(test)]
mod store_tests;
#[cfg(test)]
mod tests;
