//! Signed records, and the registry that keeps the newest of each.
//!
//! The holder of a domain's key signs that another domain is its peer, or that a host belongs to it, until a tick. A record
//! bears the signer's public key, whose hash is the signer's AD, so anyone can judge it. Of the records of one kind by one
//! domain on one peer or host, the one with the greatest number counts.
//!
//! ```text
//! let text = record_text(&fields);
//! // .. the domain signs the text, and publishes the record:
//! let bytes = record_bytes(alloc, &fields, &key, &signature)?;
//! let mut registry = Registry::new(alloc);
//! match registry.publish(bytes.as_slice())? {
//!     Published::Ok => { .. registry.until(fields.kind, &fields.ad, &fields.other) .. }
//!     refusal => ..
//! }
//! ```
#![tactic(auto)]

mod published;
mod records;
mod registry;

pub use published::Published;
pub use records::{Record, RecordKind, read_record, record_bytes, record_text, signer_of};
pub use registry::Registry;

#[cfg(test)]
mod tests;
