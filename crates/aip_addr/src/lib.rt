//! Addresses of the network: byte strings, names, and the ids that are hashes of public keys.
//!
//! A domain and a host are named by ids that whoever holds the key can prove, and an address is the
//! id of a domain followed by the id of a host or a router in it.
//!
//! ```rust
//! use aip_addr::{Address, Id, Name, owns};
//!
//! let name = Name::read(b"r-1").ok_or("a name")?;
//! let domain_key = [1; 56];
//! let router = Address {
//!     ad: Id::of_key(&domain_key, 0),
//!     eid: Id::of_router(&name),
//! };
//! assert_eq!(rt; Address::read(&router.write()), Some(router));
//! assert!(rt; owns(&domain_key, &router.ad));
//! ```
#![tactic(auto)]

mod byte_string;
mod ids;
mod names;

pub use byte_string::Bytes;
pub use ids::{Address, Id, KeyId, owns};
pub use names::Name;

#[cfg(test)]
mod tests;
