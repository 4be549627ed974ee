//! What the routers of a network share.

use crate::directory::Directory;
use crate::wiring::Wiring;
use aip_registry::Registry;

/// What the routers of a network share.
#[derive(Drop)]
pub struct Network {
    /// Where names and addresses are found.
    pub directory: Directory,
    /// The links as they are, and what lies at the ports of each router.
    pub wiring: Wiring,
    /// The records that are kept of those that were published.
    pub registry: Registry,
}
