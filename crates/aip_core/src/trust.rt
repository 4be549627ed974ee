//! Which neighbours a router trusts.

ghost use Rattle.std.specs.Prelude.{◌≡◌};
ghost use Rattle.aip_rules.specs.Records.{is_ahead, trusts, trusts_domain};

use crate::network::Network;
use crate::router::Arrival;
use aip_addr::Id;
use aip_registry::{RecordKind, Registry};

// Whether there is a tick above now.
fn is_ahead(now: u64, until: Option<u64>) -> bool
    ensures { result ≡ is_ahead now until }
{
    match until {
        Some(until) => now < until,
        None => false,
    }
}

// Whether a router of one domain trusts a neighbour of another over a link whose end is marked or not.
fn trusts_domain(registry: &Registry, now: u64, own: &Id, other: &Id, marked: bool) -> bool
    ensures { result ≡ trusts_domain registry.now now own.now other.now marked }
{
    marked && (own == other || is_ahead(now, registry.until(RecordKind::Peer, own, other)))
}

/// Whether the router that a flight reached trusts the one at the place `other` over a link whose end is marked or not: it is
/// marked, and the two have one domain, or a peering record of the router's domain for the other's is kept and in force.
pub fn trusts(network: &Network, at: &Arrival, other: u16, marked: bool) -> bool
    ensures { result ≡ trusts network.now.directory network.now.registry at.now.time at.now.own other marked }
{
    match network.directory.routers().get(other as usize) {
        Some(router) => trusts_domain(
            &network.registry,
            at.time,
            &at.own.address.ad,
            &router.address.ad,
            marked,
        ),
        None => false,
    }
}
