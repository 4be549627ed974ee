//! What the routers keep, by their places.

ghost use Rattle.std.specs.Prelude.{◌≡◌, ◌<◌, ℕ, List, length, slice_get, replicate, All, Some, IfSome, IfOk, OnOk};
ghost use Rattle.accept_cache.specs.Kept.{HasRoom};
ghost use Rattle.aip_rules.specs.Accepted.{limits_of};
ghost use Rattle.aip_rules.specs.Step.{most_inputs};
ghost use Rattle.aip_core.specs.Moves.{MovesAt, anew_at, anew_if, routers_with};
ghost use Rattle.aip_core.specs.Rooms.{IsBootedUpTo};
ghost use Rattle.aip_core.specs.RouterMachine.{RouterState, basis_of, kept_at_place, after_place, router_at_start};
ghost use Rattle.aip_core.specs.Wiring.{IsWiringOf};

use crate::checks::Checks;
use crate::directory::Directory;
use crate::network::Network;
use crate::router;
use aip_event::Input;
use aip_rules::Reaction;
use aip_topo::Settings;
use std::alloc::{AllocError, Global};

/// What so many routers keep before any input. The only error is want of memory.
pub fn checks_of(
    alloc: Global,
    settings: &Settings,
    count: usize,
) -> Result<Vec<Checks>, AllocError>
    requires { HasRoom (limits_of settings.now) }
    ensures { IfOk result (λ checks. checks.items ≡ replicate count (router_at_start settings.now)) }
{
    let mut checks = Vec::new(alloc);
    for router in 0..count {
        checks.push(Checks::new(alloc, settings)?)?;
    }
    Ok(checks)
}

/// What happens where bytes arrive at a port of the router at a place, and what the routers keep then. The only error is
/// want of memory; what the router keeps is of no use after it.
pub fn arrive_at(
    alloc: Global,
    network: &mut Network,
    routers: &mut Vec<Checks>,
    place: u16,
    port: u64,
    now: u64,
    bytes: &[u8],
) -> Result<Reaction, AllocError>
    requires wired { IsWiringOf network.old.directory network.old.wiring }
    requires epochs { 0 < network.old.directory.settings.epoch }
    requires there { place < length routers.old.items }
    ensures same { network.new ≡ network.old }
    ensures count { length routers.new.items ≡ length routers.old.items }
    ensures boots { (n : ℕ) → All (IsBootedUpTo n) routers.old.items → All (IsBootedUpTo n) routers.new.items }
    ensures reaction { IfOk result (λ reaction. (state : RouterState) → slice_get routers.old.items place ≡ Some state
        → reaction ≡ kept_at_place (basis_of network.old state now) place (slice_get network.old.directory.routers place) port bytes.now) }
    ensures after { OnOk result (MovesAt RouterState (Some place)
        (λ old new. new ≡ after_place (basis_of network.old old now) place (slice_get network.old.directory.routers place) port bytes.now)
        routers.old.items routers.new.items) }
{
    router::arrive(
        alloc,
        network,
        &mut routers[place as usize],
        place,
        port,
        now,
        bytes,
    )
}

// Starts the router at a place anew.
fn start_at(routers: &mut Vec<Checks>, place: u16)
    requires there { place < length routers.old.items }
    requires boots { All (IsBootedUpTo most_inputs) routers.old.items }
    ensures { routers.new.items ≡ anew_at routers.old.items place }
{
    routers[place as usize].restart();
}

// The place of the router that an input starts anew, if it does.
fn started_by(directory: &Directory, input: &Input) -> Option<u16>
    ensures started { (states : List RouterState) → anew_if states result ≡ routers_with directory.now input.now states }
    ensures there { IfSome result (λ place. place < length directory.now.routers) }
{
    match input {
        Input::Restart { node } => match directory.place_of_host(node) {
            Some(_) => None,
            None => directory.place_of_router(node),
        },
        _ => None,
    }
}

/// What the routers keep once an input started one of them anew, if it does.
pub fn started(directory: &Directory, routers: Vec<Checks>, input: &Input) -> Vec<Checks>
    requires count { length routers.items ≡ length directory.now.routers }
    requires boots { All (IsBootedUpTo most_inputs) routers.items }
    ensures { result.items ≡ routers_with directory.now input.now routers.items }
{
    let mut routers = routers;
    if let Some(place) = started_by(directory, input) {
        start_at(&mut routers, place);
    }
    routers
}
