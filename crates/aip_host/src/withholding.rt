// What a guard leaves of a reaction.
ghost use Rattle.std.specs.Prelude.{◌≡◌, ◌<◌, ◌^◌, ◌∷◌, ◌++◌, [], None, Some, false, IfOk};
ghost use Rattle.aip_frame.specs.Frame.{frame_of};
ghost use Rattle.aip_event.specs.declared.event.Event.TheVariants as event;
ghost use Rattle.aip_host.specs.HostState.{fell_in};
ghost use Rattle.aip_host.specs.Withholding.{held_back, withheld_by};

use crate::guard::Guard;
use aip_addr::{KeyId, Name};
use aip_event::{Event, Events};
use aip_frame::{is_frame, to_of};
use aip_rules::Reaction;
use std::alloc::AllocError;

// The key identifier for which a guard withholds bytes: that of a frame's destination, while it is in force.
#[tactic(auto, using(crate::proofs::Withheld::goes, crate::proofs::Withheld::stays, crate::proofs::Withheld::noise))]
fn withheld_to(guard: &Guard, now: u64, bytes: &[u8]) -> Option<KeyId>
    requires soon { now < 2 ^ 48 }
    requires up { guard.now.is_down ≡ false }
    ensures { result ≡ withheld_by (Some guard.now) now (frame_of bytes.now) }
{
    if !is_frame(bytes) {
        return None;
    }
    let to = to_of(bytes).eid.key_id();
    if guard.withholds(&to, now) {
        Some(to)
    } else {
        None
    }
}

// The key identifier for which bytes are withheld, if there is a guard.
#[tactic(auto, using(crate::proofs::Withheld::plain))]
fn withheld_by(guard: &Option<Guard>, now: u64, bytes: &[u8]) -> Option<KeyId>
    requires soon { now < 2 ^ 48 }
    requires up { fell_in guard.now ≡ false }
    ensures { result ≡ withheld_by guard.now now (frame_of bytes.now) }
{
    match guard {
        Some(guard) => withheld_to(guard, now, bytes),
        None => None,
    }
}

// The events of a host, behind which a frame is withheld for this key identifier.
fn withheld(host: Name, to: KeyId, events: Events) -> Result<Reaction, AllocError>
    ensures { IfOk result (λ reaction. reaction ≡ record { events = events ++ event.Withheld host to ∷ []; put = None }) }
{
    let mut events = events;
    events.push(Event::Withheld { host, to })?;
    Ok(Reaction { events, put: None })
}

/// What the guard of a host, if it has one, leaves of a reaction: a frame to a key identifier that is in force is withheld. The
/// only error is want of memory.
pub fn held_back(
    host: Name,
    guard: &Option<Guard>,
    now: u64,
    reaction: Reaction,
) -> Result<Reaction, AllocError>
    requires soon { now < 2 ^ 48 }
    requires up { fell_in guard.now ≡ false }
    ensures { IfOk result (λ left. left ≡ held_back host guard.now now reaction) }
{
    let to = match &reaction.put {
        Some(flight) => withheld_by(guard, now, flight.bytes.as_slice()),
        None => None,
    };
    match to {
        Some(to) => withheld(host, to, reaction.events),
        None => Ok(reaction),
    }
}
