//! What nodes answer with.

ghost use Rattle.std.specs.Prelude.{◌≡◌, ◌∷◌, [], IfOk};
ghost use Rattle.aip_rules.specs.Reaction.{nothing, happens, dropped, puts, happens_and_puts};

use crate::{Flight, Reaction};
use aip_addr::{Bytes, Name};
use aip_event::{Event, Events, Reason, Target};
use std::alloc::{AllocError, Global};

fn one_event(alloc: Global, event: Event) -> Result<Events, AllocError>
    ensures { IfOk result (λ events. events ≡ event ∷ []) }
{
    let mut events = Events::new(alloc);
    events.push(event)?;
    Ok(events)
}

impl Reaction {
    /// Nothing happens.
    pub fn nothing(alloc: Global) -> Reaction
        ensures { result ≡ nothing }
    {
        Reaction {
            events: Events::new(alloc),
            put: None,
        }
    }

    /// One event. The only error is want of memory.
    pub fn happens(alloc: Global, event: Event) -> Result<Reaction, AllocError>
        ensures { IfOk result (λ reaction. reaction ≡ happens event) }
    {
        let events = one_event(alloc, event)?;
        Ok(Reaction { events, put: None })
    }

    /// A node drops what reached it. The only error is want of memory.
    pub fn dropped(alloc: Global, node: Name, reason: Reason) -> Result<Reaction, AllocError>
        ensures { IfOk result (λ reaction. reaction ≡ dropped node reason) }
    {
        Reaction::happens(alloc, Event::Drop { node, reason })
    }

    /// A flight, and no event before it.
    pub fn puts(alloc: Global, target: Target, bytes: Bytes) -> Reaction
        ensures { result ≡ puts target bytes }
    {
        Reaction {
            events: Events::new(alloc),
            put: Some(Flight { target, bytes }),
        }
    }

    /// One event, and a flight behind it. The only error is want of memory.
    pub fn happens_and_puts(
        alloc: Global,
        event: Event,
        target: Target,
        bytes: Bytes,
    ) -> Result<Reaction, AllocError>
        ensures { IfOk result (λ reaction. reaction ≡ happens_and_puts event target bytes) }
    {
        let events = one_event(alloc, event)?;
        Ok(Reaction {
            events,
            put: Some(Flight { target, bytes }),
        })
    }
}
