// What stands after an input: the time, the wiring, and the flights with the event of the newest.
ghost use Rattle.std.specs.Prelude.{◌≡◌, ◌++◌, length, OnOk};
ghost use Rattle.aip_rules.specs.State.{ticks_of};
ghost use Rattle.aip_rules.specs.Reaction.{in_put, put_event};
ghost use Rattle.aip_core.specs.Moves.{LinkIsThere, links_with};

use crate::flights::Flights;
use crate::wiring::Wiring;
use aip_event::{Events, Input};
use aip_rules::Flight;
use std::alloc::{AllocError, Global};

// The ticks of an input.
pub(crate) fn ticks_of(input: &Input) -> u64
    ensures { result ≡ ticks_of input.now }
{
    match input {
        Input::Tick { ticks } => *ticks,
        _ => 0,
    }
}

// The wiring once an input has cut or mended a link, or as it was.
pub(crate) fn linked(alloc: Global, wiring: Wiring, input: &Input) -> Wiring
    requires { LinkIsThere (length wiring.links) input.now }
    ensures { result ≡ record wiring { links = links_with input.now wiring.links } }
{
    match input {
        Input::Cut { link } => wiring.with_link(alloc, *link as usize, false),
        Input::Mend { link } => wiring.with_link(alloc, *link as usize, true),
        _ => wiring,
    }
}

// Puts the flight of a reaction, if it has one, and adds the event of it to the others.
pub(crate) fn put_behind(
    alloc: Global,
    flights: &mut Flights,
    events: &mut Events,
    put: Option<Flight>,
) -> Result<(), AllocError>
    ensures flights { OnOk result (flights.new ≡ flights.old ++ in_put put) }
    ensures events { OnOk result (events.new ≡ events.old ++ put_event (length flights.old) put) }
{
    match put {
        Some(flight) => {
            let event = flights.put(alloc, flight)?;
            events.push(event)?;
            Ok(())
        }
        None => Ok(()),
    }
}
