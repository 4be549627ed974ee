//! The flights that were put.

ghost use Rattle.std.specs.Prelude.{◌≡◌, ◌++◌, ◌∷◌, [], length, slice_get, option_map, IfOk, OnOk};
ghost use Rattle.std.specs.Option.{option_copied};
ghost use Rattle.aip_event.specs.declared.event.Event.TheVariants.{Put};

use aip_addr::Bytes;
use aip_event::{Event, Target};
use aip_rules::Flight;
use std::alloc::{AllocError, Global};
use std::marker::Model;

/// The flights in the order in which they were put: flight k stands at place k. Contracts see the list.
#[derive(Drop)]
pub struct Flights {
    entries: Vec<Flight>,
}

impl Model for Flights {
    ghost use Rattle.std.specs.Prelude.{List};
    ghost use Rattle.aip_rules.specs.declared.Flight.{Flight};

    ghost Value = { List Flight };

    ghost view = { λ f. f.entries.items };
}

fn copied(alloc: Global, flight: &Flight) -> Result<Flight, AllocError>
    ensures { IfOk result (λ copy. copy ≡ flight.now) }
{
    let bytes = Bytes::from_slice(alloc, flight.bytes.as_slice())?;
    Ok(Flight {
        target: flight.target,
        bytes,
    })
}

// The event by which a flight is put.
fn event_of(number: u64, flight: Flight) -> Event
    ensures { result ≡ Put number flight.target flight.bytes }
{
    let Flight { target, bytes } = flight;
    Event::Put {
        flight: number,
        target,
        bytes,
    }
}

impl Flights {
    /// No flights.
    pub fn new(alloc: Global) -> Flights
        ensures { result ≡ [] }
    {
        Flights {
            entries: Vec::new(alloc),
        }
    }

    /// How many flights were put.
    pub fn count(&self) -> usize
        ensures { result ≡ length self.now }
    {
        self.entries.len()
    }

    /// Where the flight of a number goes, if it was put.
    pub fn target(&self, number: usize) -> Option<Target>
        ensures { result ≡ option_map (λ flight. flight.target) (slice_get self.now number) }
    {
        match self.entries.get(number) {
            Some(flight) => Some(flight.target),
            None => None,
        }
    }

    /// The flight of a number, if it was put.
    pub fn find(&self, number: usize) -> Option<&Flight>
        ensures { option_copied result ≡ slice_get self.now number }
    {
        self.entries.get(number)
    }

    /// Puts a flight: keeps it, and gives the event with its number. The bytes are copied once, so that what is kept takes
    /// no more memory than it needs.
    pub fn put(&mut self, alloc: Global, flight: Flight) -> Result<Event, AllocError>
        ensures kept { OnOk result (self.new ≡ self.old ++ flight ∷ []) }
        ensures event { IfOk result (λ event. event ≡ Put (length self.old) flight.target flight.bytes) }
    {
        let number = self.entries.len() as u64;
        self.entries.push(copied(alloc, &flight)?)?;
        Ok(event_of(number, flight))
    }
}
