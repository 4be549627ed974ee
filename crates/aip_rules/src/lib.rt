//! The rules of the network, as definitions over traces: what stands after a trace, what a step is at a router and at a
//! host, what is written for a topology and a schedule, and how the run ends.
//!
//! The definitions are in `specs/`. This crate has the types that they speak of, and no code that acts.
//!
//! ```text
//! ghost use Rattle.aip_rules.specs.Step.{step_of};
//!
//! /// Takes one input.
//! fn step(..)
//!     ensures { (tr : List Entry) → StandsFor topo tr self → step_of topo tr input ≡ Ok events }
//! ```
#![tactic(auto)]

ghost use Rattle.std.specs.Prelude.{◌≡◌};

mod laws;
mod reactions;

use aip_addr::{Address, Bytes, Name};
use aip_event::{Cause, Event, Events, Input, Target};
pub use laws::{
    a_run_has_the_trace_of_its_lines, an_input_puts_at_most_one_flight, each_forward_is_justified,
    guards_are_silent, neighbours_are_trusted_by_records, no_leaf_signs_twice,
};
use thiserror::Error;

/// The most inputs of a trace.
pub const MOST_INPUTS: u32 = 65_536;

/// The most bytes that are put at once, or published.
pub const MOST_BYTES: usize = 9216;

/// An entry of a trace: an input that was taken, or an event that came of the input below it.
#[derive(Debug, Drop)]
pub enum Entry {
    Taken(Input),
    Happened(Event),
}

/// A flight: bytes that were put towards a target, and may be delivered any number of times.
#[derive(Debug, Drop)]
pub struct Flight {
    /// Where the bytes arrive.
    pub target: Target,
    /// The bytes, a frame or not.
    pub bytes: Bytes,
}

/// What a node does where something reaches it.
#[derive(Debug, Drop)]
pub struct Reaction {
    /// The events, the first first.
    pub events: Events,
    /// The flight that it puts behind these events, if it puts one. Its number is the network's to give.
    pub put: Option<Flight>,
}

/// What lies at a port of a router.
#[derive(Clone, Copy, Debug, PartialEq, Eq)]
pub enum Neighbour {
    /// A host.
    Host {
        /// Its name.
        name: Name,
    },
    /// An end of a link.
    Link {
        /// The place of the router at its other end.
        router: u16,
        /// The port of that router.
        port: u16,
        /// Whether the end of the router on this side is marked as trusted.
        marked: bool,
    },
}

/// What a checking router makes of a frame that it could forward.
#[derive(Clone, Copy, Debug)]
pub enum Verdict {
    /// It forwards it, for this cause.
    Forwards(Cause),
    /// The frame came at a host's port, and its source is of another domain than the router.
    Foreign,
    /// It asks the source by this port; where there is none, the frame is dropped, as `noback`.
    Asks(Option<u16>),
}

/// Where a host stands: at a port of a router, with its address.
#[derive(Clone, Copy, Debug)]
pub struct Seat {
    /// The host's name.
    pub name: Name,
    /// The place of its router among the routers.
    pub router: u16,
    /// The router's port that it stands at.
    pub port: u16,
    /// Its address: the domain of its router, and its own id.
    pub address: Address,
}

/// A stop of a disk that is armed: the call at which it falls, counted from 1, and the byte that it then leaves.
#[derive(Clone, Copy, Debug, PartialEq, Eq)]
pub struct Arming {
    /// The call: 1 or 2 of a signing, 1 to 4 of a filter's write.
    pub call: u8,
    /// The byte.
    pub byte: u8,
}

/// Why a line of a schedule is refused. A step of the network gives all but `Form` and `Long`.
#[derive(Clone, Copy, Debug, PartialEq, Eq, Error)]
pub enum StepFault {
    /// The line is outside the grammar of inputs.
    #[error("no line of a schedule")]
    Form,
    /// A name isn't one of the kind that is asked for.
    #[error("no such host or router")]
    Unknown,
    /// No such flight was put.
    #[error("no such flight")]
    NoFlight,
    /// A number or a length is out of its range.
    #[error("out of range")]
    Range,
    /// The host has no key.
    #[error("a host without a key")]
    Keyless,
    /// The line's number is above 65,536, or 65,536 inputs were taken.
    #[error("too many lines")]
    Many,
    /// The line has more than 20,000 bytes.
    #[error("too long")]
    Long,
}

impl StepFault {
    ghost use Rattle.aip_rules.specs.Texts.{fault_number};

    /// The number of the fault, as a refusal line writes it.
    pub fn number(self) -> u64
        ensures { result ≡ fault_number self }
    {
        match self {
            StepFault::Form => 1,
            StepFault::Unknown => 2,
            StepFault::NoFlight => 3,
            StepFault::Range => 4,
            StepFault::Keyless => 5,
            StepFault::Many => 6,
            StepFault::Long => 7,
        }
    }
}
