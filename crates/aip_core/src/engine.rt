//! The core: what stands after the inputs so far, and a step.

ghost use Rattle.std.specs.Prelude.{◌≡◌, ◌<◌, ◌≤◌, ◌^◌, ◌+◌, ◌++◌, ◌∷◌, [], ℕ, List, length, slice_get, option_map, Ok, Err, Some, IsTrue, IsOk, IfOk, IfErr, OnOk};
ghost use Rattle.aip_event.specs.declared.input.Input.TheVariants.{Deliver, Publish, Restart};
ghost use Rattle.aip_host.specs.HostState.{HostState};
ghost use Rattle.aip_rules.specs.declared.Entry.{Entry as Record};
ghost use Rattle.aip_rules.specs.declared.StepFault.TheVariants as fault;
ghost use Rattle.aip_topo.specs.declared.topology.Topology.{Topology as Network};
ghost use Rattle.aip_topo.specs.Sound.{IsSound};
ghost use Rattle.aip_rules.specs.State.{now_of, flight_count, ticks_of};
ghost use Rattle.aip_rules.specs.Routes.{domains_of_routers};
ghost use Rattle.aip_rules.specs.Reaction.{numbered};
ghost use Rattle.aip_rules.specs.Step.{injected, ticked, most_inputs};
ghost use Rattle.aip_rules.specs.Laws.{PutAtMostOne};
ghost use Rattle.aip_core.specs.Machine.{AreSeated, at_host_or, host_of, host_outcome, is_at_host, kept_outcome, kept_relinked, unless_hindered};
ghost use Rattle.aip_core.specs.Moves.{Does, GoesToPort, LinkIsThere, Moved, IsKeptStep, host_named_by, host_touched, router_touched, kept_after};
ghost use Rattle.aip_core.specs.StandsFor.{StandsFor, IsStep};
ghost use Rattle.aip_core.specs.Starting.{IsKeptAtStart};
ghost use Rattle.aip_core.specs.Answers.{IsOutcome, IsRefusal, IsKeptRefusal};

use crate::after::{linked, put_behind, ticks_of};
use crate::checks::Checks;
use crate::directory::Directory;
use crate::ends::StepEnd;
use crate::flights::Flights;
use crate::host::{act_at, can_be_put};
use crate::network;
use crate::places::{Places, places_of};
use crate::publishing::publish;
use crate::reactions::NoReaction;
use crate::routers::{arrive_at, checks_of, started};
use crate::starting::hosts_of;
use crate::wiring::Wiring;
use aip_addr::{Bytes, Name};
use aip_event::{Events, Input, Target};
use aip_host::Host;
use aip_registry::Registry;
use aip_rules::{MOST_INPUTS, Reaction, StepFault};
use aip_topo::{Router, Topology};
use std::alloc::{AllocError, Global};
use std::marker::Model;

/// The network as it runs. Contracts see its topology, its links as they are, its flights, its hosts and what its routers
/// keep, the records that were published and are kept, its time and the number of inputs that it took; and these stand for a
/// trace.
#[derive(Drop)]
pub struct Core {
    network: network::Network,
    flights: Flights,
    // The hosts and what the routers keep, by their places.
    hosts: Vec<Host>,
    routers: Vec<Checks>,
    ticks: u64,
    inputs: u32,
}

impl Model for Core {
    ghost use Rattle.aip_core.specs.Kept.{Kept};

    ghost Value = { Kept };

    ghost use Rattle.aip_core.specs.Rooms.{FitTogether};

    ghost view = { λ c. record { topo = c.network.directory; links = c.network.wiring.links; flights = c.flights; hosts = c.hosts.items; routers = c.routers.items; records = c.network.registry; ticks = c.ticks; inputs = c.inputs } };

    ghost invariant = { FitTogether };
}

// The domain of each router.
fn domains_of(alloc: Global, routers: &[Router]) -> Result<Vec<u16>, AllocError>
    ensures { IfOk result (λ domains. domains.items ≡ domains_of_routers routers.now) }
{
    routers.iter().map(|router| router.domain).collect(alloc)
}

impl Core {
    // The core of a topology before any input.
    fn start(alloc: Global, topology: Topology) -> Result<Core, AllocError>
        requires { IsSound topology }
        ensures { IfOk result (IsKeptAtStart topology) }
    {
        let settings = topology.settings;
        let routers = topology.routers.as_slice();
        let parts = topology.parts.as_slice();
        let Places { seats, links, rows } = places_of(alloc, routers, parts)?;
        let hosts = hosts_of(alloc, &settings, routers, &seats, parts)?;
        let checks = checks_of(alloc, &settings, routers.len())?;
        let domains = domains_of(alloc, routers)?;
        Ok(Core {
            network: network::Network {
                directory: Directory::new(alloc, topology, seats)?,
                wiring: Wiring::new(alloc, domains, links, rows),
                registry: Registry::new(alloc),
            },
            flights: Flights::new(alloc),
            hosts,
            routers: checks,
            ticks: 0,
            inputs: 0,
        })
    }

    /// The core of a topology before any input, all links up. It stands for the empty trace. The only error is want of
    /// memory.
    pub fn new(alloc: Global, topology: Topology) -> Result<Core, AllocError>
        requires { IsSound topology }
        ensures { IfOk result (λ core. StandsFor topology [] core) }
    {
        Core::start(alloc, topology)
    }

    /// The time: the sum of the ticks.
    pub fn now(&self) -> u64
        ensures kept { result ≡ self.now.ticks }
        ensures time { (topo : Network) (tr : List Record) → StandsFor topo tr self.now → result ≡ now_of tr }
    {
        self.ticks
    }

    /// How many flights were put so far. An input puts at most one, so they are at most 65,536.
    pub fn flights(&self) -> u32
        ensures kept { result ≡ length self.now.flights }
        ensures count { (topo : Network) (tr : List Record) → StandsFor topo tr self.now → result ≡ flight_count tr }
    {
        self.flights.count() as u32
    }

    // Time moves.
    fn tick(&self, alloc: Global, ticks: u64) -> Result<Reaction, StepFault>
        ensures { result ≡ ticked self.now.ticks ticks }
    {
        if ticks == 0 || ticks >= (1 << 48) - self.ticks {
            return Err(StepFault::Range);
        }
        Ok(Reaction::nothing(alloc))
    }

    // A link is cut or mended.
    fn relink(&self, alloc: Global, link: u64) -> Result<Reaction, StepFault>
        ensures { result ≡ kept_relinked self.now.links link }
    {
        if link >= self.network.wiring.link_count() as u64 {
            return Err(StepFault::Range);
        }
        Ok(Reaction::nothing(alloc))
    }

    // Why nothing from outside can reach a target, if nothing can.
    fn hindrance(&self, to: &Target) -> Option<StepFault>
        ensures { (bytes : List ℕ) → injected self.now.topo to.now bytes ≡ unless_hindered result to.now bytes }
    {
        match to {
            Target::Port { router, port } => match self.network.directory.place_of_router(router) {
                Some(place) => {
                    if *port >= self.network.wiring.port_count(place).into() {
                        Some(StepFault::Range)
                    } else {
                        None
                    }
                }
                None => Some(StepFault::Unknown),
            },
            Target::Host { name } => match self.network.directory.seat_named(name) {
                Some(_) => None,
                None => Some(StepFault::Unknown),
            },
        }
    }

    // Bytes come from outside.
    fn inject(&self, alloc: Global, to: &Target, bytes: &[u8]) -> Result<Reaction, NoReaction>
        ensures { IsOutcome (injected self.now.topo to.now bytes.now) result }
    {
        if let Some(fault) = self.hindrance(to) {
            return Err(NoReaction::Fault(fault));
        }
        if !can_be_put(bytes.len()) {
            return Err(NoReaction::Fault(StepFault::Range));
        }
        Ok(Reaction::puts(alloc, *to, Bytes::from_slice(alloc, bytes)?))
    }

    // What comes of an input at the host at a place, which it names.
    fn act(&mut self, alloc: Global, place: u16, input: &Input) -> Result<Reaction, NoReaction>
        requires acts { IsTrue (is_at_host input.now) }
        requires named { host_touched self.old.topo self.old.flights input.now ≡ Some place }
        ensures { (host : HostState) → slice_get self.old.hosts place ≡ Some host
            → Does (host_outcome self.old.topo self.old.flights self.old.ticks host input.now)
            (λ reaction old new. Moved old input.now reaction new) self.old result self.new }
    {
        act_at(
            alloc,
            &self.network.directory,
            &self.flights,
            self.ticks,
            &mut self.hosts,
            place,
            input,
        )
    }

    // What comes of an input at the host of this name, which it gives. Without one the name is unknown.
    fn act_named(
        &mut self,
        alloc: Global,
        host: &Name,
        input: &Input,
    ) -> Result<Reaction, NoReaction>
        requires acts { IsTrue (is_at_host input.now) }
        requires named { host_named_by self.old.flights input.now ≡ Some host.now }
        ensures { Does (at_host_or (Err fault.Unknown) self.old input.now (host_of self.old host.now))
            (λ reaction old new. Moved old input.now reaction new) self.old result self.new }
    {
        match self.network.directory.place_of_host(host) {
            Some(place) => self.act(alloc, place, input),
            None => Err(NoReaction::Fault(StepFault::Unknown)),
        }
    }

    // What comes of a restart, at the host or the router of this name.
    fn restart(&mut self, alloc: Global, node: &Name, input: &Input) -> Result<Reaction, NoReaction>
        requires { input.now ≡ Restart node.now }
        ensures { Does (kept_outcome self.old input.now) (λ reaction old new. Moved old input.now reaction new) self.old result self.new }
    {
        match self.network.directory.place_of_host(node) {
            Some(place) => self.act(alloc, place, input),
            None => match self.network.directory.place_of_router(node) {
                Some(_) => Ok(Reaction::nothing(alloc)),
                None => Err(NoReaction::Fault(StepFault::Unknown)),
            },
        }
    }

    // A flight that was put towards a port arrives at the router at a place.
    fn cross(
        &mut self,
        alloc: Global,
        place: u16,
        port: u64,
        flight: u64,
    ) -> Result<Reaction, NoReaction>
        requires there { router_touched self.old.topo self.old.flights (Deliver flight) ≡ Some place }
        requires port { GoesToPort (slice_get self.old.flights flight) port }
        ensures { Does (kept_outcome self.old (Deliver flight)) (λ reaction old new. Moved old (Deliver flight) reaction new) self.old result self.new }
    {
        match self.flights.find(flight as usize) {
            Some(found) => Ok(arrive_at(
                alloc,
                &mut self.network,
                &mut self.routers,
                place,
                port,
                self.ticks,
                found.bytes.as_slice(),
            )?),
            None => Err(NoReaction::Fault(StepFault::NoFlight)),
        }
    }

    // A flight that was put is delivered to its target.
    fn reach(
        &mut self,
        alloc: Global,
        flight: u64,
        to: &Target,
        input: &Input,
    ) -> Result<Reaction, NoReaction>
        requires taken { input.now ≡ Deliver flight }
        requires there { option_map (λ f. f.target) (slice_get self.old.flights flight) ≡ Some to.now }
        ensures { Does (kept_outcome self.old input.now) (λ reaction old new. Moved old input.now reaction new) self.old result self.new }
    {
        match to {
            Target::Port { router, port } => match self.network.directory.place_of_router(router) {
                Some(place) => self.cross(alloc, place, *port, flight),
                None => Ok(Reaction::nothing(alloc)),
            },
            Target::Host { name } => match self.network.directory.place_of_host(name) {
                Some(place) => self.act(alloc, place, input),
                None => Ok(Reaction::nothing(alloc)),
            },
        }
    }

    // A flight is delivered, if it was put.
    fn deliver(&mut self, alloc: Global, flight: u64, input: &Input) -> Result<Reaction, NoReaction>
        requires { input.now ≡ Deliver flight }
        ensures { Does (kept_outcome self.old input.now) (λ reaction old new. Moved old input.now reaction new) self.old result self.new }
    {
        match self.flights.target(flight as usize) {
            Some(to) => self.reach(alloc, flight, &to, input),
            None => Err(NoReaction::Fault(StepFault::NoFlight)),
        }
    }

    // Bytes are published.
    fn publish(&mut self, alloc: Global, bytes: &[u8]) -> Result<Reaction, NoReaction>
        ensures { Does (kept_outcome self.old (Publish bytes.now)) (λ reaction old new. Moved old (Publish bytes.now) reaction new) self.old result self.new }
    {
        publish(alloc, &mut self.network.registry, bytes)
    }

    // What comes of an input, where one more may be taken.
    fn outcome(&mut self, alloc: Global, input: &Input) -> Result<Reaction, NoReaction>
        ensures { Does (kept_outcome self.old input.now) (λ reaction old new. Moved old input.now reaction new) self.old result self.new }
    {
        match input {
            Input::Deliver { flight } => self.deliver(alloc, *flight, input),
            Input::Tick { ticks } => Ok(self.tick(alloc, *ticks)?),
            Input::Inject { target, bytes } => self.inject(alloc, target, bytes.as_slice()),
            Input::Cut { link } | Input::Mend { link } => Ok(self.relink(alloc, *link)?),
            Input::Restart { node } => self.restart(alloc, node, input),
            Input::Send { host, .. } => self.act_named(alloc, host, input),
            Input::Raw { host, .. } => self.act_named(alloc, host, input),
            Input::Shutoff { host, .. } => self.act_named(alloc, host, input),
            Input::Stop { host, .. } => self.act_named(alloc, host, input),
            Input::Halt { host, .. } => self.act_named(alloc, host, input),
            Input::Publish { bytes } => self.publish(alloc, bytes.as_slice()),
        }
    }

    // Takes an input with its reaction.
    fn with(
        self,
        alloc: Global,
        input: &Input,
        reaction: Reaction,
    ) -> Result<(Core, Events), AllocError>
        requires early { self.ticks + ticks_of input.now < 2 ^ 48 }
        requires few { self.inputs < most_inputs }
        requires link { LinkIsThere (length self.links) input.now }
        ensures core { IfOk result (λ taken. taken.0 ≡ kept_after self input.now reaction) }
        ensures events { IfOk result (λ taken. taken.1 ≡ numbered (length self.flights) reaction) }
    {
        let Core {
            network,
            mut flights,
            hosts,
            routers,
            ticks,
            inputs,
        } = self;
        let network::Network {
            directory,
            wiring,
            registry,
        } = network;
        let Reaction { mut events, put } = reaction;
        put_behind(alloc, &mut flights, &mut events, put)?;
        let routers = started(&directory, routers, input);
        let core = Core {
            network: network::Network {
                directory,
                wiring: linked(alloc, wiring, input),
                registry,
            },
            flights,
            hosts,
            routers,
            ticks: ticks + ticks_of(input),
            inputs: inputs + 1,
        };
        Ok((core, events))
    }

    // Takes one input, by what is kept alone.
    #[tactic(auto, using(crate::proofs::Accepted::taken_early, crate::proofs::Accepted::taken_there))]
    fn take(self, alloc: Global, input: Input) -> Result<(Core, Events), StepEnd>
        ensures sound { IsSound self.topo }
        ensures seated { AreSeated self.topo self.hosts }
        ensures taken { IfOk result (λ taken. IsKeptStep self input taken.0 taken.1) }
        ensures refused { IfErr result (IsKeptRefusal self input) }
    {
        if self.inputs >= MOST_INPUTS {
            let fault = StepFault::Many;
            return Err(StepEnd::Refused { core: self, fault });
        }
        let mut core = self;
        match core.outcome(alloc, &input) {
            Ok(reaction) => Ok(core.with(alloc, &input, reaction)?),
            Err(NoReaction::Fault(fault)) => Err(StepEnd::Refused { core, fault }),
            Err(NoReaction::Memory) => Err(StepEnd::Memory),
        }
    }

    /// Takes one input, and gives the events that come of it: for every trace that the core stands for they are the events
    /// of the rules, and the new core stands for the trace with the input and these events. Where the rules refuse the
    /// input, the core comes back as it was, with the first fault that applies. After want of memory it is given up.
    pub fn step(self, alloc: Global, input: Input) -> Result<(Core, Events), StepEnd>
        ensures taken { IfOk result (λ taken. IsStep self input taken.0 taken.1) }
        ensures refused { IfErr result (IsRefusal self input) }
        ensures flights { IfOk result (λ taken. length taken.0.flights ≤ length self.flights + 1) }
        ensures puts { IfOk result (λ taken. PutAtMostOne taken.1) }
    {
        self.take(alloc, input)
    }
}
