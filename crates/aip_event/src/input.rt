use aip_addr::{Bytes, Name};

/// Where a flight goes.
#[derive(Clone, Copy, Debug, PartialEq, Eq)]
pub enum Target {
    /// A router's port.
    Port {
        /// The router.
        router: Name,
        /// The number of its port.
        port: u64,
    },
    /// A host.
    Host {
        /// The host.
        name: Name,
    },
}

/// An input of the network: a line of a schedule.
#[derive(Debug, Drop)]
pub enum Input {
    /// Time moves.
    Tick {
        /// By how many ticks.
        ticks: u64,
    },
    /// A host sends a packet of data.
    Send {
        /// The host.
        host: Name,
        /// The host or the router that it goes to.
        node: Name,
        /// The packet's id.
        packet: u64,
        /// What the packet carries.
        body: Bytes,
    },
    /// A host hands down bytes as they are.
    Raw {
        /// The host.
        host: Name,
        /// The bytes.
        bytes: Bytes,
    },
    /// A flight arrives.
    Deliver {
        /// The flight's number.
        flight: u64,
    },
    /// A flight comes from outside.
    Inject {
        /// Where it goes.
        target: Target,
        /// Its bytes.
        bytes: Bytes,
    },
    /// A link goes down.
    Cut {
        /// The link's number.
        link: u64,
    },
    /// A link comes up.
    Mend {
        /// The link's number.
        link: u64,
    },
    /// A host asks the sender of a packet to stop.
    Shutoff {
        /// The host.
        host: Name,
        /// The number of the flight that is the packet.
        flight: u64,
        /// For how many ticks.
        ttl: u64,
    },
    /// A host or a router starts anew.
    Restart {
        /// The host or the router.
        node: Name,
    },
    /// A host's disk will fail while the host signs next.
    Stop {
        /// The host.
        host: Name,
        /// At which call of the disk.
        call: u64,
        /// The byte that the call leaves.
        byte: u64,
    },
    /// A host's filter disk will fail while the host obeys a shut-off next.
    Halt {
        /// The host.
        host: Name,
        /// At which call of the disk.
        call: u64,
        /// The byte that the call leaves.
        byte: u64,
    },
    /// A record is published.
    Publish {
        /// The record's bytes.
        bytes: Bytes,
    },
}
