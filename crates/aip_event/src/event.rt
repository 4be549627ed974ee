use crate::input::Target;
use aip_addr::{Address, Bytes, Id, KeyId, Name};
use std::alloc::{AllocError, Global};
use std::marker::Model;

/// Why a router forwards a frame.
#[derive(Clone, Copy, Debug, PartialEq, Eq)]
pub enum Cause {
    /// The router is open.
    Open,
    /// The frame is a challenge.
    Exempt,
    /// The router trusts the link.
    Trusted,
    /// The frame came from where the router would send to its source.
    Reverse,
    /// The source was proved.
    Proved,
    /// The source's domain has a wildcard.
    Wild,
}

impl Cause {
    ghost use Rattle.std.specs.Prelude.{◌≡◌};
    ghost use Rattle.aip_event.specs.Lines.{cause_word};

    /// All causes.
    pub const ALL: [Cause; 6] = [
        Cause::Open,
        Cause::Exempt,
        Cause::Trusted,
        Cause::Reverse,
        Cause::Proved,
        Cause::Wild,
    ];

    /// The cause's word in a line.
    pub fn word(self) -> &'static [u8]
        ensures { result.now ≡ cause_word self }
    {
        match self {
            Cause::Open => b"open",
            Cause::Exempt => b"exempt",
            Cause::Trusted => b"trusted",
            Cause::Reverse => b"reverse",
            Cause::Proved => b"proved",
            Cause::Wild => b"wild",
        }
    }
}

/// Why a router or a host drops a frame.
#[derive(Clone, Copy, Debug, PartialEq, Eq)]
pub enum Reason {
    /// The bytes are no frame.
    Bad,
    /// The frame is for the router itself, which has no use for it.
    Mine,
    /// The hop limit is used up.
    Hops,
    /// There is no way to the destination.
    NoRoute,
    /// A host's frame has the source of another domain.
    Foreign,
    /// There is no way back to the source.
    NoBack,
    /// The host is down.
    Down,
    /// The frame is for another.
    Stray,
    /// The challenge isn't for a packet of the host.
    NotMine,
    /// The challenge is for a packet that isn't in the log.
    Unlogged,
    /// The host has no key to answer with.
    Mute,
    /// The host's key has no leaf left.
    Dry,
    /// The host has no use for a frame of this kind.
    Kind,
    /// The host has no guard.
    Unguarded,
}

impl Reason {
    ghost use Rattle.std.specs.Prelude.{◌≡◌};
    ghost use Rattle.aip_event.specs.Lines.{reason_word};

    /// All reasons.
    pub const ALL: [Reason; 14] = [
        Reason::Bad,
        Reason::Mine,
        Reason::Hops,
        Reason::NoRoute,
        Reason::Foreign,
        Reason::NoBack,
        Reason::Down,
        Reason::Stray,
        Reason::NotMine,
        Reason::Unlogged,
        Reason::Mute,
        Reason::Dry,
        Reason::Kind,
        Reason::Unguarded,
    ];

    /// The reason's word in a line.
    pub fn word(self) -> &'static [u8]
        ensures { result.now ≡ reason_word self }
    {
        match self {
            Reason::Bad => b"bad",
            Reason::Mine => b"mine",
            Reason::Hops => b"hops",
            Reason::NoRoute => b"noroute",
            Reason::Foreign => b"foreign",
            Reason::NoBack => b"noback",
            Reason::Down => b"down",
            Reason::Stray => b"stray",
            Reason::NotMine => b"notmine",
            Reason::Unlogged => b"unlogged",
            Reason::Mute => b"mute",
            Reason::Dry => b"dry",
            Reason::Kind => b"kind",
            Reason::Unguarded => b"unguarded",
        }
    }
}

/// What happens in the network.
#[derive(Debug, Drop)]
pub enum Event {
    /// A flight begins.
    Put {
        /// Its number.
        flight: u64,
        /// Where it goes.
        target: Target,
        /// Its bytes.
        bytes: Bytes,
    },
    /// A router passes a frame on.
    Forward {
        /// The router.
        router: Name,
        /// The port by which the frame came.
        in_port: u64,
        /// The port by which it leaves.
        out_port: u64,
        /// Why it may.
        cause: Cause,
    },
    /// A router challenges the source of a frame.
    Ask {
        /// The router.
        router: Name,
        /// The port by which the frame came.
        in_port: u64,
        /// The port by which the challenge leaves.
        out_port: u64,
    },
    /// A router takes a source as proved.
    Proved {
        /// The router.
        router: Name,
        /// The source.
        source: Address,
        /// The port for which it is proved.
        port: u64,
    },
    /// A router takes a whole domain as proved.
    Wild {
        /// The router.
        router: Name,
        /// The domain.
        ad: Id,
        /// The port for which it is proved.
        port: u64,
    },
    /// A router refuses a response.
    Refuse {
        /// The router.
        router: Name,
        /// The number of the reason.
        number: u64,
    },
    /// A router or a host drops a frame.
    Drop {
        /// The router or the host.
        node: Name,
        /// Why.
        reason: Reason,
    },
    /// A host receives a packet of data.
    Got {
        /// The host.
        host: Name,
        /// The packet's id.
        packet: u64,
    },
    /// A host signs.
    Signed {
        /// The host.
        host: Name,
        /// The leaf of its key that it signs with.
        leaf: u64,
    },
    /// A host's disk fails while the host signs.
    Stopped {
        /// The host.
        host: Name,
        /// The leaf of its key.
        leaf: u64,
        /// At which call of the disk.
        call: u64,
        /// The byte that the call left.
        byte: u64,
    },
    /// A host's guard withholds a frame.
    Withheld {
        /// The host.
        host: Name,
        /// The key identifier that the frame was for.
        to: KeyId,
    },
    /// A host obeys a shut-off.
    Obeyed {
        /// The host.
        host: Name,
        /// The key identifier of the shut-off's sender.
        sender: KeyId,
        /// The time until which it is in force.
        until: u64,
    },
    /// A host refuses a shut-off.
    Heard {
        /// The host.
        host: Name,
        /// The number of the reason.
        number: u64,
    },
    /// A host's filter disk fails while the host obeys a shut-off.
    Halted {
        /// The host.
        host: Name,
        /// The key identifier of the shut-off's sender.
        sender: KeyId,
        /// The time until which the shut-off asks.
        until: u64,
        /// At which call of the disk.
        call: u64,
        /// The byte that the call left.
        byte: u64,
    },
    /// A shut-off is in force at a host that starts anew.
    Kept {
        /// The host.
        host: Name,
        /// The key identifier of the shut-off's sender.
        sender: KeyId,
        /// The time until which it is in force.
        until: u64,
    },
    /// The record of a peering is kept.
    PublishedPeer {
        /// The domain that signed it.
        ad: Id,
        /// The domain that it trusts.
        other: Id,
        /// The record's number, any number below 2^64.
        number: u64,
        /// The time until which it is in force, any number below 2^64.
        until: u64,
    },
    /// The record that binds a host to a domain is kept.
    PublishedBind {
        /// The domain that signed it.
        ad: Id,
        /// The host's id.
        other: Id,
        /// The record's number, any number below 2^64.
        number: u64,
        /// The time until which it is in force, any number below 2^64.
        until: u64,
    },
    /// A record is refused.
    Unpublished {
        /// The number of the reason.
        number: u64,
    },
}

/// A list of events, the oldest first.
#[derive(Debug, Drop)]
pub struct Events {
    entries: Vec<Event>,
}

impl Model for Events {
    ghost use Rattle.std.specs.Prelude.{List};
    ghost use Rattle.aip_event.specs.declared.event.Event.{Event};

    ghost Value = { List Event };

    ghost view = { λ e. e.entries.items };
}

impl Events {
    ghost use Rattle.std.specs.Prelude.{◌≡◌, ◌++◌, ◌∷◌, [], OnErr, OnOk};

    /// No events. It takes no memory.
    pub fn new(alloc: Global) -> Events
        ensures { result ≡ [] }
    {
        Events {
            entries: Vec::new(alloc),
        }
    }

    /// Adds an event at the end. After want of memory the list is as before.
    pub fn push(&mut self, event: Event) -> Result<(), AllocError>
        ensures ok { OnOk result (self.new ≡ self.old ++ event ∷ []) }
        ensures err { OnErr result (self.new ≡ self.old) }
    {
        self.entries.push(event)?;
        Ok(())
    }

    /// The events.
    pub fn as_slice(&self) -> &[Event]
        ensures { result.now ≡ self.now }
    {
        self.entries.as_slice()
    }
}
