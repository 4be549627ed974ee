use aip_addr::{Id, Name};
use lms_core::{Height, Width};

/// A setting of a topology.
#[derive(Clone, Copy, Debug, PartialEq, Eq)]
pub enum Setting {
    /// `accept`
    Accept,
    /// `cache`
    Cache,
    /// `epoch`
    Epoch,
    /// `filter`
    Filter,
    /// `log`
    Log,
    /// `threshold`
    Threshold,
    /// `wild`
    Wild,
    /// `wildcache`
    Wildcache,
}

/// How a line gives the id of a domain or a host.
#[derive(Clone, Copy)]
pub enum Origin {
    /// `id HEX40`: the id itself.
    Given(Id),
    /// `seed W H HEX64` of a domain, `seed W H NUMBER HEX64` of a host: the id of the key that the
    /// seed makes.
    Seed {
        /// The width of the key's one-time signatures.
        width: Width,
        /// The height of its tree.
        height: Height,
        /// The interface byte of the id, 0 for a domain.
        interface: u64,
        /// The secret seed.
        seed: [u8; 32],
    },
}

/// What a line of a topology says, before its names are looked up.
#[derive(Clone, Copy)]
pub enum Line {
    /// `set WORD NUMBER`
    Set {
        /// The setting.
        setting: Setting,
        /// Its value.
        value: u64,
    },
    /// `domain NAME id HEX40`, or `domain NAME seed W H HEX64`
    Domain {
        /// The domain's name.
        name: Name,
        /// How its id is given.
        origin: Origin,
    },
    /// `router NAME DOMAIN open HEX64`, or `checking` in place of `open`
    Router {
        /// The router's name.
        name: Name,
        /// Its domain's.
        domain: Name,
        /// Whether it checks sources.
        checking: bool,
        /// Its master secret.
        master: [u8; 32],
    },
    /// `host NAME ROUTER plain id HEX40`, or `guarded` in place of `plain`, or
    /// `seed W H NUMBER HEX64` in place of the id
    Host {
        /// The host's name.
        name: Name,
        /// Its router's.
        router: Name,
        /// Whether a guard stands before its sending.
        guarded: bool,
        /// How its id is given.
        origin: Origin,
    },
    /// `link ROUTER ROUTER END END`, where END is `trusted` or `checked`
    Link {
        /// The first router's name.
        a: Name,
        /// The second's.
        b: Name,
        /// Whether the first trusts what comes over the link.
        a_trusts: bool,
        /// Whether the second does.
        b_trusts: bool,
    },
}
