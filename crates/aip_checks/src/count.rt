//! A plain count of what three guarded hosts spent and were told, by the inputs and the events alone.
ghost use Rattle.std.specs.Prelude.{◌<◌, IfSome};

use aip_addr::{KeyId, Name};
use aip_event::{Event, Reason};
use std::alloc::{AllocError, Global};

/// The names of the hosts.
pub const NAMES: [[u8; 1]; 3] = [*b"a", *b"b", *b"c"];

// Their key identifiers, as an independent implementation gives them.
const KEYS: [[u8; 19]; 3] = [
    *b"\x01\x4b\x9c\x00\xc6\x6d\x49\x57\x0c\x20\xa6\xf6\xd6\x8a\xcc\x49\x4f\xcd\xdb",
    *b"\x01\x80\x32\x6a\xee\x46\x27\xa6\x80\xa8\x2b\x2e\x03\xb5\x4a\x12\x77\xd7\xee",
    *b"\x01\x37\xb3\x8d\xc4\x9c\xf7\xd3\xe1\x50\x07\x5d\x96\xe2\xb7\x18\x16\x27\x49",
];

// The hosts in the order of their key identifiers.
const IN_ORDER: [usize; 3] = [2, 0, 1];

/// What was counted of a host.
#[derive(Clone, Copy)]
pub struct Count {
    /// The leaf that signs next.
    pub next: u64,
    /// The call and the byte of the stop that is armed.
    pub stop: Option<(u64, u64)>,
    /// The call and the byte of the halt that is armed.
    pub halt: Option<(u64, u64)>,
    /// Whether a stop or a halt fell since its last restart.
    pub is_down: bool,
    /// Until when it is silent towards each host, 0 where it never was told.
    pub until: [u64; 3],
}

/// How often something happened.
#[derive(Clone, Copy)]
pub struct Totals {
    /// How many leaves signed.
    pub signed: u64,
    /// How many stops fell.
    pub stopped: u64,
    /// How many halts fell.
    pub halted: u64,
    /// How many shut-offs were told after a restart.
    pub kept: u64,
}

/// What was counted of all.
#[derive(Clone, Copy)]
pub struct Counts {
    /// The hosts.
    pub hosts: [Count; 3],
    /// What happened at all of them.
    pub totals: Totals,
}

/// A shut-off that a host tells after its restart.
#[derive(Clone, Copy, PartialEq)]
pub struct Told {
    /// The place of the host that sent it.
    pub sender: usize,
    /// Until when it is in force.
    pub until: u64,
}

impl Totals {
    /// Nothing happened yet.
    pub fn new() -> Totals {
        Totals {
            signed: 0,
            stopped: 0,
            halted: 0,
            kept: 0,
        }
    }

    /// These and others.
    pub fn and(&self, others: &Totals) -> Totals {
        Totals {
            signed: self.signed.saturating_add(others.signed),
            stopped: self.stopped.saturating_add(others.stopped),
            halted: self.halted.saturating_add(others.halted),
            kept: self.kept.saturating_add(others.kept),
        }
    }
}

impl Counts {
    /// Nothing happened yet.
    pub fn new() -> Counts {
        let host = Count {
            next: 0,
            stop: None,
            halt: None,
            is_down: false,
            until: [0; 3],
        };
        Counts {
            hosts: [host; 3],
            totals: Totals::new(),
        }
    }
}

/// The place of a host.
pub fn place_of(name: &Name) -> Option<usize>
    ensures { IfSome result (λ place. place < 3) }
{
    match name.bytes() {
        b"a" => Some(0),
        b"b" => Some(1),
        b"c" => Some(2),
        _ => None,
    }
}

/// The place of the host of a key.
pub fn sender_of(key: &KeyId) -> Option<usize>
    ensures { IfSome result (λ place. place < 3) }
{
    if key.bytes == KEYS[0] {
        return Some(0);
    }
    if key.bytes == KEYS[1] {
        return Some(1);
    }
    if key.bytes == KEYS[2] {
        return Some(2);
    }
    None
}

// The next leaf signs, where the host is up and no stop is armed.
fn signs(host: &mut Count, leaf: u64) -> bool {
    if host.is_down || host.stop.is_some() || leaf != host.next || leaf >= 32 {
        return false;
    }
    host.next = leaf + 1;
    true
}

// The stop that is armed falls at the next leaf, which is spent where the stop leaves another byte than 0.
fn stops(host: &mut Count, leaf: u64, at: (u64, u64)) -> bool {
    if host.is_down || host.stop != Some(at) || leaf != host.next || leaf >= 32 {
        return false;
    }
    if at.1 != 0 {
        host.next = leaf + 1;
    }
    host.stop = None;
    host.is_down = true;
    true
}

// A shut-off is obeyed, where no halt is armed or an earlier one lasts as long.
fn obeys(host: &mut Count, sender: usize, until: u64) -> bool
    requires { sender < 3 }
{
    let lasts = host.until[sender] >= until;
    if host.is_down || (host.halt.is_some() && !lasts) {
        return false;
    }
    if !lasts {
        host.until[sender] = until;
    }
    true
}

// The halt that is armed falls. The shut-off is kept where the byte that opens its slot was left by the call that writes that
// byte or the one that makes it firm.
fn halts(host: &mut Count, sender: usize, until: u64, at: (u64, u64)) -> bool
    requires { sender < 3 }
{
    if host.is_down || host.halt != Some(at) || host.until[sender] >= until {
        return false;
    }
    if at.0 >= 3 && at.1 == 165 {
        host.until[sender] = until;
    }
    host.halt = None;
    host.is_down = true;
    true
}

// A host drops what is asked of it.
fn drops(host: &Count, reason: Reason) -> bool {
    match reason {
        Reason::Down => host.is_down,
        Reason::Dry => !host.is_down && host.next == 32,
        _ => false,
    }
}

// A host withholds what it would put.
fn withholds(host: &Count, to: usize, now: u64) -> bool
    requires { to < 3 }
{
    !host.is_down && host.until[to] > now
}

impl Counts {
    /// Counts an event at a time, and answers whether it is one that the count so far lets happen.
    pub fn agree(&mut self, now: u64, event: &Event) -> bool {
        match event {
            Event::Signed { host, leaf } => self.sign(host, *leaf),
            Event::Stopped {
                host,
                leaf,
                call,
                byte,
            } => self.stop(host, *leaf, (*call, *byte)),
            Event::Obeyed {
                host,
                sender,
                until,
            } => match (place_of(host), sender_of(sender)) {
                (Some(place), Some(sender)) => obeys(&mut self.hosts[place], sender, *until),
                _ => false,
            },
            Event::Halted {
                host,
                sender,
                until,
                call,
                byte,
            } => self.halt(host, sender, *until, (*call, *byte)),
            Event::Drop { node, reason } => match place_of(node) {
                Some(place) => drops(&self.hosts[place], *reason),
                None => false,
            },
            Event::Withheld { host, to } => match (place_of(host), sender_of(to)) {
                (Some(place), Some(to)) => withholds(&self.hosts[place], to, now),
                _ => false,
            },
            _ => true,
        }
    }

    fn sign(&mut self, name: &Name, leaf: u64) -> bool {
        let Some(place) = place_of(name) else {
            return false;
        };
        self.totals.signed = self.totals.signed.saturating_add(1);
        signs(&mut self.hosts[place], leaf)
    }

    fn stop(&mut self, name: &Name, leaf: u64, at: (u64, u64)) -> bool {
        let Some(place) = place_of(name) else {
            return false;
        };
        self.totals.stopped = self.totals.stopped.saturating_add(1);
        stops(&mut self.hosts[place], leaf, at)
    }

    fn halt(&mut self, name: &Name, key: &KeyId, until: u64, at: (u64, u64)) -> bool {
        let (Some(place), Some(sender)) = (place_of(name), sender_of(key)) else {
            return false;
        };
        self.totals.halted = self.totals.halted.saturating_add(1);
        halts(&mut self.hosts[place], sender, until, at)
    }

    /// The host at a place is up again, and what was armed is armed no more.
    pub fn rise(&mut self, place: usize)
        requires { place < 3 }
    {
        let host = &mut self.hosts[place];
        host.stop = None;
        host.halt = None;
        host.is_down = false;
    }
}

/// What a host has to tell after a restart at a time: each that is in force, in the order of the keys.
pub fn in_force(alloc: Global, host: &Count, now: u64) -> Result<Vec<Told>, AllocError> {
    let mut told = Vec::new(alloc);
    for sender in IN_ORDER {
        let until = if sender < 3 { host.until[sender] } else { 0 };
        if until > now {
            told.push(Told { sender, until })?;
        }
    }
    Ok(told)
}
