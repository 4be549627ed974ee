// The guard of a host inside a run, with the disk on which it keeps what the host was told.
ghost use Rattle.std.specs.Prelude.{◌≡◌, ◌+◌, ◌<◌, ◌≤◌, ◌^◌, ◌∷◌, ℕ, List, [], length, None, Some, false, true, IfOk, IfSome, IsSome, OnOk, OnErr};
ghost use Rattle.aip_addr.specs.declared.ids.KeyId.{KeyId as ToKey};
ghost use Rattle.aip_frame.specs.Frame.{frame_of};
ghost use Rattle.aip_frame.specs.declared.frame.Kind.TheVariants as kind;
ghost use Rattle.shutoff_filter.specs.declared.entries.ShutOffEntry.{ShutOffEntry as Told};
ghost use Rattle.shutoff_filter.specs.Body.{order_in};
ghost use Rattle.shutoff_filter.specs.Entries.{SameInForce, in_force, is_withheld, others_in_force, entries_of};
ghost use Rattle.shutoff_filter.specs.Judged.{is_full, is_in_log, shutoff_verdict};
ghost use Rattle.shutoff_filter.specs.Store.{disk_of, room_of, slots_of, spare_of};
ghost use Rattle.aip_host.specs.declared.guard.State.TheVariants.{Ready, Fallen};
ghost use Rattle.aip_host.specs.Guarding.{Keeps, IsHalting, entries_with, is_told, with_halt};
ghost use Rattle.aip_host.specs.Guarded.{guard_in, HasPlaceForEntry, IsFilterAtRest, IsOrderDone, IsObeying, IsReadied, IsGuardWoken, IsWritten};

use aip_addr::KeyId;
use aip_rules::Arming;
use lease_disk::MemDisk;
use sent_log::SentLog;
use shutoff_filter::{
    FilterStore, Heard, KEEP_BYTES, KEEP_CALLS, KeepEnd, ShutOffEntry, Slots, file_size,
    format_store,
};
use std::alloc::{AllocError, Global};
use std::marker::Model;

/// How an order to withhold a key identifier ends.
#[derive(Clone, Copy, Debug, PartialEq, Eq)]
pub enum Obeying {
    /// It is obeyed: it was written, or an entry lasts at least as long and nothing was written.
    Obeyed,
    /// The halt that was armed fell: the guard is down until its restart.
    Halted {
        /// The call at which it fell, 1 to 4.
        call: u8,
        /// The byte that it left.
        byte: u8,
    },
}

// A filter that is open, with the halt that is armed, or one whose disk stopped.
#[derive(Drop)]
enum State {
    Ready {
        store: FilterStore<MemDisk>,
        halt: Option<Arming>,
    },
    Fallen {
        disk: MemDisk,
        slots: Slots,
    },
}

/// What a guarded host was told, on a disk of its own: the key identifiers to which it must not send, each until a tick.
#[derive(Drop)]
pub struct Guard {
    // None only while a call lasts.
    state: Option<State>,
}

impl Model for Guard {
    ghost use Rattle.aip_host.specs.Guarding.{GuardState};

    ghost Value = { GuardState };

    ghost use Rattle.aip_host.specs.Guarded.{guard_of, HoldsEntries};

    ghost view = { λ guard. guard_of guard.state };

    ghost invariant = { λ guard. HoldsEntries guard.state };
}

// A disk that is formatted for a filter of this room.
fn fresh_disk(alloc: Global, room: u16) -> Result<MemDisk, AllocError>
    requires some { 1 ≤ room }
    requires few { room ≤ 256 }
    ensures rest { IfOk result (λ disk. IsFilterAtRest room [] disk) }
{
    let disk = MemDisk::new(alloc, file_size(room), Vec::new(alloc))?;
    match format_store(disk, room) {
        Ok(disk) => Ok(disk),
        Err(_) => unreachable!(),
    }
}

// The filter on a disk that is at rest.
fn opened(disk: MemDisk, slots: Slots) -> FilterStore<MemDisk>
    requires rest { (entries : List Told) × IsFilterAtRest slots.room entries disk }
    ensures room { room_of result ≡ slots.room }
    ensures entries { (entries : List Told) → IsFilterAtRest slots.room entries disk → entries_of (slots_of result) ≡ entries }
    ensures keeps { Keeps (guard_in (Ready result None)) }
{
    match FilterStore::open(disk, slots) {
        Ok(store) => store,
        Err(_) => unreachable!(),
    }
}

// The disk and the slots of a guard, up or down.
fn put_down(state: State) -> (MemDisk, Slots)
    ensures disk { result.0 ≡ (guard_in state).disk }
    ensures room { result.1.room ≡ (guard_in state).room }
{
    match state {
        State::Ready { store, halt: _ } => store.close(),
        State::Fallen { disk, slots } => (disk, slots),
    }
}

// The guard after a restart of its disk.
fn woken(state: State) -> State
    requires keeps { Keeps (guard_in state) }
    ensures up { IsGuardWoken (guard_in state) (guard_in result) }
{
    let (disk, slots) = put_down(state);
    State::Ready {
        store: opened(disk.restart(), slots),
        halt: None,
    }
}

// The same key identifier, of 19 bytes.
fn sized(to: &KeyId) -> KeyId
    ensures key { result ≡ to.now }
    ensures size { length to.now.bytes ≡ 19 }
{
    KeyId { bytes: to.bytes }
}

// A filter of which a slot is spare, where its disk has place for an entry.
fn readied(store: FilterStore<MemDisk>, now: u64) -> FilterStore<MemDisk>
    requires soon { now < 2 ^ 48 }
    requires keeps { Keeps (guard_in (Ready store None)) }
    requires place { HasPlaceForEntry (disk_of store) }
    requires few { length (in_force now (entries_of (slots_of store))) ≤ room_of store }
    ensures { IsReadied now (guard_in (Ready store None)) (spare_of result) (guard_in (Ready result None)) }
{
    match store.ready(now) {
        Ok(store) => store,
        Err(_) => unreachable!(),
    }
}

// Writes an entry to the spare slot.
fn added(store: FilterStore<MemDisk>, to: &KeyId, until: u64, now: u64) -> FilterStore<MemDisk>
    requires soon { now < 2 ^ 48 }
    requires later { now < until }
    requires ready { IsReadied now (guard_in (Ready store None)) (spare_of store) (guard_in (Ready store None)) }
    ensures { IsWritten now (guard_in (Ready store None))
        (record { to = to.now; until = until } ∷ entries_of (slots_of store)) (guard_in (Ready result None)) }
{
    let to = sized(to);
    match store.keep(&to, until, now) {
        Ok(store) => store,
        Err(_) => unreachable!(),
    }
}

// Writes an entry to the spare slot, at one of whose calls a halt falls.
fn cut_off(
    store: FilterStore<MemDisk>,
    arming: Arming,
    to: &KeyId,
    until: u64,
    now: u64,
) -> (MemDisk, Slots)
    requires soon { now < 2 ^ 48 }
    requires later { now < until }
    requires ready { IsReadied now (guard_in (Ready store None)) (spare_of store) (guard_in (Ready store None)) }
    requires halting { IsHalting (Some arming) }
    ensures { IsWritten now (guard_in (Ready store None))
        (entries_with (Some arming) (record { to = to.now; until = until }) (entries_of (slots_of store)))
        (guard_in (Fallen result.0 result.1)) }
{
    let to = sized(to);
    let mut store = store;
    store.stop_at(arming.call, arming.byte);
    match store.keep(&to, until, now) {
        Ok(_) => unreachable!(),
        Err(KeepEnd { disk, slots }) => (disk, slots),
    }
}

// Writes an entry, unless a halt falls.
fn written(
    store: FilterStore<MemDisk>,
    halt: Option<Arming>,
    to: &KeyId,
    until: u64,
    now: u64,
) -> (State, Obeying)
    requires soon { now < 2 ^ 48 }
    requires later { now < until }
    requires keeps { Keeps (guard_in (Ready store halt)) }
    requires place { HasPlaceForEntry (disk_of store) }
    requires few { others_in_force now to.now (entries_of (slots_of store)) < room_of store }
    requires untold { is_told (guard_in (Ready store halt)) to.now until ≡ false }
    ensures { IsOrderDone now (guard_in (Ready store halt)) to.now until result.1 (guard_in result.0) }
{
    let store = readied(store, now);
    match halt {
        None => {
            let store = added(store, to, until, now);
            (State::Ready { store, halt: None }, Obeying::Obeyed)
        }
        Some(arming) => {
            let (disk, slots) = cut_off(store, arming, to, until, now);
            let Arming { call, byte } = arming;
            (
                State::Fallen { disk, slots },
                Obeying::Halted { call, byte },
            )
        }
    }
}

// Makes place on the disk for an entry, and writes it.
fn told(
    store: FilterStore<MemDisk>,
    halt: Option<Arming>,
    to: &KeyId,
    until: u64,
    now: u64,
) -> (State, Result<Obeying, AllocError>)
    requires soon { now < 2 ^ 48 }
    requires later { now < until }
    requires keeps { Keeps (guard_in (Ready store halt)) }
    requires few { others_in_force now to.now (entries_of (slots_of store)) < room_of store }
    ensures obeying { IsObeying now (guard_in (Ready store halt)) to.now until result.1 (guard_in result.0) }
    ensures covered { is_told (guard_in (Ready store halt)) to.now until ≡ true → guard_in result.0 ≡ guard_in (Ready store halt) }
{
    if store.covers(to, until) {
        return (State::Ready { store, halt }, Ok(Obeying::Obeyed));
    }
    let mut store = store;
    match store.reserve(KEEP_CALLS, KEEP_BYTES) {
        Ok(()) => {
            let (state, obeying) = written(store, halt, to, until, now);
            (state, Ok(obeying))
        }
        Err(end) => (State::Ready { store, halt }, Err(end)),
    }
}

// Arms a halt, unless the guard is down.
fn halted(state: State, arming: Arming) -> State
    requires keeps { Keeps (guard_in state) }
    requires halting { IsHalting (Some arming) }
    ensures kept { guard_in result ≡ with_halt (guard_in state) arming }
    ensures keeps { Keeps (guard_in result) }
{
    match state {
        State::Ready { store, halt: _ } => State::Ready {
            store,
            halt: Some(arming),
        },
        fallen => fallen,
    }
}

impl Guard {
    ghost use Rattle.aip_host.specs.Guarding.{obeying_of, halt_after, down_after_order, entries_after};

    /// A guard with room for so many key identifiers, 1 to 256, that was told nothing. It makes a disk, formats and opens it.
    /// The only error is want of memory.
    pub fn new(alloc: Global, room: u16) -> Result<Guard, AllocError>
        requires some { 1 ≤ room }
        requires few { room ≤ 256 }
        ensures room { IfOk result (λ guard. guard.room ≡ room) }
        ensures entries { IfOk result (λ guard. guard.entries ≡ []) }
        ensures halt { IfOk result (λ guard. guard.halt ≡ None) }
        ensures up { IfOk result (λ guard. guard.is_down ≡ false) }
        ensures keeps { IfOk result (λ guard. Keeps guard) }
    {
        let slots = Slots::new(alloc, room)?;
        let store = opened(fresh_disk(alloc, room)?, slots);
        Ok(Guard {
            state: Some(State::Ready { store, halt: None }),
        })
    }

    /// Whether a halt fell since the last restart.
    pub fn is_down(&self) -> bool
        ensures down { result ≡ self.now.is_down }
        ensures keeps { Keeps self.now }
    {
        matches!(self.state, Some(State::Fallen { .. }))
    }

    /// Whether the key identifier is withheld at a tick: some entry of it has an until above now.
    pub fn withholds(&self, to: &KeyId, now: u64) -> bool
        requires up { self.now.is_down ≡ false }
        requires soon { now < 2 ^ 48 }
        ensures { result ≡ is_withheld now to.now self.now.entries }
    {
        match &self.state {
            Some(State::Ready { store, halt: _ }) => store.withholds(to, now),
            _ => unreachable!(),
        }
    }

    /// How a shut-off that reaches the host at a tick is judged over its log and its guard. Nothing changes.
    pub fn judge(&self, log: &SentLog, frame: &[u8], now: u64) -> Heard
        requires up { self.now.is_down ≡ false }
        requires soon { now < 2 ^ 48 }
        requires frame { IsSome (frame_of frame.now) }
        requires shutoff { IfSome (frame_of frame.now) (λ f. f.kind ≡ kind.ShutOff) }
        ensures verdict { IfSome (frame_of frame.now) (λ f. result
            ≡ shutoff_verdict now f (is_in_log log.now.frames f.from (order_in f.body))
            (is_full self.now.room now f.from self.now.entries)) }
        ensures keeps { Keeps self.now }
    {
        match &self.state {
            Some(State::Ready { store, halt: _ }) => store.judge(log, frame, now),
            _ => unreachable!(),
        }
    }

    /// Obeys an order to withhold a key identifier until a tick. Where an entry of it lasts at least as long nothing changes.
    /// Else it is written; but where a halt is armed, it falls, and the guard is down: then the entry is left exactly where
    /// the halt falls at call 3 or 4 with byte 165. The only error is want of memory: then nothing changes.
    pub fn obey(&mut self, to: &KeyId, until: u64, now: u64) -> Result<Obeying, AllocError>
        requires up { self.old.is_down ≡ false }
        requires soon { now < 2 ^ 48 }
        requires later { now < until }
        // Fewer other key identifiers are in force than there is room for.
        requires few { others_in_force now to.now self.old.entries < self.old.room }
        // How the order ends, and how the guard stands then.
        ensures answer { IfOk result (λ obeying. obeying ≡ obeying_of self.old to.now until) }
        ensures halt { OnOk result (self.new.halt ≡ halt_after self.old to.now until) }
        ensures down { OnOk result (self.new.is_down ≡ down_after_order self.old to.now until) }
        ensures entries { OnOk result (SameInForce now (entries_after self.old to.now until) self.new.entries) }
        ensures covered { is_told self.old to.now until ≡ true → self.new ≡ self.old }
        // Where memory is wanting, the guard stands as before.
        ensures same { OnErr result (self.new ≡ self.old) }
        ensures room { self.new.room ≡ self.old.room }
        ensures keeps { Keeps self.new }
    {
        match self.state.take() {
            Some(State::Ready { store, halt }) => {
                let (state, end) = told(store, halt, to, until, now);
                self.state = Some(state);
                end
            }
            _ => unreachable!(),
        }
    }

    /// Arms a halt at the call of the next entry's writing, 1 to 4, which leaves the byte. It takes the place of one that is
    /// armed. While the guard is down nothing changes.
    pub fn halt(&mut self, call: u8, byte: u8)
        requires first { 1 ≤ call }
        requires last { call ≤ 4 }
        ensures halt { self.new ≡ with_halt self.old (record { call = call; byte = byte }) }
        ensures keeps { Keeps self.new }
    {
        if let Some(state) = self.state.take() {
            self.state = Some(halted(state, Arming { call, byte }));
        }
    }

    /// Restarts the disk and opens it. The guard is up then, with what it was told, and no halt is armed.
    pub fn restart(&mut self)
        ensures up { self.new.is_down ≡ false }
        ensures halt { self.new.halt ≡ None }
        ensures room { self.new.room ≡ self.old.room }
        ensures entries { self.new.entries ≡ self.old.entries }
        ensures keeps { Keeps self.new }
    {
        if let Some(state) = self.state.take() {
            self.state = Some(woken(state));
        }
    }

    /// The key identifiers in force at a tick, in ascending order of their bytes, each with its greatest until. The only error
    /// is want of memory.
    pub fn kept(&self, alloc: Global, now: u64) -> Result<Vec<ShutOffEntry>, AllocError>
        requires up { self.now.is_down ≡ false }
        requires soon { now < 2 ^ 48 }
        ensures { IfOk result (λ kept. kept.items ≡ in_force now self.now.entries) }
    {
        match &self.state {
            Some(State::Ready { store, halt: _ }) => store.kept(alloc, now),
            _ => unreachable!(),
        }
    }
}
