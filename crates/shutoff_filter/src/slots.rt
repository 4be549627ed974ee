// The slots of a filter in memory.
ghost use Rattle.std.specs.Prelude.{◌≡◌, ◌≤◌, ◌+◌, ◌∷◌, IfOk, length, replicate, slice_set, vec_capacity};
ghost use Rattle.std.specs.List.{list_any};
ghost use Rattle.shutoff_filter.specs.Entries.{entries_of, entry_of, is_covered, is_withheld, others_in_force};
ghost use Rattle.shutoff_filter.specs.Slots.{closed_slot, counts, covers, fresh_slots, holds};

use crate::entries::ShutOffEntry;
use aip_addr::KeyId;
use std::alloc::{AllocError, Global};

/// One slot of a filter: a key identifier that is withheld until a time, where it is open.
#[derive(Clone, Copy, Debug, PartialEq, Eq)]
pub struct Slot {
    /// Whether it holds an entry.
    pub is_open: bool,
    /// The key identifier.
    pub to: KeyId,
    /// The first tick at which it isn't withheld any more.
    pub until: u64,
}

impl Slot {
    /// Whether this slot withholds the key identifier at a time.
    pub fn holds(&self, to: &KeyId, now: u64) -> bool
        ensures { result ≡ holds now to.now self.now }
    {
        self.is_open && self.to == *to && now < self.until
    }

    /// Its entry, where it is open.
    pub fn entry(&self) -> ShutOffEntry
        ensures { result ≡ entry_of self.now }
    {
        ShutOffEntry {
            to: self.to,
            until: self.until,
        }
    }
}

/// A slot that holds nothing.
pub const CLOSED: Slot = Slot {
    is_open: false,
    to: KeyId { bytes: [0; 19] },
    until: 0,
};

/// The slots of a filter in memory, one more than it has room for keys in force.
#[derive(Drop)]
pub struct Slots {
    pub(crate) room: u16,
    pub(crate) slots: Vec<Slot>,
    ghost some: { 1 ≤ room },
    ghost few: { room ≤ 256 },
    ghost whole: { length slots.items ≡ room + 1 },
}

impl Slots {
    /// Slots for a filter with room for so many keys in force, 1 to 256. It reserves all the memory that the filter
    /// takes. The only error is want of memory.
    pub fn new(alloc: Global, room: u16) -> Result<Slots, AllocError>
        requires some { 1 ≤ room }
        requires few { room ≤ 256 }
        ensures { IfOk result (λ slots. (slots.room ≡ room) × (slots.slots.items ≡ fresh_slots room)) }
    {
        let slots = vec![in alloc; CLOSED; room as usize + 1]?;
        Ok(Slots { room, slots })
    }
}

/// Puts a slot in the place of the one of that number.
pub fn put_slot(slots: &mut Slots, number: u16, slot: Slot)
    requires { number ≤ slots.old.room }
    ensures room { slots.new.room ≡ slots.old.room }
    ensures slots { slots.new.slots.items ≡ slice_set slots.old.slots.items number slot }
{
    slots.slots[number as usize] = slot;
}

// Whether some slot holds the key identifier at a time.
fn any_holds(slots: &[Slot], to: &KeyId, now: u64) -> bool
    ensures { result ≡ list_any (holds now to.now) slots.now }
{
    slots.iter().any(|slot| slot.holds(to, now))
}

/// Whether some slot withholds the key identifier at a time.
#[tactic(auto, using(crate::specs::SlotLaws::any_holds))]
pub fn is_withheld(slots: &[Slot], to: &KeyId, now: u64) -> bool
    ensures { result ≡ is_withheld now to.now (entries_of slots.now) }
{
    any_holds(slots, to, now)
}

// Whether the slot has an entry of the key identifier that lasts at least until then.
fn covers(slot: &Slot, to: &KeyId, until: u64) -> bool
    ensures { result ≡ covers until to.now slot.now }
{
    slot.is_open && slot.to == *to && until <= slot.until
}

// Whether some slot does.
fn any_covers(slots: &[Slot], to: &KeyId, until: u64) -> bool
    ensures { result ≡ list_any (covers until to.now) slots.now }
{
    slots.iter().any(|slot| covers(slot, to, until))
}

/// Whether some entry of the key identifier lasts at least until then.
#[tactic(auto, using(crate::proofs::Counts::any_covers))]
pub fn is_covered(slots: &[Slot], to: &KeyId, until: u64) -> bool
    ensures { result ≡ is_covered until to.now (entries_of slots.now) }
{
    any_covers(slots, to, until)
}

// Whether the slot withholds a key identifier other than this one, which no later slot withholds.
fn counts(slot: &Slot, later: &[Slot], to: &KeyId, now: u64) -> bool
    ensures { result ≡ counts now to.now slot.now later.now }
{
    slot.holds(&slot.to, now) && slot.to != *to && !is_withheld(later, &slot.to, now)
}

/// How many key identifiers other than this one are in force.
#[tactic(auto, using(crate::proofs::Counts::others_slots))]
pub fn others_in_force(slots: &[Slot], to: &KeyId, now: u64) -> usize
    ensures count { result ≡ others_in_force now to.now (entries_of slots.now) }
    ensures fits { result ≤ length slots.now }
{
    match slots {
        [] => 0,
        [slot, later @ ..] => {
            let others = others_in_force(later, to, now);
            if counts(slot, later, to, now) {
                others + 1
            } else {
                others
            }
        }
    }
}
