// How a filter takes an entry.
ghost use Rattle.std.specs.Prelude.{◌≡◌, ◌+◌, ◌<◌, ◌≤◌, ◌^◌, [], ◌∷◌, ℕ, List, None, Some, true, false, not, take, drop, length, slice_set, IfOk, IfSome, IsSome, OnOk, OnErr};
ghost use Rattle.lease_disk.specs.Calls.{Ran, firm_calls};
ghost use Rattle.fault_counts.specs.Causes.{HasCause};
ghost use Rattle.lease_disk.specs.Images.{AtEachMoment};
ghost use Rattle.shutoff_filter.specs.Entries.{SameInForce, entries_of, in_force};
ghost use Rattle.shutoff_filter.specs.FilterFile.{slot_in, slot_start};
ghost use Rattle.shutoff_filter.specs.Keeping.{IsImageOf, SameOrAdded, entries_in, keep_calls, keep_failed, kept_disk, kept_slots, open_slot, shut_slot};
ghost use Rattle.shutoff_filter.specs.Spare.{closing_calls, holds_entry, spare_in};
ghost use Rattle.shutoff_filter.specs.Store.{disk_of, room_of, slots_of, spare_of};

use crate::slots::{Slot, Slots, put_slot};
use crate::spare::spare_slot;
use crate::store::FilterStore;
use crate::writing::{shut_gate, write_slot};
use aip_addr::KeyId;
use lease_disk::Disk;

/// The disk failed while a filter was written. It has to be opened again.
#[derive(Drop)]
pub struct KeepEnd<D> {
    /// The disk.
    pub disk: D,
    /// The slots as they were in memory, for another opening.
    pub slots: Slots,
}

impl<D: Disk> FilterStore<D> {
    /// Closes the lowest slot that holds no entry of a key in force, by a write and a sync where it is open. Afterwards it
    /// is spare. Where each slot holds one, nothing is written and none is spare.
    pub fn ready(self, now: u64) -> Result<FilterStore<D>, KeepEnd<D>>
        requires soon { now < 2 ^ 48 }

        // The lowest free slot is spare. There is one where fewer keys are in force than there are slots.
        ensures spare { IfOk result (λ store. spare_of store ≡ spare_in now (slots_of self)) }
        ensures found { IfOk result (λ store. length (in_force now (entries_of (slots_of self))) ≤ room_of self → IsSome (spare_of store)) }

        // What is withheld stays, in memory and in each image of each moment, whatever the answer. Such an image has an open
        // gate, the room and all slots, and is as long as one at the start.
        ensures same { IfOk result (λ store. SameInForce now (entries_of (slots_of self)) (entries_of (slots_of store))) }
        ensures moments { AtEachMoment D.clock D.during (disk_of self) (kept_disk result)
            (IsImageOf (room_of self) (D.may_leave (disk_of self)) (SameInForce now (entries_of (slots_of self)))) }
        ensures firm { OnOk result ((image : List ℕ) → D.may_leave (kept_disk result) image → D.now (kept_disk result) ≡ Some image) }
        ensures room { (kept_slots result).room ≡ room_of self }
        ensures slots { OnErr result (kept_slots result ≡ self.slots) }
        ensures cause { HasCause (keep_failed result ≡ true) (D.faults (disk_of self)) (D.faults (kept_disk result)) }
        ensures clock { D.clock (kept_disk result) ≤ D.clock (disk_of self) + 2 }
        ensures calls { Ran D.led (disk_of self) (closing_calls (slots_of self) (spare_in now (slots_of self)))
            (not (keep_failed result)) (kept_disk result) }
    {
        match spare_slot(&self.slots.slots, now) {
            None => Ok(self.with_spare(None)),
            Some(number) => {
                if self.slots.slots[number as usize].is_open {
                    self.shut(number, now)
                } else {
                    Ok(self.with_spare(Some(number)))
                }
            }
        }
    }

    // The same filter, with a slot that is closed for the next entry.
    fn with_spare(self, spare: Option<u16>) -> FilterStore<D>
        requires { IfSome spare (λ number. (number ≤ room_of self) × ((slot_in (slots_of self) number).is_open ≡ false)) }
        ensures spare { spare_of result ≡ spare }
        ensures disk { disk_of result ≡ disk_of self }
        ensures slots { result.slots ≡ self.slots }
    {
        let FilterStore {
            disk,
            slots,
            spare: _,
        } = self;
        FilterStore { disk, slots, spare }
    }

    // Closes an open slot that holds no entry of a key in force.
    fn shut(self, number: u16, now: u64) -> Result<FilterStore<D>, KeepEnd<D>>
        requires there { number ≤ room_of self }
        requires opened { (slot_in (slots_of self) number).is_open ≡ true }
        requires free { holds_entry now (take number (slots_of self)) (slot_in (slots_of self) number) (drop (number + 1) (slots_of self)) ≡ false }
        ensures spare { IfOk result (λ store. spare_of store ≡ Some number) }
        ensures same { IfOk result (λ store. SameInForce now (entries_of (slots_of self)) (entries_of (slots_of store))) }
        ensures moments { AtEachMoment D.clock D.during (disk_of self) (kept_disk result)
            (IsImageOf (room_of self) (D.may_leave (disk_of self)) (SameInForce now (entries_of (slots_of self)))) }
        ensures firm { OnOk result ((image : List ℕ) → D.may_leave (kept_disk result) image → D.now (kept_disk result) ≡ Some image) }
        ensures room { (kept_slots result).room ≡ room_of self }
        ensures slots { OnErr result (kept_slots result ≡ self.slots) }
        ensures cause { HasCause (keep_failed result ≡ true) (D.faults (disk_of self)) (D.faults (kept_disk result)) }
        ensures clock { D.clock (kept_disk result) ≤ D.clock (disk_of self) + 2 }
        ensures calls { Ran D.led (disk_of self) (firm_calls (slot_start number) (0 ∷ [])) (not (keep_failed result)) (kept_disk result) }
    {
        let FilterStore {
            mut disk,
            mut slots,
            spare: _,
        } = self;
        match shut_gate(&mut disk, number) {
            Ok(()) => {
                let mut slot = slots.slots[number as usize];
                slot.is_open = false;
                put_slot(&mut slots, number, slot);
                Ok(FilterStore {
                    disk,
                    slots,
                    spare: Some(number),
                })
            }
            Err(_) => Err(KeepEnd { disk, slots }),
        }
    }

    /// Writes an entry to the spare slot behind its closed gate, and opens the gate once the entry is firm. Afterwards no
    /// slot is spare.
    pub fn keep(self, to: &KeyId, until: u64, now: u64) -> Result<FilterStore<D>, KeepEnd<D>>
        requires soon { now < 2 ^ 48 }
        requires later { now < until }
        requires ready { IsSome (spare_of self) }

        // The entry is one more among those that were there, in memory and in each image that a crash may leave.
        ensures spare { IfOk result (λ store. spare_of store ≡ None) }
        ensures added { IfOk result (λ store. SameInForce now
            (record { to = to.now; until = until } ∷ entries_of (slots_of self)) (entries_of (slots_of store))) }

        // In each image of each moment, whatever the answer, the entry is there or not, and all else stays: the gate, the room
        // and the slots. It is as long as one at the start.
        ensures moments { AtEachMoment D.clock D.during (disk_of self) (kept_disk result)
            (IsImageOf (room_of self) (D.may_leave (disk_of self))
            (SameOrAdded now (record { to = to.now; until = until }) (entries_of (slots_of self)))) }
        ensures kept { OnOk result ((image : List ℕ) → D.may_leave (kept_disk result) image → SameInForce now
            (record { to = to.now; until = until } ∷ entries_of (slots_of self)) (entries_in (room_of self) image)) }
        ensures firm { OnOk result ((image : List ℕ) → D.may_leave (kept_disk result) image → D.now (kept_disk result) ≡ Some image) }
        ensures room { (kept_slots result).room ≡ room_of self }
        ensures slots { OnErr result (kept_slots result ≡ self.slots) }
        ensures cause { HasCause (keep_failed result ≡ true) (D.faults (disk_of self)) (D.faults (kept_disk result)) }
        ensures clock { D.clock (kept_disk result) ≤ D.clock (disk_of self) + 4 }
        ensures calls { IfSome (spare_of self) (λ number.
            Ran D.led (disk_of self) (keep_calls number to.now until) (not (keep_failed result)) (kept_disk result)) }
    {
        self.write_entry(to, until, now)
    }

    // Writes an entry, as `keep` does.
    fn write_entry(self, to: &KeyId, until: u64, now: u64) -> Result<FilterStore<D>, KeepEnd<D>>
        requires soon { now < 2 ^ 48 }
        requires later { now < until }
        requires ready { IsSome (spare_of self) }
        ensures spare { IfOk result (λ store. spare_of store ≡ None) }
        ensures added { IfOk result (λ store. SameInForce now
            (record { to = to.now; until = until } ∷ entries_of (slots_of self)) (entries_of (slots_of store))) }
        ensures moments { AtEachMoment D.clock D.during (disk_of self) (kept_disk result)
            (IsImageOf (room_of self) (D.may_leave (disk_of self))
            (SameOrAdded now (record { to = to.now; until = until }) (entries_of (slots_of self)))) }
        ensures firm { OnOk result ((image : List ℕ) → D.may_leave (kept_disk result) image → D.now (kept_disk result) ≡ Some image) }
        ensures room { (kept_slots result).room ≡ room_of self }
        ensures slots { OnErr result (kept_slots result ≡ self.slots) }
        ensures cause { HasCause (keep_failed result ≡ true) (D.faults (disk_of self)) (D.faults (kept_disk result)) }
        ensures clock { D.clock (kept_disk result) ≤ D.clock (disk_of self) + 4 }
        ensures calls { IfSome (spare_of self) (λ number.
            Ran D.led (disk_of self) (keep_calls number to.now until) (not (keep_failed result)) (kept_disk result)) }
    {
        let FilterStore {
            mut disk,
            mut slots,
            spare,
        } = self;
        let number = spare.unwrap();
        match write_slot(&mut disk, number, to, until) {
            Ok(()) => {
                let slot = Slot {
                    is_open: true,
                    to: *to,
                    until,
                };
                put_slot(&mut slots, number, slot);
                Ok(FilterStore {
                    disk,
                    slots,
                    spare: None,
                })
            }
            Err(_) => Err(KeepEnd { disk, slots }),
        }
    }
}
