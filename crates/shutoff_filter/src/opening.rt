// Opening a filter file.
ghost use Rattle.std.specs.Prelude.{◌≡◌, ◌+◌, ◌*◌, ◌<◌, ◌≤◌, [], ◌∷◌, ℕ, List, Some, not, OnOk, length, drop, slice_index, true};
ghost use Rattle.std.specs.Option.{ForSome};
ghost use Rattle.lease_disk.specs.Call.{Len, Read, Sync};
ghost use Rattle.lease_disk.specs.Calls.{Ran};
ghost use Rattle.fault_counts.specs.Causes.{HasCause};
ghost use Rattle.lease_disk.specs.Images.{AtEachMoment};
ghost use Rattle.lease_disk.specs.Kept.{KeepsByte, NoLongerThan};
ghost use Rattle.shutoff_filter.specs.FilterFile.{file_size, slot_at, slot_in};
ghost use Rattle.shutoff_filter.specs.Store.{GivesSlots, OpenSays, open_failed, opened_disk};

use crate::judgement::{Judgement, judged};
use crate::layout::{HEAD, LARGEST, SLOT, file_size, slot_of};
use crate::slots::{Slot, Slots};
use crate::store::FilterStore;
use lease_disk::{Disk, inspect_firm};

/// Why a filter file was not opened. The first that applies is told.
#[derive(Drop)]
pub enum StoreEnd<D> {
    /// The disk failed.
    Failed {
        disk: D,
        slots: Slots,
    },
    /// The file has fewer than 3 bytes, its gate is closed, or it lacks a byte of some slot. The gate is its first byte, or
    /// 0 where it has none.
    Unformatted {
        disk: D,
        slots: Slots,
        length: u64,
        gate: u8,
    },
    /// The file is of another room, which is named.
    OtherRoom {
        disk: D,
        slots: Slots,
        room: u16,
    },
}

// Reads the slot of that number from the bytes of a filter file.
#[tactic(auto, unfolding(crate::specs::FilterFile::slot_at))]
fn read_slot(bytes: &[u8], number: usize) -> Slot
    requires there { 3 + 28 * number + 28 ≤ length bytes.now }
    requires few { number ≤ 256 }
    ensures { result ≡ slot_at bytes.now number }
{
    let start = HEAD + SLOT * number;
    slot_of(bytes[start], &bytes[start + 1..start + SLOT])
}

// Reads all slots from the bytes of a filter file.
fn read_slots(slots: &mut Vec<Slot>, bytes: &[u8])
    requires few { length slots.old.items ≤ 257 }
    requires size { length bytes.now ≡ 3 + 28 * length slots.old.items }
    ensures count { length slots.new.items ≡ length slots.old.items }
    ensures each { (i : ℕ) → i < length slots.old.items → slot_in slots.new.items i ≡ slot_at bytes.now i }
{
    for number in 0..slots.len() {
        slots[number] = read_slot(bytes, number);
    }
}

impl<D: Disk> FilterStore<D> {
    /// Opens a filter file with slots of its room, after making firm what was written before.
    pub fn open(disk: D, slots: Slots) -> Result<FilterStore<D>, StoreEnd<D>>
        // What it says of the file, where the disk tells what it reads. The slots of an end are those that were given.
        ensures says { ForSome (D.now disk) (λ file. OpenSays slots file result) }
        ensures slots { GivesSlots slots result }
        ensures content { D.now (opened_disk result) ≡ D.now disk }
        ensures cause { HasCause (open_failed result ≡ true) (D.faults disk) (D.faults (opened_disk result)) }

        // Each image of each moment, whatever the answer, is one of those at the start: bytes, lengths and entries stay.
        ensures moments { AtEachMoment D.clock D.during disk (opened_disk result) (D.may_leave disk) }
        ensures keeps_bytes { (at : ℕ) → KeepsByte at (D.may_leave disk) (D.during (opened_disk result) (D.clock disk)) }
        ensures no_longer { NoLongerThan 0 (D.may_leave disk) (D.during (opened_disk result) (D.clock disk)) }
        ensures clock { D.clock (opened_disk result) ≤ D.clock disk + 1 }
        ensures calls { Ran D.led disk (Sync ∷ Len ∷ Read 0 (file_size slots.room) ∷ []) (not (open_failed result)) (opened_disk result) }
    {
        let mut disk = disk;
        let mut buffer = [0; LARGEST];
        let (bytes, _) = buffer.split_at_mut(file_size(slots.room));
        let seen = match inspect_firm(&mut disk, bytes) {
            Ok(seen) => seen,
            Err(_) => return Err(StoreEnd::Failed { disk, slots }),
        };
        match judged(bytes, seen.count, slots.room) {
            Judgement::Whole => {
                let mut slots = slots;
                read_slots(&mut slots.slots, bytes);
                Ok(FilterStore {
                    disk,
                    slots,
                    spare: None,
                })
            }
            Judgement::Unformatted(gate) => Err(StoreEnd::Unformatted {
                disk,
                slots,
                length: seen.length,
                gate,
            }),
            Judgement::OtherRoom(room) => Err(StoreEnd::OtherRoom { disk, slots, room }),
        }
    }
}
