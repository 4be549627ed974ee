// The keys in force, in their order.
ghost use Rattle.std.specs.Prelude.{◌≡◌, ◌<◌, ◌≤◌, ◌&&◌, ℕ, false, nat_lt, length, slice_set, IfOk, OnOk};
ghost use Rattle.shutoff_filter.specs.Entries.{entries_of, entry_of, greatest, in_force, is_before, is_key, with_greatest};
ghost use Rattle.shutoff_filter.specs.InForce.{entry_in, IsPast};

use crate::entries::ShutOffEntry;
use crate::slots::Slot;
use aip_addr::KeyId;
use std::alloc::{AllocError, Global};

// Whether the one key identifier comes before the other.
fn is_before(a: &KeyId, b: &KeyId) -> bool
    ensures { result ≡ is_before a.now b.now }
{
    a.cmp(b).is_lt()
}

// Where the key identifier stands among these, or would stand.
fn place_of(kept: &[ShutOffEntry], to: &KeyId) -> usize
    ensures within { result ≤ length kept.now }
    ensures passed { (until : ℕ) → IsPast (record { to = to.now; until = until }) kept.now result }
    ensures stops { result < length kept.now → is_before (entry_in kept.now result).to to.now ≡ false }
{
    'places: for place in 0..kept.len() {
        if !is_before(&kept[place].to, to) {
            return place;
        }
    }
    kept.len()
}

// Whether the key identifier stands at this place.
fn stands_at(kept: &[ShutOffEntry], place: usize, to: &KeyId) -> bool
    ensures { result ≡ nat_lt place (length kept.now) && is_key to.now (entry_in kept.now place).to }
{
    place < kept.len() && *to == kept[place].to
}

// Lets the greater until of the entry at this place and of another stay.
fn raise(kept: &mut Vec<ShutOffEntry>, place: usize, entry: &ShutOffEntry)
    requires { place < length kept.old.items }
    ensures { kept.new.items ≡ slice_set kept.old.items place (greatest entry.now (entry_in kept.old.items place)) }
{
    let old = kept[place];
    kept[place] = ShutOffEntry {
        to: old.to,
        until: entry.until.max(old.until),
    };
}

// Puts an entry among others that ascend by key.
fn put_greatest(kept: &mut Vec<ShutOffEntry>, entry: ShutOffEntry) -> Result<(), AllocError>
    ensures { OnOk result (kept.new.items ≡ with_greatest entry kept.old.items) }
{
    let place = place_of(kept, &entry.to);
    if stands_at(kept, place, &entry.to) {
        raise(kept, place, &entry);
    } else {
        kept.insert(place, entry)?;
    }
    Ok(())
}

/// The keys in force by the entries of these slots, in ascending order of their bytes, each with its greatest until. The
/// only error is want of memory.
pub fn in_force(slots: &[Slot], alloc: Global, now: u64) -> Result<Vec<ShutOffEntry>, AllocError>
    ensures { IfOk result (λ kept. kept.items ≡ in_force now (entries_of slots.now)) }
{
    match slots {
        [] => Ok(Vec::new(alloc)),
        [slot, later @ ..] => {
            let mut kept = in_force(later, alloc, now)?;
            if slot.is_open && now < slot.until {
                put_greatest(&mut kept, slot.entry())?;
            }
            Ok(kept)
        }
    }
}
