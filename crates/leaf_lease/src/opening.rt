// Opening a lease file.
ghost use Rattle.std.specs.Prelude.{◌≡◌, ◌⊎◌, ◌+◌, ◌^◌, ◌<◌, ◌≤◌, [], ◌∷◌, ℕ, List, Some, not, IfOk, OnOk, true};
ghost use Rattle.std.specs.Option.{ForSome};
ghost use Rattle.lease_disk.specs.Call.{Len, Read, Sync};
ghost use Rattle.lease_disk.specs.Calls.{Ran};
ghost use Rattle.fault_counts.specs.Causes.{HasCause};
ghost use Rattle.lease_disk.specs.Images.{AtEachMoment};
ghost use Rattle.leaf_lease.specs.Ends.{OpenSays, opened_disk, open_failed};
ghost use Rattle.lease_disk.specs.Kept.{KeepsByte, NoLongerThan};
ghost use Rattle.leaf_lease.specs.Kept.{KeepsGone};
ghost use Rattle.leaf_lease.specs.Leases.{id_of, height_of, next_of};
ghost use Rattle.leaf_lease.specs.LeaseFile.{IsGone, file_size};

use crate::judging::{Judgement, judged};
use crate::layout::{LARGEST, file_size};
use crate::leases::Leases;
use lease_disk::{Disk, inspect_firm};

/// Why a lease file was not opened. The first that applies is told.
#[derive(Drop)]
pub enum OpenEnd<D> {
    /// The disk failed.
    Failed { disk: D },
    /// The file has no head, its gate is closed, or it lacks a byte for some leaf. The gate is its first byte, or 0
    /// where it has none.
    Unformatted { disk: D, length: u64, gate: u8 },
    /// The file is of another key, which is named.
    OtherKey { disk: D, id: [u8; 16], height: u8 },
}

/// Opens the lease file of a key of height 5 or 10, after making firm what was written before. The next leaf is one
/// past the last that is gone, or 0.
pub fn open<D: Disk>(disk: D, id: [u8; 16], height: u8) -> Result<Leases<D>, OpenEnd<D>>
    requires height { (height ≡ 5) ⊎ (height ≡ 10) }

    // What it says of the file, where the disk tells what it reads.
    ensures says { ForSome (D.now disk) (λ file. OpenSays id height file result) }
    // A leaf that is gone in the file lies below the next: no leaf is handed out twice.
    ensures none_twice { IfOk result (λ leases. ForSome (D.now disk) (λ file. (leaf : ℕ) → leaf < 2 ^ height → IsGone leaf file → leaf < next_of leases)) }
    ensures key { IfOk result (λ leases. (id_of leases ≡ id) × (height_of leases ≡ height)) }
    ensures content { D.now (opened_disk result) ≡ D.now disk }
    ensures firm { OnOk result ((image : List ℕ) → D.may_leave (opened_disk result) image → D.now (opened_disk result) ≡ Some image) }
    ensures cause { HasCause (open_failed result ≡ true) (D.faults disk) (D.faults (opened_disk result)) }

    // Each image of each moment is one of those at the start, whatever the answer.
    ensures moments { AtEachMoment D.clock D.during disk (opened_disk result) (D.may_leave disk) }
    ensures keeps_gone { KeepsGone (D.may_leave disk) (D.during (opened_disk result) (D.clock disk)) }
    ensures keeps_bytes { (at : ℕ) → KeepsByte at (D.may_leave disk) (D.during (opened_disk result) (D.clock disk)) }
    ensures no_longer { NoLongerThan 0 (D.may_leave disk) (D.during (opened_disk result) (D.clock disk)) }
    ensures clock { D.clock (opened_disk result) ≤ D.clock disk + 1 }

    // It syncs, asks for the length and reads once.
    ensures calls { Ran D.led disk (Sync ∷ Len ∷ Read 0 (file_size height) ∷ []) (not (open_failed result)) (opened_disk result) }
{
    let mut disk = disk;
    let mut buffer = [0; LARGEST];
    let (bytes, _) = buffer.split_at_mut(file_size(height));
    let seen = match inspect_firm(&mut disk, bytes) {
        Ok(seen) => seen,
        Err(_) => return Err(OpenEnd::Failed { disk }),
    };
    match judged(bytes, seen.count, &id, height) {
        Judgement::Free(next) => Ok(Leases {
            disk,
            id,
            height,
            next,
        }),
        Judgement::Unformatted(gate) => Err(OpenEnd::Unformatted {
            disk,
            length: seen.length,
            gate,
        }),
        Judgement::OtherKey(id, height) => Err(OpenEnd::OtherKey { disk, id, height }),
    }
}
