// Leases, and the leaves that they hand out.
ghost use Rattle.std.specs.Prelude.{◌≡◌, ◌+◌, ◌^◌, ◌≤◌, ◌↔◌, ◌≢◌, [], ◌∷◌, ℕ, List, Some, Err, true, not, length, option_map, IfOk, OnOk, OnErr, if◌then◌else◌, IsTrue};
ghost use Rattle.std.specs.Option.{ForSome};
ghost use Rattle.std.proofs.Props.{props};
ghost use Rattle.lease_disk.specs.Calls.{Ran};
ghost use Rattle.fault_counts.specs.Causes.{HasCause};
ghost use Rattle.lease_disk.specs.Images.{overwritten, AtEachMoment};
ghost use Rattle.lease_disk.specs.Kept.{AfterWrite, KeepsByte, NoLongerThan};
ghost use Rattle.leaf_lease.specs.Kept.{KeepsGone};
ghost use Rattle.leaf_lease.specs.LeaseFile.{IsLeaseFile, IsGone};

use crate::layout::{HEAD, leaf_count};
use lease_disk::{Disk, MemDisk, write_firm};
use std::alloc::AllocError;

/// The right to sign once with one leaf. It cannot be copied, and it must be spent or wasted.
pub struct LeafLease {
    id: [u8; 16],
    leaf: u32,
}

impl LeafLease {
    ghost use Rattle.leaf_lease.specs.Leases.{leased_leaf, leased_id};

    /// The identifier of the key.
    pub fn id(&self) -> [u8; 16]
        ensures id { result ≡ leased_id self.now }
    {
        self.id
    }

    /// The leaf's number.
    pub fn leaf(&self) -> u32
        ensures leaf { result ≡ leased_leaf self.now }
    {
        self.leaf
    }

    /// Uses the lease up, for a signature with its leaf.
    pub fn spend(self) -> u32
        ensures leaf { result ≡ leased_leaf self }
    {
        let LeafLease { id: _, leaf } = self;
        leaf
    }

    /// Uses the lease up for nothing, and tells the leaf that is lost. It was gone on the disk before the lease was handed
    /// out, and stays so.
    pub fn waste(self) -> u32
        ensures leaf { result ≡ leased_leaf self }
    {
        let LeafLease { id: _, leaf } = self;
        leaf
    }
}

/// The leaves of a key that are left on a disk.
#[derive(Drop)]
pub struct Leases<D: Disk> {
    pub(crate) disk: D,
    pub(crate) id: [u8; 16],
    pub(crate) height: u8,
    pub(crate) next: u32,
    ghost tall: { height ≤ 10 },
    ghost within: { next ≤ 2 ^ height },
    ghost ready: { ForSome (D.now disk) (IsLeaseFile id height next) } by { Prim.hlevel props },
}

/// Why no leaf was leased.
#[derive(Drop)]
pub enum LeaseEnd<D: Disk> {
    /// No leaf is left. The disk was not touched.
    Dry { leases: Leases<D> },
    /// The disk failed. It has to be opened again.
    Failed { disk: D },
}

impl<D: Disk> Leases<D> {
    ghost use Rattle.leaf_lease.specs.Leases.{leased_leaf, leased_id, disk_of, id_of, height_of, next_of, leased_disk, lease_failed, is_dry, lease_calls};

    /// The next leaf to be handed out.
    pub fn next(&self) -> u32
        ensures next { result ≡ next_of self.now }
    {
        self.next
    }

    /// Gives the disk back.
    pub fn close(self) -> D
        ensures disk { result ≡ disk_of self }
    {
        let Leases {
            disk,
            id: _,
            height: _,
            next: _,
        } = self;
        disk
    }

    /// Hands out the next leaf, once its byte on the disk is written and firm.
    pub fn lease(self) -> Result<(Leases<D>, LeafLease), LeaseEnd<D>>
        // The leaf that was next is handed out, and is gone in every image that a crash may leave.
        ensures leaf { IfOk result (λ given. (leased_leaf given.1 ≡ next_of self) × (leased_id given.1 ≡ id_of self)) }
        ensures next { IfOk result (λ given. (next_of given.0 ≡ next_of self + 1) × (id_of given.0 ≡ id_of self) × (height_of given.0 ≡ height_of self)) }
        ensures gone { OnOk result ((image : List ℕ) → D.may_leave (leased_disk result) image → IsGone (next_of self) image) }
        ensures firm { OnOk result ((image : List ℕ) → D.may_leave (leased_disk result) image → D.now (leased_disk result) ≡ Some image) }
        ensures content { OnOk result (D.now (leased_disk result)
            ≡ option_map (λ file. overwritten file (18 + next_of self) (1 ∷ [])) (D.now (disk_of self))) }

        // No leaf is left exactly where the next is past the last, and then nothing changes.
        ensures dry { IsTrue (is_dry result) ↔ (next_of self ≡ 2 ^ height_of self) }
        ensures untouched { IsTrue (is_dry result) → result ≡ Err (LeaseEnd.Dry self) }
        ensures cause { HasCause (lease_failed result ≡ true) (D.faults (disk_of self)) (D.faults (leased_disk result)) }

        // In each image of each moment, whatever the answer: a leaf that was gone is gone, and all other bytes stay.
        ensures moments { AtEachMoment D.clock D.during (disk_of self) (leased_disk result)
            (AfterWrite (D.may_leave (disk_of self)) (18 + next_of self) 1) }
        ensures keeps_gone { KeepsGone (D.may_leave (disk_of self)) (D.during (leased_disk result) (D.clock (disk_of self))) }
        ensures keeps_bytes { (at : ℕ) → at ≢ 18 + next_of self
            → KeepsByte at (D.may_leave (disk_of self)) (D.during (leased_disk result) (D.clock (disk_of self))) }
        ensures no_longer { NoLongerThan 0 (D.may_leave (disk_of self)) (D.during (leased_disk result) (D.clock (disk_of self))) }
        ensures clock { D.clock (leased_disk result) ≤ D.clock (disk_of self) + 2 }

        // It writes the leaf's byte and syncs.
        ensures calls { Ran D.led (disk_of self)
            (if is_dry result then [] else lease_calls (next_of self)) (not (lease_failed result)) (leased_disk result) }
    {
        if self.next == leaf_count(self.height) {
            return Err(LeaseEnd::Dry { leases: self });
        }
        let Leases {
            mut disk,
            id,
            height,
            next,
        } = self;
        match write_firm(&mut disk, HEAD as u64 + next as u64, &[1]) {
            Ok(()) => {
                let leases = Leases {
                    disk,
                    id,
                    height,
                    next: next + 1,
                };
                Ok((leases, LeafLease { id, leaf: next }))
            }
            Err(_) => Err(LeaseEnd::Failed { disk }),
        }
    }
}

impl Leases<MemDisk> {
    ghost use Rattle.lease_disk.specs.MemDisk.{reserved, stopped_at};
    ghost use Rattle.leaf_lease.specs.Leases.{disk_of, id_of, height_of, next_of};

    /// Arms a stop of the disk at its write or sync of that number, counted from 1 from here on. A lease makes two: it
    /// writes the leaf's byte, and syncs.
    pub fn stop_at(&mut self, call: u8, fill: u8)
        requires first { 1 ≤ call }
        requires last { call ≤ 4 }
        ensures disk { disk_of self.new ≡ stopped_at (disk_of self.old) call fill }
        ensures same { (id_of self.new ≡ id_of self.old) × (height_of self.new ≡ height_of self.old) × (next_of self.new ≡ next_of self.old) }
    {
        self.disk.stop_at(call, fill);
    }

    /// Makes place in the record of the disk for so many further entries, with so many bytes in all. Where memory is
    /// wanting, the disk stays as it was.
    pub fn reserve(&mut self, calls: usize, bytes: usize) -> Result<(), AllocError>
        ensures ok { OnOk result (disk_of self.new ≡ reserved (disk_of self.old) calls bytes) }
        ensures err { OnErr result (disk_of self.new ≡ disk_of self.old) }
        ensures same { (id_of self.new ≡ id_of self.old) × (height_of self.new ≡ height_of self.old) × (next_of self.new ≡ next_of self.old) }
    {
        self.disk.reserve(calls, bytes)
    }
}
