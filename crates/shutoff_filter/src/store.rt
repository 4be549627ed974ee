// A filter on a disk.
ghost use Rattle.std.specs.Prelude.{◌≡◌, ◌<◌, ◌≤◌, ◌^◌, ℕ, List, Some, false, IfOk, IfSome, IsSome, OnOk, OnErr};
ghost use Rattle.std.specs.Option.{ForSome};
ghost use Rattle.std.proofs.Props.{props};
ghost use Rattle.aip_frame.specs.Frame.{frame_of};
ghost use Rattle.aip_frame.specs.declared.frame.Kind.TheVariants as kind;
ghost use Rattle.shutoff_filter.specs.Body.{order_in};
ghost use Rattle.shutoff_filter.specs.FilterFile.{IsFilterOf, slot_in};
ghost use Rattle.shutoff_filter.specs.Judged.{is_full, is_in_log, shutoff_verdict};

use crate::entries::ShutOffEntry;
use crate::in_force::in_force;
use crate::judging::{Heard, judge};
use crate::slots::{Slots, is_covered, is_withheld};
use aip_addr::KeyId;
use lease_disk::{Disk, MemDisk};
use sent_log::SentLog;
use std::alloc::{AllocError, Global};

/// A filter on a disk: the key identifiers that a host must not send to, each until a time.
#[derive(Drop)]
pub struct FilterStore<D: Disk> {
    pub(crate) disk: D,
    pub(crate) slots: Slots,
    // A slot that is closed, and may take the next entry.
    pub(crate) spare: Option<u16>,
    ghost firm: { (image : List ℕ) → D.may_leave disk image → D.now disk ≡ Some image } by { Prim.hlevel props },
    ghost same: { ForSome (D.now disk) (IsFilterOf slots.room slots.slots.items) } by { Prim.hlevel props },
    ghost closed: { IfSome spare (λ s. (s ≤ slots.room) × ((slot_in slots.slots.items s).is_open ≡ false)) } by { Prim.hlevel props },
}

impl<D: Disk> FilterStore<D> {
    ghost use Rattle.shutoff_filter.specs.Entries.{entries_of, in_force, is_covered, is_withheld};
    ghost use Rattle.shutoff_filter.specs.Store.{disk_of, room_of, slots_of, spare_of};

    /// The slot that `ready` closed, for the next entry.
    pub fn spare(&self) -> Option<u16>
        ensures spare { result ≡ spare_of self.now }
    {
        self.spare
    }

    /// Whether the key identifier is withheld at a time: some entry of it has an until above now.
    pub fn withholds(&self, to: &KeyId, now: u64) -> bool
        requires soon { now < 2 ^ 48 }
        ensures { result ≡ is_withheld now to.now (entries_of (slots_of self.now)) }
    {
        is_withheld(&self.slots.slots, to, now)
    }

    /// Whether some entry of the key identifier lasts at least until then, so that a new one until then adds nothing.
    pub fn covers(&self, to: &KeyId, until: u64) -> bool
        ensures { result ≡ is_covered until to.now (entries_of (slots_of self.now)) }
    {
        is_covered(&self.slots.slots, to, until)
    }

    /// The keys in force at a time, in ascending order of their bytes, each with its greatest until. The only error is want
    /// of memory.
    pub fn kept(&self, alloc: Global, now: u64) -> Result<Vec<ShutOffEntry>, AllocError>
        requires soon { now < 2 ^ 48 }
        ensures { IfOk result (λ kept. kept.items ≡ in_force now (entries_of (slots_of self.now))) }
    {
        in_force(&self.slots.slots, alloc, now)
    }

    /// How a shut-off that reaches a host at a time is judged over its log of packets and its filter. Nothing changes.
    pub fn judge(&self, log: &SentLog, frame: &[u8], now: u64) -> Heard
        requires soon { now < 2 ^ 48 }
        requires frame { IsSome (frame_of frame.now) }
        requires shutoff { IfSome (frame_of frame.now) (λ f. f.kind ≡ kind.ShutOff) }
        ensures { IfSome (frame_of frame.now) (λ f. result
            ≡ shutoff_verdict now f (is_in_log log.now.frames f.from (order_in f.body))
            (is_full (room_of self.now) now f.from (entries_of (slots_of self.now)))) }
    {
        judge(&self.slots, log, frame, now)
    }

    /// Gives back the disk and the slots.
    pub fn close(self) -> (D, Slots)
        ensures disk { result.0 ≡ disk_of self }
        ensures slots { result.1 ≡ self.slots }
    {
        let FilterStore {
            disk,
            slots,
            spare: _,
        } = self;
        (disk, slots)
    }
}

impl FilterStore<MemDisk> {
    ghost use Rattle.lease_disk.specs.MemDisk.{reserved, stopped_at};
    ghost use Rattle.shutoff_filter.specs.Store.{disk_of, spare_of};

    /// Arms a stop of the disk at its write or sync of that number, counted from 1 from here on. Where a slot is spare,
    /// `keep` makes four: it writes the entry, syncs, writes the gate, and syncs.
    pub fn stop_at(&mut self, call: u8, fill: u8)
        requires first { 1 ≤ call }
        requires last { call ≤ 4 }
        ensures disk { disk_of self.new ≡ stopped_at (disk_of self.old) call fill }
        ensures same { (self.new.slots ≡ self.old.slots) × (spare_of self.new ≡ spare_of self.old) }
    {
        self.disk.stop_at(call, fill);
    }

    /// Makes place in the record of the disk for so many further entries, with so many bytes in all. Where memory is
    /// wanting, the disk stays as it was.
    pub fn reserve(&mut self, calls: usize, bytes: usize) -> Result<(), AllocError>
        ensures ok { OnOk result (disk_of self.new ≡ reserved (disk_of self.old) calls bytes) }
        ensures err { OnErr result (disk_of self.new ≡ disk_of self.old) }
        ensures same { (self.new.slots ≡ self.old.slots) × (spare_of self.new ≡ spare_of self.old) }
    {
        self.disk.reserve(calls, bytes)
    }
}
