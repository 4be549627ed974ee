// A disk in memory that fails when it is told to, and stops. It keeps a record of all that was written.
ghost use Rattle.std.specs.Prelude.{◌≡◌, ◌+◌, ◌^◌, ◌<◌, ◌≤◌, ◌==◌, ◌∷◌, ℕ, List, length, not, false, Some, is_ok, slice_index, IsTrue, IfOk, OnOk, OnErr, refl};
ghost use Rattle.std.specs.List.{list_any};
ghost use Rattle.fault_counts.specs.Causes.{counted};
ghost use Rattle.lease_disk.specs.Call.{Len, Write, Sync};
ghost use Rattle.lease_disk.specs.Past.{Wrote, Synced, content_of, is_pending, IsPending};
ghost use Rattle.lease_disk.specs.PastLaws.{only_image, now_counts, content_now};
ghost use Rattle.lease_disk.specs.Stop.{is_met, stop_after};
ghost use Rattle.lease_disk.specs.MemDisk.{new_disk, refuses_looks, refuses_changes, has_place, Leads, told_of, MayLeave, clock_of, MayHaveLeft, reserved, stopped_at, restarted};

use crate::content::{append, copy_out, leave, write_over};
use crate::stop::{Stop, counted_down, fails_next, was_met};
use crate::{Disk, Failed};
use fault_counts::one_more;
use std::alloc::{AllocError, Global};
use std::marker::Model;

/// One entry of the record. The bytes of the writes stand in one list beside the entries.
#[derive(Clone, Copy)]
pub enum Mark {
    Write { at: u64, count: usize, done: bool },
    Sync,
}

/// A disk in memory. The calls that are listed fail, and so does a write past its room, a write or a sync that finds
/// no place in the record, the write or sync at which the disk stops, and each call after it until a restart. No other
/// call does. Each failure is counted.
#[derive(Drop)]
pub struct MemDisk {
    // The bytes of the disk as it was made or restarted, and as they read.
    base: Vec<u8>,
    content: Vec<u8>,
    // The record since: its entries, and the bytes of the writes among them.
    marks: Vec<Mark>,
    written: Vec<u8>,
    // How many entries there were at the last sync that succeeded, and how many bytes the file then had.
    firm_marks: usize,
    firm_length: usize,
    calls: u64,
    failing: Vec<u64>,
    stop: Stop,
    room: usize,
    entry_place: usize,
    byte_place: usize,
    faults: u64,
}

impl Model for MemDisk {
    ghost use Rattle.lease_disk.specs.MemDisk.{DiskState};

    ghost Value = { DiskState };

    ghost use Rattle.lease_disk.specs.Marks.{past_of, IsKept};

    ghost view = { λ disk. record {
      base = disk.base.items;
      past = past_of disk;
      calls = disk.calls;
      failing = disk.failing.items;
      stop = disk.stop;
      room = disk.room;
      entry_place = disk.entry_place;
      byte_place = disk.byte_place;
      faults = disk.faults;
    } };

    ghost invariant = { IsKept };
}

// The record has place for this many entries at first, and for as many bytes besides the room of the file.
const FIRST_PLACE: usize = 8;

impl MemDisk {
    /// An empty disk of so many bytes at most. Its calls are numbered from 1, and those in `failing` fail. The record
    /// has place for 8 entries and for `room + 8` bytes.
    pub fn new(alloc: Global, room: usize, failing: Vec<u64>) -> Result<MemDisk, AllocError>
        ensures disk { IfOk result (λ disk. disk ≡ new_disk room failing.items) }
    {
        let byte_place = room.checked_add(FIRST_PLACE).ok_or(AllocError)?;
        Ok(MemDisk {
            base: Vec::with_capacity(alloc, room)?,
            content: Vec::with_capacity(alloc, room)?,
            marks: Vec::with_capacity(alloc, FIRST_PLACE)?,
            written: Vec::with_capacity(alloc, byte_place)?,
            firm_marks: 0,
            firm_length: 0,
            calls: 0,
            failing,
            stop: Stop::Unarmed,
            room,
            entry_place: FIRST_PLACE,
            byte_place,
            faults: 0,
        })
    }

    /// Makes place in the record for so many further entries, with so many bytes in all.
    pub fn reserve(&mut self, calls: usize, bytes: usize) -> Result<(), AllocError>
        ensures ok { OnOk result (self.new ≡ reserved self.old calls bytes) }
        ensures err { OnErr result (self.new ≡ self.old) }
    {
        let entry_place = self.marks.len().checked_add(calls).ok_or(AllocError)?;
        let byte_place = self.written.len().checked_add(bytes).ok_or(AllocError)?;
        self.marks.reserve(calls)?;
        self.written.reserve(bytes)?;
        self.entry_place = self.entry_place.max(entry_place);
        self.byte_place = self.byte_place.max(byte_place);
        Ok(())
    }

    /// The bytes as they read.
    pub fn bytes(&self) -> &[u8]
        ensures content { result.now ≡ content_of self.now.base self.now.past }
    {
        &self.content
    }

    /// Arms a stop at the write or sync of that number, counted from 1 from here on. That call fails, and so does each
    /// call after it until a restart. A stop that was armed before is replaced, and once the disk has stopped nothing
    /// changes.
    pub fn stop_at(&mut self, call: u8, fill: u8)
        requires first { 1 ≤ call }
        requires last { call ≤ 4 }
        ensures armed { self.new ≡ stopped_at self.old call fill }
    {
        if !was_met(self.stop) {
            self.stop = Stop::Armed { call, fill };
        }
    }

    /// Serves again, with no stop armed. Once the disk has stopped, each byte that was written since the last sync is
    /// the byte of the stop. All other bytes and the length stay, and a crash leaves just these bytes. The record is
    /// empty then, and keeps its place.
    pub fn restart(self) -> MemDisk
        ensures disk { result ≡ restarted self }
        ensures firm { (image : List ℕ) → MayLeave result image → told_of result ≡ Some image }
        ensures met { (fill : ℕ) → self.stop ≡ Stop.Met fill → (k : ℕ) → k < length (content_of self.base self.past)
            → IsPending self.base self.past k → slice_index (content_of result.base result.past) k ≡ fill }
        ensures other_bytes { (k : ℕ) → k < length (content_of self.base self.past) → (¬ IsPending self.base self.past k)
            → slice_index (content_of result.base result.past) k ≡ slice_index (content_of self.base self.past) k }
        ensures length { length (content_of result.base result.past) ≡ length (content_of self.base self.past) }
        ensures unmet { is_met self.stop ≡ false → told_of result ≡ told_of self }
    {
        let MemDisk {
            mut base,
            mut content,
            mut marks,
            mut written,
            firm_marks,
            firm_length,
            calls,
            failing,
            stop,
            room,
            entry_place,
            byte_place,
            faults,
        } = self;
        leave(&mut content, &marks[firm_marks..], firm_length, stop);
        base.clear();
        append(&mut base, &content);
        marks.clear();
        written.clear();
        let stop = Stop::Unarmed;
        MemDisk {
            firm_marks: 0,
            firm_length: base.len(),
            base,
            content,
            marks,
            written,
            calls,
            failing,
            stop,
            room,
            entry_place,
            byte_place,
            faults,
        }
    }

    // Counts a call that only looks, and says whether it fails.
    fn count_look(&mut self) -> bool
        ensures counted { self.new ≡ record self.old { calls = counted self.old.calls } }
        ensures refused { result ≡ refuses_looks self.old }
    {
        self.calls = one_more(self.calls);
        is_one_of(&self.failing, self.calls) || was_met(self.stop)
    }

    // Counts a write or a sync, and says whether it fails.
    fn count_change(&mut self) -> bool
        ensures counted { self.new ≡ record self.old { calls = counted self.old.calls; stop = stop_after self.old.stop } }
        ensures refused { result ≡ refuses_changes self.old }
    {
        let stops = fails_next(self.stop);
        self.stop = counted_down(self.stop);
        self.calls = one_more(self.calls);
        is_one_of(&self.failing, self.calls) || stops
    }

    fn count_fault(&mut self)
        ensures counted { self.new ≡ record self.old { faults = counted self.old.faults } }
    {
        self.faults = one_more(self.faults);
    }

    // Whether the record takes one entry more, with so many bytes.
    fn has_place(&self, count: usize) -> bool
        ensures place { result ≡ has_place self.now count }
    {
        self.marks.len() < self.entry_place && count <= self.byte_place - self.written.len()
    }

    fn is_pending(&self) -> bool
        ensures pending { result ≡ is_pending self.now.past }
    {
        matches!(self.marks.last(), Some(Mark::Write { .. }))
    }

    fn enter_write(&mut self, at: u64, bytes: &[u8], done: bool)
        requires room { at + length bytes.now ≤ self.old.room }
        requires place { IsTrue (has_place self.old (length bytes.now)) }
        ensures entered { self.new ≡ record self.old { past = Wrote at bytes.now done ∷ self.old.past } }
    {
        write_over(&mut self.content, at as usize, bytes, done);
        self.marks.push_reserved(Mark::Write {
            at,
            count: bytes.len(),
            done,
        });
        append(&mut self.written, bytes);
    }

    fn enter_sync(&mut self)
        requires place { IsTrue (has_place self.old 0) }
        ensures entered { self.new ≡ record self.old { past = Synced ∷ self.old.past } }
    {
        self.marks.push_reserved(Mark::Sync);
        self.firm_marks = self.marks.len();
        self.firm_length = self.content.len();
    }

    // A call that only looks.
    fn look(&mut self) -> Result<(), Failed>
        ensures leads { Leads self.old Len (is_ok result) self.new }
    {
        if self.count_look() {
            self.count_fault();
            return Err(Failed);
        }
        Ok(())
    }

    fn put(&mut self, at: u64, bytes: &[u8]) -> Result<(), Failed>
        requires { at + length bytes.now < 2 ^ 64 }
        ensures leads { Leads self.old (Write at bytes.now) (is_ok result) self.new }
    {
        let refused = self.count_change();
        let entered = at + bytes.len() as u64 <= self.room as u64 && self.has_place(bytes.len());
        if entered {
            self.enter_write(at, bytes, !refused);
        }
        if refused || !entered {
            self.count_fault();
            return Err(Failed);
        }
        Ok(())
    }

    fn settle(&mut self) -> Result<(), Failed>
        ensures leads { Leads self.old Sync (is_ok result) self.new }
    {
        let refused = self.count_change();
        let pending = self.is_pending();
        if refused || (pending && !self.has_place(0)) {
            self.count_fault();
            return Err(Failed);
        }
        if pending {
            self.enter_sync();
        }
        Ok(())
    }
}

impl Disk for MemDisk {
    ghost now = { told_of };

    ghost may_leave = { MayLeave };

    ghost clock = { clock_of };

    ghost during = { MayHaveLeft };

    ghost faults = { λ disk. disk.faults };

    ghost led = { Leads };

    ghost counts_now = { λ disk t image _ here. now_counts disk.base disk.past t image here };

    ghost only_now = { λ disk image left. only_image disk.base disk.past image left };

    ghost content_is_image = { λ disk image told. content_now disk.base disk.past image told };

    ghost untold = { λ disk t image left. refl };

    fn len(&mut self) -> Result<u64, Failed> {
        self.look()?;
        Ok(self.bytes().len() as u64)
    }

    fn read(&mut self, at: u64, into: &mut [u8]) -> Result<usize, Failed> {
        self.look()?;
        Ok(copy_out(self.bytes(), at as usize, into))
    }

    fn write_at(&mut self, at: u64, bytes: &[u8]) -> Result<(), Failed> {
        self.put(at, bytes)
    }

    fn sync(&mut self) -> Result<(), Failed> {
        self.settle()
    }
}

fn is_one_of(numbers: &[u64], number: u64) -> bool
    ensures { result ≡ list_any (λ other. other == number) numbers.now }
{
    numbers.iter().any(|other| *other == number)
}
