// A sink in memory, with failures at chosen calls.
ghost use Rattle.std.specs.Prelude.{◌≡◌, ◌↔◌, ◌⊎◌, ◌<◌, ◌≤◌, ◌+◌, ◌-◌, [], ◌++◌, length, take, vec_len, vec_capacity, IsTrue, IfOk, IsErr, OnOk, OnErr, Contains, Some};
ghost use Rattle.fault_counts.specs.Causes.{counted, HasCause};
ghost use Rattle.aip_io.specs.Memory.{given};
ghost use Rattle.aip_io.specs.Sink.{and_then};

use crate::{Failed, Sink};
use fault_counts::one_more;
use std::alloc::{AllocError, Global};
use std::marker::Model;

/// A sink in memory. It tells what it has taken. It fails at the calls that it is told to, and where its
/// room is full, and nowhere else.
#[derive(Debug, Drop)]
pub struct MemSink {
    taken: Vec<u8>,
    room: usize,
    failing: Vec<u64>,
    most: usize,
    calls: u64,
    faults: u64,
}

impl Model for MemSink {
    ghost use Rattle.std.specs.Prelude.{◌≤◌, vec_len, vec_capacity};
    ghost use Rattle.aip_io.specs.Memory.{SinkState};

    ghost Value = { SinkState };

    ghost view = { λ sink. record {
      taken = sink.taken.items;
      room = sink.room;
      failing = sink.failing.items;
      most = sink.most;
      calls = sink.calls;
      faults = sink.faults;
    } };

    ghost invariant = { λ sink. (1 ≤ sink.most) × (vec_len sink.taken ≤ sink.room) × (sink.room ≤ vec_capacity sink.taken) };
}

impl MemSink {
    /// A sink with room for so many bytes, which takes at most `most` of them at a call. Its calls are
    /// numbered from 1, and those whose numbers are in `failing` fail. All of its memory is taken here.
    pub fn new(
        alloc: Global,
        room: usize,
        failing: Vec<u64>,
        most: usize,
    ) -> Result<MemSink, AllocError>
        requires { 1 ≤ most }
        ensures { IfOk result (λ sink. sink ≡ record {
          taken = [];
          room = room;
          failing = failing.items;
          most = most;
          calls = 0;
          faults = 0;
        }) }
    {
        Ok(MemSink {
            taken: Vec::with_capacity(alloc, room)?,
            room,
            failing,
            most,
            calls: 0,
            faults: 0,
        })
    }

    /// All the bytes that it has taken, in their order.
    pub fn taken(&self) -> &[u8]
        ensures { result.now ≡ self.now.taken }
    {
        &self.taken
    }
}

// Whether a call fails: by its number, or for want of room.
fn is_failing(failing: &[u64], call: u64, taken: usize, room: usize) -> bool
    ensures { IsTrue result ↔ (Contains failing.now call ⊎ (room ≤ taken)) }
{
    room <= taken || failing.contains(&call)
}

// Appends where the memory is there.
fn append(taken: &mut Vec<u8>, piece: &[u8])
    requires { vec_len taken.old + length piece.now ≤ vec_capacity taken.old }
    ensures items { taken.new.items ≡ taken.old.items ++ piece.now }
    ensures length { vec_len taken.new ≡ vec_len taken.old + length piece.now }
    ensures capacity { vec_capacity taken.old ≤ vec_capacity taken.new }
{
    if taken.extend_from_slice(piece).is_err() {
        unreachable!();
    }
}

impl Sink for MemSink {
    ghost taken = { λ sink. Some sink.taken };

    ghost faults = { λ sink. sink.faults };

    fn put(&mut self, piece: &[u8]) -> Result<usize, Failed>
        requires { 0 < length piece.now }

        ensures some { IfOk result (λ n. 1 ≤ n) }
        ensures within { IfOk result (λ n. n ≤ length piece.now) }
        ensures took { IfOk result (λ n. Some self.new.taken ≡ and_then (Some self.old.taken) (take n piece.now)) }
        ensures nothing { OnErr result (Some self.new.taken ≡ Some self.old.taken) }
        ensures cause { HasCause (IsErr result) self.old.faults self.new.faults }

        // Just when it fails, how much it takes, and what changes.
        ensures fails { IsErr result ↔ (Contains self.old.failing (counted self.old.calls)
            ⊎ (self.old.room ≤ length self.old.taken)) }
        ensures count { IfOk result (λ n. n ≡ given (length piece.now) self.old.most (self.old.room - length self.old.taken)) }
        ensures changes { self.new ≡ record self.old {
          taken = self.new.taken;
          calls = counted self.old.calls;
          faults = self.new.faults;
        } }
        ensures faults { OnErr result (self.new.faults ≡ counted self.old.faults) }
    {
        self.calls = one_more(self.calls);
        if is_failing(&self.failing, self.calls, self.taken.len(), self.room) {
            self.faults = one_more(self.faults);
            return Err(Failed);
        }
        let left = self.room - self.taken.len();
        let count = piece.len().min(self.most).min(left);
        append(&mut self.taken, &piece[..count]);
        Ok(count)
    }
}
