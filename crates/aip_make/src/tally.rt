// What is counted of a trace.
ghost use Rattle.std.specs.Prelude.{◌≡◌, ◌+◌, [], List, IfOk, OnOk};
ghost use Rattle.aip_event.specs.declared.input.Input.{Input as Taking};
ghost use Rattle.aip_event.specs.Lines.{input_text};
ghost use Rattle.aip_rules.specs.declared.Entry.{Entry};
ghost use Rattle.aip_rules.specs.Step.{after_step};
ghost use Rattle.aip_make.specs.Making.{IsTallyOf};

use crate::writing::write_taken;
use aip_event::{Event, Input, write_events};
use sha2::{Digest, Sha256};
use std::alloc::{AllocError, Global};

/// What is counted of a trace: its events, and the hash of its text.
#[derive(Drop)]
pub struct Tally {
    pub events: u64,
    pub hasher: Sha256,
    // The lines of the step that is on its way.
    pub step: Vec<u8>,
}

impl Tally {
    /// The tally of the empty trace.
    pub fn new(alloc: Global) -> Tally
        ensures { IsTallyOf [] result }
    {
        Tally {
            events: 0,
            hasher: Sha256::new(),
            step: Vec::new(alloc),
        }
    }

    /// Writes the line of an input that is about to be taken.
    pub fn begin(&mut self, alloc: Global, input: &Input) -> Result<(), AllocError>
        ensures line { OnOk result (self.new.step.items ≡ input_text input.now) }
        ensures events { self.new.events ≡ self.old.events }
        ensures hasher { self.new.hasher ≡ self.old.hasher }
    {
        write_taken(alloc, &mut self.step, input)
    }

    /// Counts the step that takes an input, whose line was written, with these events.
    pub fn finish(&mut self, alloc: Global, events: &[Event]) -> Result<(), AllocError>
        ensures { OnOk result ((tr : List Entry) (input : Taking) → self.old.step.items ≡ input_text input
            → IsTallyOf tr self.old → IsTallyOf (after_step tr input events.now) self.new) }
    {
        write_events(alloc, events, &mut self.step)?;
        self.events = with_more(self.events, events.len())?;
        self.hasher.update(self.step.as_slice());
        Ok(())
    }
}

// A count with more to it. Such a count that passes 64 bits has no memory to be in.
fn with_more(count: u64, more: usize) -> Result<u64, AllocError>
    ensures { IfOk result (λ sum. sum ≡ count + more) }
{
    count.checked_add(more as u64).ok_or(AllocError)
}
