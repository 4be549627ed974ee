// What is told of a workload.
ghost use Rattle.std.specs.Prelude.{◌≡◌, ◌++◌, IfOk, OnOk};
ghost use Rattle.aip_make.specs.Summaries.{hash_line, number_line, summary_text};

use aip_text::{push_hex, push_number, push_space, push_text};
use std::alloc::{AllocError, Global};

/// The summary of a workload: of the trace of its lines.
#[derive(Clone, Copy, Debug, PartialEq, Eq)]
pub struct Summary {
    /// How many lines were taken.
    pub lines: u32,
    /// How many flights were put.
    pub flights: u32,
    /// How many events happened.
    pub events: u64,
    /// The time.
    pub now: u64,
    /// The SHA-256 of the trace's text.
    pub trace: [u8; 32],
}

impl Summary {
    /// The five lines of the summary: `lines`, `flights`, `events` and `now`, each with its number,
    /// and `trace` with the hash in hex. The only error is want of memory.
    pub fn text(self, alloc: Global) -> Result<Vec<u8>, AllocError>
        ensures { IfOk result (λ text. text.items ≡ summary_text self) }
    {
        let mut out = Vec::new(alloc);
        push_line(&mut out, b"lines", u64::from(self.lines))?;
        push_line(&mut out, b"flights", u64::from(self.flights))?;
        push_line(&mut out, b"events", self.events)?;
        push_line(&mut out, b"now", self.now)?;
        push_hash(&mut out, &self.trace)?;
        Ok(out)
    }
}

// Appends a word, a space, a number and a line feed.
fn push_line(out: &mut Vec<u8>, word: &[u8], number: u64) -> Result<(), AllocError>
    ensures { OnOk result (out.new.items ≡ out.old.items ++ number_line word.now number) }
{
    push_text(out, word)?;
    push_space(out)?;
    push_number(out, number)?;
    push_text(out, b"\n")
}

// Appends the line of a hash.
fn push_hash(out: &mut Vec<u8>, hash: &[u8]) -> Result<(), AllocError>
    ensures { OnOk result (out.new.items ≡ out.old.items ++ hash_line hash.now) }
{
    push_text(out, b"trace ")?;
    push_hex(out, hash)?;
    push_text(out, b"\n")
}
