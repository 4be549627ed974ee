// One line of a schedule, taken.
ghost use Rattle.std.specs.Prelude.{◌≡◌, ℕ, ◌≤◌, ◌∷◌, List, Option, Ok, Some, IfSome};
ghost use Rattle.fault_counts.specs.Causes.{HasCause};
ghost use Rattle.aip_text.specs.Lines.{lines_of, most_line_bytes, most_lines};
ghost use Rattle.aip_event.specs.Lines.{input_line};
ghost use Rattle.aip_io.specs.Causes.{ReadsOnly};
ghost use Rattle.aip_io.specs.Lines.{left_of};
ghost use Rattle.aip_topo.specs.declared.topology.Topology.{Topology};
ghost use Rattle.aip_rules.specs.Texts.{EndedRun, scheduled};
ghost use Rattle.aip_sim.specs.Turns.{EndsWith, HasCome, IsGoing, IsKnown, IsRefusedHere, IsStepped, IsTurn};

use crate::ends::RunEnd;
use crate::schedules::{Scheduled, next_scheduled};
use crate::writing::{put_refusal, put_step};
use aip_core::{Core, StepEnd};
use aip_event::{Event, Input};
use aip_io::{Lines, Shelf, Sink};
use aip_rules::StepFault;
use std::alloc::Global;

/// What a line of the schedule leads to.
#[derive(Drop)]
pub enum Turn {
    /// The run goes on with this core.
    Goes(Core),
    /// The run ends.
    Ends(RunEnd, Option<Core>),
}

// Ends the run at a refused line, whose refusal line is written.
fn refuse<K: Sink>(alloc: Global, core: Core, number: u32, fault: StepFault, out: &mut K) -> Turn
    ensures told { (topo : Topology) (lines : List (List ℕ)) (start : Option (List ℕ)) (whole : EndedRun)
        → IsRefusedHere topo core number fault start (K.taken out.old) whole
        → IsTurn topo number lines start (K.taken out.new) whole result }
    ensures ends { IsGoing result → ⊥ }
    ensures known { IsKnown result }
    ensures unread { EndsWith RunEnd.ReadFault result → ⊥ }
    ensures sink { HasCause (EndsWith RunEnd.WriteFault result) (K.faults out.old) (K.faults out.new) }
{
    match put_refusal(alloc, number, fault, out) {
        Ok(()) => Turn::Ends(
            RunEnd::Schedule {
                line: number,
                fault,
            },
            Some(core),
        ),
        Err(end) => Turn::Ends(end, None),
    }
}

// Writes the lines of a step to this core, and goes on with it.
fn go_on<K: Sink>(alloc: Global, core: Core, line: &[u8], events: &[Event], out: &mut K) -> Turn
    ensures told { (topo : Topology) (number : ℕ) (lines : List (List ℕ)) (start : Option (List ℕ)) (whole : EndedRun)
        → IsStepped topo core number lines line.now events.now start (K.taken out.old) whole
        → IsTurn topo number lines start (K.taken out.new) whole result }
    ensures known { IsKnown result }
    ensures unread { EndsWith RunEnd.ReadFault result → ⊥ }
    ensures sink { HasCause (EndsWith RunEnd.WriteFault result) (K.faults out.old) (K.faults out.new) }
{
    match put_step(alloc, line, events, out) {
        Ok(()) => Turn::Goes(core),
        Err(end) => Turn::Ends(end, None),
    }
}

// Takes an input that a line spells.
fn take_input<K: Sink>(
    alloc: Global,
    core: Core,
    number: u32,
    input: Input,
    line: &[u8],
    out: &mut K,
) -> Turn
    requires spelled { line.now ≡ input_line input }
    ensures told { (topo : Topology) (lines : List (List ℕ)) (start : Option (List ℕ)) (whole : EndedRun)
        → scheduled number line.now ≡ Ok (Some input)
        → HasCome topo core number (line.now ∷ lines) start (K.taken out.old) whole
        → IsTurn topo number lines start (K.taken out.new) whole result }
    ensures known { IsKnown result }
    ensures unread { EndsWith RunEnd.ReadFault result → ⊥ }
    ensures sink { HasCause (EndsWith RunEnd.WriteFault result) (K.faults out.old) (K.faults out.new) }
{
    match core.step(alloc, input) {
        Ok((core, events)) => go_on(alloc, core, line, events.as_slice(), out),
        Err(StepEnd::Refused { core, fault }) => refuse(alloc, core, number, fault, out),
        Err(StepEnd::Memory) => Turn::Ends(RunEnd::Memory, None),
    }
}

/// Takes the next line of the schedule, which has this number: reads it, steps the core, and writes.
pub fn take_line<S: Shelf, K: Sink>(
    alloc: Global,
    shelf: &mut S,
    name: &str,
    lines: &mut Lines,
    number: u32,
    core: Core,
    out: &mut K,
) -> Turn
    requires { lines.old.most ≡ most_line_bytes }
    ensures told { IfSome (S.text shelf.old name.now) (λ told. (topo : Topology) (start : Option (List ℕ)) (whole : EndedRun)
        → HasCome topo core number (lines_of (left_of told lines.old)) start (K.taken out.old) whole
        → IsTurn topo number (lines_of (left_of told lines.new)) start (K.taken out.new) whole result) }
    ensures known { IsKnown result }
    ensures few { IsGoing result → number ≤ most_lines }
    ensures most { lines.new.most ≡ most_line_bytes }
    ensures text { (other : List ℕ) → S.text shelf.new other ≡ S.text shelf.old other }
    ensures counts { ReadsOnly (λ other. other ≡ name.now) (EndsWith RunEnd.ReadFault result)
        (S.text shelf.old) (S.faults shelf.old) (S.faults shelf.new) }
    ensures sink { HasCause (EndsWith RunEnd.WriteFault result) (K.faults out.old) (K.faults out.new) }
{
    match next_scheduled(alloc, shelf, name, lines, number) {
        Scheduled::Input(input) => take_input(alloc, core, number, input, lines.line(), out),
        Scheduled::Skipped => Turn::Goes(core),
        Scheduled::Refused(fault) => refuse(alloc, core, number, fault, out),
        Scheduled::End => Turn::Ends(RunEnd::Done, Some(core)),
        Scheduled::Cut(end) => Turn::Ends(end, None),
    }
}
