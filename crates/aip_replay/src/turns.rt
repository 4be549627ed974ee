// One line of a file, judged.
ghost use Rattle.std.specs.Prelude.{◌≡◌, ◌+◌, ◌≤◌, ◌<◌, ℕ, ◌∷◌, ◌++◌, [], List, length, false, Some, IfSome};
ghost use Rattle.aip_text.specs.Lines.{most_line_bytes};
ghost use Rattle.aip_io.specs.Causes.{ReadsOnly};
ghost use Rattle.aip_io.specs.Lines.{left_of, turns_of};
ghost use Rattle.aip_topo.specs.declared.topology.Topology.{Topology};
ghost use Rattle.aip_topo.specs.Sound.{IsSound};
ghost use Rattle.aip_replay.specs.Answers.{IsRight, IsUnread};
ghost use Rattle.aip_replay.specs.Judged.{is_topology_refused};
ghost use Rattle.aip_replay.specs.Lines.{IsReadOn};
ghost use Rattle.aip_replay.specs.Texts.{IsTraceLine};
ghost use Rattle.aip_replay.specs.Turns.{EndsWith, HasCome, IsGoing, IsPassed, IsTurn, JudgesAt};

use crate::ends::ReplayEnd;
use crate::lines::{input_on, is_line_of};
use aip_core::{Core, StepEnd};
use aip_event::{Events, Input};
use aip_io::{Got, Lines, Shelf};
use std::alloc::Global;

/// What judges the lines of a file: the core after the inputs so far, the events of the last of them, and how many of these
/// were seen. The others are due.
#[derive(Drop)]
pub struct Judge {
    pub core: Core,
    pub due: Events,
    pub seen: usize,
}

/// What a line of the file leads to.
#[derive(Drop)]
pub enum Turn {
    /// The replay goes on with this judge.
    Goes(Judge),
    /// The replay ends.
    Ends(ReplayEnd),
}

// Takes the line of the next event that is due.
fn take_event(alloc: Global, judge: Judge, number: u64, line: &[u8], buffer: &mut Vec<u8>) -> Turn
    requires { judge.seen < length judge.due }
    ensures told { (topo : Topology) (file left : List ℕ) → IsSound topo → IsTraceLine line.now
        → JudgesAt topo judge number file (line.now ++ 10 ∷ left) → IsTurn topo number file left result }
    ensures long { IsGoing result → 2 ≤ length line.now }
    ensures known { IsPassed result }
    ensures unread { EndsWith ReplayEnd.ReadFault result → ⊥ }
{
    let Judge { core, due, seen } = judge;
    let event = &due.as_slice()[seen];
    match is_line_of(alloc, event, line, buffer) {
        Ok(true) => Turn::Goes(Judge {
            core,
            due,
            seen: seen + 1,
        }),
        Ok(false) => Turn::Ends(ReplayEnd::Wrong { line: number }),
        Err(_) => Turn::Ends(ReplayEnd::Memory),
    }
}

// Takes an input that a line has.
fn step(alloc: Global, core: Core, number: u64, line: &[u8], input: Input) -> Turn
    requires { IsReadOn line.now (Some input) }
    ensures told { (topo : Topology) (file left : List ℕ) → IsSound topo → IsTraceLine line.now
        → HasCome topo core [] number file (line.now ++ 10 ∷ left) → IsTurn topo number file left result }
    ensures known { IsPassed result }
    ensures unread { EndsWith ReplayEnd.ReadFault result → ⊥ }
{
    match core.step(alloc, input) {
        Ok((core, due)) => Turn::Goes(Judge { core, due, seen: 0 }),
        Err(StepEnd::Refused { .. }) => Turn::Ends(ReplayEnd::Wrong { line: number }),
        Err(StepEnd::Memory) => Turn::Ends(ReplayEnd::Memory),
    }
}

// Takes the line of an input, where no event is due.
fn take_input(alloc: Global, core: Core, number: u64, line: &[u8]) -> Turn
    ensures told { (topo : Topology) (file left : List ℕ) → IsSound topo → IsTraceLine line.now
        → HasCome topo core [] number file (line.now ++ 10 ∷ left) → IsTurn topo number file left result }
    ensures long { IsGoing result → 2 ≤ length line.now }
    ensures known { IsPassed result }
    ensures unread { EndsWith ReplayEnd.ReadFault result → ⊥ }
{
    match input_on(alloc, line) {
        Ok(Some(input)) => step(alloc, core, number, line, input),
        Ok(None) => Turn::Ends(ReplayEnd::Wrong { line: number }),
        Err(_) => Turn::Ends(ReplayEnd::Memory),
    }
}

// Judges a line that a line feed ends.
fn judge_line(alloc: Global, judge: Judge, number: u64, line: &[u8], buffer: &mut Vec<u8>) -> Turn
    ensures told { (topo : Topology) (file left : List ℕ) → IsSound topo → IsTraceLine line.now
        → JudgesAt topo judge number file (line.now ++ 10 ∷ left) → IsTurn topo number file left result }
    ensures long { IsGoing result → 2 ≤ length line.now }
    ensures known { IsPassed result }
    ensures unread { EndsWith ReplayEnd.ReadFault result → ⊥ }
{
    if judge.seen < judge.due.as_slice().len() {
        return take_event(alloc, judge, number, line, buffer);
    }
    take_input(alloc, judge.core, number, line)
}

// The answer where the file ends before the line of this number.
fn at_end(judge: &Judge, number: u64) -> ReplayEnd
    ensures told { (topo : Topology) (file : List ℕ) → IsSound topo → JudgesAt topo judge.now number file []
        → IsRight topo file result }
    ensures known { is_topology_refused result ≡ false }
    ensures read { IsUnread result → ⊥ }
{
    let told = judge.due.as_slice().len();
    if judge.seen < told {
        ReplayEnd::Wrong { line: number }
    } else {
        ReplayEnd::Holds
    }
}

/// Takes the next line of the file, which has this number, and judges it.
pub fn take_line<S: Shelf>(
    alloc: Global,
    shelf: &mut S,
    name: &str,
    lines: &mut Lines,
    number: u64,
    judge: Judge,
    buffer: &mut Vec<u8>,
) -> Turn
    requires { lines.old.most ≡ most_line_bytes }
    ensures told { IfSome (S.text shelf.old name.now) (λ told. (topo : Topology) (file : List ℕ) → IsSound topo
        → JudgesAt topo judge number file (left_of told lines.old) → IsTurn topo number file (left_of told lines.new) result) }
    ensures known { IsPassed result }
    ensures takes { IsGoing result → turns_of lines.new + 2 ≤ turns_of lines.old }
    ensures most { lines.new.most ≡ most_line_bytes }
    ensures text { (other : List ℕ) → S.text shelf.new other ≡ S.text shelf.old other }
    ensures counts { ReadsOnly (λ other. other ≡ name.now) (EndsWith ReplayEnd.ReadFault result)
        (S.text shelf.old) (S.faults shelf.old) (S.faults shelf.new) }
{
    match lines.next(shelf, name) {
        Got::Line => judge_line(alloc, judge, number, lines.line(), buffer),
        Got::Last | Got::Long => Turn::Ends(ReplayEnd::Wrong { line: number }),
        Got::End => Turn::Ends(at_end(&judge, number)),
        Got::Failed => Turn::Ends(ReplayEnd::ReadFault),
    }
}
