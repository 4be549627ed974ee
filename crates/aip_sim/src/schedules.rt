// The next line of a schedule.
ghost use Rattle.std.specs.Prelude.{◌≡◌, ℕ, ◌<◌, ◌≤◌, List, length, Err, IfSome};
ghost use Rattle.aip_text.specs.Lines.{lines_of, most_line_bytes};
ghost use Rattle.aip_io.specs.Causes.{ReadsOnly};
ghost use Rattle.aip_io.specs.Lines.{left_of};
ghost use Rattle.aip_rules.specs.Texts.{scheduled};
ghost use Rattle.aip_sim.specs.Schedules.{IsJudged, IsNextOf, IsScheduled};

use crate::ends::RunEnd;
use aip_event::{Input, read_input};
use aip_io::{Got, Lines, Shelf};
use aip_rules::StepFault;
use aip_text::{MOST_LINE_BYTES, MOST_LINES, has_carriage_return, is_skipped};
use std::alloc::Global;

/// What the next line of a schedule is.
#[derive(Drop)]
pub enum Scheduled {
    /// An input.
    Input(Input),
    /// A line that is skipped.
    Skipped,
    /// A line that is refused by itself, with its first fault.
    Refused(StepFault),
    /// There is none.
    End,
    /// It couldn't be read.
    Cut(RunEnd),
}

// A line of at most 20,000 bytes by itself: the first fault that applies, or an input, or a line that is skipped.
fn judge(alloc: Global, number: u32, line: &[u8]) -> Scheduled
    requires { length line.now ≤ most_line_bytes }
    ensures judged { IsJudged number line.now result }
    ensures known { IsScheduled number line.now result }
{
    if number > MOST_LINES {
        return Scheduled::Refused(StepFault::Many);
    }
    if has_carriage_return(line) {
        return Scheduled::Refused(StepFault::Form);
    }
    if is_skipped(line) {
        return Scheduled::Skipped;
    }
    match read_input(alloc, line) {
        Ok(Some(input)) => Scheduled::Input(input),
        Ok(None) => Scheduled::Refused(StepFault::Form),
        Err(_) => Scheduled::Cut(RunEnd::Memory),
    }
}

// The first fault of a line that is too long.
fn fault_of_long(number: u32) -> StepFault
    ensures { (line : List ℕ) → most_line_bytes < length line → scheduled number line ≡ Err result }
{
    if number > MOST_LINES {
        StepFault::Many
    } else {
        StepFault::Long
    }
}

/// What the next line of the schedule is, where it has this number.
pub fn next_scheduled<S: Shelf>(
    alloc: Global,
    shelf: &mut S,
    name: &str,
    lines: &mut Lines,
    number: u32,
) -> Scheduled
    requires { lines.old.most ≡ most_line_bytes }
    ensures told { IfSome (S.text shelf.old name.now) (λ told.
        IsNextOf number (lines_of (left_of told lines.old)) (lines_of (left_of told lines.new)) lines.new.line result) }
    ensures known { IsScheduled number lines.new.line result }
    ensures most { lines.new.most ≡ most_line_bytes }
    ensures text { (other : List ℕ) → S.text shelf.new other ≡ S.text shelf.old other }
    ensures counts { ReadsOnly (λ other. other ≡ name.now) (result ≡ Scheduled.Cut RunEnd.ReadFault)
        (S.text shelf.old) (S.faults shelf.old) (S.faults shelf.new) }
{
    match lines.next(shelf, name) {
        Got::Line | Got::Last => judge(alloc, number, lines.line()),
        Got::Long => Scheduled::Refused(fault_of_long(number)),
        Got::End => Scheduled::End,
        Got::Failed => Scheduled::Cut(RunEnd::ReadFault),
    }
}
