// The next line of a record file.
ghost use Rattle.std.specs.Prelude.{◌≡◌, ◌≢◌, ◌≤◌, ◌<◌, ℕ, List, length, Err, IfSome, IsSome};
ghost use Rattle.fault_counts.specs.Causes.{Rose};
ghost use Rattle.aip_text.specs.Lines.{lines_of, most_line_bytes};
ghost use Rattle.aip_io.specs.Lines.{left_of};
ghost use Rattle.aip_records.specs.Files.{written};
ghost use Rattle.aip_records.specs.Next.{IsNextOf, IsWithin, IsWritten};

use crate::faults::RecordFault;
use aip_addr::Bytes;
use aip_io::{Got, Lines, Shelf};
use aip_text::{MOST_LINE_BYTES, MOST_LINES, has_carriage_return, is_skipped, read_hex};
use std::alloc::Global;

/// What the next line of a record file is.
#[derive(Drop)]
pub enum Written {
    /// The bytes that it writes.
    Bytes(Bytes),
    /// A line that is skipped.
    Skipped,
    /// A line that is refused by itself, with its first fault.
    Refused(RecordFault),
    /// There is none.
    End,
    /// It couldn't be read.
    Unread,
    /// There was no memory for it.
    Memory,
}

// A line of at most 20,000 bytes by itself: the first fault that applies, or the bytes that it writes, or a line that is
// skipped.
fn judge(alloc: Global, number: u32, line: &[u8]) -> Written
    requires { length line.now ≤ most_line_bytes }
    ensures judged { IsWritten number line.now result }
    ensures within { IsWithin number result }
    ensures read { result ≢ Written.Unread }
{
    if number > MOST_LINES {
        return Written::Refused(RecordFault::Many);
    }
    if has_carriage_return(line) {
        return Written::Refused(RecordFault::Form);
    }
    if is_skipped(line) {
        return Written::Skipped;
    }
    match read_hex(alloc, line) {
        Ok(Some(bytes)) => Written::Bytes(bytes),
        Ok(None) => Written::Refused(RecordFault::Form),
        Err(_) => Written::Memory,
    }
}

// The first fault of a line that is too long.
fn fault_of_long(number: u32) -> RecordFault
    ensures { (line : List ℕ) → most_line_bytes < length line → written number line ≡ Err result }
{
    if number > MOST_LINES {
        RecordFault::Many
    } else {
        RecordFault::Long
    }
}

/// What the next line of the record file is, where it has this number.
pub fn next_written<S: Shelf>(
    alloc: Global,
    shelf: &mut S,
    name: &str,
    lines: &mut Lines,
    number: u32,
) -> Written
    requires { lines.old.most ≡ most_line_bytes }
    ensures told { IfSome (S.text shelf.old name.now) (λ told.
        IsNextOf number (lines_of (left_of told lines.old)) (lines_of (left_of told lines.new)) lines.new.line result) }
    ensures within { IsWithin number result }
    ensures most { lines.new.most ≡ most_line_bytes }
    ensures text { (other : List ℕ) → S.text shelf.new other ≡ S.text shelf.old other }
    ensures failed { result ≡ Written.Unread → Rose (S.faults shelf.old name.now) (S.faults shelf.new name.now) }
    ensures fine { result ≢ Written.Unread → (other : List ℕ) → S.faults shelf.new other ≡ S.faults shelf.old other }
    ensures never_falls { (other : List ℕ) → S.faults shelf.old other ≤ S.faults shelf.new other }
    ensures others { (other : List ℕ) → other ≢ name.now → IsSome (S.text shelf.old other)
        → S.faults shelf.new other ≡ S.faults shelf.old other }
{
    match lines.next(shelf, name) {
        Got::Line | Got::Last => judge(alloc, number, lines.line()),
        Got::Long => Written::Refused(fault_of_long(number)),
        Got::End => Written::End,
        Got::Failed => Written::Unread,
    }
}
