// The bytes of a disk in memory.
ghost use Rattle.std.specs.Prelude.{◌≡◌, ◌+◌, ◌-◌, ◌<◌, ◌≤◌, ◌++◌, ◌||◌, ℕ, List, false, min, length, take, drop, replicate, nat_le, slice_index, vec_capacity, if◌then◌else◌};
ghost use Rattle.std.specs.List.{list_any};
ghost use Rattle.lease_disk.specs.Images.{overwritten};
ghost use Rattle.lease_disk.specs.Marks.{covers};
ghost use Rattle.lease_disk.specs.Stop.{is_met};

use crate::mem_disk::Mark;
use crate::stop::Stop;

/// Copies from the byte `at` on, and says how many bytes that were.
pub fn copy_out(content: &[u8], at: usize, into: &mut [u8]) -> usize
    ensures count { result ≡ min (length into.old) (length content.now - at) }
    ensures bytes { into.new ≡ take result (drop at content.now) ++ drop result into.old }
{
    if at >= content.len() {
        return 0;
    }
    let rest = &content[at..];
    let count = into.len().min(rest.len());
    let (front, _) = into.split_at_mut(count);
    front.copy_from_slice(&rest[..count]);
    count
}

/// A write that is done, or one that fails.
pub fn write_over(content: &mut Vec<u8>, at: usize, bytes: &[u8], done: bool)
    requires { at + length bytes.now ≤ vec_capacity content.old }
    ensures items { content.new.items ≡ (if done then overwritten content.old.items at bytes.now else content.old.items) }
    ensures capacity { vec_capacity content.old ≤ vec_capacity content.new }
{
    if done {
        lay_over(content, at, bytes);
    }
}

// Writes over what is there and past the end, within the place that the vector has.
fn lay_over(content: &mut Vec<u8>, at: usize, bytes: &[u8])
    requires { at + length bytes.now ≤ vec_capacity content.old }
    ensures items { content.new.items ≡ overwritten content.old.items at bytes.now }
    ensures capacity { vec_capacity content.old ≤ vec_capacity content.new }
{
    pad(content, at + bytes.len());
    copy_over(content, at, bytes);
}

// Fills the content up to the end with 0, where it is shorter.
fn pad(content: &mut Vec<u8>, end: usize)
    requires { end ≤ vec_capacity content.old }
    ensures items { content.new.items ≡ content.old.items ++ replicate (end - length content.old.items) 0 }
    ensures capacity { vec_capacity content.old ≤ vec_capacity content.new }
{
    if content.len() < end {
        content.resize(end, 0).unwrap();
    }
}

fn copy_over(content: &mut [u8], at: usize, bytes: &[u8])
    requires { at + length bytes.now ≤ length content.old }
    ensures { content.new ≡ take at content.old ++ (bytes.now ++ drop (at + length bytes.now) content.old) }
{
    let (_, rest) = content.split_at_mut(at);
    let (range, _) = rest.split_at_mut(bytes.len());
    range.copy_from_slice(bytes);
}

/// Appends within the place that the vector has.
pub fn append(written: &mut Vec<u8>, bytes: &[u8])
    requires { length written.old.items + length bytes.now ≤ vec_capacity written.old }
    ensures items { written.new.items ≡ written.old.items ++ bytes.now }
    ensures capacity { vec_capacity written.old ≤ vec_capacity written.new }
{
    written.extend_from_slice(bytes).unwrap();
}

// Whether the mark is of a write over the byte `k`.
fn is_over(mark: &Mark, k: usize) -> bool
    ensures { result ≡ covers k mark.now }
{
    match *mark {
        Mark::Write { at, count, done: _ } => at <= k as u64 && k as u64 - at < count as u64,
        Mark::Sync => false,
    }
}

// Whether some mark is of a write over the byte `k`.
fn is_covered(marks: &[Mark], k: usize) -> bool
    ensures { result ≡ list_any (covers k) marks.now }
{
    marks.iter().any(|mark| is_over(mark, k))
}

// Whether the byte `k` waits for a sync: it lies past what is firm, or one of these marks is of a write over it.
fn is_waiting(marks: &[Mark], firm: usize, k: usize) -> bool
    ensures { result ≡ (list_any (covers k) marks.now || nat_le firm k) }
{
    is_covered(marks, k) || firm <= k
}

// The byte `k` after a stop and a restart.
fn byte_left(byte: u8, marks: &[Mark], firm: usize, k: usize, fill: u8) -> u8
    ensures { result ≡ (if list_any (covers k) marks.now || nat_le firm k then fill else byte) }
{
    if is_waiting(marks, firm, k) {
        fill
    } else {
        byte
    }
}

// Writes the byte wherever one waits for a sync: past the firm length, and where a write is marked.
fn fill_waiting(content: &mut [u8], marks: &[Mark], firm: usize, fill: u8)
    ensures bytes { (k : ℕ) → k < length content.old → slice_index content.new k
        ≡ (if list_any (covers k) marks.now || nat_le firm k then fill else slice_index content.old k) }
{
    for k in 0..content.len() {
        content[k] = byte_left(content[k], marks, firm, k, fill);
    }
}

/// Leaves the bytes of a restart: once the disk has stopped its byte wherever one waits for a sync, and else what was
/// read.
pub fn leave(content: &mut [u8], marks: &[Mark], firm: usize, stop: Stop)
    ensures met { (fill : ℕ) → stop ≡ Stop.Met fill → (k : ℕ) → k < length content.old → slice_index content.new k
        ≡ (if list_any (covers k) marks.now || nat_le firm k then fill else slice_index content.old k) }
    ensures unmet { is_met stop ≡ false → content.new ≡ content.old }
{
    if let Stop::Met { fill } = stop {
        fill_waiting(content, marks, firm, fill);
    }
}
