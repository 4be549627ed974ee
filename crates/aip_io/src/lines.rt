// The lines of a text that is read piece by piece.
ghost use Rattle.std.specs.Prelude.{◌≡◌, ◌≢◌, ◌⊎◌, ◌↔◌, ◌<◌, ◌≤◌, ◌+◌, ◌-◌, ◌^◌, ◌++◌, ℕ, List, [], length, take, drop, slice_range, vec_len, true, false, ◌&&◌, IsTrue, IsSome, IfSome, IfNone, IfOk, OnOk, OnErr, MatchOption};
ghost use Rattle.fault_counts.specs.Causes.{Rose};
ghost use Rattle.aip_text.specs.Lines.{has_no_line_feed};
ghost use Rattle.aip_io.specs.Lines.{Gives, has_line, left_of, new_lines, turns_of};
ghost use Rattle.aip_io.specs.Feeds.{IsFeed};
ghost use Rattle.aip_io.specs.Shelf.{IsRead};

use crate::{Failed, Got, Shelf};
use memchr::memchr;
use std::alloc::{AllocError, Global};
use std::marker::Model;

// The room that is left for a read behind a line of full length, in bytes.
const ROOM: usize = 4097;

/// The lines of a text under a name, one after another. It keeps what it has read and not given, and
/// takes all of its memory when it is made.
#[derive(Debug, Drop)]
pub struct Lines {
    buffer: Vec<u8>,
    start: usize,
    end: usize,
    at: u64,
    line_start: usize,
    line_end: usize,
    more: bool,
    most: usize,
}

impl Model for Lines {
    ghost use Rattle.std.specs.Prelude.{◌≡◌, ◌≤◌, ◌+◌, slice_range, vec_len};
    ghost use Rattle.aip_io.specs.Lines.{LinesState};

    ghost Value = { LinesState };

    ghost view = { λ lines. record {
      kept = slice_range lines.buffer.items lines.start lines.end;
      at = lines.at;
      line = slice_range lines.buffer.items lines.line_start lines.line_end;
      more = lines.more;
      most = lines.most;
    } };

    ghost invariant = { λ lines. (vec_len lines.buffer ≡ lines.most + 4097)
        × (lines.most ≤ 1048576)
        × (lines.start ≤ lines.end)
        × (lines.end ≤ lines.most + 4097)
        × (lines.line_start ≤ lines.line_end)
        × (lines.line_end ≤ lines.most + 4097) };
}

// The place of the first line feed, where none stands among the first bytes.
fn first_line_feed(bytes: &[u8], searched: usize) -> Option<usize>
    requires within { searched ≤ length bytes.now }
    requires none { has_no_line_feed (take searched bytes.now) ≡ true }
    ensures { MatchOption result (has_no_line_feed bytes.now ≡ true) (IsFeed bytes.now) }
{
    match memchr(b'\n', &bytes[searched..]) {
        Some(behind) => Some(searched + behind),
        None => None,
    }
}

// Moves a range to the front where the room behind it is small. Says where it begins then.
fn make_room(buffer: &mut Vec<u8>, start: usize, end: usize) -> usize
    requires order { start ≤ end }
    requires within { end ≤ vec_len buffer.old }
    ensures range { slice_range buffer.new.items result (result + (end - start)) ≡ slice_range buffer.old.items start end }
    ensures room { (end - start) + ROOM ≤ vec_len buffer.old → result + (end - start) + ROOM ≤ vec_len buffer.old }
    ensures length { vec_len buffer.new ≡ vec_len buffer.old }
{
    if buffer.len() - end >= ROOM {
        return start;
    }
    buffer.copy_within(start..end, 0);
    0
}

// Reads a text from an offset on, into a buffer behind its first bytes.
fn read_behind<S: Shelf>(
    shelf: &mut S,
    name: &str,
    at: u64,
    buffer: &mut Vec<u8>,
    end: usize,
) -> Result<usize, Failed>
    requires { end < vec_len buffer.old }
    ensures within { IfOk result (λ n. end + n ≤ vec_len buffer.old) }
    ensures length { vec_len buffer.new ≡ vec_len buffer.old }
    ensures front { take end buffer.new.items ≡ take end buffer.old.items }
    ensures bytes { IfOk result (λ n. IfSome (S.text shelf.old name.now) (λ told. IsRead told at n (drop end buffer.new.items))) }
    ensures short { IfSome (S.text shelf.old name.now) (λ told. length told < 2 ^ 64) }
    ensures text { (other : List ℕ) → S.text shelf.new other ≡ S.text shelf.old other }
    ensures failed { OnErr result (Rose (S.faults shelf.old name.now) (S.faults shelf.new name.now)) }
    ensures fine { OnOk result ((other : List ℕ) → S.faults shelf.new other ≡ S.faults shelf.old other) }
    ensures never_falls { (other : List ℕ) → S.faults shelf.old other ≤ S.faults shelf.new other }
    ensures others { (other : List ℕ) → other ≢ name.now → IsSome (S.text shelf.old other)
        → S.faults shelf.new other ≡ S.faults shelf.old other }
{
    let (_, room) = buffer.split_at_mut(end);
    shelf.read(name, at, room)
}

impl Lines {
    /// A reader of lines that have at most `most` bytes. It reserves `most` + 4097 bytes, and keeps
    /// never more. The only error is want of memory.
    pub fn new(alloc: Global, most: usize) -> Result<Lines, AllocError>
        requires { most ≤ 1048576 }
        ensures new { IfOk result (λ lines. lines ≡ new_lines most) }
        ensures left { IfOk result (λ lines. (text : List ℕ) → left_of text lines ≡ text) }
    {
        let buffer = vec![in alloc; 0u8; most + ROOM]?;
        Ok(Lines {
            buffer,
            start: 0,
            end: 0,
            at: 0,
            line_start: 0,
            line_end: 0,
            more: true,
            most,
        })
    }

    /// The line that the last call gave, without its line feed. It is empty before the first call, and
    /// where the last call gave none.
    pub fn line(&self) -> &[u8]
        ensures { result.now ≡ self.now.line }
    {
        &self.buffer[self.line_start..self.line_end]
    }

    /// Whether every call gave a line.
    pub fn more(&self) -> bool
        ensures { result ≡ self.now.more }
    {
        self.more
    }

    /// The next line of the text under `name`, of which `line` then tells the bytes. A call reads only where
    /// what is kept holds no line feed and has at most `most` bytes. It takes no memory.
    ///
    /// Each call goes on with the text where the one before left it: give the same shelf and the same
    /// name to all of them. After `Long`, `End` or `Failed` there is nothing to go on with, and `more` is
    /// false from then on.
    pub fn next<S: Shelf>(&mut self, shelf: &mut S, name: &str) -> Got
        // What the text has left before the call is the line and what it has left after the call.
        ensures gives { IfSome (S.text shelf.old name.now) (λ told.
            Gives result self.old.most (left_of told self.old) self.new.line (left_of told self.new)) }
        ensures more { self.new.more ≡ (self.old.more && has_line result) }
        ensures most { self.new.most ≡ self.old.most }
        ensures falls { IsTrue (has_line result) → turns_of self.new < turns_of self.old }
        ensures takes { IsTrue (has_line result) → turns_of self.new + length self.new.line ≤ turns_of self.old }

        // The line, whether a text is told or not.
        ensures short { length self.new.line ≤ self.old.most }
        ensures within { length self.new.kept ≤ self.old.most + 4097 }
        ensures one_line { has_no_line_feed self.new.line ≡ true }
        ensures none { has_line result ≡ false → self.new.line ≡ [] }

        // It reads only where what is kept holds no line feed and has no more bytes than a line may have.
        ensures unread { (has_no_line_feed self.old.kept ≡ false) ⊎ (self.old.most < length self.old.kept)
            → shelf.new ≡ shelf.old }

        // It fails by a fault at this name alone.
        ensures text { (other : List ℕ) → S.text shelf.new other ≡ S.text shelf.old other }
        ensures failed { result ≡ Got.Failed → Rose (S.faults shelf.old name.now) (S.faults shelf.new name.now) }
        ensures fine { result ≢ Got.Failed → (other : List ℕ) → S.faults shelf.new other ≡ S.faults shelf.old other }
        ensures never_falls { (other : List ℕ) → S.faults shelf.old other ≤ S.faults shelf.new other }
        ensures others { (other : List ℕ) → other ≢ name.now → IsSome (S.text shelf.old other)
            → S.faults shelf.new other ≡ S.faults shelf.old other }
    {
        match self.find(shelf, name) {
            Ok(Some(at)) => self.answer_at(at),
            Ok(None) => self.answer_rest(),
            Err(_) => {
                self.stop();
                Got::Failed
            }
        }
    }

    // What it has read and not given.
    fn kept(&self) -> &[u8]
        ensures { result.now ≡ self.now.kept }
    {
        &self.buffer[self.start..self.end]
    }

    // Whether it keeps no more than a line may have.
    fn is_short(&self) -> bool
        ensures { IsTrue result ↔ (length self.now.kept ≤ self.now.most) }
    {
        self.end - self.start <= self.most
    }

    // Reads on behind what is kept, and says how many bytes came: 0 where the text ends. The line is lost.
    fn read_on<S: Shelf>(&mut self, shelf: &mut S, name: &str) -> Result<usize, Failed>
        requires { length self.old.kept ≤ self.old.most }
        ensures grown { IfOk result (λ n. length self.new.kept ≡ length self.old.kept + n) }
        ensures front { take (length self.old.kept) self.new.kept ≡ self.old.kept }
        ensures left { IfSome (S.text shelf.old name.now) (λ told. left_of told self.new ≡ left_of told self.old) }
        ensures ended { IfOk result (λ n. n ≡ 0 → IfSome (S.text shelf.old name.now) (λ told. drop self.new.at told ≡ [])) }
        ensures turns { turns_of self.new ≡ turns_of self.old }
        ensures most { self.new.most ≡ self.old.most }
        ensures more { self.new.more ≡ self.old.more }
        ensures text { (other : List ℕ) → S.text shelf.new other ≡ S.text shelf.old other }
        ensures failed { OnErr result (Rose (S.faults shelf.old name.now) (S.faults shelf.new name.now)) }
        ensures fine { OnOk result ((other : List ℕ) → S.faults shelf.new other ≡ S.faults shelf.old other) }
        ensures never_falls { (other : List ℕ) → S.faults shelf.old other ≤ S.faults shelf.new other }
        ensures others { (other : List ℕ) → other ≢ name.now → IsSome (S.text shelf.old other)
            → S.faults shelf.new other ≡ S.faults shelf.old other }
    {
        self.line_start = 0;
        self.line_end = 0;
        let kept = self.end - self.start;
        self.start = make_room(&mut self.buffer, self.start, self.end);
        self.end = self.start + kept;
        let count = read_behind(shelf, name, self.at, &mut self.buffer, self.end)?;
        // A text that is told has fewer than 2^64 bytes, and one that isn't ends there.
        let Some(at) = self.at.checked_add(count as u64) else {
            return Ok(0);
        };
        self.at = at;
        self.end += count;
        Ok(count)
    }

    // Reads on until what is kept has a line feed, or more bytes than a line may have, or all that the text
    // has left. Says where its first line feed stands.
    fn find<S: Shelf>(&mut self, shelf: &mut S, name: &str) -> Result<Option<usize>, Failed>
        ensures found { IfOk result (λ found. MatchOption found (has_no_line_feed self.new.kept ≡ true) (IsFeed self.new.kept)) }
        ensures left { IfSome (S.text shelf.old name.now) (λ told. left_of told self.new ≡ left_of told self.old) }
        ensures ended { IfOk result (λ found. IfNone found (length self.new.kept ≤ self.new.most
            → IfSome (S.text shelf.old name.now) (λ told. drop self.new.at told ≡ []))) }
        ensures unread { (has_no_line_feed self.old.kept ≡ false) ⊎ (self.old.most < length self.old.kept)
            → shelf.new ≡ shelf.old }
        ensures turns { turns_of self.new ≡ turns_of self.old }
        ensures most { self.new.most ≡ self.old.most }
        ensures more { self.new.more ≡ self.old.more }
        ensures text { (other : List ℕ) → S.text shelf.new other ≡ S.text shelf.old other }
        ensures failed { OnErr result (Rose (S.faults shelf.old name.now) (S.faults shelf.new name.now)) }
        ensures fine { OnOk result ((other : List ℕ) → S.faults shelf.new other ≡ S.faults shelf.old other) }
        ensures never_falls { (other : List ℕ) → S.faults shelf.old other ≤ S.faults shelf.new other }
        ensures others { (other : List ℕ) → other ≢ name.now → IsSome (S.text shelf.old other)
            → S.faults shelf.new other ≡ S.faults shelf.old other }
    {
        let found = first_line_feed(self.kept(), 0);
        if found.is_some() || !self.is_short() {
            return Ok(found);
        }
        self.read_until(shelf, name)
    }

    // The same, where what is kept has no line feed and is no more than a line may have.
    fn read_until<S: Shelf>(&mut self, shelf: &mut S, name: &str) -> Result<Option<usize>, Failed>
        requires none { has_no_line_feed self.old.kept ≡ true }
        requires short { length self.old.kept ≤ self.old.most }
        ensures found { IfOk result (λ found. MatchOption found (has_no_line_feed self.new.kept ≡ true) (IsFeed self.new.kept)) }
        ensures left { IfSome (S.text shelf.old name.now) (λ told. left_of told self.new ≡ left_of told self.old) }
        ensures ended { IfOk result (λ found. IfNone found (length self.new.kept ≤ self.new.most
            → IfSome (S.text shelf.old name.now) (λ told. drop self.new.at told ≡ []))) }
        ensures turns { turns_of self.new ≡ turns_of self.old }
        ensures most { self.new.most ≡ self.old.most }
        ensures more { self.new.more ≡ self.old.more }
        ensures text { (other : List ℕ) → S.text shelf.new other ≡ S.text shelf.old other }
        ensures failed { OnErr result (Rose (S.faults shelf.old name.now) (S.faults shelf.new name.now)) }
        ensures fine { OnOk result ((other : List ℕ) → S.faults shelf.new other ≡ S.faults shelf.old other) }
        ensures never_falls { (other : List ℕ) → S.faults shelf.old other ≤ S.faults shelf.new other }
        ensures others { (other : List ℕ) → other ≢ name.now → IsSome (S.text shelf.old other)
            → S.faults shelf.new other ≡ S.faults shelf.old other }
    {
        let mut found = None;
        'reads: while found.is_none() && self.is_short() {
            let searched = self.kept().len();
            if self.read_on(shelf, name)? == 0 {
                return Ok(None);
            }
            found = first_line_feed(self.kept(), searched);
        }
        Ok(found)
    }

    // Gives the first bytes of what is kept as a line, and keeps what stands behind `taken`.
    fn give(&mut self, line: usize, taken: usize)
        requires line { line ≤ taken }
        requires taken { taken ≤ length self.old.kept }
        ensures { self.new ≡ record self.old { kept = drop taken self.old.kept; line = take line self.old.kept } }
    {
        self.line_start = self.start;
        self.line_end = self.start + line;
        self.start += taken;
    }

    // Gives no line.
    fn stop(&mut self)
        ensures within { length self.new.kept ≤ self.old.most + 4097 }
        ensures stops { self.new ≡ record self.old { line = []; more = false } }
    {
        self.line_start = 0;
        self.line_end = 0;
        self.more = false;
    }

    // The answer where the first line feed of what is kept stands here.
    fn answer_at(&mut self, at: usize) -> Got
        requires { IsFeed self.old.kept at }
        ensures gives { (rest : List ℕ) → Gives result self.old.most (self.old.kept ++ rest) self.new.line (self.new.kept ++ rest) }
        ensures served { result ≢ Got.Failed }
        ensures stays { self.new ≡ record self.old { kept = self.new.kept; line = self.new.line; more = self.old.more && has_line result } }
        ensures falls { IsTrue (has_line result) → length self.new.kept < length self.old.kept }
        ensures takes { IsTrue (has_line result) → length self.new.kept + length self.new.line ≤ length self.old.kept }
        ensures short { length self.new.line ≤ self.old.most }
        ensures within { length self.new.kept ≤ self.old.most + 4097 }
        ensures one_line { has_no_line_feed self.new.line ≡ true }
        ensures none { has_line result ≡ false → self.new.line ≡ [] }
    {
        if at > self.most {
            self.stop();
            return Got::Long;
        }
        self.give(at, at + 1);
        Got::Line
    }

    // The answer where what is kept has no line feed.
    fn answer_rest(&mut self) -> Got
        requires { has_no_line_feed self.old.kept ≡ true }
        ensures gives { (rest : List ℕ) → (length self.old.kept ≤ self.old.most → rest ≡ [])
            → Gives result self.old.most (self.old.kept ++ rest) self.new.line (self.new.kept ++ rest) }
        ensures served { result ≢ Got.Failed }
        ensures stays { self.new ≡ record self.old { kept = self.new.kept; line = self.new.line; more = self.old.more && has_line result } }
        ensures falls { IsTrue (has_line result) → length self.new.kept < length self.old.kept }
        ensures takes { IsTrue (has_line result) → length self.new.kept + length self.new.line ≤ length self.old.kept }
        ensures short { length self.new.line ≤ self.old.most }
        ensures within { length self.new.kept ≤ self.old.most + 4097 }
        ensures one_line { has_no_line_feed self.new.line ≡ true }
        ensures none { has_line result ≡ false → self.new.line ≡ [] }
    {
        let count = self.kept().len();
        if count > self.most {
            self.stop();
            return Got::Long;
        }
        if count == 0 {
            self.stop();
            return Got::End;
        }
        self.give(count, count);
        Got::Last
    }
}
