// Texts in memory, with failures at chosen calls.
ghost use Rattle.std.specs.Prelude.{◌≡◌, ◌≢◌, ◌↔◌, ◌⊎◌, ◌<◌, ◌≤◌, ◌+◌, ◌-◌, ◌^◌, ℕ, List, length, slice_get, slice_index, option_map, IsTrue, IsNone, IsSome, IfSome, IfOk, IsErr, OnOk, OnErr, Contains};
ghost use Rattle.fault_counts.specs.Causes.{counted, Rose};
ghost use Rattle.aip_io.specs.Memory.{text_under, place_of, faults_under, new_shelf, given};
ghost use Rattle.aip_io.specs.Shelf.{IsRead};

use crate::{Failed, Shelf};
use fault_counts::one_more;
use std::alloc::{AllocError, Global};
use std::marker::Model;

/// A file in memory.
#[derive(Debug, Drop)]
pub struct File {
    /// Its name.
    pub name: String,
    /// All of its bytes.
    pub bytes: Vec<u8>,
}

impl Model for File {
    ghost use Rattle.std.specs.Prelude.{string_bytes};
    ghost use Rattle.aip_io.specs.Memory.{NamedText};

    ghost Value = { NamedText };

    ghost view = { λ file. record { name = string_bytes file.name; bytes = file.bytes.items } };
}

/// A shelf in memory. It tells the text of each of its files. It fails at the calls that it is told to,
/// and at names that it does not have, and nowhere else.
#[derive(Debug, Drop)]
pub struct MemShelf {
    files: Vec<File>,
    failing: Vec<u64>,
    most: usize,
    calls: u64,
    counts: Vec<u64>,
}

impl Model for MemShelf {
    ghost use Rattle.std.specs.Prelude.{◌≡◌, ◌≤◌, ◌+◌, length};
    ghost use Rattle.aip_io.specs.Memory.{ShelfState};

    ghost Value = { ShelfState };

    ghost view = { λ shelf. record {
      files = shelf.files.items;
      failing = shelf.failing.items;
      most = shelf.most;
      calls = shelf.calls;
      counts = shelf.counts.items;
    } };

    ghost invariant = { λ shelf. (1 ≤ shelf.most) × (length shelf.counts.items ≡ length shelf.files.items + 1) };
}

impl MemShelf {
    /// A shelf with these files, which gives at most `most` bytes at a call. Its calls are numbered
    /// from 1, and those whose numbers are in `failing` fail. Of two files of one name the first counts.
    pub fn new(
        alloc: Global,
        files: Vec<File>,
        failing: Vec<u64>,
        most: usize,
    ) -> Result<MemShelf, AllocError>
        requires { 1 ≤ most }
        ensures new { IfOk result (λ shelf. shelf ≡ new_shelf files.items failing.items most) }
        ensures faults { IfOk result (λ shelf. (name : List ℕ) → faults_under shelf name ≡ 0) }
    {
        let counts = vec![in alloc; 0u64; files.len() + 1]?;
        Ok(MemShelf {
            files,
            failing,
            most,
            calls: 0,
            counts,
        })
    }
}

// Where the first file of a name stands, or how many files there are.
fn place_of(files: &[File], name: &str) -> usize
    ensures place { result ≡ place_of files.now name.now }
    ensures within { result ≤ length files.now }
    ensures text { text_under files.now name.now ≡ option_map (λ file. file.bytes) (slice_get files.now result) }
    ensures absent { (result ≡ length files.now) ↔ IsNone (text_under files.now name.now) }
    ensures short { IfSome (text_under files.now name.now) (λ told. length told < 2 ^ 64) }
    ensures others { (other : List ℕ) → other ≢ name.now → IsSome (text_under files.now other)
        → place_of files.now other ≢ result }
{
    for (i, file) in files.iter().enumerate() {
        let file: &File = file;
        if file.name.as_str() == name {
            let _length = file.bytes.len();
            return i;
        }
    }
    files.len()
}

// Copies what stands from an offset on, as much as the buffer and `most` allow.
fn copy_from(bytes: &[u8], at: u64, most: usize, into: &mut [u8]) -> usize
    requires buffer { 0 < length into.old }
    requires some { 1 ≤ most }
    ensures count { result ≡ given (length into.old) most (length bytes.now - at) }
    ensures read { IsRead bytes.now at result into.new }
{
    let length = bytes.len();
    if at >= length as u64 {
        return 0;
    }
    let rest = &bytes[at as usize..];
    let count = into.len().min(most).min(rest.len());
    let (front, _) = into.split_at_mut(count);
    front.copy_from_slice(&rest[..count]);
    count
}

// Copies from the file at a place.
fn copy_from_file(files: &[File], place: usize, at: u64, most: usize, into: &mut [u8]) -> usize
    requires there { place < length files.now }
    requires buffer { 0 < length into.old }
    requires some { 1 ≤ most }
    ensures within { result ≤ length into.old }
    ensures count { IfSome (slice_get files.now place) (λ file. result ≡ given (length into.old) most (length file.bytes - at)) }
    ensures read { IfSome (slice_get files.now place) (λ file. IsRead file.bytes at result into.new) }
{
    let file = &files[place];
    copy_from(&file.bytes, at, most, into)
}

// Whether a call fails: by its number, or at a name that is absent.
fn is_failing(failing: &[u64], call: u64, place: usize, files: usize) -> bool
    ensures { IsTrue result ↔ (Contains failing.now call ⊎ (place ≡ files)) }
{
    place == files || failing.contains(&call)
}

// One fault more at a place.
fn count_fault(counts: &mut [u64], place: usize)
    requires { place < length counts.old }
    ensures there { slice_index counts.new place ≡ counted (slice_index counts.old place) }
    ensures others { (k : ℕ) → k ≢ place → slice_index counts.new k ≡ slice_index counts.old k }
    ensures never_falls { (k : ℕ) → slice_index counts.old k ≤ slice_index counts.new k }
{
    let count = counts[place];
    counts[place] = one_more(count);
}

impl Shelf for MemShelf {
    ghost text = { λ shelf. text_under shelf.files };

    ghost faults = { faults_under };

    fn read(&mut self, name: &str, at: u64, into: &mut [u8]) -> Result<usize, Failed>
        requires { 0 < length into.old }

        ensures within { IfOk result (λ n. n ≤ length into.new) }
        ensures bytes { IfOk result (λ n. IfSome (text_under self.old.files name.now) (λ told. IsRead told at n into.new)) }
        ensures short { IfSome (text_under self.old.files name.now) (λ told. length told < 2 ^ 64) }
        ensures text { (other : List ℕ) → text_under self.new.files other ≡ text_under self.old.files other }
        ensures failed { OnErr result (Rose (faults_under self.old name.now) (faults_under self.new name.now)) }
        ensures fine { OnOk result ((other : List ℕ) → faults_under self.new other ≡ faults_under self.old other) }
        ensures never_falls { (other : List ℕ) → faults_under self.old other ≤ faults_under self.new other }
        ensures others { (other : List ℕ) → other ≢ name.now → IsSome (text_under self.old.files other)
            → faults_under self.new other ≡ faults_under self.old other }

        // Just when it fails, how much it gives, and what changes.
        ensures fails { IsErr result ↔ (Contains self.old.failing (counted self.old.calls)
            ⊎ IsNone (text_under self.old.files name.now)) }
        ensures count { IfOk result (λ n. IfSome (text_under self.old.files name.now) (λ told.
            n ≡ given (length into.old) self.old.most (length told - at))) }
        ensures changes { self.new ≡ record self.old { calls = counted self.old.calls; counts = self.new.counts } }
        ensures counts { OnErr result (faults_under self.new name.now ≡ counted (faults_under self.old name.now)) }
    {
        self.calls = one_more(self.calls);
        let place = place_of(&self.files, name);
        if is_failing(&self.failing, self.calls, place, self.files.len()) {
            count_fault(&mut self.counts, place);
            return Err(Failed);
        }
        Ok(copy_from_file(&self.files, place, at, self.most, into))
    }
}
