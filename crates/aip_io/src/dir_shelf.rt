// Texts in the files of the system.
ghost use Rattle.std.specs.Prelude.{◌≡◌, ◌↔◌, ◌<◌, ◌≤◌, length, take, IsTrue, IsNone, IfSome, IfOk};

use crate::{Failed, Shelf};
use fault_counts::one_more;
use std::io::{Read, Seek, SeekFrom};
use std::marker::Model;
use std::rt::Files;
use std::{fs, io};

// The longest name, in bytes, of a file that is kept open.
const NAME_ROOM: usize = 256;

// The name of a file that is kept open: the first bytes of an array.
#[derive(Clone, Copy)]
struct KeptName {
    bytes: [u8; NAME_ROOM],
    length: usize,
}

impl KeptName {
    fn new(name: &str) -> Option<KeptName>
        ensures long { IsNone result ↔ (NAME_ROOM < length name.now) }
        ensures name { IfSome result (λ kept. take kept.length kept.bytes ≡ name.now) }
    {
        let length = name.len();
        if length > NAME_ROOM {
            return None;
        }
        let mut bytes = [0; NAME_ROOM];
        let (front, _) = bytes.split_at_mut(length);
        front.copy_from_slice(name.as_bytes());
        Some(KeptName { bytes, length })
    }

    fn is(&self, name: &str) -> bool
        ensures { IsTrue result ↔ ((self.now.length ≤ NAME_ROOM) × (take self.now.length self.now.bytes ≡ name.now)) }
    {
        match self.bytes.get(..self.length) {
            Some(kept) => kept == name.as_bytes(),
            None => false,
        }
    }
}

// A file that is open for reading, and where its next read begins.
#[derive(Drop)]
struct Opened<F> {
    file: F,
    name: KeptName,
    position: u64,
}

// Reads from an offset on. It moves there first where the file stands elsewhere.
fn read_at<F: Read + Seek>(
    file: &mut F,
    position: u64,
    at: u64,
    into: &mut [u8],
) -> io::Result<usize>
    ensures { IfOk result (λ n. n ≤ length into.new) }
{
    if position != at {
        file.seek(SeekFrom::Start(at))?;
    }
    file.read(into)
}

// Reads from the file that is kept, or from one that is opened now and then kept. After an error none
// is kept.
fn read_kept<R: Files>(
    rt: &R,
    kept: &mut Option<Opened<R::File>>,
    name: &str,
    at: u64,
    into: &mut [u8],
) -> io::Result<usize>
    ensures { IfOk result (λ n. n ≤ length into.new) }
{
    let (mut file, position) = match kept.take() {
        Some(opened) if opened.name.is(name) => (opened.file, opened.position),
        _ => (fs::open(rt, name)?, 0),
    };
    let count = read_at(&mut file, position, at, into)?;
    if let Some(name) = KeptName::new(name) {
        let position = at.saturating_add(count as u64);
        *kept = Some(Opened {
            file,
            name,
            position,
        });
    }
    Ok(count)
}

/// The files of the system, by their paths. It keeps the file that it read last open, so that a text
/// that is read piece by piece is opened once. It tells no text. What files hold is trusted.
#[derive(Drop)]
pub struct DirShelf<'a, R: Files> {
    rt: &'a R,
    kept: Option<Opened<R::File>>,
    faults: u64,
}

impl<'a, R: Files> Model for DirShelf<'a, R> {
    ghost use Rattle.std.specs.Prelude.{ℕ};

    ghost Value = { ℕ };

    ghost view = { λ shelf. shelf.faults };
}

impl<'a, R: Files> DirShelf<'a, R> {
    /// A shelf that opens files by this runtime. It touches none yet, and has counted no fault.
    pub fn new(rt: &'a R) -> DirShelf<'a, R>
        ensures { result ≡ 0 }
    {
        DirShelf {
            rt,
            kept: None,
            faults: 0,
        }
    }
}

impl<'a, R: Files> Shelf for DirShelf<'a, R> {
    ghost use Rattle.std.specs.Prelude.{None};

    ghost text = { λ _ _. None };

    ghost faults = { λ shelf _. shelf };

    fn read(&mut self, name: &str, at: u64, into: &mut [u8]) -> Result<usize, Failed> {
        match read_kept(self.rt, &mut self.kept, name, at, into) {
            Ok(count) => Ok(count),
            Err(_) => {
                self.faults = one_more(self.faults);
                Err(Failed)
            }
        }
    }
}
