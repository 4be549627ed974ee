// A disk on a file of the system: the trusted edge. It tells no content and no image.
ghost use Rattle.std.specs.Prelude.{◌≡◌, ◌≤◌, ◌+◌, ◌^◌, ◌<◌, None, length, IsErr, IfOk, IsOk, ⊤};
ghost use Rattle.fault_counts.specs.Causes.{HasCause};
ghost use Rattle.lease_disk.specs.PastLaws.{none_told};

use crate::{Disk, Failed};
use fault_counts::one_more;
use std::fs::{File, Files, OpenOptions};
use std::io::{self, ErrorKind, Read, Seek, SeekFrom, Write};

/// A file of the system, by its path. An absent file has length 0, a sync of it does nothing, and a write creates it.
///
/// From its first call that needs the file on, the disk keeps it open, by one descriptor for all that is read, written
/// and synced, and holds the exclusive lock on it. Where another holder has the lock, the call fails. Once a call found
/// no file, the disk is empty until it writes, and a write fails where a file is there by then. The first sync also
/// syncs the folder, so that a crash leaves the file's name. After a sync that failed each call fails, since the system
/// may have dropped what it could not write.
///
/// The premise, since no contract can say what a real disk keeps: the file behaves as `Disk` says. In particular
/// - whoever else writes, cuts, renames or removes the file holds the lock meanwhile, and the path names one file;
/// - a read gives what was written last, also by an earlier process, and 0 where the file was made longer;
/// - where `fsync` of the file and of its folder succeeded, a crash leaves the length and the bytes that were read then;
/// - until then a crash, and a write that failed, may change bytes in the ranges that were written since, and no other,
///   and leaves a length between that of the last sync and the greatest since, where no file counts as 0;
/// - an error of writing back is told by the next `fsync` of the descriptor.
#[derive(Drop)]
pub struct FileDisk<'a, R: Files<File = File>> {
    rt: &'a R,
    path: String,
    held: Held,
    faults: u64,
}

// What the disk has of its file.
#[derive(Drop)]
enum Held {
    // No call has needed it.
    Unseen,
    // There was none.
    Absent,
    // It is open and locked, and perhaps its folder was synced.
    Open { file: File, is_named: bool },
    // A sync failed.
    Lost,
}

impl<'a, R: Files<File = File>> FileDisk<'a, R> {
    /// The disk on the file at that path, which is not touched.
    pub fn new(rt: &'a R, path: String) -> FileDisk<'a, R>
        ensures faults { ⟦<FileDisk<'a, R> as Disk>⟧.faults result ≡ 0 }
    {
        FileDisk {
            rt,
            path,
            held: Held::Unseen,
            faults: 0,
        }
    }

    // Counts a fault where the system refused.
    fn counted<T: Drop>(&mut self, outcome: io::Result<T>) -> Result<T, Failed>
        ensures value { IfOk result (λ value. outcome ≡ Ok value) }
        ensures served { IsOk outcome → IsOk result }
        ensures cause { HasCause (IsErr result) self.old.faults self.new.faults }
    {
        match outcome {
            Ok(value) => Ok(value),
            Err(_) => {
                self.faults = one_more(self.faults);
                Err(Failed)
            }
        }
    }
}

impl<'a, R: Files<File = File>> Disk for FileDisk<'a, R> {
    ghost now = { λ _. None };

    ghost may_leave = { λ _ _. ⊥ };

    ghost clock = { λ _. 0 };

    ghost during = { λ _ _ _. ⊥ };

    ghost faults = { λ disk. disk.faults };

    ghost led = { λ _ _ _ _. ⊤ };

    ghost counts_now = { λ disk t image le none. none };

    ghost only_now = { λ disk image none. none };

    ghost content_is_image = { λ disk image told. absurd (none_told told) };

    ghost untold = { λ disk t image none. absurd none };

    fn len(&mut self) -> Result<u64, Failed> {
        let outcome = file_len(self.rt, &self.path, &mut self.held);
        self.counted(outcome)
    }

    fn read(&mut self, at: u64, into: &mut [u8]) -> Result<usize, Failed> {
        let outcome = read_held(self.rt, &self.path, &mut self.held, at, into);
        self.counted(outcome)
    }

    fn write_at(&mut self, at: u64, bytes: &[u8]) -> Result<(), Failed> {
        let outcome = write_held(self.rt, &self.path, &mut self.held, at, bytes);
        self.counted(outcome)
    }

    fn sync(&mut self) -> Result<(), Failed> {
        let outcome = sync_held(self.rt, &self.path, &mut self.held);
        self.counted(outcome)
    }
}

// The file, opened by these options and locked.
fn locked<R: Files<File = File>>(rt: &R, path: &str, how: &OpenOptions) -> io::Result<Held> {
    let file = how.open(rt, path)?;
    file.try_lock()?;
    Ok(Held::Open {
        file,
        is_named: false,
    })
}

// Opens the file, where that was not tried before.
fn look<R: Files<File = File>>(rt: &R, path: &str, held: &mut Held) -> io::Result<()> {
    if let Held::Unseen = held {
        *held = match locked(rt, path, OpenOptions::new().read(true).write(true)) {
            Ok(open) => open,
            Err(error) if error.kind() == ErrorKind::NotFound => Held::Absent,
            Err(error) => return Err(error),
        };
    }
    Ok(())
}

// Makes the file, where there was none.
fn make<R: Files<File = File>>(rt: &R, path: &str, held: &mut Held) -> io::Result<()> {
    if let Held::Absent = held {
        *held = locked(
            rt,
            path,
            OpenOptions::new().read(true).write(true).create_new(true),
        )?;
    }
    Ok(())
}

fn file_len<R: Files<File = File>>(rt: &R, path: &str, held: &mut Held) -> io::Result<u64> {
    look(rt, path, held)?;
    match held {
        Held::Open { file, .. } => Ok(file.metadata()?.len()),
        Held::Lost => Err(io::Error::from(ErrorKind::Other)),
        _ => Ok(0),
    }
}

fn read_held<R: Files<File = File>>(
    rt: &R,
    path: &str,
    held: &mut Held,
    at: u64,
    into: &mut [u8],
) -> io::Result<usize>
    ensures within { IfOk result (λ n. n ≤ length into.old) }
{
    look(rt, path, held)?;
    match held {
        Held::Open { file, .. } => read_from(file, at, into),
        Held::Lost => Err(io::Error::from(ErrorKind::Other)),
        _ => Ok(0),
    }
}

fn read_from(file: &mut File, at: u64, into: &mut [u8]) -> io::Result<usize>
    ensures within { IfOk result (λ n. n ≤ length into.old) }
{
    file.seek(SeekFrom::Start(at))?;
    let mut count = 0;
    while count < into.len() {
        let more = file.read(&mut into[count..])?;
        if more == 0 {
            break;
        }
        count += more;
    }
    Ok(count)
}

fn write_held<R: Files<File = File>>(
    rt: &R,
    path: &str,
    held: &mut Held,
    at: u64,
    bytes: &[u8],
) -> io::Result<()> {
    look(rt, path, held)?;
    make(rt, path, held)?;
    match held {
        Held::Open { file, .. } => write_to(file, at, bytes),
        _ => Err(io::Error::from(ErrorKind::Other)),
    }
}

// A gap past the end is filled with 0, also by a write of no bytes.
fn write_to(file: &mut File, at: u64, bytes: &[u8]) -> io::Result<()> {
    if file.metadata()?.len() < at {
        file.set_len(at)?;
    }
    file.seek(SeekFrom::Start(at))?;
    file.write_all(bytes)
}

fn sync_held<R: Files<File = File>>(rt: &R, path: &str, held: &mut Held) -> io::Result<()> {
    look(rt, path, held)?;
    let outcome = match held {
        Held::Open { file, is_named } => sync_named(rt, path, file, is_named),
        Held::Lost => Err(io::Error::from(ErrorKind::Other)),
        _ => return Ok(()),
    };
    if outcome.is_err() {
        *held = Held::Lost;
    }
    outcome
}

// Syncs the file, and its folder where that was not done before.
fn sync_named<R: Files<File = File>>(
    rt: &R,
    path: &str,
    file: &mut File,
    is_named: &mut bool,
) -> io::Result<()> {
    file.sync_all()?;
    if !*is_named {
        OpenOptions::new()
            .read(true)
            .open(rt, folder_of(path))?
            .sync_all()?;
        *is_named = true;
    }
    Ok(())
}

fn folder_of(path: &str) -> &str {
    match path.rsplit_once('/') {
        None => ".",
        Some((folder, _)) if folder.is_empty() => "/",
        Some((folder, _)) => folder,
    }
}
