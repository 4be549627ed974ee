//! The program: it gives `aip` the words of its command line, the files of the folder that it runs in, standard output and
//! a lease file, and tells on standard error how the command ended, unless all was done.
#![tactic(auto)]

use aip_io::{DirShelf, StdSink};
use aip_top::{LeaseFault, Status, aip};
use lease_disk::FileDisk;
use std::alloc::AllocError;
use std::fs::{File, Files};
use std::process::ExitCode;
use std::rt::Env;
use std::{env, io};

// The words of the command line, without the program's own name.
fn words<R: Env + AllocGlobal>(rt: &R) -> io::Result<Vec<String>> {
    let mut words = Vec::new(rt.alloc());
    for word in env::args(rt)?.skip(1) {
        words.push(word)?;
    }
    Ok(words)
}

// The path of the lease file: it is named by the third word, or `none` where there is none.
fn lease_path<R: AllocGlobal>(rt: &R, words: &[String]) -> Result<String, AllocError> {
    match words.get(2) {
        Some(word) => format!(in rt.alloc(); "{word}.lease"),
        None => format!(in rt.alloc(); "none.lease"),
    }
}

// The words for why a lease or a record is refused.
fn word_of(fault: LeaseFault) -> &'static str {
    match fault {
        LeaseFault::Unknown => "unknown",
        LeaseFault::Keyless => "keyless",
        LeaseFault::Already { .. } => "already",
        LeaseFault::Unformatted { .. } => "unformatted",
        LeaseFault::OtherKey { .. } => "other key",
        LeaseFault::Dry { .. } => "dry",
    }
}

// Tells on standard error how the command ended. Nothing is told where all was done.
fn tell(rt: &impl Eprint, status: Status) -> io::Result<()> {
    match status {
        Status::Done => Ok(()),
        Status::Usage => eprintln!(rt; "aip: usage"),
        Status::ReadFault => eprintln!(rt; "aip: read fault"),
        Status::WriteFault => eprintln!(rt; "aip: write fault"),
        Status::Topology { line, fault } => {
            let number = fault.number();
            eprintln!(rt; "aip: topology line {line} fault {number}")
        }
        Status::Schedule { line, fault } => {
            let number = fault.number();
            eprintln!(rt; "aip: schedule line {line} fault {number}")
        }
        Status::Wrong { line } => eprintln!(rt; "aip: wrong line {line}"),
        Status::DiskFault => eprintln!(rt; "aip: disk fault"),
        Status::Lease(fault) => {
            let word = word_of(fault);
            eprintln!(rt; "aip: lease {word}")
        }
        Status::Record { line, fault } => {
            let number = fault.number();
            eprintln!(rt; "aip: record line {line} fault {number}")
        }
        Status::Memory => eprintln!(rt; "aip: out of memory"),
    }
}

// Obeys the words. The disk and the core that come back aren't needed any more.
fn obeyed<R: Env + AllocGlobal + Files<File = File> + Print>(
    rt: &R,
    words: &[String],
) -> Result<Status, AllocError> {
    let mut shelf = DirShelf::new(rt);
    let mut out = StdSink::new(rt);
    let disk = FileDisk::new(rt, lease_path(rt, words)?);
    let (status, _, _) = aip(rt.alloc(), words, &mut shelf, &mut out, disk);
    Ok(status)
}

fn main(rt: HostRuntime) -> ExitCode {
    let status = match words(&rt) {
        Ok(words) => obeyed(&rt, &words).unwrap_or(Status::Memory),
        Err(error) if error.kind() == io::ErrorKind::OutOfMemory => Status::Memory,
        // Words that are no text spell no command.
        Err(_) => Status::Usage,
    };
    let _ = tell(&rt, status);
    ExitCode::from(status.exit_code())
}
