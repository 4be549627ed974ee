ghost use Rattle.std.specs.Prelude.{◌≡◌, ◌≤◌};

use crate::tests::{SCHEDULE, TRACE, disk, file, files, obey, one};
use aip_core::Core;
use aip_io::{MemShelf, MemSink};
use aip_rules::StepFault;
use aip_top::Status;
use std::alloc::{AllocError, Global};
use std::test::Fail;

// Packets that are repeated, reordered and lost.
const PACKETS: &[u8] =
    b"send a b 1 -\nsend a b 2 -\nsend a b 3 -\ndeliver 2\ndeliver 0\ndeliver 0\ndeliver 0\n";

// Their trace, as an independent implementation gives it.
const PACKETS_TRACE: &[u8] =
    b"> send a b 1 -\n< put 0 r/0 0100400000000001011111111111111111111111111111111111110001bbbbbbbbbbbbbbbbbbbbbbbbbbbbbbbbbbbb00011111111111111111111111111111111111110001aaaaaaaaaaaaaaaaaaaaaaaaaaaaaaaaaaaa000000\n> send a b 2 -\n< put 1 r/0 0100400000000002011111111111111111111111111111111111110001bbbbbbbbbbbbbbbbbbbbbbbbbbbbbbbbbbbb00011111111111111111111111111111111111110001aaaaaaaaaaaaaaaaaaaaaaaaaaaaaaaaaaaa000000\n> send a b 3 -\n< put 2 r/0 0100400000000003011111111111111111111111111111111111110001bbbbbbbbbbbbbbbbbbbbbbbbbbbbbbbbbbbb00011111111111111111111111111111111111110001aaaaaaaaaaaaaaaaaaaaaaaaaaaaaaaaaaaa000000\n> deliver 2\n< forward r 0 1 open\n< put 3 b 01003f0000000003011111111111111111111111111111111111110001bbbbbbbbbbbbbbbbbbbbbbbbbbbbbbbbbbbb00011111111111111111111111111111111111110001aaaaaaaaaaaaaaaaaaaaaaaaaaaaaaaaaaaa000000\n> deliver 0\n< forward r 0 1 open\n< put 4 b 01003f0000000001011111111111111111111111111111111111110001bbbbbbbbbbbbbbbbbbbbbbbbbbbbbbbbbbbb00011111111111111111111111111111111111110001aaaaaaaaaaaaaaaaaaaaaaaaaaaaaaaaaaaa000000\n> deliver 0\n< forward r 0 1 open\n< put 5 b 01003f0000000001011111111111111111111111111111111111110001bbbbbbbbbbbbbbbbbbbbbbbbbbbbbbbbbbbb00011111111111111111111111111111111111110001aaaaaaaaaaaaaaaaaaaaaaaaaaaaaaaaaaaa000000\n> deliver 0\n< forward r 0 1 open\n< put 6 b 01003f0000000001011111111111111111111111111111111111110001bbbbbbbbbbbbbbbbbbbbbbbbbbbbbbbbbbbb00011111111111111111111111111111111111110001aaaaaaaaaaaaaaaaaaaaaaaaaaaaaaaaaaaa000000\n";

// How many bytes a call gives or takes at most, and the number of the call that fails, if it isn't 0.
#[derive(Clone, Copy)]
struct Pieces {
    most: usize,
    failing: u64,
}

// Runs a schedule, read and written in pieces.
fn run_in(
    alloc: Global,
    schedule: &[u8],
    reads: Pieces,
    puts: Pieces,
) -> Result<(Status, Option<Core>, MemSink), AllocError>
    requires reads { 1 ≤ reads.most }
    requires puts { 1 ≤ puts.most }
{
    let mut shelf = MemShelf::new(
        alloc,
        files(alloc, schedule)?,
        one(alloc, reads.failing)?,
        reads.most,
    )?;
    let mut sink = MemSink::new(alloc, 4096, one(alloc, puts.failing)?, puts.most)?;
    let line = ["run", "topo.txt", "sched.txt"];
    let (status, _, core) = obey(alloc, &line, &mut shelf, &mut sink, disk(alloc, 0)?)?;
    Ok((status, core, sink))
}

fn in_pieces(most: usize, failing: u64) -> Pieces
    ensures { result.most ≡ most }
{
    Pieces { most, failing }
}

#[test]
fn bytes_come_and_go_one_by_one(rt: HostRuntime) -> Result<(), Fail> {
    let (status, _, sink) = run_in(rt.alloc(), PACKETS, in_pieces(1, 0), in_pieces(1, 0))?;
    assert_eq!(rt; status, Status::Done);
    assert_eq!(rt; sink.taken(), PACKETS_TRACE);
    Ok(())
}

// The topology takes five reads, and the schedule one. The next read of it would give its end.
#[test]
fn a_step_is_written_before_the_next_line_is_read(rt: HostRuntime) -> Result<(), Fail> {
    let (status, core, sink) = run_in(rt.alloc(), SCHEDULE, in_pieces(64, 7), in_pieces(4096, 0))?;
    assert_eq!(rt; status, Status::ReadFault);
    assert_eq!(rt; sink.taken(), TRACE);
    assert!(rt; core.is_none());
    Ok(())
}

#[test]
fn the_core_of_a_run_comes_back(rt: HostRuntime) -> Result<(), Fail> {
    let (_, core, _) = run_in(rt.alloc(), SCHEDULE, in_pieces(64, 0), in_pieces(4096, 0))?;
    let Some(core) = core else {
        return Err("a core".into());
    };
    assert_eq!(rt; core.flights(), 2);
    assert_eq!(rt; core.now(), 0);
    Ok(())
}

// The last line moves time alone, so the core of the line before would be seen.
#[test]
fn the_core_of_the_last_line_comes_back(rt: HostRuntime) -> Result<(), Fail> {
    let (status, core, _) = run_in(
        rt.alloc(),
        b"send a b 1 -\ntick 1\n",
        in_pieces(64, 0),
        in_pieces(4096, 0),
    )?;
    assert_eq!(rt; status, Status::Done);
    let Some(core) = core else {
        return Err("a core".into());
    };
    assert_eq!(rt; core.flights(), 1);
    assert_eq!(rt; core.now(), 1);
    Ok(())
}

#[test]
fn the_core_comes_back_from_a_refused_line(rt: HostRuntime) -> Result<(), Fail> {
    let (status, core, _) = run_in(
        rt.alloc(),
        b"tick 1\ndeliver 99\n",
        in_pieces(64, 0),
        in_pieces(4096, 0),
    )?;
    let line = 2;
    let fault = StepFault::NoFlight;
    assert_eq!(rt; status, Status::Schedule { line, fault });
    let Some(core) = core else {
        return Err("a core".into());
    };
    assert_eq!(rt; core.flights(), 0);
    assert_eq!(rt; core.now(), 1);
    Ok(())
}

#[test]
fn time_and_flights_stay_when_a_line_is_refused(rt: HostRuntime) -> Result<(), Fail> {
    let (status, core, _) = run_in(
        rt.alloc(),
        b"tick 5\nsend a b 1 -\ndeliver 1\n",
        in_pieces(64, 0),
        in_pieces(4096, 0),
    )?;
    let line = 3;
    let fault = StepFault::NoFlight;
    assert_eq!(rt; status, Status::Schedule { line, fault });
    let Some(core) = core else {
        return Err("a core".into());
    };
    assert_eq!(rt; core.flights(), 1);
    assert_eq!(rt; core.now(), 5);
    Ok(())
}

#[test]
fn no_core_comes_back_from_a_fault(rt: HostRuntime) -> Result<(), Fail> {
    let (status, core, _) = run_in(rt.alloc(), SCHEDULE, in_pieces(64, 0), in_pieces(5, 2))?;
    assert_eq!(rt; status, Status::WriteFault);
    assert!(rt; core.is_none());
    Ok(())
}

// A checking router with a host whose key it can ask for, and another host.
const CHECKED: &[u8] =
    b"domain d id 0111111111111111111111111111111111111100\nrouter r d checking 0000000000000000000000000000000000000000000000000000000000000000\nhost a r plain seed W4 H5 0 3131313131313131313131313131313131313131313131313131313131313131\nhost b r plain id 01bbbbbbbbbbbbbbbbbbbbbbbbbbbbbbbbbbbb00\n";

// A packet is asked about, and the answer taken. For 600 ticks a packet is forwarded, here at the last of them. At the next
// tick a packet is asked about anew, the answer taken, and another forwarded; and so again behind a restart.
const ASKED_AGAIN: &[u8] =
    b"send a b 1 00\ndeliver 0\ndeliver 1\ndeliver 2\ntick 599\nsend a b 2 00\ndeliver 3\ntick 1\nsend a b 3 00\ndeliver 5\ndeliver 6\ndeliver 7\nsend a b 4 00\ndeliver 8\nrestart r\nsend a b 5 00\ndeliver 10\ndeliver 11\n";

// How many lines of a trace begin with this.
fn lines_with(trace: &[u8], start: &[u8]) -> usize {
    trace
        .split(|byte| *byte == b'\n')
        .filter(|line| line.starts_with(start))
        .count()
}

#[test]
fn a_router_forgets_what_it_accepted_in_time_and_by_a_restart(rt: HostRuntime) -> Result<(), Fail> {
    let alloc = rt.alloc();
    let mut files = Vec::new(alloc);
    files.push(file(alloc, "topo.txt", CHECKED)?)?;
    files.push(file(alloc, "sched.txt", ASKED_AGAIN)?)?;
    let mut shelf = MemShelf::new(alloc, files, Vec::new(alloc), 64)?;
    let mut sink = MemSink::new(alloc, 65536, Vec::new(alloc), 4096)?;
    let line = ["run", "topo.txt", "sched.txt"];
    let (status, _, _) = obey(alloc, &line, &mut shelf, &mut sink, disk(alloc, 0)?)?;
    assert_eq!(rt; status, Status::Done);
    assert_eq!(rt; lines_with(sink.taken(), b"< ask r 0 0"), 3);
    assert_eq!(rt; lines_with(sink.taken(), b"< signed a "), 3);
    assert_eq!(rt; lines_with(sink.taken(), b"< proved r "), 2);
    assert_eq!(rt; lines_with(sink.taken(), b"< forward r 0 1 proved"), 2);
    Ok(())
}
