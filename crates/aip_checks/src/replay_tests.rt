//! Traces that are replayed, and others, over a shelf of which each read fails in turn.
use crate::tests::{TOPOLOGY, TRACE, file, one};
use aip_io::MemShelf;
use aip_replay::{ReplayEnd, replay};
use aip_topo::TopoFault;
use std::alloc::{AllocError, Global};
use std::test::Fail;

// The trace of one packet with another packet got, without its last line, and without its last line feed.
const OTHER: &[u8] =
    b"> send a b 7 6869\n< put 0 r/0 0100400000000007011111111111111111111111111111111111110001bbbbbbbbbbbbbbbbbbbbbbbbbbbbbbbbbbbb00011111111111111111111111111111111111110001aaaaaaaaaaaaaaaaaaaaaaaaaaaaaaaaaaaa0000026869\n> deliver 0\n< forward r 0 1 open\n< put 1 b 01003f0000000007011111111111111111111111111111111111110001bbbbbbbbbbbbbbbbbbbbbbbbbbbbbbbbbbbb00011111111111111111111111111111111111110001aaaaaaaaaaaaaaaaaaaaaaaaaaaaaaaaaaaa0000026869\n> deliver 1\n< got b 8\n";

const EARLY: &[u8] =
    b"> send a b 7 6869\n< put 0 r/0 0100400000000007011111111111111111111111111111111111110001bbbbbbbbbbbbbbbbbbbbbbbbbbbbbbbbbbbb00011111111111111111111111111111111111110001aaaaaaaaaaaaaaaaaaaaaaaaaaaaaaaaaaaa0000026869\n> deliver 0\n< forward r 0 1 open\n< put 1 b 01003f0000000007011111111111111111111111111111111111110001bbbbbbbbbbbbbbbbbbbbbbbbbbbbbbbbbbbb00011111111111111111111111111111111111110001aaaaaaaaaaaaaaaaaaaaaaaaaaaaaaaaaaaa0000026869\n> deliver 1\n";

const UNENDED: &[u8] =
    b"> send a b 7 6869\n< put 0 r/0 0100400000000007011111111111111111111111111111111111110001bbbbbbbbbbbbbbbbbbbbbbbbbbbbbbbbbbbb00011111111111111111111111111111111111110001aaaaaaaaaaaaaaaaaaaaaaaaaaaaaaaaaaaa0000026869\n> deliver 0\n< forward r 0 1 open\n< put 1 b 01003f0000000007011111111111111111111111111111111111110001bbbbbbbbbbbbbbbbbbbbbbbbbbbbbbbbbbbb00011111111111111111111111111111111111110001aaaaaaaaaaaaaaaaaaaaaaaaaaaaaaaaaaaa0000026869\n> deliver 1\n< got b 7";

// The answer for a topology and a trace, where the read of this number fails, if it isn't 0.
fn answer(
    alloc: Global,
    topology: &[u8],
    trace: &[u8],
    read: u64,
) -> Result<ReplayEnd, AllocError> {
    let mut files = Vec::new(alloc);
    files.push(file(alloc, "topo.txt", topology)?)?;
    files.push(file(alloc, "trace.txt", trace)?)?;
    let mut shelf = MemShelf::new(alloc, files, one(alloc, read)?, 64)?;
    Ok(replay(alloc, &mut shelf, "topo.txt", "trace.txt"))
}

#[test]
fn each_trace_has_its_answer(rt: HostRuntime) -> Result<(), Fail> {
    let alloc = rt.alloc();
    let wrong = |line: u64| ReplayEnd::Wrong { line };
    for (trace, end) in [
        (TRACE, ReplayEnd::Holds),
        (b"".as_slice(), ReplayEnd::Holds),
        (b"> tick 1\n> tick 2\n".as_slice(), ReplayEnd::Holds),
        (OTHER, wrong(7)),
        (EARLY, wrong(7)),
        (UNENDED, wrong(7)),
        (b"> send a b 7 6869\n".as_slice(), wrong(2)),
        (b"> send a b 7 6869\n> tick 1\n".as_slice(), wrong(2)),
        (b"> tick 1\n> tick 0\n".as_slice(), wrong(2)),
        (b"> tick 1\n! 2 4\n".as_slice(), wrong(2)),
        (b"> tick 1\n\n".as_slice(), wrong(2)),
        (b"> tick 1\n< got b 7\n".as_slice(), wrong(2)),
        (b"> tick 1\n> tick 2".as_slice(), wrong(2)),
        (b"tick 1\n".as_slice(), wrong(1)),
        (b"> tock 1\n".as_slice(), wrong(1)),
        (b"\x00\xff\n\x0d".as_slice(), wrong(1)),
    ] {
        assert_eq!(rt; answer(alloc, TOPOLOGY, trace, 0)?, end);
    }
    Ok(())
}

#[test]
fn a_long_line_is_wrong(rt: HostRuntime) -> Result<(), Fail> {
    let alloc = rt.alloc();
    let line = vec![in alloc; b'a'; 20_001]?;
    assert_eq!(rt;
        answer(alloc, TOPOLOGY, &line, 0)?,
        ReplayEnd::Wrong { line: 1 }
    );
    Ok(())
}

#[test]
fn each_read_fails_in_turn(rt: HostRuntime) -> Result<(), Fail> {
    let mut faults = 0u64;
    for read in 1..40u64 {
        let end = answer(rt.alloc(), TOPOLOGY, b"> tick 1\n", read)?;
        if end == ReplayEnd::Holds {
            faults = read - 1;
            break;
        }
        assert_eq!(rt; end, ReplayEnd::ReadFault);
    }
    // Four pieces of 64 bytes and its end for the topology, one and its end for the trace.
    assert_eq!(rt; faults, 7);
    Ok(())
}

// A first line that is wrong, and more than a piece of lines behind it.
const WRONG_AT_ONCE: &[u8] =
    b"tick 1\n> tick 1\n> tick 1\n> tick 1\n> tick 1\n> tick 1\n> tick 1\n> tick 1\n> tick 1\n";

#[test]
fn nothing_is_read_behind_a_wrong_line(rt: HostRuntime) -> Result<(), Fail> {
    let alloc = rt.alloc();
    // Five reads for the topology and its end, and the sixth for the piece that the first line is in.
    assert_eq!(rt;
        answer(alloc, TOPOLOGY, WRONG_AT_ONCE, 6)?,
        ReplayEnd::ReadFault
    );
    assert_eq!(rt;
        answer(alloc, TOPOLOGY, WRONG_AT_ONCE, 7)?,
        ReplayEnd::Wrong { line: 1 }
    );
    Ok(())
}

#[test]
fn a_refused_topology_is_told(rt: HostRuntime) -> Result<(), Fail> {
    let end = answer(rt.alloc(), b"router r x open 00\n", b"", 0)?;
    assert_eq!(rt;
        end,
        ReplayEnd::Topology {
            line: 1,
            fault: TopoFault::Form
        }
    );
    Ok(())
}
