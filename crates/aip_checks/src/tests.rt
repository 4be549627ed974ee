use aip_core::Core;
use aip_io::{File, MemShelf, MemSink};
use aip_rules::StepFault;
use aip_top::{LeaseFault, Status, aip};
use aip_topo::TopoFault;
use lease_disk::MemDisk;
use std::alloc::{AllocError, Global};
use std::test::Fail;

// One domain, one open router, two hosts.
pub(crate) const TOPOLOGY: &[u8] =
    b"domain d id 0111111111111111111111111111111111111100\nrouter r d open 0000000000000000000000000000000000000000000000000000000000000000\nhost a r plain id 01aaaaaaaaaaaaaaaaaaaaaaaaaaaaaaaaaaaa00\nhost b r plain id 01bbbbbbbbbbbbbbbbbbbbbbbbbbbbbbbbbbbb00\n";

// One packet from a to b.
pub(crate) const SCHEDULE: &[u8] = b"send a b 7 6869\ndeliver 0\ndeliver 1\n";

// Its trace, as an independent implementation gives it.
pub(crate) const TRACE: &[u8] =
    b"> send a b 7 6869\n< put 0 r/0 0100400000000007011111111111111111111111111111111111110001bbbbbbbbbbbbbbbbbbbbbbbbbbbbbbbbbbbb00011111111111111111111111111111111111110001aaaaaaaaaaaaaaaaaaaaaaaaaaaaaaaaaaaa0000026869\n> deliver 0\n< forward r 0 1 open\n< put 1 b 01003f0000000007011111111111111111111111111111111111110001bbbbbbbbbbbbbbbbbbbbbbbbbbbbbbbbbbbb00011111111111111111111111111111111111110001aaaaaaaaaaaaaaaaaaaaaaaaaaaaaaaaaaaa0000026869\n> deliver 1\n< got b 7\n";

pub(crate) fn file(alloc: Global, name: &str, bytes: &[u8]) -> Result<File, AllocError> {
    Ok(File {
        name: String::from_str(alloc, name)?,
        bytes: Vec::from_slice(alloc, bytes)?,
    })
}

pub(crate) fn files(alloc: Global, schedule: &[u8]) -> Result<Vec<File>, AllocError> {
    let mut files = Vec::new(alloc);
    files.push(file(alloc, "topo.txt", TOPOLOGY)?)?;
    files.push(file(alloc, "sched.txt", schedule)?)?;
    Ok(files)
}

fn words(alloc: Global, line: &[&str]) -> Result<Vec<String>, AllocError> {
    let mut words = Vec::new(alloc);
    for word in line {
        words.push(String::from_str(alloc, word)?)?;
    }
    Ok(words)
}

// Obeys words over a shelf, a sink and a disk.
pub(crate) fn obey(
    alloc: Global,
    line: &[&str],
    shelf: &mut MemShelf,
    sink: &mut MemSink,
    disk: MemDisk,
) -> Result<(Status, MemDisk, Option<Core>), AllocError> {
    let words = words(alloc, line)?;
    Ok(aip(alloc, &words, shelf, sink, disk))
}

// A disk of which the call of this number fails.
pub(crate) fn disk(alloc: Global, call: u64) -> Result<MemDisk, AllocError> {
    MemDisk::new(alloc, 100, one(alloc, call)?)
}

// A list of one number, or of none where it is 0.
pub(crate) fn one(alloc: Global, number: u64) -> Result<Vec<u64>, AllocError> {
    let mut numbers = Vec::new(alloc);
    if number > 0 {
        numbers.push(number)?;
    }
    Ok(numbers)
}

// Runs a schedule with the read and the put of these numbers failing.
fn outcome(
    alloc: Global,
    schedule: &[u8],
    read: u64,
    put: u64,
) -> Result<(Status, MemSink), AllocError> {
    let mut shelf = MemShelf::new(alloc, files(alloc, schedule)?, one(alloc, read)?, 64)?;
    let mut sink = MemSink::new(alloc, 4096, one(alloc, put)?, 100)?;
    let line = ["run", "topo.txt", "sched.txt"];
    let (status, _, _) = obey(alloc, &line, &mut shelf, &mut sink, disk(alloc, 0)?)?;
    Ok((status, sink))
}

#[test]
fn one_packet_is_written(rt: HostRuntime) -> Result<(), Fail> {
    let (status, sink) = outcome(rt.alloc(), SCHEDULE, 0, 0)?;
    assert_eq!(rt; status, Status::Done);
    assert_eq!(rt; sink.taken(), TRACE);
    Ok(())
}

#[test]
fn each_read_fails_in_turn(rt: HostRuntime) -> Result<(), Fail> {
    let mut faults = 0u64;
    for read in 1..40u64 {
        let (status, sink) = outcome(rt.alloc(), SCHEDULE, read, 0)?;
        if status == Status::Done {
            assert_eq!(rt; sink.taken(), TRACE);
            faults = read - 1;
            break;
        }
        assert_eq!(rt; status, Status::ReadFault);
        assert!(rt; TRACE.starts_with(sink.taken()));
    }
    // Four pieces of 64 bytes, one of the schedule, and an end of each.
    assert_eq!(rt; faults, 7);
    Ok(())
}

#[test]
fn each_put_fails_in_turn(rt: HostRuntime) -> Result<(), Fail> {
    let mut faults = 0u64;
    for put in 1..40u64 {
        let (status, sink) = outcome(rt.alloc(), SCHEDULE, 0, put)?;
        if status == Status::Done {
            assert_eq!(rt; sink.taken(), TRACE);
            faults = put - 1;
            break;
        }
        assert_eq!(rt; status, Status::WriteFault);
        assert!(rt; TRACE.starts_with(sink.taken()));
    }
    // The 215, 228 and 22 bytes of the three steps go in pieces of 100.
    assert_eq!(rt; faults, 7);
    Ok(())
}

#[test]
fn the_second_put_of_five_bytes_fails(rt: HostRuntime) -> Result<(), Fail> {
    let alloc = rt.alloc();
    let mut shelf = MemShelf::new(alloc, files(alloc, SCHEDULE)?, Vec::new(alloc), 64)?;
    let mut sink = MemSink::new(alloc, 4096, one(alloc, 2)?, 5)?;
    let line = ["run", "topo.txt", "sched.txt"];
    let (status, _, _) = obey(alloc, &line, &mut shelf, &mut sink, disk(alloc, 0)?)?;
    assert_eq!(rt; status, Status::WriteFault);
    assert_eq!(rt; sink.taken(), b"> sen".as_slice());
    Ok(())
}

#[test]
fn bad_lines_are_refused_by_their_first_fault(rt: HostRuntime) -> Result<(), Fail> {
    let table: [(&[u8], u32, StepFault); 12] = [
        (b"tick 1\r\n", 1, StepFault::Form),
        (b"#\n\n# a\rb\n", 3, StepFault::Form),
        (b"tick  1\n", 1, StepFault::Form),
        (b"tick 01\n", 1, StepFault::Form),
        (b"tick 1000000000000000\n", 1, StepFault::Form),
        (b"send a b 1 6G\n", 1, StepFault::Form),
        (b"send A b 1 -\n", 1, StepFault::Form),
        (b"tick 0", 1, StepFault::Range),
        (b"tick 1\ndeliver 0\n", 2, StepFault::NoFlight),
        (b"send q b 4294967296 -\n", 1, StepFault::Unknown),
        (b"send a b 4294967296 -\n", 1, StepFault::Range),
        (b"cut 0\n", 1, StepFault::Range),
    ];
    for (schedule, line, fault) in table {
        let (status, _) = outcome(rt.alloc(), schedule, 0, 0)?;
        assert_eq!(rt; status, Status::Schedule { line, fault });
    }
    Ok(())
}

#[test]
fn absent_files_and_other_words(rt: HostRuntime) -> Result<(), Fail> {
    let alloc = rt.alloc();
    let mut shelf = MemShelf::new(alloc, files(alloc, SCHEDULE)?, Vec::new(alloc), 8)?;
    let mut sink = MemSink::new(alloc, 4096, Vec::new(alloc), 5)?;
    let lines: [(&[&str], Status); 10] = [
        (&["run", "topo.txt", "other.txt"], Status::ReadFault),
        (&["run", "other.txt", "sched.txt"], Status::ReadFault),
        (&["address", "other.txt"], Status::ReadFault),
        (&["lease", "other.txt", "d"], Status::ReadFault),
        (&[], Status::Usage),
        (&["run", "topo.txt"], Status::Usage),
        (&["address", "topo.txt", "d"], Status::Usage),
        (&["lease", "topo.txt"], Status::Usage),
        // A domain's word is a name.
        (&["lease", "topo.txt", "D"], Status::Usage),
        (&["run", "topo.txt", "sched.txt", "more"], Status::Usage),
    ];
    for (line, expected) in lines {
        let (status, after, _) = obey(alloc, line, &mut shelf, &mut sink, disk(alloc, 0)?)?;
        assert_eq!(rt; status, expected);
        assert!(rt; after.bytes().is_empty());
    }
    assert!(rt; sink.taken().is_empty());
    Ok(())
}

// A domain with a key, and one without.
pub(crate) const KEYED: &[u8] =
    b"domain d seed W4 H5 3131313131313131313131313131313131313131313131313131313131313131\ndomain e id 0111111111111111111111111111111111111100\n";

// The line of a lease for the first, and the file, as an independent implementation gives them.
const LEASE_LINE: &[u8] = b"lease c4ea08216681de1a4900571dcf09e5f7 5\n";

const LEASE_HEAD: [u8; 18] = [
    0xa5, 0xc4, 0xea, 0x08, 0x21, 0x66, 0x81, 0xde, 0x1a, 0x49, 0x00, 0x57, 0x1d, 0xcf, 0x09, 0xe5,
    0xf7, 5,
];

// A lease for the domain of this name, over a disk.
fn leased(
    alloc: Global,
    topology: &[u8],
    domain: &str,
    put: u64,
    disk: MemDisk,
) -> Result<(Status, MemDisk, MemSink), AllocError> {
    let mut files = Vec::new(alloc);
    files.push(file(alloc, "topo.txt", topology)?)?;
    let mut shelf = MemShelf::new(alloc, files, Vec::new(alloc), 64)?;
    let mut sink = MemSink::new(alloc, 4096, one(alloc, put)?, 100)?;
    let line = ["lease", "topo.txt", domain];
    let (status, disk, _) = obey(alloc, &line, &mut shelf, &mut sink, disk)?;
    Ok((status, disk, sink))
}

#[test]
fn a_lease_formats_once(rt: HostRuntime) -> Result<(), Fail> {
    let alloc = rt.alloc();
    let (status, disk, sink) = leased(alloc, KEYED, "d", 0, disk(alloc, 0)?)?;
    assert_eq!(rt; status, Status::Done);
    assert_eq!(rt; sink.taken(), LEASE_LINE);
    assert_eq!(rt; disk.bytes().len(), 50);
    assert!(rt; disk.bytes().starts_with(&LEASE_HEAD));
    assert!(rt; disk.bytes().iter().skip(18).all(|byte| *byte == 0));
    let (status, disk, sink) = leased(alloc, KEYED, "d", 0, disk)?;
    let mut id = [0; 16];
    id.copy_from_slice(&LEASE_HEAD[1..17]);
    assert_eq!(rt;
        status,
        Status::Lease(LeaseFault::Already { id, height: 5 })
    );
    assert!(rt; sink.taken().is_empty());
    assert_eq!(rt; disk.bytes().len(), 50);
    Ok(())
}

#[test]
fn a_lease_is_refused_before_the_disk_is_touched(rt: HostRuntime) -> Result<(), Fail> {
    let alloc = rt.alloc();
    let table: [(&[u8], &str, Status); 3] = [
        (KEYED, "f", Status::Lease(LeaseFault::Unknown)),
        (KEYED, "e", Status::Lease(LeaseFault::Keyless)),
        (
            b"domain d\n",
            "d",
            Status::Topology {
                line: 1,
                fault: TopoFault::Form,
            },
        ),
    ];
    for (topology, domain, expected) in table {
        let (status, after, sink) = leased(alloc, topology, domain, 0, disk(alloc, 1)?)?;
        assert_eq!(rt; status, expected);
        assert!(rt; after.bytes().is_empty());
        assert!(rt; sink.taken().is_empty());
    }
    Ok(())
}

#[test]
fn each_call_of_the_disk_fails_in_turn(rt: HostRuntime) -> Result<(), Fail> {
    let alloc = rt.alloc();
    let mut faults = 0u64;
    for call in 1..40u64 {
        let (status, disk, sink) = leased(alloc, KEYED, "d", 0, disk(alloc, call)?)?;
        if status == Status::Done {
            assert_eq!(rt; sink.taken(), LEASE_LINE);
            faults = call - 1;
            break;
        }
        assert_eq!(rt; status, Status::DiskFault);
        assert!(rt; sink.taken().is_empty());
        // Only once all else was firm the gate was opened.
        assert!(rt; disk.bytes().is_empty() || disk.bytes()[0] == 0 || call >= 7);
    }
    // Length and read, then three writes with a sync each.
    assert_eq!(rt; faults, 8);
    let (status, disk, sink) = leased(alloc, KEYED, "d", 1, disk(alloc, 0)?)?;
    assert_eq!(rt; status, Status::WriteFault);
    assert!(rt; sink.taken().is_empty());
    assert!(rt; disk.bytes().starts_with(&LEASE_HEAD));
    Ok(())
}
