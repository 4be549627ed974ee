//! Record files with no record: lines that are skipped, and each refusal that wants no signature.
use super::*;
use aip_io::{File, MemShelf};
use aip_registry::Registry;
use std::alloc::Global;
use std::test::Fail;

// What is read of a file with these bytes, where no domain is known, 7 bytes a read, with the calls that fail.
fn read(
    alloc: Global,
    bytes: &[u8],
    failing: Vec<u64>,
) -> Result<Result<Registry, RecordsEnd>, Fail> {
    let file = File {
        name: String::from_str(alloc, "records")?,
        bytes: Vec::from_slice(alloc, bytes)?,
    };
    let mut shelf = MemShelf::new(alloc, vec![in alloc; file]?, failing, 7)?;
    Ok(read_records(alloc, &mut shelf, "records", &[]))
}

// Why a file with these bytes is refused, where no read fails.
fn refusal(alloc: Global, bytes: &[u8]) -> Result<Option<RecordsEnd>, Fail> {
    Ok(read(alloc, bytes, Vec::new(alloc))?.err())
}

#[test]
fn skipped_lines_give_no_record(rt: HostRuntime) -> Result<(), Fail> {
    let alloc = rt.alloc();
    let registry = read(alloc, b"# no record\n\n# at all", Vec::new(alloc))??;
    assert_eq!(rt; list_text(alloc, &registry)?.len(), 0);
    Ok(())
}

#[test]
fn the_first_fault_of_a_line_refuses_the_file(rt: HostRuntime) -> Result<(), Fail> {
    let alloc = rt.alloc();
    let rows: [(&[u8], u32, RecordFault); 6] = [
        (b"\n0", 2, RecordFault::Form),
        (b"-\n", 1, RecordFault::Form),
        (b"0A\n", 1, RecordFault::Form),
        (b"# one\r\n", 1, RecordFault::Form),
        (b"00\n", 1, RecordFault::Body),
        (b"#\n#\n0100\n-\n", 3, RecordFault::Body),
    ];
    for (bytes, line, fault) in rows {
        assert_eq!(rt;
            refusal(alloc, bytes)?,
            Some(RecordsEnd::Refused { line, fault })
        );
    }
    Ok(())
}

#[test]
fn a_read_that_fails_ends_the_reading(rt: HostRuntime) -> Result<(), Fail> {
    let alloc = rt.alloc();
    let failed = read(alloc, b"# no record\n\n", vec![in alloc; 3]?)?;
    assert_eq!(rt; failed.err(), Some(RecordsEnd::ReadFault));
    Ok(())
}
