use super::*;
use aip_event::{Input, write_input};
use std::alloc::Global;
use std::test::Fail;

// What these tests expect was computed by a script of its own, from SplitMix64 and the table of
// lines.

fn line_of(alloc: Global, input: &Input) -> Result<Vec<u8>, Fail> {
    let mut line = Vec::new(alloc);
    write_input(alloc, input, &mut line)?;
    Ok(line)
}

// The first input of workload `n`, where the topology was left out.
fn first_line(alloc: Global, n: u32, flights: u32) -> Result<Vec<u8>, Fail> {
    let input = Gen::new(n).line(alloc, 3, flights)?;
    line_of(alloc, &input)
}

#[test]
fn the_topology_has_its_lines(rt: HostRuntime) -> Result<(), Fail> {
    let text = Gen::new(1).topology(rt.alloc())?;
    let first = b"set cache 32\nset threshold 2\n\
        domain d0 seed W4 H5 910a2dec89025cc1beeb8da1658eec67f893a2eefb32555e71c18690ee42c90b\n\
        domain d1 seed W4 H5 71bb54d8d101b5b9c34d0bff90150280e099ec6cd7363ca585e7bb0f12278575\n";
    let last = b"\n\
        host h23 r7 guarded seed W2 H10 0 a6fefb55c353a1eabd081362a82af3b3962fe90a4d66c6238c7ca121fd9fb515\n";
    assert!(rt; text.as_slice().starts_with(first));
    assert!(rt; text.as_slice().ends_with(last));
    let links = b"\nlink r6 r7 trusted trusted\nlink r7 r0 checked checked\nhost h0 r0 ";
    assert!(rt;
        text.as_slice()
            .windows(links.len())
            .any(|w| w == links.as_slice())
    );
    assert_eq!(rt; text.as_slice().len(), 3651);
    Ok(())
}

#[test]
fn lines_follow_the_topology(rt: HostRuntime) -> Result<(), Fail> {
    let lines = [
        b"tick 1".as_slice(),
        b"deliver 0",
        b"deliver 3",
        b"deliver 22",
        b"deliver 25",
        b"deliver 25",
        b"deliver 30",
        b"deliver 17",
        b"send h8 h0 8 00",
        b"deliver 74",
        b"deliver 60",
        b"send h3 h5 11 00",
        b"deliver 62",
        b"deliver 75",
        b"mend 6",
        b"deliver 122",
        b"deliver 133",
        b"deliver 142",
        b"deliver 138",
        b"deliver 184",
    ];
    let mut made = Gen::new(1);
    made.topology(rt.alloc())?;
    for index in 0..20u32 {
        let input = made.line(rt.alloc(), index, 10 * index)?;
        assert_eq!(rt;
            line_of(rt.alloc(), &input)?.as_slice(),
            lines[index as usize]
        );
    }
    Ok(())
}

#[test]
fn each_kind_of_line_is_drawn(rt: HostRuntime) -> Result<(), Fail> {
    let lines = [
        (6, 0, b"tick 4".as_slice()),
        (16, 0, b"tick 4"),
        (144, 0, b"send h19 h2 3 00"),
        (56, 0, b"send h1 h19 3 00"),
        (373, 0, b"tick 1"),
        (373, 1, b"shutoff h6 0 40"),
        (73, 64, b"shutoff h1 39 40"),
        (205, 0, b"restart r2"),
        (226, 0, b"restart h13"),
        (252, 0, b"cut 3"),
        (183, 0, b"mend 1"),
        (320, 0, b"tick 1"),
        (320, 1, b"deliver 0"),
        (13, 1000, b"deliver 950"),
    ];
    for (n, flights, line) in lines {
        assert_eq!(rt; first_line(rt.alloc(), n, flights)?.as_slice(), line);
    }
    Ok(())
}
