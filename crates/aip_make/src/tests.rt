ghost use Rattle.std.specs.Prelude.{◌≤◌};

use super::*;
use crate::opening::over;
use crate::runs::play;
use aip_gen::Gen;
use aip_rules::StepFault;
use std::alloc::Global;
use std::test::Fail;

// The hash of the empty text, by FIPS 180-4.
const EMPTY: &[u8] = b"lines 0\nflights 0\nevents 0\nnow 0\n\
    trace e3b0c44298fc1c149afbf4c8996fb92427ae41e4649b934ca495991b7852b855\n";

// Two hosts at one open router.
const TOPOLOGY: &[u8] = b"domain d id 0111111111111111111111111111111111111100\n\
    router r0 d open 0000000000000000000000000000000000000000000000000000000000000000\n\
    host h22 r0 plain id 01aaaaaaaaaaaaaaaaaaaaaaaaaaaaaaaaaaaa00\n\
    host h5 r0 plain id 01bbbbbbbbbbbbbbbbbbbbbbbbbbbbbbbbbbbb00\n";

// The first lines that the words of number `n` make, over this topology in the place of a made one.
fn small(alloc: Global, n: u32, lines: u32) -> Result<Summary, MadeEnd>
    requires { lines ≤ 60000 }
{
    let course = over(alloc, TOPOLOGY, Gen::new(n))?;
    play(alloc, course, lines)
}

#[test]
fn no_lines_have_the_empty_trace(rt: HostRuntime) -> Result<(), Fail> {
    let text = small(rt.alloc(), 5, 0)?.text(rt.alloc())?;
    assert_eq!(rt; text.as_slice(), EMPTY);
    Ok(())
}

// The made topology has 24 keys: built and proved it takes seconds, and longer than `rt try` waits.
#[test]
fn a_made_workload_is_the_same_twice(rt: HostRuntime) -> Result<(), Fail> {
    let text = made(rt.alloc(), 1, 0)?.text(rt.alloc())?;
    assert_eq!(rt; text.as_slice(), EMPTY);
    let first = made(rt.alloc(), 1, 2000)?.text(rt.alloc())?;
    let second = made(rt.alloc(), 1, 2000)?.text(rt.alloc())?;
    assert_eq!(rt; first.as_slice(), second.as_slice());
    assert!(rt; first.as_slice().starts_with(b"lines 2000\n"));
    Ok(())
}

// The lines are `send h22 h5 0 00`, `deliver 0`, `deliver 1` and `tick 1`. The trace follows from the rules: the packet
// crosses the router. A script of its own hashed it.
#[test]
fn a_packet_crosses_a_router(rt: HostRuntime) -> Result<(), Fail> {
    let text = small(rt.alloc(), 269, 4)?.text(rt.alloc())?;
    let expected = b"lines 4\nflights 2\nevents 4\nnow 1\n\
        trace 58954d28f47a18fc439a6425f0204a600805dc62db56e11aa708adc7d6709972\n";
    assert_eq!(rt; text.as_slice(), expected.as_slice());
    Ok(())
}

// The third line is `send h5 h13 2 00`, and there is no h13.
#[test]
fn a_refused_line_ends_it(rt: HostRuntime) -> Result<(), Fail> {
    let text = small(rt.alloc(), 5, 2)?.text(rt.alloc())?;
    let before = b"lines 2\nflights 0\nevents 0\nnow 2\n\
        trace 97b323442bb84002e13ce9680b0aba1a6d3e78375f984d00fc3e577ea743737f\n";
    assert_eq!(rt; text.as_slice(), before.as_slice());
    let end = MadeEnd::Schedule {
        line: 3,
        fault: StepFault::Unknown,
    };
    assert_eq!(rt; small(rt.alloc(), 5, 4), Err(end));
    Ok(())
}
