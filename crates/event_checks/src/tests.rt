use aip_event::{Event, Events, read_event, read_input, write_event, write_events, write_input};
use std::alloc::Global;
use std::test::Fail;

fn rewritten_input(alloc: Global, line: &[u8]) -> Result<Vec<u8>, Fail> {
    let input = read_input(alloc, line)?.ok_or("an input")?;
    let mut out = Vec::new(alloc);
    write_input(alloc, &input, &mut out)?;
    Ok(out)
}

fn event_of(alloc: Global, line: &[u8]) -> Result<Event, Fail> {
    Ok(read_event(alloc, line)?.ok_or("an event")?)
}

fn rewritten_event(alloc: Global, line: &[u8]) -> Result<Vec<u8>, Fail> {
    let event = event_of(alloc, line)?;
    let mut out = Vec::new(alloc);
    write_event(alloc, &event, &mut out)?;
    Ok(out)
}

#[test]
fn lines_of_inputs_are_read_and_written(rt: HostRuntime) -> Result<(), Fail> {
    let lines = [
        b"tick 119".as_slice(),
        b"send a b 1 00",
        b"send a r 7 -",
        b"raw a 00",
        b"deliver 0",
        b"inject r/0 0102",
        b"inject b 01",
        b"cut 0",
        b"mend 0",
        b"shutoff b 0 10",
        b"restart a",
        b"stop a 1 0",
        b"halt a 4 165",
        b"publish 0100010e85",
        b"publish -",
    ];
    for line in lines {
        assert_eq!(rt; rewritten_input(rt.alloc(), line)?.as_slice(), line);
    }
    Ok(())
}

#[test]
fn lines_of_events_are_read_and_written(rt: HostRuntime) -> Result<(), Fail> {
    let lines = [
        b"put 0 r/0 00".as_slice(),
        b"forward r 0 1 open",
        b"ask r 1 1",
        b"proved r 0111111111111111111111111111111111111100:0137b38dc49cf7d3e150075d96e2b71816274900 2",
        b"wild r2 0111111111111111111111111111111111111100 1",
        b"refuse r 3",
        b"drop a notmine",
        b"got b 1",
        b"signed a 0",
        b"stopped a 0 1 0",
        b"withheld a 0180326aee4627a680a82b2e03b54a1277d7ee",
        b"obeyed a 0137b38dc49cf7d3e150075d96e2b718162749 15",
        b"heard a 1",
    ];
    for line in lines {
        assert_eq!(rt; rewritten_event(rt.alloc(), line)?.as_slice(), line);
    }
    Ok(())
}

#[test]
fn lines_of_filters_and_records_are_read_and_written(rt: HostRuntime) -> Result<(), Fail> {
    let lines = [
        b"halted a 0180326aee4627a680a82b2e03b54a1277d7ee 10 4 165".as_slice(),
        b"kept a 0180326aee4627a680a82b2e03b54a1277d7ee 10",
        b"published peer 010e850329dc2dc56dc60745b2b7145d4d46c500 01e06738406d0ab2d1554b79687e55ce7f050400 1 100",
        b"published bind 010e850329dc2dc56dc60745b2b7145d4d46c500 01e06738406d0ab2d1554b79687e55ce7f050400 0 18446744073709551615",
        b"unpublished 4",
    ];
    for line in lines {
        assert_eq!(rt; rewritten_event(rt.alloc(), line)?.as_slice(), line);
    }
    Ok(())
}

#[test]
fn other_lines_of_records_are_refused(rt: HostRuntime) -> Result<(), Fail> {
    let lines = [
        b"published peer 010e850329dc2dc56dc60745b2b7145d4d46c500 01e06738406d0ab2d1554b79687e55ce7f050400 1 18446744073709551616".as_slice(),
        b"published peer 010e850329dc2dc56dc60745b2b7145d4d46c500 01e06738406d0ab2d1554b79687e55ce7f050400 01 100",
        b"published none 010e850329dc2dc56dc60745b2b7145d4d46c500 01e06738406d0ab2d1554b79687e55ce7f050400 1 100",
        b"unpublished 1000000000000000",
    ];
    for line in lines {
        assert!(rt; read_event(rt.alloc(), line)?.is_none());
    }
    Ok(())
}

#[test]
fn other_lines_are_refused(rt: HostRuntime) -> Result<(), Fail> {
    let lines = [
        b"".as_slice(),
        b"tick",
        b"tick ",
        b"tick 01",
        b"tick  1",
        b"tick 1 ",
        b"tick 1\r",
        b"tick 1000000000000000",
        b"raw a 0A",
        b"raw a 000",
        b"raw abcdefghijklmnopq 00",
        b"raw A 00",
        b"inject r/01 00",
        b"inject r/ 00",
        b"halt a 3",
        b"publish",
        b"publish  00",
    ];
    for line in lines {
        assert!(rt; read_input(rt.alloc(), line)?.is_none());
        assert!(rt; read_event(rt.alloc(), line)?.is_none());
    }
    Ok(())
}

#[test]
fn events_are_kept_in_order(rt: HostRuntime) -> Result<(), Fail> {
    let mut events = Events::new(rt.alloc());
    events.push(event_of(rt.alloc(), b"got b 1")?)?;
    events.push(event_of(rt.alloc(), b"heard a 1")?)?;
    assert_eq!(rt; events.as_slice().len(), 2);
    Ok(())
}

#[test]
fn events_are_written_each_on_its_line(rt: HostRuntime) -> Result<(), Fail> {
    let got = event_of(rt.alloc(), b"got b 1")?;
    let heard = event_of(rt.alloc(), b"heard a 1")?;
    let mut out = Vec::from_slice(rt.alloc(), b"> deliver 0\n")?;
    write_events(rt.alloc(), &[got, heard], &mut out)?;
    assert_eq!(rt;
        out.as_slice(),
        b"> deliver 0\n< got b 1\n< heard a 1\n".as_slice()
    );
    Ok(())
}
