use super::*;
use std::alloc::{AllocError, Global};
use std::fs;
use std::test::Fail;

#[test]
fn a_gap_is_filled_with_zero(rt: HostRuntime) -> Result<(), Fail> {
    let alloc = rt.alloc();
    let mut disk = MemDisk::new(alloc, 8, Vec::new(alloc))?;
    assert_eq!(rt; disk.write_at(3, &[7, 9]), Ok(()));
    assert_eq!(rt; disk.sync(), Ok(()));
    assert_eq!(rt; disk.write_at(1, &[5]), Ok(()));
    assert_eq!(rt; disk.len(), Ok(5));
    let mut into = [1; 4];
    assert_eq!(rt; disk.read(2, &mut into), Ok(3));
    assert_eq!(rt; into, [0, 7, 9, 1]);
    assert_eq!(rt; disk.bytes(), [0, 5, 0, 7, 9].as_slice());
    Ok(())
}

#[test]
fn listed_calls_fail(rt: HostRuntime) -> Result<(), Fail> {
    let alloc = rt.alloc();
    let mut disk = MemDisk::new(alloc, 8, [1, 3].to_vec(alloc)?)?;
    assert_eq!(rt; disk.write_at(0, &[1]), Err(Failed));
    assert_eq!(rt; disk.write_at(0, &[2]), Ok(()));
    assert_eq!(rt; disk.sync(), Err(Failed));
    assert_eq!(rt; disk.sync(), Ok(()));
    assert_eq!(rt; disk.bytes(), [2].as_slice());
    Ok(())
}

#[test]
fn room_and_record_end(rt: HostRuntime) -> Result<(), Fail> {
    let alloc = rt.alloc();
    let mut disk = MemDisk::new(alloc, 2, Vec::new(alloc))?;
    assert_eq!(rt; disk.write_at(1, &[1, 2]), Err(Failed));
    for _ in 0..4 {
        assert_eq!(rt; disk.write_at(0, &[1]), Ok(()));
        assert_eq!(rt; disk.sync(), Ok(()));
    }
    assert_eq!(rt; disk.write_at(1, &[2]), Err(Failed));
    disk.reserve(1, 1)?;
    assert_eq!(rt; disk.write_at(1, &[2]), Ok(()));
    assert_eq!(rt; disk.bytes(), [1, 2].as_slice());
    Ok(())
}

// A disk whose file has four bytes, all of them firm.
fn of_four(alloc: Global) -> Result<MemDisk, AllocError> {
    let mut disk = MemDisk::new(alloc, 8, Vec::new(alloc))?;
    let _ = disk.write_at(0, &[1, 2, 3, 4]);
    let _ = disk.sync();
    Ok(disk)
}

#[test]
fn a_stop_leaves_its_byte(rt: HostRuntime) -> Result<(), Fail> {
    let alloc = rt.alloc();
    for fill in [0, 1, 165, 255] {
        for call in 1..3 {
            let mut disk = of_four(alloc)?;
            disk.stop_at(call, fill);
            assert_eq!(rt; disk.write_at(1, &[9, 9]).is_ok(), call == 2);
            assert_eq!(rt; disk.sync(), Err(Failed));
            assert_eq!(rt; disk.len(), Err(Failed));
            disk.stop_at(4, 7);
            let mut disk = disk.restart();
            assert_eq!(rt; disk.bytes(), [1, fill, fill, 4].as_slice());
            assert_eq!(rt; disk.len(), Ok(4));
            assert_eq!(rt; disk.write_at(0, &[8]), Ok(()));
            assert_eq!(rt; disk.sync(), Ok(()));
            assert_eq!(rt; disk.bytes(), [8, fill, fill, 4].as_slice());
        }
    }
    Ok(())
}

#[test]
fn a_stop_that_is_not_met_is_disarmed(rt: HostRuntime) -> Result<(), Fail> {
    let alloc = rt.alloc();
    let mut disk = of_four(alloc)?;
    disk.stop_at(1, 7);
    disk.stop_at(3, 7);
    assert_eq!(rt; disk.write_at(5, &[6]), Ok(()));
    assert_eq!(rt; disk.len(), Ok(6));
    let mut disk = disk.restart();
    assert_eq!(rt; disk.bytes(), [1, 2, 3, 4, 0, 6].as_slice());
    assert_eq!(rt; disk.write_at(0, &[8]), Ok(()));
    assert_eq!(rt; disk.sync(), Ok(()));
    assert_eq!(rt; disk.bytes(), [8, 2, 3, 4, 0, 6].as_slice());
    Ok(())
}

#[test]
fn a_gap_waits_for_a_sync(rt: HostRuntime) -> Result<(), Fail> {
    let alloc = rt.alloc();
    let mut disk = of_four(alloc)?;
    disk.stop_at(2, 7);
    assert_eq!(rt; disk.write_at(6, &[5]), Ok(()));
    assert_eq!(rt; disk.sync(), Err(Failed));
    assert_eq!(rt; disk.restart().bytes(), [1, 2, 3, 4, 7, 7, 7].as_slice());
    Ok(())
}

#[test]
fn a_gated_write_stops_at_each_call(rt: HostRuntime) -> Result<(), Fail> {
    let alloc = rt.alloc();
    for call in 1..5 {
        let mut disk = of_four(alloc)?;
        disk.stop_at(call, 7);
        assert_eq!(rt; write_gated(&mut disk, 1, 165, &[9]), Err(Failed));
        let (gate, body) = if call <= 2 { (2, 7) } else { (7, 9) };
        assert_eq!(rt; disk.restart().bytes(), [1, gate, body, 4].as_slice());
    }
    let mut disk = of_four(alloc)?;
    assert_eq!(rt; write_gated(&mut disk, 1, 165, &[9]), Ok(()));
    assert_eq!(rt; disk.bytes(), [1, 165, 9, 4].as_slice());
    Ok(())
}

#[test]
fn a_file_is_a_disk(rt: HostRuntime) -> Result<(), Fail> {
    let alloc = rt.alloc();
    let path = "file_disk_test";
    let mut disk = FileDisk::new(&rt, format!(in alloc; "{path}")?);
    assert_eq!(rt; disk.len(), Ok(0));
    assert_eq!(rt; disk.sync(), Ok(()));
    assert_eq!(rt; disk.write_at(2, &[7, 9, 11, 13, 15]), Ok(()));
    assert_eq!(rt; disk.sync(), Ok(()));
    assert_eq!(rt; disk.write_at(3, &[8, 10]), Ok(()));
    assert_eq!(rt; disk.sync(), Ok(()));
    assert_eq!(rt; disk.len(), Ok(7));
    let mut into = [1; 8];
    assert_eq!(rt; disk.read(1, &mut into), Ok(6));
    assert_eq!(rt; into, [0, 7, 8, 10, 13, 15, 1, 1]);
    assert_eq!(rt; disk.read(9, &mut into), Ok(0));
    fs::remove_file(&rt, path)?;
    Ok(())
}

#[test]
fn a_file_has_one_holder(rt: HostRuntime) -> Result<(), Fail> {
    let alloc = rt.alloc();
    let path = "file_disk_held_test";
    let mut disk = FileDisk::new(&rt, format!(in alloc; "{path}")?);
    let mut late = FileDisk::new(&rt, format!(in alloc; "{path}")?);
    assert_eq!(rt; late.len(), Ok(0));
    assert_eq!(rt; disk.write_at(0, &[7]), Ok(()));
    let mut other = FileDisk::new(&rt, format!(in alloc; "{path}")?);
    assert_eq!(rt; other.len(), Err(Failed));
    assert_eq!(rt; late.write_at(0, &[8]), Err(Failed));
    drop(disk);
    assert_eq!(rt; other.len(), Ok(1));
    assert_eq!(rt; late.write_at(0, &[8]), Err(Failed));
    fs::remove_file(&rt, path)?;
    Ok(())
}

#[test]
fn a_file_that_was_left_half_written_is_read(rt: HostRuntime) -> Result<(), Fail> {
    let alloc = rt.alloc();
    let path = "file_disk_half_test";
    {
        let mut disk = FileDisk::new(&rt, format!(in alloc; "{path}")?);
        assert_eq!(rt; disk.write_at(1, &[7, 9]), Ok(()));
    }
    let mut disk = FileDisk::new(&rt, format!(in alloc; "{path}")?);
    assert_eq!(rt; disk.sync(), Ok(()));
    assert_eq!(rt; disk.len(), Ok(3));
    assert_eq!(rt; disk.write_at(0, &[165]), Ok(()));
    assert_eq!(rt; disk.sync(), Ok(()));
    let mut into = [1; 4];
    assert_eq!(rt; disk.read(0, &mut into), Ok(3));
    assert_eq!(rt; into, [165, 7, 9, 1]);
    fs::remove_file(&rt, path)?;
    Ok(())
}
