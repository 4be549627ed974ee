use super::*;
use aip_addr::KeyId;
use std::test::Fail;

fn to(byte: u8) -> KeyId {
    KeyId { bytes: [byte; 19] }
}

#[test]
fn a_log_of_two_forgets_the_third_last(rt: HostRuntime) -> Result<(), Fail> {
    let mut log = SentLog::new(rt.alloc(), 2)?;
    assert!(rt; !log.holds_any(&[1; 32]));
    log.note(&[1; 32], &to(7));
    log.note(&[2; 32], &to(8));
    assert!(rt; log.holds(&[1; 32], &to(7)));
    assert!(rt; !log.holds(&[1; 32], &to(8)));
    log.note(&[3; 32], &to(7));
    assert!(rt; !log.holds_any(&[1; 32]));
    assert!(rt; log.holds(&[2; 32], &to(8)));
    assert!(rt; log.holds_any(&[3; 32]));
    log.clear();
    assert!(rt; !log.holds_any(&[3; 32]));
    Ok(())
}

#[test]
fn the_largest_log_keeps_the_last_4096(rt: HostRuntime) -> Result<(), Fail> {
    let mut log = SentLog::new(rt.alloc(), 4096)?;
    for round in 0..20u8 {
        for place in 0..=255u8 {
            log.note(&[place; 32], &to(round));
        }
    }
    assert!(rt; !log.holds(&[255; 32], &to(3)));
    assert!(rt; log.holds(&[0; 32], &to(4)));
    assert!(rt; log.holds(&[255; 32], &to(19)));
    Ok(())
}
