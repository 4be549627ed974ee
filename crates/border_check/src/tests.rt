use super::*;
use accept_cache::Limits;
use aip_addr::Id;
use std::test::Fail;

const LIMITS: Limits = Limits {
    cache: 2,
    wildcache: 1,
    threshold: 1,
    accept: 50,
    wild: 100,
};

fn source(domain: u8, host: u8) -> Address {
    Address {
        ad: Id {
            bytes: [domain; 20],
        },
        eid: Id { bytes: [host; 20] },
    }
}

#[test]
fn the_first_cause_that_applies_passes(rt: HostRuntime) -> Result<(), Fail> {
    let a = source(1, 2);
    let mut cache = AcceptCache::new(rt.alloc(), &LIMITS)?;
    assert_eq!(rt;
        border(&mut cache, true, Some(3), &a, 3, 10),
        PortVerdict::Trusted
    );
    assert_eq!(rt;
        border(&mut cache, false, Some(3), &a, 3, 10),
        PortVerdict::Reverse
    );
    assert_eq!(rt;
        border(&mut cache, false, Some(4), &a, 3, 10),
        PortVerdict::Ask
    );
    assert_eq!(rt;
        border(&mut cache, false, None, &a, 3, 10),
        PortVerdict::Ask
    );
    cache.proved(&a, 3, 10)?;
    assert!(rt; cache.promote(&a.ad, 3, 10)?);
    assert_eq!(rt;
        border(&mut cache, false, None, &a, 3, 59),
        PortVerdict::Proved
    );
    // The proof has lapsed, and the wildcard has not. It passes the others of the domain too.
    assert_eq!(rt;
        border(&mut cache, false, None, &a, 3, 60),
        PortVerdict::Wild
    );
    assert_eq!(rt;
        border(&mut cache, false, None, &source(1, 9), 3, 60),
        PortVerdict::Wild
    );
    assert_eq!(rt;
        border(&mut cache, false, None, &source(2, 2), 3, 60),
        PortVerdict::Ask
    );
    assert_eq!(rt;
        border(&mut cache, false, None, &a, 3, 110),
        PortVerdict::Ask
    );
    Ok(())
}

#[test]
fn many_frames_pass(rt: HostRuntime) -> Result<(), Fail> {
    let limits = Limits {
        cache: 200,
        ..LIMITS
    };
    let mut cache = AcceptCache::new(rt.alloc(), &limits)?;
    for host in 0..200 {
        cache.proved(&source(1, host), 0, 10)?;
    }
    for now in 10..60 {
        for host in 0..200 {
            let verdict = border(&mut cache, false, None, &source(1, host), 0, now);
            assert_eq!(rt; verdict, PortVerdict::Proved);
        }
    }
    Ok(())
}
