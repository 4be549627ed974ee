use super::*;
use accept_cache::Limits;
use std::test::Fail;

const LIMITS: Limits = Limits {
    cache: 2,
    wildcache: 1,
    threshold: 1,
    accept: 100,
    wild: 50,
};

fn id(byte: u8) -> Id {
    Id { bytes: [byte; 20] }
}

fn source(domain: u8, host: u8) -> Address {
    Address {
        ad: id(domain),
        eid: id(host),
    }
}

#[test]
fn proved_sources_of_the_domain_pass(rt: HostRuntime) -> Result<(), Fail> {
    let (here, own, foreign) = (id(1), source(1, 2), source(2, 2));
    let mut cache = AcceptCache::new(rt.alloc(), &LIMITS)?;
    assert_eq!(rt; first_hop(&mut cache, &here, &own, 0, 10), HostVerdict::Ask);
    cache.proved(&own, 0, 10)?;
    cache.proved(&foreign, 0, 10)?;
    assert_eq!(rt;
        first_hop(&mut cache, &here, &own, 0, 109),
        HostVerdict::Proved
    );
    assert_eq!(rt;
        first_hop(&mut cache, &here, &own, 1, 109),
        HostVerdict::Ask
    );
    assert_eq!(rt;
        first_hop(&mut cache, &here, &own, 0, 110),
        HostVerdict::Ask
    );
    assert_eq!(rt;
        first_hop(&mut cache, &here, &foreign, 0, 10),
        HostVerdict::Foreign
    );
    // The last verdict that touched was of the own source, so the foreign one goes first.
    cache.proved(&source(1, 3), 0, 10)?;
    assert!(rt; cache.hit(&own, 0, 10));
    assert!(rt; !cache.hit(&foreign, 0, 10));
    Ok(())
}

#[test]
fn many_frames_pass(rt: HostRuntime) -> Result<(), Fail> {
    let limits = Limits {
        cache: 200,
        ..LIMITS
    };
    let mut cache = AcceptCache::new(rt.alloc(), &limits)?;
    for host in 0..200 {
        cache.proved(&source(1, host), 0, 10)?;
    }
    for now in 10..110 {
        for host in 0..200 {
            let verdict = first_hop(&mut cache, &id(1), &source(1, host), 0, now);
            assert_eq!(rt; verdict, HostVerdict::Proved);
        }
    }
    Ok(())
}
