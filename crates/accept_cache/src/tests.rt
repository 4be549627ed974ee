use super::*;
use aip_addr::{Address, Id};
use std::test::Fail;

const LIMITS: Limits = Limits {
    cache: 2,
    wildcache: 1,
    threshold: 1,
    accept: 100,
    wild: 50,
};

fn id(number: u16) -> Id {
    let mut bytes = [0; 20];
    [bytes[0], bytes[1]] = number.to_be_bytes();
    Id { bytes }
}

// A source with this number, in a domain.
fn source(domain: u16, number: u16) -> Address {
    Address {
        ad: id(domain),
        eid: id(number),
    }
}

#[test]
fn the_last_touched_pairs_are_kept(rt: HostRuntime) -> Result<(), Fail> {
    let (a, b, c) = (source(1, 1), source(1, 2), source(1, 3));
    let mut cache = AcceptCache::new(rt.alloc(), &LIMITS)?;
    cache.proved(&a, 0, 10)?;
    cache.proved(&b, 0, 10)?;
    cache.proved(&c, 0, 10)?;
    assert!(rt; !cache.hit(&a, 0, 11));
    assert!(rt; cache.hit(&b, 0, 11));
    assert!(rt; !cache.hit(&b, 1, 11));
    assert_eq!(rt; cache.source_count(), 2);
    // The hit put b before c.
    cache.proved(&a, 0, 11)?;
    assert!(rt; !cache.hit(&c, 0, 11));
    assert!(rt; cache.hit(&b, 0, 11));
    cache.clear();
    assert!(rt; !cache.hit(&b, 0, 11));
    Ok(())
}

#[test]
fn a_pair_lapses_though_it_is_hit(rt: HostRuntime) -> Result<(), Fail> {
    let a = source(1, 1);
    let mut cache = AcceptCache::new(rt.alloc(), &LIMITS)?;
    cache.proved(&a, 0, 10)?;
    assert!(rt; cache.hit(&a, 0, 109));
    assert!(rt; !cache.hit(&a, 0, 110));
    assert_eq!(rt; cache.source_count(), 1);
    cache.proved(&a, 0, 120)?;
    assert!(rt; cache.hit(&a, 0, 219));
    Ok(())
}

#[test]
fn three_sources_make_a_wildcard(rt: HostRuntime) -> Result<(), Fail> {
    let limits = Limits {
        cache: 8,
        threshold: 3,
        ..LIMITS
    };
    let mut cache = AcceptCache::new(rt.alloc(), &limits)?;
    for number in [1, 2, 2, 4] {
        assert!(rt; !cache.promote(&id(7), 0, 20)?);
        cache.proved(&source(7, number), 0, 20)?;
    }
    // Those of another domain or at another port don't count, and a source is counted once.
    cache.proved(&source(8, 3), 0, 20)?;
    cache.proved(&source(7, 3), 1, 20)?;
    assert!(rt; !cache.promote(&id(8), 0, 20)?);
    assert!(rt; !cache.hit_wild(&id(7), 0, 20));
    assert!(rt; cache.promote(&id(7), 0, 20)?);
    assert!(rt; !cache.promote(&id(7), 0, 20)?);
    // A fourth source is not proved, and its domain is accepted.
    assert!(rt; !cache.hit(&source(7, 5), 0, 69));
    assert!(rt; cache.hit_wild(&id(7), 0, 69));
    assert!(rt; !cache.hit_wild(&id(7), 1, 69));
    assert!(rt; !cache.hit_wild(&id(7), 0, 70));
    assert!(rt; cache.promote(&id(7), 0, 119)?);
    assert!(rt; !cache.promote(&id(7), 0, 170)?);
    assert_eq!(rt; cache.wildcard_count(), 1);
    Ok(())
}

#[test]
fn many_sources_are_kept(rt: HostRuntime) -> Result<(), Fail> {
    let limits = Limits {
        cache: 4096,
        threshold: 4096,
        ..LIMITS
    };
    let mut cache = AcceptCache::new(rt.alloc(), &limits)?;
    for number in 0..4097 {
        cache.proved(&source(9, number), 3, 20)?;
    }
    assert!(rt; !cache.hit(&source(9, 0), 3, 20));
    for round in 0..25 {
        for number in 1..4097 {
            assert!(rt; cache.hit(&source(9, number), 3, 20 + round));
        }
    }
    assert_eq!(rt; cache.source_count(), 4096);
    assert!(rt; cache.promote(&id(9), 3, 119)?);
    assert!(rt; cache.hit_wild(&id(9), 3, 119));
    Ok(())
}
