use super::*;
use std::test::Fail;

#[test]
fn names_are_read_by_the_grammar(rt: HostRuntime) -> Result<(), Fail> {
    let name = Name::read(b"r-1").ok_or("a name")?;
    assert_eq!(rt; name.bytes(), b"r-1".as_slice());
    assert!(rt; Name::read(b"abcdefghijklmnop").is_some());
    assert!(rt; Name::read(b"abcdefghijklmnopq").is_none());
    assert!(rt; Name::read(b"").is_none());
    assert!(rt; Name::read(b"1a").is_none());
    assert!(rt; Name::read(b"aB").is_none());
    Ok(())
}

#[test]
fn a_routers_id_is_the_hash_of_its_name(rt: HostRuntime) -> Result<(), Fail> {
    let name = Name::read(b"r").ok_or("a name")?;
    let id = Id::of_router(&name);
    // The first 18 bytes of SHA-256 of "aip routerr", by another implementation of the hash.
    let hash = b"\xc6\xdc\xb4\xc7\x7c\xf2\x00\xec\xbb\x25\x2a\x5f\x85\x0e\x01\x2c\xc5\xa5";
    assert_eq!(rt; id.bytes[1..19], hash[..]);
    assert_eq!(rt; id.bytes[0], 0);
    assert_eq!(rt; id.bytes[19], 0);
    Ok(())
}

#[test]
fn a_key_owns_its_ids(rt: HostRuntime) -> Result<(), Fail> {
    let key = [7; 56];
    let id = Id::of_key(&key, 3);
    assert!(rt; owns(&key, &id));
    assert_eq!(rt; id.bytes[19], 3);
    assert_eq!(rt; id.key_id(), Id::of_key(&key, 4).key_id());
    assert!(rt; !owns(&[8; 56], &id));
    Ok(())
}

#[test]
fn addresses_and_bytes_read_back(rt: HostRuntime) -> Result<(), Fail> {
    let name = Name::read(b"r").ok_or("a name")?;
    let address = Address {
        ad: Id::of_key(&[1; 56], 0),
        eid: Id::of_router(&name),
    };
    assert_eq!(rt;
        Address::read(&address.write()).ok_or("an address")?,
        address
    );
    assert!(rt; Address::read(&[0; 41]).is_none());
    let bytes = Bytes::from_slice(rt.alloc(), b"hi")?;
    assert_eq!(rt; bytes.as_slice(), b"hi".as_slice());
    let again = Bytes::from_vec(bytes.into_vec());
    assert_eq!(rt; again.as_slice(), b"hi".as_slice());
    Ok(())
}
