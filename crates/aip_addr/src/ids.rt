ghost use Rattle.std.specs.Prelude.{◌≡◌, ◌↔◌, length, IsTrue, IsSome, IfSome};
ghost use Rattle.aip_addr.specs.Ids.{id_bytes, is_owner, Owns};

use crate::names::Name;
use sha2::{Digest, Sha256};

/// The id of a domain (AD), a host or a router (EID): a version byte, 18 bytes of a hash, and an
/// interface byte.
#[derive(Clone, Copy, Debug, PartialEq, Eq, PartialOrd, Ord, Hash)]
pub struct Id {
    /// The 20 bytes, in the order of a frame.
    pub bytes: [u8; 20],
}

/// The key identifier of an id: its version byte and its hash.
#[derive(Clone, Copy, Debug, PartialEq, Eq, PartialOrd, Ord, Hash)]
pub struct KeyId {
    /// The 19 bytes, in the order of an id.
    pub bytes: [u8; 19],
}

/// An address: a domain, and a host or a router in it.
#[derive(Clone, Copy, Debug, PartialEq, Eq, PartialOrd, Ord, Hash)]
pub struct Address {
    /// The domain's id.
    pub ad: Id,
    /// The host's or the router's id.
    pub eid: Id,
}

impl Id {
    ghost use Rattle.aip_addr.specs.Ids.{id_of_key, id_of_router, key_id_of};

    /// The id of the domain or host that has this public key of 56 bytes, with its interface byte.
    pub fn of_key(key: &[u8; 56], iface: u8) -> Id
        ensures { result ≡ id_of_key key.now iface }
    {
        hashed_id(1, &Sha256::digest(key), iface)
    }

    /// The id of the router that has this name.
    pub fn of_router(name: &Name) -> Id
        ensures { result ≡ id_of_router name.now }
    {
        let mut hasher = Sha256::new();
        hasher.update(b"aip router");
        hasher.update(name.bytes());
        hashed_id(0, &hasher.finalize(), 0)
    }

    /// The first 19 bytes, which say whose key it is, whatever the interface.
    pub fn key_id(&self) -> KeyId
        ensures { result ≡ key_id_of self.now }
    {
        let mut bytes = [0; 19];
        bytes.copy_from_slice(&self.bytes[..19]);
        KeyId { bytes }
    }
}

fn hashed_id(version: u8, hash: &[u8; 32], iface: u8) -> Id
    ensures { result.bytes ≡ id_bytes version hash.now iface }
{
    let mut bytes = [0; 20];
    bytes[0] = version;
    bytes[1..19].copy_from_slice(&hash[..18]);
    bytes[19] = iface;
    Id { bytes }
}

/// Whether the public key of 56 bytes owns the id: the id's version is 1, and its 18 bytes of hash
/// are the first of the key's SHA-256. The interface byte isn't read.
pub fn owns(key: &[u8; 56], id: &Id) -> bool
    ensures owns { IsTrue result ↔ Owns key.now id.now }
    ensures value { result ≡ is_owner key.now id.now }
{
    let hash = Sha256::digest(key);
    id.bytes[0] == 1 && id.bytes[1..19] == hash[..18]
}

impl Address {
    ghost use Rattle.aip_addr.specs.Ids.{address_bytes, address_of};

    /// The 40 bytes of the address: the domain's id, then the host's or the router's.
    pub fn write(&self) -> [u8; 40]
        ensures spelling { result ≡ address_bytes self.now }
        ensures read_back { address_of result ≡ self.now }
    {
        let mut bytes = [0; 40];
        let (ad, eid) = bytes.split_at_mut(20);
        ad.copy_from_slice(&self.ad.bytes);
        eid.copy_from_slice(&self.eid.bytes);
        bytes
    }

    /// The address that 40 bytes spell, and None for any other number of bytes.
    pub fn read(bytes: &[u8]) -> Option<Address>
        ensures length { IsSome result ↔ (length bytes.now ≡ 40) }
        ensures found { IfSome result (λ a. a ≡ address_of bytes.now) }
    {
        if bytes.len() != 40 {
            return None;
        }
        Some(Address {
            ad: id_of_bytes(&bytes[..20]),
            eid: id_of_bytes(&bytes[20..]),
        })
    }
}

fn id_of_bytes(slice: &[u8]) -> Id
    requires { length slice.now ≡ 20 }
    ensures { result.bytes ≡ slice.now }
{
    let mut bytes = [0; 20];
    bytes.copy_from_slice(slice);
    Id { bytes }
}
