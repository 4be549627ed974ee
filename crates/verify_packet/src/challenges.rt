// What a router asks, and how it is read again.
ghost use Rattle.std.specs.Prelude.{◌≡◌, ◌<◌, ◌≤◌, ◌+◌, length, take, drop};
ghost use Rattle.byteorder.specs.Endian.{big_bytes, big_number};
ghost use Rattle.aip_addr.specs.Ids.{address_bytes, address_of};
ghost use Rattle.verify_packet.specs.Challenge.{AskedFits, asked_bytes, asked_in, challenge_of, epoch_at, tag_of};

use aip_addr::Address;
use aip_mac::{hmac, secret};
use byteorder::{BigEndian, ByteOrder};

/// What a router makes and recognizes its challenges by.
#[derive(Clone, Copy, Debug, PartialEq, Eq)]
pub struct RouterKey {
    /// The router's address.
    pub address: Address,
    /// Its master secret.
    pub master: [u8; 32],
    /// How often it was started anew.
    pub boot: u32,
    /// How many ticks an epoch has, at least 1.
    pub epoch_length: u64,
    /// How many ports it has.
    pub ports: u16,
}

/// How many bytes of a challenge's body come before the tag.
pub const ASKED_LEN: usize = 122;

/// The body of a challenge: router address (40 bytes), source address (40), packet hash (32), port (2), epoch (8), all
/// numbers high byte first, and the tag over these (32).
pub fn challenge(
    router: &RouterKey,
    now: u64,
    source: &Address,
    hash: &[u8; 32],
    port: u16,
) -> [u8; 154]
    requires epochs { 0 < router.now.epoch_length }
    ensures spelled { result ≡ challenge_of router.now (record {
      router = router.now.address;
      source = source.now;
      hash = hash.now;
      port = port;
      epoch = epoch_at router.now now;
    }) }
    ensures read_back { asked_in result ≡ record {
      router = router.now.address;
      source = source.now;
      hash = hash.now;
      port = port;
      epoch = epoch_at router.now now;
    } }
{
    let epoch = now / router.epoch_length;
    let mut body = [0; 154];
    let (asked, tag) = body.split_at_mut(ASKED_LEN);
    write_asked(asked, &router.address, source, hash, port, epoch);
    tag.copy_from_slice(&router_tag(router, epoch, asked));
    body
}

// Writes an address.
fn write_address(out: &mut [u8], address: &Address)
    requires { length out.old ≡ 40 }
    ensures spelled { out.new ≡ address_bytes address.now }
    ensures ad { length address.now.ad.bytes ≡ 20 }
    ensures eid { length address.now.eid.bytes ≡ 20 }
{
    out.copy_from_slice(&address.write());
}

// Writes what is asked.
fn write_asked(
    out: &mut [u8],
    router: &Address,
    source: &Address,
    hash: &[u8; 32],
    port: u16,
    epoch: u64,
)
    requires { length out.old ≡ 122 }
    ensures spelled { out.new ≡ asked_bytes (record {
      router = router.now;
      source = source.now;
      hash = hash.now;
      port = port;
      epoch = epoch;
    }) }
    ensures fits { AskedFits (record {
      router = router.now;
      source = source.now;
      hash = hash.now;
      port = port;
      epoch = epoch;
    }) }
{
    let (router_part, rest) = out.split_at_mut(40);
    write_address(router_part, router);
    let (source_part, rest) = rest.split_at_mut(40);
    write_address(source_part, source);
    let (hash_part, rest) = rest.split_at_mut(32);
    hash_part.copy_from_slice(hash);
    let (port_part, epoch_part) = rest.split_at_mut(2);
    port_part.copy_from_slice(&port.to_be_bytes());
    epoch_part.copy_from_slice(&epoch.to_be_bytes());
}

/// The tag of a router over bytes, under its secret of an epoch since its boot.
#[tactic(auto, unfolding(crate::specs::Challenge::tag_of))]
pub fn router_tag(router: &RouterKey, epoch: u64, bytes: &[u8]) -> [u8; 32]
    ensures { result ≡ tag_of router.now epoch bytes.now }
{
    hmac(&secret(&router.master, router.boot, epoch), bytes)
}

fn address_in(bytes: &[u8], place: usize) -> Address
    requires { place + 40 ≤ length bytes.now }
    ensures { result ≡ address_of (take 40 (drop place bytes.now)) }
{
    Address::read(&bytes[place..place + 40]).unwrap()
}

/// The router that asks, by a challenge's body.
#[tactic(auto, unfolding(crate::specs::Challenge::asked_in))]
pub fn asked_router(body: &[u8; 154]) -> Address
    ensures { result ≡ (asked_in body.now).router }
{
    address_in(body, 0)
}

/// The source that is asked, by a challenge's body.
#[tactic(auto, unfolding(crate::specs::Challenge::asked_in))]
pub fn asked_source(body: &[u8; 154]) -> Address
    ensures { result ≡ (asked_in body.now).source }
{
    address_in(body, 40)
}

/// The hash of the packet that is asked about, by a challenge's body.
#[tactic(auto, unfolding(crate::specs::Challenge::asked_in))]
pub fn asked_hash(body: &[u8; 154]) -> [u8; 32]
    ensures { result ≡ (asked_in body.now).hash }
{
    let mut hash = [0; 32];
    hash.copy_from_slice(&body[80..112]);
    hash
}

/// The port at which the packet came, by a challenge's body.
#[tactic(auto, unfolding(crate::specs::Challenge::asked_in))]
pub fn asked_port(body: &[u8; 154]) -> u16
    ensures { result ≡ (asked_in body.now).port }
{
    BigEndian::read_u16(&body[112..114])
}

/// The epoch of the question, by a challenge's body.
#[tactic(auto, unfolding(crate::specs::Challenge::asked_in))]
pub fn asked_epoch(body: &[u8; 154]) -> u64
    ensures { result ≡ (asked_in body.now).epoch }
{
    BigEndian::read_u64(&body[114..122])
}

/// The tag of a challenge, by its body.
pub fn asked_tag(body: &[u8; 154]) -> [u8; 32]
    ensures { result ≡ take 32 (drop 122 body.now) }
{
    let mut tag = [0; 32];
    tag.copy_from_slice(&body[122..154]);
    tag
}
