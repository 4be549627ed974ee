// The bytes of records, and of the text that a record signs.
ghost use Rattle.std.specs.Prelude.{◌≡◌, ◌↔◌, ◌≤◌, ◌+◌, ◌++◌, ℕ, List, length, take, drop, IfOk, IfSome, IfNone, None};
ghost use Rattle.byteorder.specs.Endian.{big_bytes};
ghost use Rattle.aip_text.specs.Fields.{named};
ghost use Rattle.aip_registry.specs.declared.records.Record.{Record as Fields};
ghost use Rattle.aip_registry.specs.Record.{RecordFits, IsRecord, ReadsBack, fields_bytes, fields_in, is_record, key_in, all_kinds, kind_at, kind_byte, record_in, record_of, record_text_of, record_word, signer_in, signature_in};
ghost use Rattle.aip_registry.specs.Kept.{publication};
ghost use Rattle.aip_registry.specs.declared.published.Published.TheVariants as published;

use aip_addr::{Bytes, Id};
use byteorder::{BigEndian, ByteOrder};
use lms_core::PublicKey;
use std::alloc::{AllocError, Global};

/// The least bytes that a record has.
pub const SHORTEST: usize = 114;

/// What a record is about.
#[derive(Clone, Copy, Debug, PartialEq, Eq, PartialOrd, Ord)]
pub enum RecordKind {
    /// The signer and another domain are peers.
    Peer,
    /// A host belongs to the signer.
    Bind,
}

const KINDS: [RecordKind; 2] = [RecordKind::Peer, RecordKind::Bind];

impl RecordKind {
    /// The word of the kind in a text: `peer` or `bind`.
    pub fn word(self) -> &'static [u8]
        ensures { result.now ≡ record_word self }
    {
        match self {
            RecordKind::Peer => b"peer",
            RecordKind::Bind => b"bind",
        }
    }

    /// The kind that has the word, if one has.
    pub fn named(word: &[u8]) -> Option<RecordKind>
        ensures { result ≡ named record_word all_kinds word.now }
    {
        KINDS.iter().copied().find(|&kind| kind.word() == word)
    }
}

/// What a record says.
#[derive(Clone, Copy, Debug, PartialEq, Eq)]
pub struct Record {
    /// Whether it is a peering or a binding.
    pub kind: RecordKind,
    /// The AD of its signer.
    pub ad: Id,
    /// The peer's AD, or the host's EID.
    pub other: Id,
    /// Its number: of the records of one kind, AD and other, the one with the greatest is the newest.
    pub number: u64,
    /// The first tick at which it isn't in force any more.
    pub until: u64,
}

impl RecordKind {
    // The byte of a kind.
    fn byte(self) -> u8
        ensures { result ≡ kind_byte self }
    {
        match self {
            RecordKind::Peer => 0,
            RecordKind::Bind => 1,
        }
    }

    // The kind that a byte names.
    fn at(byte: u8) -> RecordKind
        ensures { result ≡ kind_at byte }
    {
        match byte {
            0 => RecordKind::Peer,
            _ => RecordKind::Bind,
        }
    }
}

// Writes a number and the tick until which a record is in force.
fn write_numbers(out: &mut [u8], number: u64, until: u64)
    requires { length out.old ≡ 16 }
    ensures { out.new ≡ big_bytes 8 number ++ big_bytes 8 until }
{
    let (first, second) = out.split_at_mut(8);
    first.copy_from_slice(&number.to_be_bytes());
    second.copy_from_slice(&until.to_be_bytes());
}

// Writes two ids.
fn write_ids(out: &mut [u8], ad: &Id, other: &Id)
    requires { length out.old ≡ 40 }
    ensures { out.new ≡ ad.now.bytes ++ other.now.bytes }
{
    let (first, second) = out.split_at_mut(20);
    first.copy_from_slice(&ad.bytes);
    second.copy_from_slice(&other.bytes);
}

// Writes what a record says.
#[tactic(auto, unfolding(crate::specs::Record::fields_bytes))]
fn write_fields(out: &mut [u8], fields: &Record)
    requires { length out.old ≡ 58 }
    ensures { out.new ≡ fields_bytes fields.now }
{
    let (front, rest) = out.split_at_mut(2);
    front.copy_from_slice(&[1, fields.kind.byte()]);
    let (ids, numbers) = rest.split_at_mut(40);
    write_ids(ids, &fields.ad, &fields.other);
    write_numbers(numbers, fields.number, fields.until);
}

/// The text that a domain signs to publish a record: "AIP1 record" (11 bytes), and what the record says (58): version 1
/// (1), its kind (1: 0 a peering, 1 a binding), the signer's AD (20), the peer's AD or the host's EID (20), its number (8)
/// and the tick until which it is in force (8), numbers big-endian.
pub fn record_text(fields: &Record) -> [u8; 69]
    ensures { result ≡ record_text_of fields.now }
{
    let mut text = [0; 69];
    let (title, said) = text.split_at_mut(11);
    title.copy_from_slice(b"AIP1 record");
    write_fields(said, fields);
    text
}

// An id has 20 bytes.
fn id_fits(id: &Id)
    ensures { length id.now.bytes ≡ 20 }
{
    let _bytes = id.bytes;
}

// The fields of a record have their sizes.
fn fields_fit(fields: &Record)
    ensures { RecordFits fields.now }
{
    id_fits(&fields.ad);
    id_fits(&fields.other);
    let _number = fields.number;
    let _until = fields.until;
}

/// The bytes of a record: what it says (58 bytes, as in its text), its signer's public key (56), and the signature of its
/// text to the end. The only error is want of memory.
pub fn record_bytes(
    alloc: Global,
    fields: &Record,
    key: &PublicKey,
    signature: &[u8],
) -> Result<Bytes, AllocError>
    ensures spelled { IfOk result (λ bytes. bytes ≡ record_of fields.now key.now signature.now) }
    // They are read as what they were made of.
    ensures read_back { IfOk result (λ bytes. ReadsBack bytes fields.now key.now signature.now) }
{
    fields_fit(fields);
    let mut said = [0; 58];
    write_fields(&mut said, fields);
    let mut bytes = Vec::with_capacity(alloc, SHORTEST + signature.len())?;
    bytes.extend_from_slice(&said)?;
    bytes.extend_from_slice(&key.bytes())?;
    bytes.extend_from_slice(signature)?;
    Ok(Bytes::from_vec(bytes))
}

/// Whether bytes are a record: at least 114, of version 1, a peering or a binding.
pub fn is_record(bytes: &[u8]) -> bool
    ensures { result ≡ is_record bytes.now }
{
    bytes.len() >= SHORTEST && bytes[0] == 1 && bytes[1] <= 1
}

// The id that stands at a place.
fn id_at(bytes: &[u8], place: usize) -> Id
    requires { place + 20 ≤ length bytes.now }
    ensures { result.bytes ≡ take 20 (drop place bytes.now) }
{
    let mut id = [0; 20];
    id.copy_from_slice(&bytes[place..place + 20]);
    Id { bytes: id }
}

/// The public key in a record, as an array.
pub fn key_in(bytes: &[u8]) -> [u8; 56]
    requires { 114 ≤ length bytes.now }
    ensures { result ≡ key_in bytes.now }
{
    let mut key = [0; 56];
    key.copy_from_slice(&bytes[58..SHORTEST]);
    key
}

/// What a record says.
#[tactic(auto, unfolding(crate::specs::Record::fields_in))]
pub fn fields_in(bytes: &[u8]) -> Record
    requires { 114 ≤ length bytes.now }
    ensures { result ≡ fields_in bytes.now }
{
    Record {
        kind: RecordKind::at(bytes[1]),
        ad: id_at(bytes, 2),
        other: id_at(bytes, 22),
        number: BigEndian::read_u64(&bytes[42..50]),
        until: BigEndian::read_u64(&bytes[50..58]),
    }
}

/// What a record says. None exactly where the bytes are no record: fewer than 114, of another version than 1, or neither
/// a peering nor a binding. Neither its key nor its signature is checked.
pub fn read_record(bytes: &[u8]) -> Option<Record>
    ensures found { result ≡ record_in bytes.now }
    // The bytes are the spelling of what is read.
    ensures spelled { IfSome result (λ fields. IsRecord bytes.now fields (key_in bytes.now) (signature_in bytes.now)) }
    ensures none { IfNone result ((fields : Fields) (key signature : List ℕ) → ¬ IsRecord bytes.now fields key signature) }
{
    if !is_record(bytes) {
        return None;
    }
    Some(fields_in(bytes))
}

/// The AD of the signer that a record names. None exactly where the bytes are no record, and then `Registry::publish`
/// refuses them as `Body`. Neither its key nor its signature is checked.
#[tactic(auto, using(crate::proofs::Judged::no_signer))]
pub fn signer_of(bytes: &[u8]) -> Option<Id>
    ensures signer { result ≡ signer_in bytes.now }
    ensures body { (kept : List Fields) → (result ≡ None) ↔ (publication kept bytes.now ≡ published.Body) }
{
    if !is_record(bytes) {
        return None;
    }
    Some(fields_in(bytes).ad)
}
