// The records that are kept.
ghost use Rattle.std.specs.Prelude.{◌≡◌, ◌≤◌, ℕ, List, [], ◌∷◌, false, length, IfOk, OnOk, OnErr, option_map, None, Option, if◌then◌else◌};
ghost use Rattle.aip_addr.specs.declared.ids.Id.{Id as Identity};
ghost use Rattle.aip_registry.specs.Entries.{record_at, records_in, subject_of, term_of};
ghost use Rattle.aip_registry.specs.Kept.{IsAdded, IsInOrder, after, against, has_key, has_signature, is_taken, kept_on, kept_records, newest, publication, with_record};
ghost use Rattle.aip_registry.specs.Record.{fields_in};
ghost use Rattle.aip_registry.specs.declared.records.RecordKind.{RecordKind as Kind};

use crate::published::Published;
use crate::records::{Record, RecordKind, SHORTEST, fields_in, is_record, key_in, record_text};
use aip_addr::{Id, owns};
use lms_core::verify_under;
use std::alloc::{AllocError, Global};
use std::collections::BTreeMap;
use std::marker::Model;

// What a record is about, in the order of the list.
#[derive(Clone, Copy, PartialEq, Eq, PartialOrd, Ord)]
struct Subject {
    kind: RecordKind,
    ad: Id,
    other: Id,
}

// What is kept of a record on a subject.
#[derive(Clone, Copy)]
struct Term {
    number: u64,
    until: u64,
}

/// The newest records that were published, one of each kind, AD and other. Contracts see the list of them, peerings first,
/// then by ADs, then by peers or hosts.
#[derive(Drop)]
pub struct Registry {
    terms: BTreeMap<Subject, Term>,
}

impl Model for Registry {
    ghost use Rattle.std.specs.Prelude.{List};
    ghost use Rattle.aip_registry.specs.declared.records.Record.{Record};

    ghost Value = { List Record };

    ghost use Rattle.aip_registry.specs.Entries.{records_in};

    ghost view = { λ r. records_in r.terms.entries };
}

// What a record is about.
fn subject_of(fields: &Record) -> Subject
    ensures { result ≡ subject_of fields.now }
{
    Subject {
        kind: fields.kind,
        ad: fields.ad,
        other: fields.other,
    }
}

// The record that an entry stands for.
fn record_at(subject: &Subject, term: &Term) -> Record
    ensures { result ≡ record_at (subject.now, term.now) }
{
    Record {
        kind: subject.kind,
        ad: subject.ad,
        other: subject.other,
        number: term.number,
        until: term.until,
    }
}

// Whether the key in a record owns the AD of its signer.
#[tactic(auto, unfolding(crate::specs::Kept::has_key))]
fn has_key(bytes: &[u8], fields: &Record) -> bool
    requires long { 114 ≤ length bytes.now }
    requires said { fields.now ≡ fields_in bytes.now }
    ensures { result ≡ has_key bytes.now }
{
    owns(&key_in(bytes), &fields.ad)
}

// Whether the signature in a record is valid under its key.
#[tactic(auto, unfolding(crate::specs::Kept::has_signature))]
fn has_signature(bytes: &[u8], fields: &Record) -> bool
    requires long { 114 ≤ length bytes.now }
    requires said { fields.now ≡ fields_in bytes.now }
    ensures { result ≡ has_signature bytes.now }
{
    let (_, signature) = bytes.split_at(SHORTEST);
    verify_under(&key_in(bytes), &record_text(fields), signature)
}

// The records that entries stand for, which are in order.
fn records_in(alloc: Global, terms: &BTreeMap<Subject, Term>) -> Result<Vec<Record>, AllocError>
    ensures records { IfOk result (λ records. records.items ≡ records_in terms.now.entries) }
    ensures in_order { IsInOrder (records_in terms.now.entries) }
{
    terms
        .iter()
        .map(|(subject, term)| record_at(subject, term))
        .collect(alloc)
}

impl Registry {
    /// A registry that keeps nothing yet.
    pub fn new(alloc: Global) -> Registry
        ensures nothing { result ≡ [] }
        ensures none { result ≡ kept_records [] }
    {
        Registry {
            terms: BTreeMap::new(alloc),
        }
    }

    // The number and the tick of the record that is kept on a subject.
    fn term_on(&self, subject: &Subject) -> Option<Term>
        ensures { result ≡ option_map term_of (kept_on subject.now.kind subject.now.ad subject.now.other self.now) }
    {
        self.terms.get(subject).copied()
    }

    // The tick until which the record on a subject is in force.
    fn until_on(&self, subject: &Subject) -> Option<u64>
        ensures { result ≡ option_map (λ r. r.until) (kept_on subject.now.kind subject.now.ad subject.now.other self.now) }
    {
        match self.term_on(subject) {
            Some(term) => Some(term.until),
            None => None,
        }
    }

    // Keeps a record, in place of the one on its subject if there is one.
    fn put(&mut self, fields: &Record) -> Result<(), AllocError>
        ensures kept { OnOk result (self.new ≡ with_record fields.now self.old) }
        ensures memory { OnErr result (self.new ≡ self.old) }
        ensures needs { OnErr result (kept_on fields.now.kind fields.now.ad fields.now.other self.old ≡ None) }
    {
        let term = Term {
            number: fields.number,
            until: fields.until,
        };
        self.terms.insert(subject_of(fields), term)?;
        Ok(())
    }

    // Keeps a record where none of its kind, AD and other is kept with its number or a greater one.
    fn keep(&mut self, fields: &Record) -> Result<Published, AllocError>
        ensures answer { IfOk result (λ said. said ≡ against (kept_on fields.now.kind fields.now.ad fields.now.other self.old) fields.now.number) }
        ensures kept { IfOk result (λ said. self.new ≡ (if is_taken said then with_record fields.now self.old else self.old)) }
        ensures memory { OnErr result (self.new ≡ self.old) }
        ensures needs { OnErr result (kept_on fields.now.kind fields.now.ad fields.now.other self.old ≡ None) }
    {
        match self.term_on(&subject_of(fields)) {
            Some(term) => {
                if term.number >= fields.number {
                    return Ok(Published::Old { kept: term.number });
                }
            }
            None => {}
        }
        self.put(fields)?;
        Ok(Published::Ok)
    }

    /// Publishes bytes: they are kept as a record, or the first reason why not is told, and nothing changes. The only error
    /// is want of memory; nothing changes then either, and it comes only where a record would be kept of whose kind, AD and
    /// other there is none.
    pub fn publish(&mut self, bytes: &[u8]) -> Result<Published, AllocError>
        ensures answer { IfOk result (λ said. said ≡ publication self.old bytes.now) }
        ensures kept { OnOk result (self.new ≡ after self.old bytes.now) }
        // Of all that was published, the records that are kept are the newest.
        ensures history { (published : List (List ℕ)) → self.old ≡ kept_records published
            → OnOk result (self.new ≡ kept_records (bytes.now ∷ published)) }
        ensures refused { IfOk result (λ said. is_taken said ≡ false → self.new ≡ self.old) }
        ensures memory { OnErr result (self.new ≡ self.old) }
        ensures needs { OnErr result (IsAdded self.old bytes.now) }
    {
        if !is_record(bytes) {
            return Ok(Published::Body);
        }
        let fields = fields_in(bytes);
        if !has_key(bytes, &fields) {
            return Ok(Published::Key);
        }
        if !has_signature(bytes, &fields) {
            return Ok(Published::Signature);
        }
        self.keep(&fields)
    }

    /// The tick until which the record of this kind, by this AD, on this peer or host is in force, if one is kept.
    pub fn until(&self, kind: RecordKind, ad: &Id, other: &Id) -> Option<u64>
        ensures kept { result ≡ option_map (λ r. r.until) (kept_on kind ad.now other.now self.now) }
        // It is the tick of the newest that was published.
        ensures newest { (published : List (List ℕ)) → self.now ≡ kept_records published
            → result ≡ option_map (λ r. r.until) (newest kind ad.now other.now published) }
    {
        let subject = Subject {
            kind,
            ad: *ad,
            other: *other,
        };
        self.until_on(&subject)
    }

    /// The records that are kept, peerings first, then in the order of their ADs, then of their peers or hosts. The only
    /// error is want of memory.
    pub fn list(&self, alloc: Global) -> Result<Vec<Record>, AllocError>
        ensures list { IfOk result (λ records. records.items ≡ self.now) }
        ensures in_order { IfOk result (λ records. IsInOrder records.items) }
        // Each is the newest that was published on what it is about.
        ensures newest { (published : List (List ℕ)) → self.now ≡ kept_records published
            → IfOk result (λ records. (kind : Kind) (ad other : Identity) → kept_on kind ad other records.items ≡ newest kind ad other published) }
    {
        records_in(alloc, &self.terms)
    }
}
