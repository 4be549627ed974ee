// The command `record`: what a record says and which key signs it, and what it does to the disk.
ghost use Rattle.std.specs.Prelude.{true, false, ◌≡◌, ◌≢◌, ◌⊎◌, Err, List, ℕ, Some, find, option_map, IfSome, IfOk, IfErr, IsErrOf};
ghost use Rattle.std.specs.Option.{ForSome};
ghost use Rattle.aip_topo.specs.Steps.{names_host};
ghost use Rattle.fault_counts.specs.Causes.{HasCause, Rose};
ghost use Rattle.aip_io.specs.Causes.{ReadsOnly};
ghost use Rattle.record_signer.specs.Signed.{Signs, signed_by};
ghost use Rattle.aip_top.specs.Commands.{RecordOf, RecordDone};
ghost use Rattle.aip_top.specs.Draft.{IsDrafted};
ghost use Rattle.aip_top.specs.Judged.{IsEarly, JudgesCommand};
ghost use Rattle.aip_top.specs.Leasing.{IsBeforeDisk};
ghost use Rattle.aip_top.specs.Recording.{HasWritten, KeepsRecords, OfDraft, denial_in, drafted_by, drafted_in, drafted_of, drafted_with, domain_id, host_id, other_named};
ghost use Rattle.aip_top.specs.Statuses.{kind_of};
ghost use Rattle.aip_top.specs.Words.{IsNamed, Record as Recorded, Stated};

use crate::command::Statement;
use crate::lease::domain_named;
use crate::status::{LeaseFault, Status};
use crate::topology::topology_under;
use crate::writing::put_text;
use aip_addr::{Id, Name};
use aip_io::{Shelf, Sink};
use aip_registry::{Record, RecordKind};
use aip_topo::{Domain, Key, Part, Topology};
use lease_disk::Disk;
use lms_core::Tree;
use record_signer::sign_record;
use std::alloc::Global;

/// A record that isn't signed yet.
#[derive(Drop)]
pub struct Draft {
    /// The tree of the key that is to sign it.
    pub tree: Tree,
    /// What it says.
    pub fields: Record,
}

fn is_host_named(part: &Part, name: &Name) -> bool
    ensures { result ≡ names_host name.now part.now }
{
    match part {
        Part::Host(host) => host.name == *name,
        Part::Link(_) => false,
    }
}

fn host_id(part: Option<&Part>) -> Option<Id>
    ensures { result ≡ host_id (option_map (λ p. p.now) part.entry) }
{
    match part {
        Some(Part::Host(host)) => Some(host.eid),
        Some(Part::Link(_)) => None,
        None => None,
    }
}

fn part_named<'a>(parts: &'a [Part], name: &Name) -> Option<&'a Part>
    ensures { option_map (λ p. p.now) result ≡ find (names_host name.now) parts.now }
{
    parts.iter().find(|part| is_host_named(part, name))
}

fn domain_id(domain: Option<&Domain>) -> Option<Id>
    ensures { result ≡ domain_id (option_map (λ d. d.now) domain.entry) }
{
    match domain {
        Some(domain) => Some(domain.ad),
        None => None,
    }
}

// The id that a record is about.
fn other_named(topology: &Topology, kind: RecordKind, name: &Name) -> Option<Id>
    ensures { result ≡ other_named topology.now kind name.now }
{
    match kind {
        RecordKind::Peer => domain_id(domain_named(topology.domains.as_slice(), name)),
        RecordKind::Bind => host_id(part_named(topology.parts.as_slice(), name)),
    }
}

// A record that the key of a domain is to sign.
fn draft_by(alloc: Global, key: &Key, fields: Record) -> Result<Draft, Status>
    ensures drafted { IfOk result (IsDrafted (drafted_by key.now fields)) }
    ensures denied { IfErr result (IsEarly (denial_in (drafted_by key.now fields))) }
    ensures early { IfErr result IsBeforeDisk }
    ensures read { result ≢ Err Status.ReadFault }
{
    match key {
        Key::Given => Err(Status::Lease(LeaseFault::Keyless)),
        Key::Made(tree) => match tree.try_clone(alloc) {
            Ok(tree) => Ok(Draft { tree, fields }),
            Err(_) => Err(Status::Memory),
        },
    }
}

// A record by the domain that is to sign it, and what it is about.
fn draft_with(
    alloc: Global,
    said: &Statement,
    domain: Option<&Domain>,
    other: Option<Id>,
) -> Result<Draft, Status>
    ensures drafted { IfOk result (IsDrafted (drafted_with said.now (option_map (λ d. d.now) domain.entry) other)) }
    ensures denied { IfErr result (IsEarly (denial_in (drafted_with said.now (option_map (λ d. d.now) domain.entry) other))) }
    ensures early { IfErr result IsBeforeDisk }
    ensures read { result ≢ Err Status.ReadFault }
{
    match (domain, other) {
        (Some(domain), Some(other)) => {
            let fields = Record {
                kind: said.kind,
                ad: domain.ad,
                other,
                number: said.number,
                until: said.until,
            };
            draft_by(alloc, &domain.key, fields)
        }
        _ => Err(Status::Lease(LeaseFault::Unknown)),
    }
}

// A record in a topology.
fn draft_in(alloc: Global, topology: &Topology, said: &Statement) -> Result<Draft, Status>
    ensures drafted { IfOk result (IsDrafted (drafted_in topology.now said.now)) }
    ensures denied { IfErr result (IsEarly (denial_in (drafted_in topology.now said.now))) }
    ensures early { IfErr result IsBeforeDisk }
    ensures read { result ≢ Err Status.ReadFault }
{
    let domain = domain_named(topology.domains.as_slice(), &said.domain);
    let other = other_named(topology, said.kind, &said.other);
    draft_with(alloc, said, domain, other)
}

// A record by a topology file; or the status that ends the command before the disk is touched.
fn draft_of<S: Shelf>(
    alloc: Global,
    shelf: &mut S,
    topology: &str,
    said: &Statement,
) -> Result<Draft, Status>
    ensures drafted { IfOk result (λ d. IfSome (S.text shelf.old topology.now) (λ told. IsDrafted (drafted_of told said.now) d)) }
    ensures ended { IfErr result (λ end. IfSome (S.text shelf.old topology.now) (λ told. IsEarly (denial_in (drafted_of told said.now)) end)) }
    ensures early { IfErr result IsBeforeDisk }
    ensures counts { ReadsOnly (λ other. other ≡ topology.now) (IsErrOf result Status.ReadFault)
        (S.text shelf.old) (S.faults shelf.old) (S.faults shelf.new) }
{
    match topology_under(alloc, shelf, topology) {
        Ok(topology) => draft_in(alloc, &topology, said),
        Err(end) => Err(end),
    }
}

// Signs a record, and then writes its line.
fn put_record<K: Sink, D: Disk>(alloc: Global, out: &mut K, draft: Draft, disk: D) -> (Status, D)
    ensures done { RecordDone D.now D.may_leave D.clock D.during draft.tree draft.fields result.0 disk result.1 (K.taken out.old) (K.taken out.new) }
    ensures quiet { (HasWritten result.0 → ⊥) → out.new ≡ out.old }
    ensures late { (kind_of result.0).refuses ≡ false }
    ensures belongs { (stated : Stated) → (kind_of result.0).answers (Some (Recorded stated)) ≡ true }
    ensures meets { (stated : Stated) → (kind_of result.0).meets_disk (Some (Recorded stated)) ≡ true }
    ensures read { result.0 ≢ Status.ReadFault }
    ensures disk { HasCause (result.0 ≡ Status.DiskFault) (D.faults disk) (D.faults result.1) }
    ensures sink { HasCause (result.0 ≡ Status.WriteFault) (K.faults out.old) (K.faults out.new) }
{
    let Draft { tree, fields } = draft;
    let (signed, disk) = sign_record(alloc, disk, tree, &fields);
    match signed {
        Ok(line) => (put_text(out, line.as_slice()), disk),
        Err(fault) => (Status::from(fault), disk),
    }
}

/// Signs a record with the next leaf of the domain's lease file, and writes it as a line of hex. Nothing is written before
/// that leaf is gone in every image that a crash may leave.
pub fn issue<S: Shelf, K: Sink, D: Disk>(
    alloc: Global,
    shelf: &mut S,
    topology: &str,
    said: &Statement,
    out: &mut K,
    disk: D,
) -> (Status, D)
    ensures told { IfSome (S.text shelf.old topology.now) (λ told. OfDraft (drafted_of told said.now) (λ key r.
        RecordOf D.now D.may_leave D.clock D.during key r
        (Rose (S.faults shelf.old topology.now) (S.faults shelf.new topology.now))
        (Rose (K.faults out.old) (K.faults out.new)) (Rose (D.faults disk) (D.faults result.1))
        result.0 disk result.1 (K.taken out.old) (K.taken out.new))) }
    ensures judged { IfSome (S.text shelf.old topology.now) (λ told. JudgesCommand (denial_in (drafted_of told said.now))
        (Rose (S.faults shelf.old topology.now) (S.faults shelf.new topology.now))
        ((out.new ≡ out.old) × (result.1 ≡ disk)) result.0) }
    ensures keeps { KeepsRecords D.may_leave D.clock D.during result.0 disk result.1 }
    ensures belongs { (kind_of result.0).answers (Some (Recorded (record { topology = topology.now; said = said.now }))) ≡ true }
    ensures quiet { (kind_of result.0).writes (Some (Recorded (record { topology = topology.now; said = said.now }))) ≡ false
        → out.new ≡ out.old }
    ensures untouched { (kind_of result.0).meets_disk (Some (Recorded (record { topology = topology.now; said = said.now }))) ≡ false
        → result.1 ≡ disk }
    ensures core { (kind_of result.0).gives_core (Some (Recorded (record { topology = topology.now; said = said.now }))) ≡ false }
    ensures reads { ReadsOnly (IsNamed (Some (Recorded (record { topology = topology.now; said = said.now }))))
        (result.0 ≡ Status.ReadFault) (S.text shelf.old) (S.faults shelf.old) (S.faults shelf.new) }
    ensures sink { HasCause (result.0 ≡ Status.WriteFault) (K.faults out.old) (K.faults out.new) }
    ensures disk { HasCause (result.0 ≡ Status.DiskFault) (D.faults disk) (D.faults result.1) }
{
    match draft_of(alloc, shelf, topology, said) {
        Ok(draft) => put_record(alloc, out, draft, disk),
        Err(end) => (end, disk),
    }
}
