// The command `lease`: what it wants, and what it does to the disk.
ghost use Rattle.std.specs.Prelude.{true, false, ◌≡◌, ◌≢◌, ◌⊎◌, Err, ◌++◌, ◌∷◌, [], Some, codes, decimal, option_map, IfSome, IfOk, IfErr, IsErrOf, OnOk};
ghost use Rattle.hex.specs.Hex.{encode_lower};
ghost use Rattle.aip_io.specs.Causes.{ReadsOnly};
ghost use Rattle.lms_core.specs.Tree.{Key as MadeKey};
ghost use Rattle.lease_disk.specs.Images.{OnlyLooks};
ghost use Rattle.fault_counts.specs.Causes.{HasCause, Rose};
ghost use Rattle.leaf_lease.specs.Format.{FormatSays, format_failed, formatted_disk, is_already};
ghost use Rattle.std.specs.Option.{ForSome};
ghost use Rattle.aip_top.specs.Commands.{KeepsLeases, LeaseOf};
ghost use Rattle.aip_top.specs.Judged.{IsEarly, JudgesCommand};
ghost use Rattle.aip_top.specs.Leasing.{Formats, HasFresh, IsBeforeDisk, IsFormatted, KeepsOpen, LeaseSays, OfKey, asked_in, asked_of, asked_of_key, domain_named, lease_text, refusal_in};
ghost use Rattle.aip_top.specs.Statuses.{kind_of};
ghost use Rattle.aip_top.specs.Wanted.{IsWanted, Wants};
ghost use Rattle.aip_top.specs.Words.{IsNamed, Lease, Leased};
ghost use Rattle.aip_top.specs.Written.{WritesOnDone};

use crate::status::{LeaseFault, Status};
use crate::topology::topology_under;
use crate::writing::put_text;
use aip_addr::Name;
use aip_io::{Shelf, Sink};
use aip_text::{push_hex, push_number, push_space, push_text};
use aip_topo::{Domain, Key, Topology};
use leaf_lease::{FormatEnd, format};
use lease_disk::Disk;
use lms_core::Tree;
use std::alloc::{AllocError, Global};

/// What a lease wants of the disk, and its line.
#[derive(Drop)]
pub struct Wanted {
    /// The identifier I of the key.
    pub id: [u8; 16],
    /// The height of its tree, 5 or 10.
    pub height: u8,
    /// The line that is written once the file is formatted.
    pub text: Vec<u8>,
}

fn line_of(alloc: Global, id: &[u8], height: u8) -> Result<Vec<u8>, AllocError>
    ensures { IfOk result (λ text. text.items
        ≡ codes "lease" ++ (32 ∷ (encode_lower id.now ++ (32 ∷ (decimal height ++ 10 ∷ []))))) }
{
    let mut text = Vec::new(alloc);
    push_text(&mut text, b"lease")?;
    push_space(&mut text)?;
    push_hex(&mut text, id)?;
    push_space(&mut text)?;
    push_number(&mut text, height.into())?;
    push_text(&mut text, b"\n")?;
    Ok(text)
}

// What a lease of this key wants.
fn wanted_of(alloc: Global, tree: &Tree) -> Result<Wanted, AllocError>
    ensures { IfOk result (Wants tree.now) }
{
    let id = tree.id();
    let height = tree.height().levels() as u8;
    let text = line_of(alloc, &id, height)?;
    Ok(Wanted { id, height, text })
}

/// The domain of this name.
pub fn domain_named<'a>(domains: &'a [Domain], name: &Name) -> Option<&'a Domain>
    ensures { option_map (λ d. d.now) result ≡ domain_named name.now domains.now }
{
    domains.iter().find(|d| d.name == *name)
}

fn of_key(alloc: Global, key: &Key) -> Result<Wanted, Status>
    ensures wanted { IfOk result (IsWanted (asked_of_key key.now)) }
    ensures height { IfOk result (λ w. (w.height ≡ 5) ⊎ (w.height ≡ 10)) }
    ensures refused { IfErr result (IsEarly (refusal_in (asked_of_key key.now))) }
    ensures early { IfErr result IsBeforeDisk }
    ensures read { result ≢ Err Status.ReadFault }
{
    match key {
        Key::Given => Err(Status::Lease(LeaseFault::Keyless)),
        Key::Made(tree) => match wanted_of(alloc, tree) {
            Ok(wanted) => Ok(wanted),
            Err(_) => Err(Status::Memory),
        },
    }
}

fn of_domain(alloc: Global, topology: &Topology, name: &Name) -> Result<Wanted, Status>
    ensures wanted { IfOk result (IsWanted (asked_in topology.now name.now)) }
    ensures height { IfOk result (λ w. (w.height ≡ 5) ⊎ (w.height ≡ 10)) }
    ensures refused { IfErr result (IsEarly (refusal_in (asked_in topology.now name.now))) }
    ensures early { IfErr result IsBeforeDisk }
    ensures read { result ≢ Err Status.ReadFault }
{
    match domain_named(topology.domains.as_slice(), name) {
        Some(domain) => of_key(alloc, &domain.key),
        None => Err(Status::Lease(LeaseFault::Unknown)),
    }
}

// What a lease for the domain of this name wants, by a topology file; or the status that ends the command before the disk
// is touched.
fn wanted_in<S: Shelf>(
    alloc: Global,
    shelf: &mut S,
    topology: &str,
    domain: &Name,
) -> Result<Wanted, Status>
    ensures wanted { IfOk result (λ w. IfSome (S.text shelf.old topology.now) (λ told. IsWanted (asked_of told domain.now) w)) }
    ensures height { IfOk result (λ w. (w.height ≡ 5) ⊎ (w.height ≡ 10)) }
    ensures ended { IfErr result (λ end. IfSome (S.text shelf.old topology.now) (λ told. IsEarly (refusal_in (asked_of told domain.now)) end)) }
    ensures early { IfErr result IsBeforeDisk }
    ensures counts { ReadsOnly (λ other. other ≡ topology.now) (IsErrOf result Status.ReadFault)
        (S.text shelf.old) (S.faults shelf.old) (S.faults shelf.new) }
{
    match topology_under(alloc, shelf, topology) {
        Ok(topology) => of_domain(alloc, &topology, domain),
        Err(end) => Err(end),
    }
}

// Formats the disk for a key. What it says of each moment is gathered.
fn format_disk<D: Disk>(disk: D, id: [u8; 16], height: u8) -> Result<D, FormatEnd<D>>
    requires height { (height ≡ 5) ⊎ (height ≡ 10) }
    ensures says { ForSome (D.now disk) (λ file. FormatSays file result) }
    ensures untouched { is_already result ≡ true → OnlyLooks D.now D.may_leave D.clock D.during disk (formatted_disk result) }
    ensures fresh { OnOk result (HasFresh D.now D.may_leave id height disk (formatted_disk result)) }
    ensures keeps { KeepsOpen D.may_leave D.clock D.during disk (formatted_disk result) }
    ensures moments { Formats D.now D.may_leave D.clock D.during id height disk (formatted_disk result) }
    ensures cause { HasCause (format_failed result ≡ true) (D.faults disk) (D.faults (formatted_disk result)) }
{
    format(disk, id, height)
}

// Formats the disk for a key, and then writes the line.
fn put_lease<K: Sink, D: Disk>(out: &mut K, wanted: Wanted, disk: D) -> (Status, D)
    requires height { (wanted.height ≡ 5) ⊎ (wanted.height ≡ 10) }
    ensures says { LeaseSays (D.now disk) result.0 }
    ensures formatted { IsFormatted result.0 → HasFresh D.now D.may_leave wanted.id wanted.height disk result.1 }
    ensures keeps { KeepsLeases D.now D.may_leave D.clock D.during result.0 disk result.1 }
    ensures moments { Formats D.now D.may_leave D.clock D.during wanted.id wanted.height disk result.1 }
    ensures writes { WritesOnDone wanted.text.items result.0 (K.taken out.old) (K.taken out.new) }
    ensures quiet { (IsFormatted result.0 → ⊥) → out.new ≡ out.old }
    ensures late { IsBeforeDisk result.0 → ⊥ }
    ensures belongs { (leased : Leased) → (kind_of result.0).answers (Some (Lease leased)) ≡ true }
    ensures disk { HasCause (result.0 ≡ Status.DiskFault) (D.faults disk) (D.faults result.1) }
    ensures sink { HasCause (result.0 ≡ Status.WriteFault) (K.faults out.old) (K.faults out.new) }
{
    match format_disk(disk, wanted.id, wanted.height) {
        Ok(disk) => (put_text(out, &wanted.text), disk),
        Err(FormatEnd::Already { disk, id, height }) => {
            (Status::Lease(LeaseFault::Already { id, height }), disk)
        }
        Err(FormatEnd::Failed { disk }) => (Status::DiskFault, disk),
    }
}

/// Formats the disk as the lease file of a domain's key, and writes the key's identifier and height.
pub fn lease<S: Shelf, K: Sink, D: Disk>(
    alloc: Global,
    shelf: &mut S,
    topology: &str,
    domain: &Name,
    out: &mut K,
    disk: D,
) -> (Status, D)
    ensures told { IfSome (S.text shelf.old topology.now) (λ told. OfKey (asked_of told domain.now) (λ key.
        LeaseOf D.now D.may_leave D.clock D.during key
        (Rose (S.faults shelf.old topology.now) (S.faults shelf.new topology.now))
        (Rose (K.faults out.old) (K.faults out.new)) (Rose (D.faults disk) (D.faults result.1))
        result.0 disk result.1 (K.taken out.old) (K.taken out.new))) }
    ensures judged { IfSome (S.text shelf.old topology.now) (λ told. JudgesCommand (refusal_in (asked_of told domain.now))
        (Rose (S.faults shelf.old topology.now) (S.faults shelf.new topology.now))
        ((out.new ≡ out.old) × (result.1 ≡ disk)) result.0) }
    ensures keeps { KeepsLeases D.now D.may_leave D.clock D.during result.0 disk result.1 }
    ensures belongs { (kind_of result.0).answers (Some (Lease (record { topology = topology.now; domain = domain.now }))) ≡ true }
    ensures quiet { (kind_of result.0).writes (Some (Lease (record { topology = topology.now; domain = domain.now }))) ≡ false
        → out.new ≡ out.old }
    ensures untouched { (kind_of result.0).meets_disk (Some (Lease (record { topology = topology.now; domain = domain.now }))) ≡ false
        → result.1 ≡ disk }
    ensures core { (kind_of result.0).gives_core (Some (Lease (record { topology = topology.now; domain = domain.now }))) ≡ false }
    ensures reads { ReadsOnly (IsNamed (Some (Lease (record { topology = topology.now; domain = domain.now }))))
        (result.0 ≡ Status.ReadFault) (S.text shelf.old) (S.faults shelf.old) (S.faults shelf.new) }
    ensures sink { HasCause (result.0 ≡ Status.WriteFault) (K.faults out.old) (K.faults out.new) }
    ensures disk { HasCause (result.0 ≡ Status.DiskFault) (D.faults disk) (D.faults result.1) }
{
    match wanted_in(alloc, shelf, topology, domain) {
        Ok(wanted) => put_lease(out, wanted, disk),
        Err(end) => (end, disk),
    }
}
