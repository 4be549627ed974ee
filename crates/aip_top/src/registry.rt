// The command `registry`: the records of a file that are kept, as text.
ghost use Rattle.std.specs.Prelude.{◌≡◌, ◌⊎◌, true, false, Some, IfSome, IfOk, IfErr, IsErrOf};
ghost use Rattle.fault_counts.specs.Causes.{HasCause, Rose};
ghost use Rattle.aip_io.specs.Causes.{ReadsOnly};
ghost use Rattle.aip_records.specs.Files.{records_of};
ghost use Rattle.aip_sim.specs.Runs.{Writes};
ghost use Rattle.aip_top.specs.Commands.{RegistryOf};
ghost use Rattle.aip_top.specs.Judged.{IsOrMemory, JudgesCommand, refusal_of};
ghost use Rattle.aip_top.specs.Listings.{IsListing, IsListingEnd, listing_end, listing_of, listing_text};
ghost use Rattle.aip_top.specs.Statuses.{kind_of};
ghost use Rattle.aip_top.specs.Words.{IsNamed, RecordFiles, Registry};
ghost use Rattle.aip_top.specs.Written.{CutsShort};

use crate::status::Status;
use crate::topology::topology_under;
use crate::writing::put_text;
use aip_io::{Shelf, Sink};
use aip_records::{list_text, read_records};
use aip_topo::Topology;
use std::alloc::Global;

// The list of the records in the file of this name, over a topology; or the status that ends the command before anything is
// written.
fn list_in<S: Shelf>(
    alloc: Global,
    shelf: &mut S,
    topology: &Topology,
    records: &str,
) -> Result<Vec<u8>, Status>
    ensures listed { IfSome (S.text shelf.old records.now) (λ file. IsListing (listing_of (records_of topology.now.domains file)) result) }
    ensures early { IfErr result IsListingEnd }
    ensures counts { ReadsOnly (λ other. other ≡ records.now) (IsErrOf result Status.ReadFault)
        (S.text shelf.old) (S.faults shelf.old) (S.faults shelf.new) }
{
    match read_records(alloc, shelf, records, topology.domains.as_slice()) {
        Ok(registry) => match list_text(alloc, &registry) {
            Ok(text) => Ok(text),
            Err(_) => Err(Status::Memory),
        },
        Err(end) => Err(Status::from(end)),
    }
}

// Writes the list of the records in the file of this name, over a topology.
fn put_list<S: Shelf, K: Sink>(
    alloc: Global,
    shelf: &mut S,
    topology: &Topology,
    records: &str,
    out: &mut K,
) -> Status
    ensures writes { IfSome (S.text shelf.old records.now) (λ file. Writes CutsShort (listing_end (listing_of (records_of topology.now.domains file)))
        (listing_text (listing_of (records_of topology.now.domains file))) result (K.taken out.old) (K.taken out.new)) }
    ensures passed { (kind_of result).refuses ≡ false }
    ensures belongs { (files : RecordFiles) → (kind_of result).answers (Some (Registry files)) ≡ true }
    ensures quiet { (files : RecordFiles) → (kind_of result).writes (Some (Registry files)) ≡ false → out.new ≡ out.old }
    ensures core { (files : RecordFiles) → (kind_of result).gives_core (Some (Registry files)) ≡ false }
    ensures counts { ReadsOnly (λ other. other ≡ records.now) (result ≡ Status.ReadFault)
        (S.text shelf.old) (S.faults shelf.old) (S.faults shelf.new) }
    ensures sink { HasCause (result ≡ Status.WriteFault) (K.faults out.old) (K.faults out.new) }
{
    match list_in(alloc, shelf, topology, records) {
        Ok(text) => put_text(out, &text),
        Err(end) => end,
    }
}

/// Writes the list of the records that are kept of a record file, over a topology.
pub fn registry<S: Shelf, K: Sink>(
    alloc: Global,
    shelf: &mut S,
    topology: &str,
    records: &str,
    out: &mut K,
) -> Status
    ensures told { IfSome (S.text shelf.old topology.now) (λ told. IfSome (S.text shelf.old records.now) (λ file. RegistryOf told file
        (Rose (S.faults shelf.old topology.now) (S.faults shelf.new topology.now)
        ⊎ Rose (S.faults shelf.old records.now) (S.faults shelf.new records.now))
        (Rose (K.faults out.old) (K.faults out.new)) result (K.taken out.old) (K.taken out.new))) }
    ensures judged { IfSome (S.text shelf.old topology.now) (λ told. JudgesCommand (refusal_of told)
        (Rose (S.faults shelf.old topology.now) (S.faults shelf.new topology.now)) (out.new ≡ out.old) result) }
    ensures belongs { (kind_of result).answers (Some (Registry (record { topology = topology.now; records = records.now }))) ≡ true }
    ensures quiet { (kind_of result).writes (Some (Registry (record { topology = topology.now; records = records.now }))) ≡ false
        → out.new ≡ out.old }
    ensures core { (kind_of result).gives_core (Some (Registry (record { topology = topology.now; records = records.now }))) ≡ false }
    ensures reads { ReadsOnly (IsNamed (Some (Registry (record { topology = topology.now; records = records.now }))))
        (result ≡ Status.ReadFault) (S.text shelf.old) (S.faults shelf.old) (S.faults shelf.new) }
    ensures sink { HasCause (result ≡ Status.WriteFault) (K.faults out.old) (K.faults out.new) }
{
    match topology_under(alloc, shelf, topology) {
        Ok(topology) => put_list(alloc, shelf, &topology, records, out),
        Err(end) => end,
    }
}
