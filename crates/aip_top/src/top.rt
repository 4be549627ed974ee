// The top call, and the commands that it obeys.
ghost use Rattle.std.specs.Prelude.{◌≡◌, ◌↔◌, ◌⊎◌, None, true, false, is_some, IfSome};
ghost use Rattle.fault_counts.specs.Causes.{HasCause, Rose};
ghost use Rattle.aip_io.specs.Causes.{ReadsOnly};
ghost use Rattle.aip_rules.specs.Promises.{ForwardsAreJustified, GuardsAreSilent, HoldsOfRun, NoLeafSignsTwice};
ghost use Rattle.aip_top.specs.Commands.{AddressOf, KeepsLeases, LeaseOf, MakeOf, RecordOf, RegistryOf, RunOf};
ghost use Rattle.aip_top.specs.Judged.{end_by, JudgesCommand};
ghost use Rattle.aip_top.specs.Leasing.{OfItsKey};
ghost use Rattle.aip_top.specs.Recording.{KeepsRecords, OfItsDraft};
ghost use Rattle.aip_top.specs.Statuses.{kind_of};
ghost use Rattle.aip_top.specs.Verdicts.{ReplayOf, TellsVerdict};
ghost use Rattle.aip_top.specs.Workloads.{workload};
ghost use Rattle.aip_top.specs.Words.{spelled, topology_in, IsNamed, OfAddress, OfLease, OfMake, OfRecord, OfRecords, OfRegistry, OfReplay, OfRun, OfTexts, OfTraces};

use crate::address::address;
use crate::command::{Command, command_of};
use crate::issue::issue;
use crate::lease::lease;
use crate::registry::registry;
use crate::replay::replay;
use crate::run::run;
use crate::status::Status;
use crate::workload::make;
use aip_core::Core;
use aip_io::{Shelf, Sink};
use lease_disk::Disk;
use std::alloc::Global;

/// Obeys the command that the words spell, over the texts of the shelf, the sink and the disk. It gives the disk back, and
/// the core that a run ended with.
///
/// `run TOPO SCHED` writes the trace of the schedule over the topology, and a refusal line where a line of the schedule is
/// refused. `address TOPO` writes the addresses of the domains, routers and hosts. `lease TOPO DOMAIN` formats the disk as
/// the lease file of the domain's key, unless it is a lease file already, and writes the key's identifier and height.
/// `record TOPO DOMAIN peer DOMAIN NUMBER UNTIL` and `record TOPO DOMAIN bind HOST NUMBER UNTIL` sign a record with the next
/// leaf of the domain's lease file, once it is gone there, and write it as a line of hex. `registry TOPO RECORDS` writes the
/// list of the newest of the records, unless a line of their file is refused. `replay TOPO TRACE` writes `holds`
/// where the file is the text of a trace over the topology, and else `wrong` and the number of its first wrong line. `make N`
/// runs workload number N and writes the summary of its trace.
#[tactic(auto, using(crate::proofs::Promised::justified, crate::proofs::Promised::silent, crate::proofs::Promised::leaf_once))]
pub fn aip<S: Shelf, K: Sink, D: Disk>(
    alloc: Global,
    words: &[String],
    shelf: &mut S,
    out: &mut K,
    disk: D,
) -> (Status, D, Option<Core>)
    // Usage comes exactly where the words spell no command, and then nothing is read. Each status belongs to its commands.
    ensures usage { (result.0 ≡ Status.Usage) ↔ (spelled words.now ≡ None) }
    ensures idle { result.0 ≡ Status.Usage → shelf.new ≡ shelf.old }
    ensures belongs { (kind_of result.0).answers (spelled words.now) ≡ true }

    // Where the kind of the status says so, the sink and the disk are as they were, their counts included.
    ensures quiet { (kind_of result.0).writes (spelled words.now) ≡ false → out.new ≡ out.old }
    ensures disk_kept { (kind_of result.0).meets_disk (spelled words.now) ≡ false → result.1 ≡ disk }

    // A fault comes only where the count of a named file, of the sink or of the disk rose in this call, and no count rises
    // at another answer.
    ensures read_fault { ReadsOnly (IsNamed (spelled words.now)) (result.0 ≡ Status.ReadFault)
        (S.text shelf.old) (S.faults shelf.old) (S.faults shelf.new) }
    ensures write_fault { HasCause (result.0 ≡ Status.WriteFault) (K.faults out.old) (K.faults out.new) }
    ensures disk_fault { HasCause (result.0 ≡ Status.DiskFault) (D.faults disk) (D.faults result.1) }

    // A topology text that by itself ends the command ends it so, but for want of memory and a counted fault of reading it.
    ensures topology { IfSome (spelled words.now) (λ command. IfSome (topology_in command) (λ name.
        IfSome (S.text shelf.old name) (λ told. JudgesCommand (end_by command told)
        (Rose (S.faults shelf.old name) (S.faults shelf.new name)) ((out.new ≡ out.old) × (result.1 ≡ disk)) result.0))) }

    // Where what a command reads is told: how it ends, what it writes, and that it comes to its end where nothing fails.
    ensures run { OfRun (spelled words.now) (λ files. OfTexts (S.text shelf.old) files (λ topology schedule.
        RunOf topology schedule
        (Rose (S.faults shelf.old files.topology) (S.faults shelf.new files.topology)
        ⊎ Rose (S.faults shelf.old files.schedule) (S.faults shelf.new files.schedule))
        (Rose (K.faults out.old) (K.faults out.new)) result.0 result.2 (K.taken out.old) (K.taken out.new))) }
    // Whatever the answer, the trace that the rules give for the two files of a run keeps what is promised: every packet that a
    // checking router forwarded, challenges excepted, has one of the four causes in earlier events; a guarded host withholds
    // exactly its packets under a shut-off in force, and each shut-off is one that it had to obey; and no leaf signs twice.
    ensures justified { OfRun (spelled words.now) (λ files. OfTexts (S.text shelf.old) files (HoldsOfRun ForwardsAreJustified)) }
    ensures silent { OfRun (spelled words.now) (λ files. OfTexts (S.text shelf.old) files (HoldsOfRun GuardsAreSilent)) }
    ensures leaf_once { OfRun (spelled words.now) (λ files. OfTexts (S.text shelf.old) files (HoldsOfRun NoLeafSignsTwice)) }
    ensures address { OfAddress (spelled words.now) (λ name. IfSome (S.text shelf.old name) (λ told. AddressOf told
        (Rose (S.faults shelf.old name) (S.faults shelf.new name))
        (Rose (K.faults out.old) (K.faults out.new)) result.0 (K.taken out.old) (K.taken out.new))) }
    ensures registry { OfRegistry (spelled words.now) (λ files. OfRecords (S.text shelf.old) files (λ topology records.
        RegistryOf topology records
        (Rose (S.faults shelf.old files.topology) (S.faults shelf.new files.topology)
        ⊎ Rose (S.faults shelf.old files.records) (S.faults shelf.new files.records))
        (Rose (K.faults out.old) (K.faults out.new)) result.0 (K.taken out.old) (K.taken out.new))) }
    ensures replay { OfReplay (spelled words.now) (λ files. OfTraces (S.text shelf.old) files (λ topology trace.
        ReplayOf topology trace
        (Rose (S.faults shelf.old files.topology) (S.faults shelf.new files.topology)
        ⊎ Rose (S.faults shelf.old files.trace) (S.faults shelf.new files.trace))
        (Rose (K.faults out.old) (K.faults out.new)) result.0 (K.taken out.old) (K.taken out.new))) }
    ensures verdict { OfReplay (spelled words.now) (λ files. TellsVerdict result.0 (K.taken out.old) (K.taken out.new)) }
    ensures lease { OfLease (spelled words.now) (λ leased. OfItsKey (S.text shelf.old) leased (λ key.
        LeaseOf D.now D.may_leave D.clock D.during key
        (Rose (S.faults shelf.old leased.topology) (S.faults shelf.new leased.topology))
        (Rose (K.faults out.old) (K.faults out.new)) (Rose (D.faults disk) (D.faults result.1))
        result.0 disk result.1 (K.taken out.old) (K.taken out.new))) }

    ensures make { OfMake (spelled words.now) (λ number. MakeOf (workload number)
        (Rose (K.faults out.old) (K.faults out.new)) result.0 (K.taken out.old) (K.taken out.new)) }
    ensures record_of { OfRecord (spelled words.now) (λ stated. OfItsDraft (S.text shelf.old) stated (λ key r.
        RecordOf D.now D.may_leave D.clock D.during key r
        (Rose (S.faults shelf.old stated.topology) (S.faults shelf.new stated.topology))
        (Rose (K.faults out.old) (K.faults out.new)) (Rose (D.faults disk) (D.faults result.1))
        result.0 disk result.1 (K.taken out.old) (K.taken out.new))) }

    // What a lease and a record leave on the disk at each moment, told or not.
    ensures lease_keeps { OfLease (spelled words.now) (λ leased.
        KeepsLeases D.now D.may_leave D.clock D.during result.0 disk result.1) }
    ensures record_keeps { OfRecord (spelled words.now) (λ stated. KeepsRecords D.may_leave D.clock D.during result.0 disk result.1) }

    // The core of a run comes back exactly on Done and Schedule.
    ensures core { is_some result.2 ≡ (kind_of result.0).gives_core (spelled words.now) }
{
    match command_of(words) {
        Some(Command::Run(words)) => {
            let topology = words.topology.as_str();
            let schedule = words.schedule.as_str();
            let (status, core) = run(alloc, shelf, topology, schedule, out);
            (status, disk, core)
        }
        Some(Command::Address(topology)) => {
            (address(alloc, shelf, topology.as_str(), out), disk, None)
        }
        Some(Command::Lease(words)) => {
            let topology = words.topology.as_str();
            let (status, disk) = lease(alloc, shelf, topology, &words.domain, out, disk);
            (status, disk, None)
        }
        Some(Command::Registry(words)) => {
            let topology = words.topology.as_str();
            let records = words.records.as_str();
            let status = registry(alloc, shelf, topology, records, out);
            (status, disk, None)
        }
        Some(Command::Record(words)) => {
            let topology = words.topology.as_str();
            let (status, disk) = issue(alloc, shelf, topology, &words.said, out, disk);
            (status, disk, None)
        }
        Some(Command::Replay(words)) => {
            let topology = words.topology.as_str();
            let status = replay(alloc, shelf, topology, words.trace.as_str(), out);
            (status, disk, None)
        }
        Some(Command::Make(number)) => (make(alloc, number, out), disk, None),
        None => (Status::Usage, disk, None),
    }
}
