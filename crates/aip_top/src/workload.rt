// The command `make`: the summary of a made workload, as text.
ghost use Rattle.std.specs.Prelude.{◌≡◌, ◌≢◌, true, false, Some, IfErr};
ghost use Rattle.fault_counts.specs.Causes.{HasCause, Rose};
ghost use Rattle.aip_top.specs.Commands.{MakeOf};
ghost use Rattle.aip_top.specs.Statuses.{kind_of};
ghost use Rattle.aip_top.specs.Words.{Make};
ghost use Rattle.aip_top.specs.Workloads.{IsMadeEnd, IsSummed, workload};

use crate::status::Status;
use crate::writing::put_text;
use aip_io::Sink;
use aip_make::{MADE_LINES, made};
use std::alloc::Global;

// The lines of the summary of a workload; or the status that ends the command before anything is written.
#[tactic(auto, unfolding(crate::specs::Workloads::workload))]
fn summed_up(alloc: Global, number: u32) -> Result<Vec<u8>, Status>
    ensures summed { IsSummed (workload number) result }
    ensures early { IfErr result IsMadeEnd }
{
    match made(alloc, number, MADE_LINES) {
        Ok(summary) => match summary.text(alloc) {
            Ok(text) => Ok(text),
            Err(_) => Err(Status::Memory),
        },
        Err(end) => Err(Status::from(end)),
    }
}

/// Writes the summary of the workload of a number.
pub fn make<K: Sink>(alloc: Global, number: u32, out: &mut K) -> Status
    ensures told { MakeOf (workload number) (Rose (K.faults out.old) (K.faults out.new)) result (K.taken out.old) (K.taken out.new) }
    ensures belongs { (kind_of result).answers (Some (Make number)) ≡ true }
    ensures quiet { (kind_of result).writes (Some (Make number)) ≡ false → out.new ≡ out.old }
    ensures core { (kind_of result).gives_core (Some (Make number)) ≡ false }
    ensures unread { result ≢ Status.ReadFault }
    ensures sink { HasCause (result ≡ Status.WriteFault) (K.faults out.old) (K.faults out.new) }
{
    match summed_up(alloc, number) {
        Ok(text) => put_text(out, &text),
        Err(end) => end,
    }
}
