// The command `run`.
ghost use Rattle.std.specs.Prelude.{◌≡◌, ◌⊎◌, Some, IfSome, option_map, is_some, true, false};
ghost use Rattle.fault_counts.specs.Causes.{HasCause, Rose};
ghost use Rattle.aip_io.specs.Causes.{ReadsOnly};
ghost use Rattle.aip_sim.specs.Judged.{end_by};
ghost use Rattle.aip_top.specs.Commands.{RunOf};
ghost use Rattle.aip_top.specs.Judged.{JudgesCommand};
ghost use Rattle.aip_top.specs.Statuses.{kind_of, status_of_run};
ghost use Rattle.aip_top.specs.Words.{IsNamed, Run};

use crate::status::Status;
use aip_core::Core;
use aip_io::{Shelf, Sink};
use std::alloc::Global;

/// Runs a schedule over a topology.
pub fn run<S: Shelf, K: Sink>(
    alloc: Global,
    shelf: &mut S,
    topology: &str,
    schedule: &str,
    out: &mut K,
) -> (Status, Option<Core>)
    ensures told { IfSome (S.text shelf.old topology.now) (λ told. IfSome (S.text shelf.old schedule.now) (λ lines.
        RunOf told lines
        (Rose (S.faults shelf.old topology.now) (S.faults shelf.new topology.now)
        ⊎ Rose (S.faults shelf.old schedule.now) (S.faults shelf.new schedule.now))
        (Rose (K.faults out.old) (K.faults out.new)) result.0 result.1 (K.taken out.old) (K.taken out.new))) }
    ensures judged { IfSome (S.text shelf.old topology.now) (λ told. JudgesCommand (option_map status_of_run (end_by told))
        (Rose (S.faults shelf.old topology.now) (S.faults shelf.new topology.now)) (out.new ≡ out.old) result.0) }
    ensures belongs { (kind_of result.0).answers (Some (Run (record { topology = topology.now; schedule = schedule.now }))) ≡ true }
    ensures quiet { (kind_of result.0).writes (Some (Run (record { topology = topology.now; schedule = schedule.now }))) ≡ false
        → out.new ≡ out.old }
    ensures core { is_some result.1 ≡ (kind_of result.0).gives_core (Some (Run (record { topology = topology.now; schedule = schedule.now }))) }
    ensures reads { ReadsOnly (IsNamed (Some (Run (record { topology = topology.now; schedule = schedule.now }))))
        (result.0 ≡ Status.ReadFault) (S.text shelf.old) (S.faults shelf.old) (S.faults shelf.new) }
    ensures sink { HasCause (result.0 ≡ Status.WriteFault) (K.faults out.old) (K.faults out.new) }
{
    let (end, core) = aip_sim::run(alloc, shelf, topology, schedule, out);
    (Status::from(end), core)
}
