// A whole run.
ghost use Rattle.std.specs.Prelude.{◌≡◌, ◌≢◌, ◌⊎◌, ℕ, List, true, false, [], Some, None, is_some, IfSome, IfOk, IfErr, OnOk, IsErrOf};
ghost use Rattle.fault_counts.specs.Causes.{HasCause, Rose};
ghost use Rattle.aip_text.specs.Lines.{most_line_bytes};
ghost use Rattle.aip_io.specs.Causes.{ReadsOnly};
ghost use Rattle.aip_io.specs.Lines.{new_lines, left_of};
ghost use Rattle.aip_topo.specs.declared.topology.Topology.{Topology};
ghost use Rattle.aip_rules.specs.Texts.{end_of, output_of, ran};
ghost use Rattle.aip_rules.specs.Promises.{ForwardsAreJustified, GuardsAreSilent, HoldsOfRun, NoLeafSignsTwice};
ghost use Rattle.aip_core.specs.StandsFor.{StandsFor};
ghost use Rattle.aip_sim.specs.Ends.{IsCutShort, gives_core, is_topology_refused, run_end_of};
ghost use Rattle.aip_sim.specs.Runs.{StandsForRun, Writes};
ghost use Rattle.aip_sim.specs.Judged.{IsUnopened, JudgesRun};
ghost use Rattle.aip_sim.specs.Turns.{HasEnded, IsOpened};

use crate::ends::RunEnd;
use crate::topologies::read_topology;
use crate::turns::{Turn, take_line};
use aip_core::Core;
use aip_io::{Lines, Shelf, Sink};
use aip_text::MOST_LINE_BYTES;
use std::alloc::Global;

// A run before its first line.
#[derive(Drop)]
struct Opened {
    core: Core,
    lines: Lines,
}

// Reads the topology, and makes what a run needs.
fn open<S: Shelf>(alloc: Global, shelf: &mut S, name: &str) -> Result<Opened, RunEnd>
    ensures core { IfOk result (λ opened. IfSome (S.text shelf.old name.now) (λ told. IsOpened told opened.core)) }
    ensures lines { IfOk result (λ opened. opened.lines ≡ new_lines most_line_bytes) }
    ensures left { IfOk result (λ opened. (text : List ℕ) → left_of text opened.lines ≡ text) }
    ensures refused { IfErr result (λ end. IfSome (S.text shelf.old name.now) (λ told. IsUnopened told end)) }
    ensures written { IfErr result (λ end. end ≢ RunEnd.WriteFault) }
    ensures known { IfErr result (λ end. gives_core end ≡ false) }
    ensures text { (other : List ℕ) → S.text shelf.new other ≡ S.text shelf.old other }
    ensures counts { ReadsOnly (λ other. other ≡ name.now) (IsErrOf result RunEnd.ReadFault)
        (S.text shelf.old) (S.faults shelf.old) (S.faults shelf.new) }
{
    let topology = read_topology(alloc, shelf, name)?;
    let lines = Lines::new(alloc, MOST_LINE_BYTES)?;
    let core = Core::new(alloc, topology)?;
    Ok(Opened { core, lines })
}

// Takes the schedule line by line.
fn play<S: Shelf, K: Sink>(
    alloc: Global,
    shelf: &mut S,
    name: &str,
    opened: Opened,
    out: &mut K,
) -> (RunEnd, Option<Core>)
    requires lines { opened.lines ≡ new_lines most_line_bytes }
    requires left { (text : List ℕ) → left_of text opened.lines ≡ text }
    ensures told { IfSome (S.text shelf.old name.now) (λ told. (topo : Topology) → StandsFor topo [] opened.core
        → HasEnded topo (ran topo told) (K.taken out.old) (K.taken out.new) result.0 result.1) }
    ensures core { is_some result.1 ≡ gives_core result.0 }
    ensures topology { is_topology_refused result.0 ≡ false }
    ensures counts { ReadsOnly (λ other. other ≡ name.now) (result.0 ≡ RunEnd.ReadFault)
        (S.text shelf.old) (S.faults shelf.old) (S.faults shelf.new) }
    ensures sink { HasCause (result.0 ≡ RunEnd.WriteFault) (K.faults out.old) (K.faults out.new) }
{
    let Opened {
        mut core,
        mut lines,
    } = opened;
    let mut number = 1;
    'turns: loop {
        match take_line(alloc, shelf, name, &mut lines, number, core, out) {
            Turn::Goes(after) => core = after,
            Turn::Ends(end, core) => return (end, core),
        }
        number += 1;
    }
}

/// Runs the schedule in the file `sched` over the topology in the file `topo`, and writes the text of its trace.
///
/// It reads the topology first, and answers where that is refused. It then takes the schedule line by line: an input's
/// lines are written before the next line is asked for, and a refused line ends the run with a refusal line. The core that
/// the run ended with comes back exactly where the schedule was taken to its end or to a refused line.
#[tactic(auto, using(crate::proofs::Promised::justified, crate::proofs::Promised::silent, crate::proofs::Promised::leaf_once))]
pub fn run<S: Shelf, K: Sink>(
    alloc: Global,
    shelf: &mut S,
    topo: &str,
    sched: &str,
    out: &mut K,
) -> (RunEnd, Option<Core>)
    // Where the texts are told, the answer is the one that the rules give for them and what was taken is the whole text; a
    // fault or want of memory leaves a first part of it.
    ensures writes { IfSome (S.text shelf.old topo.now) (λ topology. IfSome (S.text shelf.old sched.now) (λ schedule.
        Writes IsCutShort (run_end_of (end_of topology schedule)) (output_of topology schedule) result.0 (K.taken out.old) (K.taken out.new))) }
    // A topology that is refused is the answer whatever the schedule's file does.
    ensures topology { IfSome (S.text shelf.old topo.now) (λ told.
        JudgesRun told (Rose (S.faults shelf.old topo.now) (S.faults shelf.new topo.now)) (out.new ≡ out.old) result.0) }
    ensures quiet { is_topology_refused result.0 ≡ true → out.new ≡ out.old }
    // The core comes back exactly on Done and Schedule, and stands for the trace.
    ensures core { is_some result.1 ≡ gives_core result.0 }
    ensures stands { IfSome result.1 (λ core. IfSome (S.text shelf.old topo.now) (λ topology. IfSome (S.text shelf.old sched.now) (λ schedule.
        StandsForRun topology schedule core))) }
    // Whatever the answer, the trace of the two texts keeps what is promised: each forward of a checking router is justified,
    // guards are silent, and no leaf signs twice.
    ensures justified { IfSome (S.text shelf.old topo.now) (λ topology. IfSome (S.text shelf.old sched.now) (HoldsOfRun ForwardsAreJustified topology)) }
    ensures silent { IfSome (S.text shelf.old topo.now) (λ topology. IfSome (S.text shelf.old sched.now) (HoldsOfRun GuardsAreSilent topology)) }
    ensures leaf_once { IfSome (S.text shelf.old topo.now) (λ topology. IfSome (S.text shelf.old sched.now) (HoldsOfRun NoLeafSignsTwice topology)) }
    // A fault comes only where the count of one of the two files, or of the sink, rose, and no count rises at another answer.
    ensures counts { ReadsOnly (λ name. (name ≡ topo.now) ⊎ (name ≡ sched.now)) (result.0 ≡ RunEnd.ReadFault)
        (S.text shelf.old) (S.faults shelf.old) (S.faults shelf.new) }
    ensures sink { HasCause (result.0 ≡ RunEnd.WriteFault) (K.faults out.old) (K.faults out.new) }
{
    match open(alloc, shelf, topo) {
        Ok(opened) => play(alloc, shelf, sched, opened, out),
        Err(end) => (end, None),
    }
}
