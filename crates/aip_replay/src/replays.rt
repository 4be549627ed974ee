// A whole replay.
ghost use Rattle.std.specs.Prelude.{◌≡◌, ◌⊎◌, ℕ, List, [], true, false, IfSome, IfOk, IfErr, IsErrOf};
ghost use Rattle.fault_counts.specs.Causes.{Rose};
ghost use Rattle.aip_text.specs.Lines.{most_line_bytes};
ghost use Rattle.aip_io.specs.Causes.{ReadsOnly};
ghost use Rattle.aip_io.specs.Lines.{new_lines, left_of};
ghost use Rattle.aip_topo.specs.declared.topology.Topology.{Topology};
ghost use Rattle.aip_topo.specs.Sound.{IsSound};
ghost use Rattle.aip_core.specs.StandsFor.{StandsFor};
ghost use Rattle.aip_replay.specs.Answers.{Answers, IsRight, IsUnread};
ghost use Rattle.aip_replay.specs.Judged.{is_topology_refused, JudgesReplay};
ghost use Rattle.aip_replay.specs.Turns.{IsOpened, IsUnopened};

use crate::ends::ReplayEnd;
use crate::turns::{Judge, Turn, take_line};
use aip_core::Core;
use aip_event::Events;
use aip_io::{Lines, Shelf};
use aip_sim::read_topology;
use aip_text::MOST_LINE_BYTES;
use std::alloc::Global;

// A replay before its first line.
#[derive(Drop)]
struct Opened {
    judge: Judge,
    lines: Lines,
}

// Reads the topology, and makes what a replay needs.
fn open<S: Shelf>(alloc: Global, shelf: &mut S, name: &str) -> Result<Opened, ReplayEnd>
    ensures judge { IfOk result (λ opened. IfSome (S.text shelf.old name.now) (λ told. IsOpened told opened.judge)) }
    ensures lines { IfOk result (λ opened. opened.lines ≡ new_lines most_line_bytes) }
    ensures left { IfOk result (λ opened. (text : List ℕ) → left_of text opened.lines ≡ text) }
    ensures refused { IfErr result (λ end. IfSome (S.text shelf.old name.now) (λ told. IsUnopened told end)) }
    ensures text { (other : List ℕ) → S.text shelf.new other ≡ S.text shelf.old other }
    ensures counts { ReadsOnly (λ other. other ≡ name.now) (IsErrOf result ReplayEnd.ReadFault)
        (S.text shelf.old) (S.faults shelf.old) (S.faults shelf.new) }
{
    let topology = read_topology(alloc, shelf, name)?;
    let lines = Lines::new(alloc, MOST_LINE_BYTES)?;
    let core = Core::new(alloc, topology)?;
    let judge = Judge {
        core,
        due: Events::new(alloc),
        seen: 0,
    };
    Ok(Opened { judge, lines })
}

// Judges the file line by line.
fn play<S: Shelf>(alloc: Global, shelf: &mut S, name: &str, opened: Opened) -> ReplayEnd
    requires lines { opened.lines ≡ new_lines most_line_bytes }
    requires left { (text : List ℕ) → left_of text opened.lines ≡ text }
    ensures told { IfSome (S.text shelf.old name.now) (λ file. (topo : Topology) → IsSound topo → StandsFor topo [] opened.judge.core
        → opened.judge.due ≡ [] → IsUnread result ⊎ IsRight topo file result) }
    ensures known { is_topology_refused result ≡ false }
    ensures counts { ReadsOnly (λ other. other ≡ name.now) (result ≡ ReplayEnd.ReadFault)
        (S.text shelf.old) (S.faults shelf.old) (S.faults shelf.new) }
{
    let Opened {
        mut judge,
        mut lines,
    } = opened;
    let mut buffer = Vec::new(alloc);
    let mut number = 1;
    'turns: loop {
        match take_line(alloc, shelf, name, &mut lines, number, judge, &mut buffer) {
            Turn::Goes(after) => judge = after,
            Turn::Ends(end) => return end,
        }
        number += 1;
    }
}

/// Judges whether the file `trace` is the text of a trace over the topology in the file `topo`.
///
/// It reads the topology first, and answers where that is refused. It then takes the file line by line, and answers at the
/// first wrong line, or at the end of the file. An empty file holds.
pub fn replay<S: Shelf>(alloc: Global, shelf: &mut S, topo: &str, trace: &str) -> ReplayEnd
    // Where the texts are told, the answer is the right one; a fault or want of memory may come first.
    ensures answers { IfSome (S.text shelf.old topo.now) (λ topology. IfSome (S.text shelf.old trace.now) (λ file.
        Answers topology file result)) }
    // A topology that is refused is the answer whatever the trace's file does.
    ensures topology { IfSome (S.text shelf.old topo.now) (λ told.
        JudgesReplay told (Rose (S.faults shelf.old topo.now) (S.faults shelf.new topo.now)) result) }
    // A fault comes only where the count of one of the two files rose, and no count rises at another answer.
    ensures counts { ReadsOnly (λ name. (name ≡ topo.now) ⊎ (name ≡ trace.now)) (result ≡ ReplayEnd.ReadFault)
        (S.text shelf.old) (S.faults shelf.old) (S.faults shelf.new) }
{
    match open(alloc, shelf, topo) {
        Ok(opened) => play(alloc, shelf, trace, opened),
        Err(end) => end,
    }
}
