// A whole workload.
ghost use Rattle.std.specs.Prelude.{◌≤◌};
ghost use Rattle.aip_topo.specs.declared.topology.Topology.{Topology};
ghost use Rattle.aip_topo.specs.Reading.{topology_of};
ghost use Rattle.aip_rules.specs.Texts.{EndedRun, ran_over};
ghost use Rattle.aip_make.specs.Ends.{IsAnswer, answer_to};
ghost use Rattle.aip_make.specs.Making.{HasCome};
ghost use Rattle.aip_make.specs.Schedules.{made_schedule};
ghost use Rattle.aip_make.specs.Workload.{made_run, made_topology, made_lines};

use crate::ends::MadeEnd;
use crate::lines::{Course, sum_up, take_line};
use crate::opening::open;
use crate::summary::Summary;
use std::alloc::Global;

/// How many lines a workload has.
pub const MADE_LINES: u32 = 60_000;

/// Takes so many lines, and sums up.
pub fn play(alloc: Global, opened: Course, lines: u32) -> Result<Summary, MadeEnd>
    requires { lines ≤ made_lines }
    ensures { (topo : Topology) (whole : EndedRun) → HasCome topo opened 0 lines whole → IsAnswer (answer_to lines whole) result }
{
    let mut course = opened;
    'lines: for index in 0..lines {
        match take_line(alloc, course, index) {
            Ok(after) => course = after,
            Err(end) => return Err(end),
        }
    }
    Ok(sum_up(course, lines))
}

// Takes the lines of a workload one by one, as they are drawn.
fn taken(alloc: Global, n: u32, lines: u32) -> Result<Summary, MadeEnd>
    requires { lines ≤ made_lines }
    ensures { IsAnswer (answer_to lines (made_run n lines)) result }
{
    match open(alloc, n) {
        Ok(course) => play(alloc, course, lines),
        Err(end) => Err(end),
    }
}

/// Takes the first `lines` lines of workload number `n`, over the topology of that workload, and sums up the trace.
///
/// A topology or a line that is refused is the answer. The line is counted from 1, and behind the first that is refused
/// nothing is taken.
#[tactic(auto, using(crate::proofs::RunsSo::as_texts))]
pub fn made(alloc: Global, n: u32, lines: u32) -> Result<Summary, MadeEnd>
    requires { lines ≤ made_lines }
    // The answer is the one to the run of the made topology over the schedule of the made lines, or want of memory.
    ensures texts { IsAnswer (answer_to lines (ran_over (topology_of (made_topology n)) (made_schedule n lines))) result }
    // The same by the lines one by one: each is drawn behind the words of those before it.
    ensures lines { IsAnswer (answer_to lines (made_run n lines)) result }
{
    taken(alloc, n, lines)
}
