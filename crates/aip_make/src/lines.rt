// One made line, taken.
ghost use Rattle.std.specs.Prelude.{◌≡◌, ℕ, ◌+◌, ◌<◌, IfOk, IfErr, Err, List};
ghost use Rattle.aip_topo.specs.declared.topology.Topology.{Topology};
ghost use Rattle.aip_rules.specs.declared.Entry.{Entry};
ghost use Rattle.aip_rules.specs.Texts.{EndedRun};
ghost use Rattle.aip_core.specs.StandsFor.{StandsFor};
ghost use Rattle.aip_make.specs.Ends.{IsAnswer, answer_to};
ghost use Rattle.aip_make.specs.Making.{HasCome, IsTallyOf};
ghost use Rattle.aip_make.specs.Summaries.{summary_of};
ghost use Rattle.aip_make.specs.Workload.{made_input, next_state, made_lines};

use crate::ends::MadeEnd;
use crate::summary::Summary;
use crate::tally::Tally;
use aip_core::{Core, StepEnd};
use aip_event::Input;
use aip_gen::Gen;
use sha2::Digest;
use std::alloc::{AllocError, Global};

/// A workload on its way: the network, the generator, and what was counted.
#[derive(Drop)]
pub struct Course {
    pub core: Core,
    pub words: Gen,
    pub tally: Tally,
}

// Draws the input of the line with this index.
#[tactic(auto, unfolding(crate::specs::Workload::made_input, crate::specs::Workload::next_state))]
fn draw_input(alloc: Global, words: &mut Gen, index: u32, flights: u32) -> Result<Input, AllocError>
    ensures input { IfOk result (λ input. input ≡ made_input index flights words.old) }
    ensures state { IfOk result (λ input. words.new ≡ next_state index flights words.old) }
{
    words.line(alloc, index, flights)
}

/// Takes the line with this index: draws it, steps the network, and counts.
pub fn take_line(alloc: Global, course: Course, index: u32) -> Result<Course, MadeEnd>
    requires { index < made_lines }
    ensures goes { IfOk result (λ after. (topo : Topology) (left : ℕ) (whole : EndedRun)
        → HasCome topo course index (left + 1) whole → HasCome topo after (index + 1) left whole) }
    ensures ends { IfErr result (λ end. (topo : Topology) (lines left : ℕ) (whole : EndedRun)
        → HasCome topo course index (left + 1) whole → IsAnswer (answer_to lines whole) (Err end)) }
{
    let Course {
        core,
        mut words,
        mut tally,
    } = course;
    let input = draw_input(alloc, &mut words, index, core.flights())?;
    tally.begin(alloc, &input)?;
    match core.step(alloc, input) {
        Ok((core, events)) => {
            tally.finish(alloc, events.as_slice())?;
            Ok(Course { core, words, tally })
        }
        Err(StepEnd::Refused { fault, .. }) => Err(MadeEnd::Schedule {
            line: index + 1,
            fault,
        }),
        Err(StepEnd::Memory) => Err(MadeEnd::Memory),
    }
}

/// The summary of a workload of which so many lines were taken.
pub fn sum_up(course: Course, lines: u32) -> Summary
    ensures { (topo : Topology) (tr : List Entry) → StandsFor topo tr course.core → IsTallyOf tr course.tally → result ≡ summary_of lines tr }
{
    let Course { core, tally, .. } = course;
    Summary {
        lines,
        flights: core.flights(),
        events: tally.events,
        now: core.now(),
        trace: tally.hasher.finalize(),
    }
}
