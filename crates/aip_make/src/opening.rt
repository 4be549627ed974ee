// A workload before its first line.
ghost use Rattle.std.specs.Prelude.{◌≡◌, ℕ, IfOk, IfErr, Err};
ghost use Rattle.aip_topo.specs.Reading.{topology_of};
ghost use Rattle.aip_make.specs.Ends.{IsAnswer, answer_to};
ghost use Rattle.aip_make.specs.Making.{IsOpened};
ghost use Rattle.aip_make.specs.Workload.{made_over, made_run, made_topology, state_behind};

use crate::ends::MadeEnd;
use crate::lines::Course;
use crate::tally::Tally;
use aip_addr::Bytes;
use aip_core::Core;
use aip_gen::Gen;
use aip_topo::read;
use std::alloc::{AllocError, Global};

// The text of the topology, drawn from the first words of a new generator.
#[tactic(auto, unfolding(crate::specs::Workload::made_topology, crate::specs::Workload::state_behind))]
fn draw_topology(alloc: Global, n: u32) -> Result<(Bytes, Gen), AllocError>
    ensures text { IfOk result (λ drawn. drawn.0 ≡ made_topology n) }
    ensures state { IfOk result (λ drawn. drawn.1 ≡ state_behind n) }
{
    let mut words = Gen::new(n);
    let text = words.topology(alloc)?;
    Ok((text, words))
}

/// The workload over the topology that a text gives, whose lines come from this generator.
pub fn over(alloc: Global, text: &[u8], words: Gen) -> Result<Course, MadeEnd>
    ensures opened { IfOk result (IsOpened text.now words) }
    ensures ended { IfErr result (λ end. (lines : ℕ) → IsAnswer (answer_to lines (made_over (topology_of text.now) words lines)) (Err end)) }
{
    let topology = read(alloc, text)?;
    let core = Core::new(alloc, topology)?;
    let tally = Tally::new(alloc);
    Ok(Course { core, words, tally })
}

/// The workload of this number.
pub fn open(alloc: Global, n: u32) -> Result<Course, MadeEnd>
    ensures opened { IfOk result (IsOpened (made_topology n) (state_behind n)) }
    ensures ended { IfErr result (λ end. (lines : ℕ) → IsAnswer (answer_to lines (made_run n lines)) (Err end)) }
{
    let (text, words) = draw_topology(alloc, n)?;
    over(alloc, text.as_slice(), words)
}
