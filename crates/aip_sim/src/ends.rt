use crate::topologies::TopologyEnd;
use aip_rules::StepFault;
use aip_topo::TopoFault;
use std::alloc::AllocError;

/// How a run ends.
#[derive(Clone, Copy, Debug, PartialEq, Eq)]
pub enum RunEnd {
    /// The schedule was read to its end, and the whole text was taken.
    Done,
    /// One of the two files couldn't be read.
    ReadFault,
    /// The sink failed.
    WriteFault,
    /// The topology is refused. Nothing was written.
    Topology {
        /// The number of the first refused line, from 1.
        line: u32,
        /// The first fault that applies to it.
        fault: TopoFault,
    },
    /// A line of the schedule is refused. The whole text was taken, with the refusal line.
    Schedule {
        /// The number of the first refused line, from 1.
        line: u32,
        /// The first fault that applies to it.
        fault: StepFault,
    },
    /// There was no memory.
    Memory,
}

impl From<AllocError> for RunEnd {
    ghost use Rattle.std.specs.Prelude.{◌≡◌};
    ghost use Rattle.aip_sim.specs.declared.ends.RunEnd.TheVariants.{Memory};

    ghost from_gives = { λ _ end. end ≡ Memory };

    fn from(_: AllocError) -> Self {
        RunEnd::Memory
    }
}

impl From<TopologyEnd> for RunEnd {
    ghost use Rattle.std.specs.Prelude.{◌≡◌};
    ghost use Rattle.aip_sim.specs.Ends.{run_end_without};

    ghost from_gives = { λ without end. end ≡ run_end_without without };

    fn from(end: TopologyEnd) -> Self {
        match end {
            TopologyEnd::ReadFault => RunEnd::ReadFault,
            TopologyEnd::Refused { line, fault } => RunEnd::Topology { line, fault },
            TopologyEnd::Memory => RunEnd::Memory,
        }
    }
}
