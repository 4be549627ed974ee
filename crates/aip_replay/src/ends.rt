use aip_sim::TopologyEnd;
use aip_topo::TopoFault;
use std::alloc::AllocError;

/// How a replay ends.
#[derive(Clone, Copy, Debug, PartialEq, Eq)]
pub enum ReplayEnd {
    /// The file is the text of a trace.
    Holds,
    /// The file isn't the text of a trace.
    Wrong {
        /// The number of the first wrong line, from 1: the lines before it begin a trace, and with it they don't. One past
        /// the last line where the file only stops too early.
        line: u64,
    },
    /// One of the two files couldn't be read.
    ReadFault,
    /// The topology is refused.
    Topology {
        /// The number of the first refused line, from 1.
        line: u32,
        /// The first fault that applies to it.
        fault: TopoFault,
    },
    /// There was no memory.
    Memory,
}

impl From<AllocError> for ReplayEnd {
    ghost use Rattle.std.specs.Prelude.{◌≡◌};
    ghost use Rattle.aip_replay.specs.declared.ends.ReplayEnd.TheVariants.{Memory};

    ghost from_gives = { λ _ end. end ≡ Memory };

    fn from(_: AllocError) -> Self {
        ReplayEnd::Memory
    }
}

impl From<TopologyEnd> for ReplayEnd {
    ghost use Rattle.std.specs.Prelude.{◌≡◌};
    ghost use Rattle.aip_replay.specs.Judged.{end_without};

    ghost from_gives = { λ without end. end ≡ end_without without };

    fn from(end: TopologyEnd) -> Self {
        match end {
            TopologyEnd::ReadFault => ReplayEnd::ReadFault,
            TopologyEnd::Refused { line, fault } => ReplayEnd::Topology { line, fault },
            TopologyEnd::Memory => ReplayEnd::Memory,
        }
    }
}
