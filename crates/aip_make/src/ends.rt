use aip_rules::StepFault;
use aip_topo::{TopoEnd, TopoFault};
use std::alloc::AllocError;

/// Why a workload has no summary.
#[derive(Clone, Copy, Debug, PartialEq, Eq)]
pub enum MadeEnd {
    /// The made topology is refused.
    Topology {
        /// The number of the first refused line, from 1.
        line: u32,
        /// The first fault that applies to it.
        fault: TopoFault,
    },
    /// A made line is refused.
    Schedule {
        /// The number of the line, from 1.
        line: u32,
        /// The first fault that applies to it.
        fault: StepFault,
    },
    /// There was no memory.
    Memory,
}

impl From<AllocError> for MadeEnd {
    ghost use Rattle.std.specs.Prelude.{◌≡◌};
    ghost use Rattle.aip_make.specs.declared.ends.MadeEnd.TheVariants.{Memory};

    ghost from_gives = { λ _ end. end ≡ Memory };

    fn from(_: AllocError) -> Self {
        MadeEnd::Memory
    }
}

impl From<TopoEnd> for MadeEnd {
    ghost use Rattle.std.specs.Prelude.{◌≡◌};
    ghost use Rattle.aip_make.specs.Ends.{end_without};

    ghost from_gives = { λ refused end. end ≡ end_without refused };

    fn from(end: TopoEnd) -> Self {
        match end {
            TopoEnd::Line { line, fault } => MadeEnd::Topology { line, fault },
            TopoEnd::Memory => MadeEnd::Memory,
        }
    }
}
