ghost use Rattle.std.specs.Prelude.{◌≡◌};

use std::alloc::AllocError;
use thiserror::Error;

/// Why a line of a topology is refused.
#[derive(Clone, Copy, Debug, PartialEq, Eq, Error)]
pub enum TopoFault {
    /// It is no line of a topology.
    #[error("no line of a topology")]
    Form,
    /// Its name is already that of a domain, router or host, or its setting was set before.
    #[error("named or set before")]
    Twice,
    /// Its domain or one of its routers isn't the name of an earlier one.
    #[error("no such domain or router before")]
    Unknown,
    /// A setting, an id or a link isn't one that can be.
    #[error("out of range")]
    Range,
    /// Its id is that of an earlier one of its kind, or its key that of an earlier domain or host.
    #[error("an id or a key of another")]
    Twin,
    /// There are already as many domains, routers, hosts or links as there may be.
    #[error("too many of its kind")]
    Many,
    /// The line has too many bytes, or lies past the end of what is read.
    #[error("too long")]
    Long,
}

impl TopoFault {
    ghost use Rattle.aip_topo.specs.Faults.{number_of_fault};

    /// The number that stands for the fault, 1 to 7 in the order of the list.
    pub fn number(self) -> u64
        ensures { result ≡ number_of_fault self }
    {
        match self {
            TopoFault::Form => 1,
            TopoFault::Twice => 2,
            TopoFault::Unknown => 3,
            TopoFault::Range => 4,
            TopoFault::Twin => 5,
            TopoFault::Many => 6,
            TopoFault::Long => 7,
        }
    }
}

/// Why no topology was read.
#[derive(Clone, Copy, Debug, PartialEq, Eq, Error)]
pub enum TopoEnd {
    /// The first line that is refused, counted from 1, with the first fault that applies to it.
    #[error("line {line}: {fault}")]
    Line {
        /// The number of the line.
        line: u32,
        /// Its first fault.
        fault: TopoFault,
    },
    /// Memory ran out.
    #[error("out of memory")]
    Memory,
}

impl From<AllocError> for TopoEnd {
    ghost use Rattle.aip_topo.specs.declared.faults.TopoEnd.TheVariants as end;

    ghost from_gives = { λ _ e. e ≡ end.Memory };

    fn from(_: AllocError) -> TopoEnd {
        TopoEnd::Memory
    }
}
