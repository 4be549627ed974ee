// How a step ends that takes no input.
use crate::engine::Core;
use aip_rules::StepFault;
use std::alloc::AllocError;

/// How a step ends that takes no input.
#[derive(Drop)]
pub enum StepEnd {
    /// The rules refuse the input. The core is as it was.
    Refused {
        /// The core that was given.
        core: Core,
        /// The first fault that applies.
        fault: StepFault,
    },
    /// There was no memory for it. The core is given up.
    Memory,
}

impl From<AllocError> for StepEnd {
    ghost use Rattle.std.specs.Prelude.{◌≡◌};
    ghost use Rattle.aip_core.specs.declared.ends.StepEnd.TheVariants.{Memory};

    ghost from_gives = { λ _ e. e ≡ Memory };

    fn from(_: AllocError) -> Self {
        StepEnd::Memory
    }
}
