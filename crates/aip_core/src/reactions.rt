//! Why an input has no reaction.

use aip_rules::StepFault;
use std::alloc::AllocError;

/// Why an input has no reaction.
#[derive(Clone, Copy, Debug, PartialEq, Eq)]
pub enum NoReaction {
    /// The rules refuse it, with the first fault that applies.
    Fault(StepFault),
    /// There was no memory for it.
    Memory,
}

impl From<StepFault> for NoReaction {
    ghost use Rattle.std.specs.Prelude.{◌≡◌};
    ghost use Rattle.aip_core.specs.declared.reactions.NoReaction.TheVariants as no;

    ghost from_gives = { λ fault e. e ≡ no.Fault fault };

    fn from(fault: StepFault) -> Self {
        NoReaction::Fault(fault)
    }
}

impl From<AllocError> for NoReaction {
    ghost use Rattle.std.specs.Prelude.{◌≡◌};
    ghost use Rattle.aip_core.specs.declared.reactions.NoReaction.TheVariants as no;

    ghost from_gives = { λ _ e. e ≡ no.Memory };

    fn from(_: AllocError) -> Self {
        NoReaction::Memory
    }
}
