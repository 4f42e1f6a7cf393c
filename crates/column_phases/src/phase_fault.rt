#![tactic(auto)]
//! Why a phase was not formed.

use std::alloc::{AllocError, AllocFailed};

/// Why a phase was not formed.
#[derive(Debug, Drop)]
pub(crate) enum PhaseFault {
    /// The function does not alternate with this period, or a number would leave its limits.
    NoPhase,
    /// Memory was refused.
    Memory,
}

impl From<AllocError> for PhaseFault {
    ghost use Rattle.std.specs.Prelude.{◌≡◌};
    ghost use Rattle.column_phases.specs.declared.phase_fault.PhaseFault.TheVariants.{Memory};

    ghost from_gives = { λ _ fault. fault ≡ Memory };

    fn from(_fault: AllocError) -> PhaseFault {
        PhaseFault::Memory
    }
}

impl<T: Drop> From<AllocFailed<T>> for PhaseFault {
    ghost use Rattle.std.specs.Prelude.{◌≡◌};
    ghost use Rattle.column_phases.specs.declared.phase_fault.PhaseFault.TheVariants.{Memory};

    ghost from_gives = { λ _ fault. fault ≡ Memory };

    fn from(_fault: AllocFailed<T>) -> PhaseFault {
        PhaseFault::Memory
    }
}
