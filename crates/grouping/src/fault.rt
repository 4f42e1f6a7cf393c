#![tactic(auto)]
//! Why there is no schedule.

ghost use Rattle.std.specs.Prelude.{◌≡◌};

use fault_rows::{Fault, FaultRow, fault_row};
use std::alloc::AllocError;
use thiserror::Error;

/// Why a job has no schedule that inlines what is requested.
#[derive(Clone, Copy, Debug, PartialEq, Eq, Error)]
pub enum ScheduleFault {
    /// 1: the least output that is requested. Outputs are stored.
    #[error("stage {0} is an output, and cannot be inlined")]
    OutputInlined(usize),
    /// 2: no memory was left.
    #[error("out of memory")]
    Memory,
}

impl Fault for ScheduleFault {
    ghost use Rattle.grouping.specs.Faults.{schedule_number, schedule_name};

    ghost number_of = { schedule_number };

    ghost name_of = { schedule_name };

    fn row(&self) -> FaultRow {
        fault_row!(self, ScheduleFault { OutputInlined(_) = 1, Memory = 2 })
    }
}

impl From<AllocError> for ScheduleFault {
    ghost use Rattle.std.specs.Prelude.{◌≡◌};
    ghost use Rattle.grouping.specs.declared.fault.ScheduleFault.TheVariants.{Memory};

    ghost from_gives = { λ _ fault. fault ≡ Memory };

    fn from(_fault: AllocError) -> ScheduleFault {
        ScheduleFault::Memory
    }
}
