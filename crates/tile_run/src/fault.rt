#![tactic(auto)]
//! Why a run is not made.

ghost use Rattle.std.specs.Prelude.{◌≡◌};

use fault_rows::{Fault, FaultRow, fault_row};
use identity::Key;
use std::alloc::AllocError;
use thiserror::Error;

/// Why the tiles of a job are not made.
#[derive(Clone, Copy, Debug, PartialEq, Eq, Error)]
pub enum RunFault {
    /// 1: the boxes of the functions inlined into this key's tile have more points together than `grouping::MOST_SCRATCH`; those
    /// of no tile before it have.
    #[error("a tile takes too much scratch memory")]
    ScratchTooBig(Key),
    /// 2: no memory was left.
    #[error("out of memory")]
    Memory,
}

impl Fault for RunFault {
    ghost use Rattle.tile_run.specs.Faults.{run_number, run_name};

    ghost number_of = { run_number };

    ghost name_of = { run_name };

    fn row(&self) -> FaultRow {
        fault_row!(self, RunFault { ScratchTooBig(_) = 1, Memory = 2 })
    }
}

impl From<AllocError> for RunFault {
    ghost use Rattle.std.specs.Prelude.{◌≡◌};
    ghost use Rattle.tile_run.specs.declared.fault.RunFault.TheVariants.{Memory};

    ghost from_gives = { λ _ fault. fault ≡ Memory };

    fn from(_fault: AllocError) -> RunFault {
        RunFault::Memory
    }
}
