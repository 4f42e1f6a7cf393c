#![tactic(auto)]
//! Why a tile has no plan.

ghost use Rattle.std.specs.Prelude.{◌≡◌};

use fault_rows::{Fault, FaultRow, fault_row};
use std::alloc::AllocError;
use thiserror::Error;

/// Why a tile has no plan.
#[derive(Clone, Copy, Debug, PartialEq, Eq, Error)]
pub enum PlanFault {
    /// 1: no function or accumulator has this tile.
    #[error("there is no such tile")]
    NoSuchTile,
    /// 2: the boxes of what is inlined into the tile have more points together than `grouping::MOST_SCRATCH`.
    #[error("the tile takes too much scratch memory")]
    ScratchTooBig,
    /// 3: no memory was left.
    #[error("out of memory")]
    Memory,
}

impl Fault for PlanFault {
    ghost use Rattle.overlap_tiles.specs.Faults.{plan_number, plan_name};

    ghost number_of = { plan_number };

    ghost name_of = { plan_name };

    fn row(&self) -> FaultRow {
        fault_row!(self, PlanFault { NoSuchTile = 1, ScratchTooBig = 2, Memory = 3 })
    }
}

impl From<AllocError> for PlanFault {
    ghost use Rattle.std.specs.Prelude.{◌≡◌};
    ghost use Rattle.overlap_tiles.specs.declared.fault.PlanFault.TheVariants.{Memory};

    ghost from_gives = { λ _ fault. fault ≡ Memory };

    fn from(_fault: AllocError) -> PlanFault {
        PlanFault::Memory
    }
}
