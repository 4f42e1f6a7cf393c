//! Why a node does not make a tile.

ghost use Rattle.std.specs.Prelude.{◌≡◌};

use fault_rows::{Fault, FaultRow, fault_row};
use identity::Key;
use overlap_tiles::PlanFault;
use std::alloc::AllocError;
use thiserror::Error;

/// Why a node does not make a tile.
#[derive(Clone, Copy, Debug, PartialEq, Eq, Error)]
pub enum MakeFault {
    /// 1: no job has the identities that the key names.
    #[error("no job has these identities")]
    Foreign,
    /// 2: the stage is no function and no accumulator of the job, or it has no such tile.
    #[error("there is no such tile")]
    NoSuchTile,
    /// 3: of this key, the least of those whose tiles are needed and not ready, no fact is held.
    #[error("a tile that is needed is not held")]
    NeedMissing(Key),
    /// 4: of this key, the least of those whose tiles are needed and not ready, several facts are held.
    #[error("several facts of a tile that is needed are held")]
    NeedDisputed(Key),
    /// 5: of this key, the least of those whose tiles are needed and not ready, one fact is held, of another kind or count.
    #[error("the fact of a tile that is needed does not fit the tile")]
    NeedMisshapen(Key),
    /// 6: the boxes of what is inlined into the tile have more points together than `grouping::MOST_SCRATCH`.
    #[error("the tile takes too much scratch memory")]
    ScratchTooBig,
    /// 7: no memory was left.
    #[error("out of memory")]
    Memory,
    /// 8: the job is retired, which held facts alone do not report.
    #[error("the job is retired")]
    Retired,
}

impl Fault for MakeFault {
    ghost use Rattle.held_facts.specs.MakeFaults.{make_number, make_name};

    ghost number_of = { make_number };

    ghost name_of = { make_name };

    fn row(&self) -> FaultRow {
        fault_row!(self, MakeFault {
            Foreign = 1, NoSuchTile = 2, NeedMissing(_) = 3, NeedDisputed(_) = 4, NeedMisshapen(_) = 5,
            ScratchTooBig = 6, Memory = 7, Retired = 8,
        })
    }
}

impl From<AllocError> for MakeFault {
    ghost use Rattle.std.specs.Prelude.{◌≡◌};
    ghost use Rattle.held_facts.specs.declared.make_fault.MakeFault.TheVariants.{Memory};

    ghost from_gives = { λ _ fault. fault ≡ Memory };

    fn from(_fault: AllocError) -> MakeFault {
        MakeFault::Memory
    }
}

impl From<PlanFault> for MakeFault {
    ghost use Rattle.held_facts.specs.MakeFaults.{of_plan};

    ghost from_gives = { λ plan fault. fault ≡ of_plan plan };

    fn from(fault: PlanFault) -> MakeFault {
        match fault {
            PlanFault::NoSuchTile => MakeFault::NoSuchTile,
            PlanFault::ScratchTooBig => MakeFault::ScratchTooBig,
            PlanFault::Memory => MakeFault::Memory,
        }
    }
}
