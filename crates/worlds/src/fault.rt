//! Why there is no world, and no events that finish a job.

ghost use Rattle.std.specs.Prelude.{◌≡◌};

use fault_rows::{Fault, FaultRow, fault_row};
use identity::Key;
use std::alloc::AllocError;
use thiserror::Error;

/// Why there is no world.
#[derive(Clone, Copy, Debug, PartialEq, Eq, Error)]
pub enum WorldFault {
    /// 1: there are not 1 to 16 nodes, or a node has more or fewer schedules than there are jobs.
    #[error("there are not 1 to 16 nodes with a schedule for each job")]
    BadCount,
    /// 2: there is no memory for the nodes.
    #[error("out of memory")]
    Memory,
}

/// Why there are no events that finish a job.
#[derive(Clone, Copy, Debug, PartialEq, Eq, Error)]
pub enum FinishFault {
    /// 1: the node does not exist.
    #[error("no such node")]
    NoSuchNode,
    /// 2: the job does not exist.
    #[error("no such job")]
    NoSuchJob,
    /// 3: the first of the tiles to be made that takes too much scratch memory.
    #[error("a tile takes too much scratch memory")]
    ScratchTooBig(Key),
    /// 4: no memory was left. For a job that is not retired.
    #[error("out of memory")]
    Memory,
    /// 5: the node has retired the job. Before `ScratchTooBig`.
    #[error("the job is retired")]
    Retired,
}

impl Fault for WorldFault {
    ghost use Rattle.worlds.specs.FaultTable.{world_number, world_name};

    ghost number_of = { world_number };

    ghost name_of = { world_name };

    fn row(&self) -> FaultRow {
        fault_row!(self, WorldFault { BadCount = 1, Memory = 2 })
    }
}

impl Fault for FinishFault {
    ghost use Rattle.worlds.specs.FaultTable.{finish_number, finish_name};

    ghost number_of = { finish_number };

    ghost name_of = { finish_name };

    fn row(&self) -> FaultRow {
        fault_row!(self, FinishFault {
            NoSuchNode = 1, NoSuchJob = 2, ScratchTooBig(_) = 3, Memory = 4, Retired = 5,
        })
    }
}

impl From<AllocError> for FinishFault {
    ghost use Rattle.std.specs.Prelude.{◌≡◌};
    ghost use Rattle.worlds.specs.declared.fault.FinishFault.TheVariants.{Memory};

    ghost from_gives = { λ _ fault. fault ≡ Memory };

    fn from(_fault: AllocError) -> FinishFault {
        FinishFault::Memory
    }
}
