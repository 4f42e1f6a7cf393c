//! Why a farm has no answer.

ghost use Rattle.std.specs.Prelude.{◌≡◌};

use crate::refusal::FarmNodeRefusal;
use crate::start::ThreadRefusal;
use fault_rows::{Fault, FaultRow, fault_row};
use std::alloc::AllocError;
use thiserror::Error;

/// Why a farm has no answer.
#[derive(Clone, Copy, Debug, PartialEq, Eq, Error)]
pub enum FarmFault {
    /// 1: a thread could not be started. Only the start of a thread makes what it holds.
    #[error("a thread could not be started")]
    SpawnFailed(ThreadRefusal),
    /// 2: memory ran out.
    #[error("out of memory")]
    Memory,
    /// 3: the number of a receipt that does not match its node's history. Only the closing of a node makes what it holds.
    #[error("receipt {0} does not match the history")]
    Close(FarmNodeRefusal),
}

impl Fault for FarmFault {
    ghost use Rattle.farm.specs.FarmFaults.{farm_fault_number, farm_fault_name};

    ghost number_of = { farm_fault_number };

    ghost name_of = { farm_fault_name };

    fn row(&self) -> FaultRow {
        fault_row!(self, FarmFault { SpawnFailed(_) = 1, Memory = 2, Close(_) = 3 })
    }
}

impl From<AllocError> for FarmFault {
    ghost use Rattle.farm.specs.declared.fault.FarmFault.TheVariants.{Memory};

    ghost from_gives = { λ _ fault. fault ≡ Memory };

    fn from(_fault: AllocError) -> FarmFault {
        FarmFault::Memory
    }
}
