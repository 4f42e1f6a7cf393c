#![tactic(auto)]
//! Why a tile is not computed.

ghost use Rattle.std.specs.Prelude.{◌≡◌};

use fault_rows::{Fault, FaultRow, fault_row};
use identity::Key;
use std::alloc::AllocError;
use thiserror::Error;

/// Why a tile is not computed.
#[derive(Clone, Copy, Debug, PartialEq, Eq, Error)]
pub enum EvalFault {
    /// 1: the tile of this key is needed and not supplied; it is the least such key.
    #[error("a tile that is needed is not there")]
    Missing(Key),
    /// 2: no memory was left.
    #[error("out of memory")]
    Memory,
}

impl Fault for EvalFault {
    ghost use Rattle.one_tile.specs.TileFaults.{eval_number, eval_name};

    ghost number_of = { eval_number };

    ghost name_of = { eval_name };

    fn row(&self) -> FaultRow {
        fault_row!(self, EvalFault { Missing(_) = 1, Memory = 2 })
    }
}

impl From<AllocError> for EvalFault {
    ghost use Rattle.std.specs.Prelude.{◌≡◌};
    ghost use Rattle.one_tile.specs.declared.tile_fault.EvalFault.TheVariants.{Memory};

    ghost from_gives = { λ _ fault. fault ≡ Memory };

    fn from(_fault: AllocError) -> EvalFault {
        EvalFault::Memory
    }
}
