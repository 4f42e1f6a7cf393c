#![tactic(auto)]
//! Why a program cannot be bound to a picture.

ghost use Rattle.std.specs.Prelude.{◌≡◌};

use fault_rows::{Fault, FaultRow, fault_row};
use pipe_bounds::BoundFault;
use std::alloc::AllocError;
use thiserror::Error;

/// Why a program cannot be bound to a picture.
#[derive(Clone, Copy, Debug, PartialEq, Eq, Error)]
pub enum BindFault {
    /// 1: the program is ill-formed at the values of its parameters.
    #[error("{0}")]
    Bounds(BoundFault),
    /// 2: the picture has a different number of planes than the program names.
    #[error("the picture has another number of planes than the program names")]
    Planes,
    /// 3: a side of the picture is not the extent that the program gives it.
    #[error("the picture has other sides than the program's planes")]
    ExtentMismatch,
    /// 4: the three functions of the output have unequal sides, or a side that no picture has.
    #[error("the functions of the output make no picture")]
    OutputShapes,
    /// 5: the first stage that has too many tiles.
    #[error("stage {0} has too many tiles")]
    TooManyTiles(usize),
    /// 6: memory ran out.
    #[error("out of memory")]
    Memory,
    /// 7: the first table that does not match its declaration: it has another name, first index or number of entries, or it is
    /// missing. If too many are supplied, it is one past the last that is declared.
    #[error("table {0} is not given as the program declares it")]
    TableMismatch(usize),
}

impl Fault for BindFault {
    ghost use Rattle.binding.specs.BindFaults.{bind_number, bind_name};

    ghost number_of = { bind_number };

    ghost name_of = { bind_name };

    fn row(&self) -> FaultRow {
        fault_row!(self, BindFault {
            Bounds(_) = 1, Planes = 2, ExtentMismatch = 3, OutputShapes = 4, TooManyTiles(_) = 5, Memory = 6,
            TableMismatch(_) = 7,
        })
    }
}

impl From<AllocError> for BindFault {
    ghost use Rattle.std.specs.Prelude.{◌≡◌};
    ghost use Rattle.binding.specs.declared.fault.BindFault.TheVariants.{Memory};

    ghost from_gives = { λ _ fault. fault ≡ Memory };

    fn from(_fault: AllocError) -> BindFault {
        BindFault::Memory
    }
}
