//! Why a line is not a table.

ghost use Rattle.std.specs.Prelude.{◌≡◌};

use fault_rows::{Fault, FaultRow, fault_row};
use std::alloc::AllocError;
use thiserror::Error;

/// The fault of a line.
#[derive(Clone, Copy, Debug, PartialEq, Eq, Error)]
pub enum TableFault {
    /// 1: the line is not `NAME LO..HI: V V V` of a table.
    #[error("no line of a table")]
    BadLine,
    /// 2: the line is that of a table, and there is no memory for its numbers.
    #[error("out of memory")]
    Memory,
}

impl Fault for TableFault {
    ghost use Rattle.tables.specs.FaultTable.{number_of, name_of};

    ghost number_of = { number_of };

    ghost name_of = { name_of };

    fn row(&self) -> FaultRow {
        fault_row!(self, TableFault { BadLine = 1, Memory = 2 })
    }
}

impl From<AllocError> for TableFault {
    ghost use Rattle.std.specs.Prelude.{◌≡◌};
    ghost use Rattle.tables.specs.declared.fault.TableFault.TheVariants.{Memory};

    ghost from_gives = { λ _ fault. fault ≡ Memory };

    fn from(_fault: AllocError) -> TableFault {
        TableFault::Memory
    }
}
