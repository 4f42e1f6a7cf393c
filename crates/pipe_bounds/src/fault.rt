#![tactic(auto)]
//! Why a value of a parameter is rejected, or a program at the values of its parameters.

ghost use Rattle.std.specs.Prelude.{◌≡◌};

use fault_rows::{Fault, FaultRow, fault_row};
use std::alloc::AllocError;
use thiserror::Error;

/// Why a parameter was not set.
#[derive(Clone, Copy, Debug, PartialEq, Eq, Error)]
pub enum ParamFault {
    /// 1: no parameter has this name.
    #[error("no parameter has this name")]
    NoSuchParam,
    /// 2: the parameter already has a value, which it keeps.
    #[error("the parameter has a value")]
    SetTwice,
}

impl Fault for ParamFault {
    ghost use Rattle.pipe_bounds.specs.FaultTable.{param_number, param_name};

    ghost number_of = { param_number };

    ghost name_of = { param_name };

    fn row(&self) -> FaultRow {
        fault_row!(self, ParamFault { NoSuchParam = 1, SetTwice = 2 })
    }
}

/// One of the two directions of an area.
#[derive(Clone, Copy, Debug, PartialEq, Eq)]
pub enum Axis {
    Rows,
    Columns,
}

/// Why a program is ill-formed at the values of its parameters. Parameters, tables and stages are given by their numbers. The
/// first fault is reported: a parameter without a value, then the first table with a fault, then the first stage with one, then a
/// read.
#[derive(Clone, Copy, Debug, PartialEq, Eq, Error)]
pub enum BoundFault {
    /// 1: a parameter without a value.
    #[error("parameter {0} has no value")]
    ParamUnset(usize),
    /// 2: an interval whose last number is below its first, or a plane with a side less than 1.
    #[error("stage {0} has an empty domain")]
    EmptyDomain(usize),
    /// 3: an interval that leaves -16384 to 16384, more than 4096 bins, or a plane with a side over 4096.
    #[error("stage {0} has a domain that is too wide")]
    DomainTooWide(usize),
    /// 4: a read that leaves the domain of what it reads, and the least and the greatest index that it takes.
    #[error("read {read} in case {case} of stage {stage} leaves what it reads")]
    OutOfBounds {
        stage: usize,
        /// Cases are numbered from 0, and `else` has the next number.
        case: usize,
        /// Reads and stencils of a case are numbered from 0 in the order of the text.
        read: usize,
        axis: Axis,
        least: i32,
        greatest: i32,
    },
    /// 5: no memory was left.
    #[error("out of memory")]
    Memory,
    /// 6: a table whose last number is below its first.
    #[error("table {0} has no entry")]
    EmptyTable(usize),
    /// 7: a table that leaves -16384 to 16384, or has more than 4096 entries.
    #[error("table {0} is too wide")]
    TableTooWide(usize),
}

impl Fault for BoundFault {
    ghost use Rattle.pipe_bounds.specs.FaultTable.{bound_number, bound_name};

    ghost number_of = { bound_number };

    ghost name_of = { bound_name };

    fn row(&self) -> FaultRow {
        fault_row!(self, BoundFault {
            ParamUnset(_) = 1, EmptyDomain(_) = 2, DomainTooWide(_) = 3, OutOfBounds { .. } = 4, Memory = 5,
            EmptyTable(_) = 6, TableTooWide(_) = 7,
        })
    }
}

impl From<AllocError> for BoundFault {
    ghost use Rattle.std.specs.Prelude.{◌≡◌};
    ghost use Rattle.pipe_bounds.specs.declared.fault.BoundFault.TheVariants.{Memory};

    ghost from_gives = { λ _ fault. fault ≡ Memory };

    fn from(_fault: AllocError) -> BoundFault {
        BoundFault::Memory
    }
}
