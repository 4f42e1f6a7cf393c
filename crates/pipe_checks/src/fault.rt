#![tactic(auto)]
//! Why a program is rejected.

ghost use Rattle.std.specs.Prelude.{◌≡◌};

use fault_rows::{Fault, FaultRow, fault_row};
use std::alloc::AllocError;
use std::marker::Model;
use thiserror::Error;

/// Stages, by their numbers, of which each reads the next. The last is the first again. Contracts see their list.
#[derive(Debug, Drop)]
pub struct Cycle {
    pub(crate) stages: Vec<usize>,
}

impl Model for Cycle {
    ghost use Rattle.std.specs.Prelude.{List, ℕ};

    ghost Value = { List ℕ };

    ghost view = { λ c. c.stages.items };
}

impl Cycle {
    /// The numbers of the stages.
    pub fn stages(&self) -> &[usize]
        ensures { result.now ≡ self.now }
    {
        &self.stages
    }
}

/// Why a program is ill-formed. Items are numbered from 0. The first fault is a name that denotes two things, reported at the
/// first such item. Else the items are checked in order, each in the order of its text. The first place that does not have what
/// it requires is reported at its item. After that comes a missing result, and then a cycle.
#[derive(Debug, Drop, Error)]
pub enum CheckFault {
    /// 1: a name that is neither declared nor a variable of its item.
    #[error("item {0} has an unknown name")]
    Unknown(usize),
    /// 2: a name that was declared before, reported at the item that declares it again. Or a variable that equals the other
    /// variable of its item or a declared name, reported at the item of the variable.
    #[error("item {0} has a name that stands for two things")]
    Twice(usize),
    /// 3: a name of another kind than its place requires. Extents, intervals and the bounds of tests require parameters. What is
    /// read or stenciled is a plane or a function, and what is looked up is a table. The first index of a read requires the first
    /// variable of the item, and the second index the second. A test requires a variable; any other name of an expression is a
    /// variable or a parameter. Outputs are functions.
    #[error("item {0} has a name of another kind than its place wants")]
    Kind(usize),
    /// 4: a kernel with rows of unequal length, an even side or a side over 15.
    #[error("item {0} has a kernel that is no rectangle of odd sides up to 15")]
    BadKernel(usize),
    /// 5: a number that is out of its range. The factor and the divisor of an index are 1 to 16, and its addend is -4096 to 4096.
    /// The number after `/` or `%`, the divisor of a stencil and the modulus of a test are at least 1. The remainder of a test is
    /// less than its modulus. A shift is 0 to 31, and the greatest sample of an output 1 to 65535. No number of an expression or
    /// a test is above 2147483647; a text that is parsed has none that is.
    #[error("item {0} has a number that is out of range")]
    BadLiteral(usize),
    /// 6: neither an output nor an accumulator.
    #[error("there is no result")]
    NoResult,
    /// 7: stages that read each other in a cycle: a shortest cycle from the least stage that is on any. Of several cycles it is
    /// the first by the numbers of the stages.
    #[error("stages read each other in a cycle")]
    Cycle(Cycle),
    /// 8: no memory was left.
    #[error("out of memory")]
    Memory,
}

impl Fault for CheckFault {
    ghost use Rattle.pipe_checks.specs.FaultTable.{check_number, check_name};

    ghost number_of = { check_number };

    ghost name_of = { check_name };

    fn row(&self) -> FaultRow {
        fault_row!(self, CheckFault {
            Unknown(_) = 1, Twice(_) = 2, Kind(_) = 3, BadKernel(_) = 4, BadLiteral(_) = 5, NoResult = 6, Cycle(_) = 7,
            Memory = 8,
        })
    }
}

impl From<AllocError> for CheckFault {
    ghost use Rattle.std.specs.Prelude.{◌≡◌};
    ghost use Rattle.pipe_checks.specs.declared.fault.CheckFault.TheVariants.{Memory};

    ghost from_gives = { λ _ fault. fault ≡ Memory };

    fn from(_fault: AllocError) -> CheckFault {
        CheckFault::Memory
    }
}

/// The fault of one place of an item.
#[derive(Clone, Copy, Debug, PartialEq, Eq)]
pub enum Violation {
    /// A name that denotes nothing there.
    Unknown,
    /// A name of another kind than the place requires.
    Kind,
    /// A kernel that is no rectangle of odd sides up to 15.
    BadKernel,
    /// A number that is out of its range.
    BadLiteral,
}
