//! Why a text is no script.

ghost use Rattle.std.specs.Prelude.{◌≡◌};

use fault_rows::{Fault, FaultRow, fault_row};
use std::alloc::AllocError;
use thiserror::Error;

/// The first fault of a text. Lines are counted from 1, including those that are passed over.
#[derive(Clone, Copy, Debug, PartialEq, Eq, Error)]
pub enum ScriptFault {
    /// 1: the line specifies no event, whatever jobs there are.
    #[error("line {line} tells no event")]
    BadLine { line: usize },
    /// 2: the line names a job that the catalog lacks.
    #[error("line {line} names a job that is not there")]
    NoSuchJob { line: usize },
    /// 3: there are more than 65,536 lines of events.
    #[error("too many events")]
    TooManyEvents,
    /// 4: there is no memory for the words of a line, or for its event.
    #[error("out of memory")]
    Memory,
}

impl Fault for ScriptFault {
    ghost use Rattle.gossip_events.specs.FaultTable.{number_of, name_of};

    ghost number_of = { number_of };

    ghost name_of = { name_of };

    fn row(&self) -> FaultRow {
        fault_row!(self, ScriptFault {
            BadLine { .. } = 1, NoSuchJob { .. } = 2, TooManyEvents = 3, Memory = 4,
        })
    }
}

impl From<AllocError> for ScriptFault {
    ghost use Rattle.std.specs.Prelude.{◌≡◌};
    ghost use Rattle.gossip_events.specs.declared.fault.ScriptFault.TheVariants.{Memory};

    ghost from_gives = { λ _ fault. fault ≡ Memory };

    fn from(_fault: AllocError) -> ScriptFault {
        ScriptFault::Memory
    }
}
