//! Why there is no answer for a job.

ghost use Rattle.std.specs.Prelude.{◌≡◌};

use fault_rows::{Fault, FaultRow, fault_row};
use identity::Key;
use std::alloc::AllocError;
use thiserror::Error;

/// Why a state has no answer for a job. The key is the least wanted one that has a fault.
#[derive(Clone, Copy, Debug, PartialEq, Eq, Error)]
pub enum AnswerFault {
    /// 1: no fact of the key is held.
    #[error("a tile that is wanted is not held")]
    Missing(Key),
    /// 2: two facts or more of the key are held.
    #[error("several facts of a tile that is wanted are held")]
    Disputed(Key),
    /// 3: one fact of the key is held, and its kind or the count of its numbers is not that of the tile.
    #[error("a tile that is wanted is held in another shape")]
    Misshapen(Key),
    /// 4: no wanted key has a fault, and no memory was left for the answer.
    #[error("out of memory")]
    Memory,
    /// 5: the job is retired, which held facts alone do not report.
    #[error("the job is retired")]
    Retired,
}

impl Fault for AnswerFault {
    ghost use Rattle.held_facts.specs.AnswerFaults.{number_of, name_of};

    ghost number_of = { number_of };

    ghost name_of = { name_of };

    fn row(&self) -> FaultRow {
        fault_row!(self, AnswerFault {
            Missing(_) = 1, Disputed(_) = 2, Misshapen(_) = 3, Memory = 4, Retired = 5,
        })
    }
}

impl From<AllocError> for AnswerFault {
    ghost use Rattle.std.specs.Prelude.{◌≡◌};
    ghost use Rattle.held_facts.specs.declared.answer_fault.AnswerFault.TheVariants.{Memory};

    ghost from_gives = { λ _ fault. fault ≡ Memory };

    fn from(_fault: AllocError) -> AnswerFault {
        AnswerFault::Memory
    }
}
