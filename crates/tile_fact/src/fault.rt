//! Why bytes are not a fact file.

ghost use Rattle.std.specs.Prelude.{◌≡◌};

use fault_rows::{Fault, FaultRow, fault_place, fault_row};
use std::alloc::AllocError;
use thiserror::Error;

/// The first fault of the bytes from the left, with its offset from the first byte.
#[derive(Clone, Copy, Debug, PartialEq, Eq, Error)]
pub enum FactFault {
    /// 1: the bytes begin with neither `PTF1` nor `PTF2`: the first byte that differs from that of both.
    #[error("bad magic at {0}")]
    BadMagic(usize),
    /// 2: the bytes end before the magic, a count, or counted identities or a counted record are complete: their number.
    #[error("cut at {0}")]
    Cut(usize),
    /// 3: whole identities or a whole record that are not above those before them: their first byte.
    #[error("the order does not rise at {0}")]
    NotRising(usize),
    /// 4: a kind that is neither 0 nor 1: its byte.
    #[error("bad kind at {0}")]
    BadKind(usize),
    /// 5: more numbers than a fact may have: the first byte of their length.
    #[error("too many numbers at {0}")]
    TooLong(usize),
    /// 6: a byte after the last record: the first one.
    #[error("bytes behind the last record, at {0}")]
    TrailingBytes(usize),
    /// 7: the bytes are a fact file, and there is no memory for it.
    #[error("out of memory")]
    Memory,
    /// 8: a whole record, above the one before it, of a job that the file says is retired: its first byte.
    #[error("a fact of a retired job at {0}")]
    RetiredFact(usize),
    /// 9: `PTF2` with a count of retired jobs that is 0: the count.
    #[error("no retired job at {0}")]
    NothingRetired(usize),
}

impl Fault for FactFault {
    ghost use Rattle.tile_fact.specs.FaultTable.{number_of, name_of};

    ghost number_of = { number_of };

    ghost name_of = { name_of };

    fn row(&self) -> FaultRow {
        fault_row!(self, FactFault {
            BadMagic(_) = 1, Cut(_) = 2, NotRising(_) = 3, BadKind(_) = 4, TooLong(_) = 5, TrailingBytes(_) = 6,
            Memory = 7, RetiredFact(_) = 8, NothingRetired(_) = 9,
        })
    }
}

impl FactFault {
    ghost use Rattle.std.specs.Prelude.{◌≡◌};
    ghost use Rattle.tile_fact.specs.FaultTable.{offset_of};

    /// The place of the fault, counted from the first byte. Memory has none.
    pub fn offset(self) -> Option<usize>
        ensures { result ≡ offset_of self }
    {
        fault_place!(self, FactFault {
            BadMagic | Cut | NotRising | BadKind | TooLong | TrailingBytes | RetiredFact | NothingRetired
        } else Memory)
    }
}

impl From<AllocError> for FactFault {
    ghost use Rattle.std.specs.Prelude.{◌≡◌};
    ghost use Rattle.tile_fact.specs.declared.fault.FactFault.TheVariants.{Memory};

    ghost from_gives = { λ _ fault. fault ≡ Memory };

    fn from(_fault: AllocError) -> FactFault {
        FactFault::Memory
    }
}
