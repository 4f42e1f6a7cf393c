//! Why a text is not one of fact files.

ghost use Rattle.std.specs.Prelude.{◌≡◌};

use std::alloc::AllocError;
use thiserror::Error;
use tile_fact::FactFault;

/// The first fault of a text, by the number of its line. Lines are counted from 1, empty ones too.
#[derive(Clone, Copy, Debug, PartialEq, Eq, Error)]
pub enum FactLinesFault {
    /// The line is not empty, and is not hexadecimal digits, two for each byte.
    #[error("line {line}: bad hex")]
    BadHex { line: usize },
    /// The line is the digits of bytes that are no fact file: their first fault, with its offset in these bytes. It is
    /// never [`FactFault::Memory`].
    #[error("line {line}: {fault}")]
    BadFile { line: usize, fault: FactFault },
    /// There is no memory for a line of digits, where each line before it is empty or a fact file, or for what they hold.
    #[error("out of memory")]
    Memory,
}

impl From<AllocError> for FactLinesFault {
    ghost use Rattle.std.specs.Prelude.{◌≡◌};
    ghost use Rattle.fact_lines.specs.declared.fault.FactLinesFault.TheVariants.{Memory};

    ghost from_gives = { λ _ fault. fault ≡ Memory };

    fn from(_fault: AllocError) -> FactLinesFault {
        FactLinesFault::Memory
    }
}
