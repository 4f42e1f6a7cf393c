#![tactic(auto)]
//! Why a text has no tree.

ghost use Rattle.std.specs.Prelude.{◌≡◌, ◌≤◌, Option, Some, None, IfSome};
ghost use Rattle.pipe_tree.specs.FaultLine.{offset_of};

use fault_rows::{Fault, FaultRow, fault_place, fault_row};
use std::alloc::AllocError;
use thiserror::Error;

/// Why a text has no tree, and where: the offset of a byte of the text, or its length.
#[derive(Clone, Copy, Debug, PartialEq, Eq, Error)]
pub enum ParseFault {
    /// 1: a byte of 128 or more, in a comment too.
    #[error("byte {0} is no ASCII character")]
    NotAscii(usize),
    /// 2: a byte that begins no token, a name of more than 32 bytes, or digits with a letter or `_` after them.
    #[error("no token begins at byte {0}")]
    BadToken(usize),
    /// 3: a token with which the tokens before it begin no program, or the end of a text that is no program.
    #[error("byte {0} is unexpected")]
    Unexpected(usize),
    /// 4: a number above 2147483647, where the grammar allows a number.
    #[error("the number at byte {0} is too big")]
    NumberTooBig(usize),
    /// 5: the token that opens a level too many.
    #[error("level {max} is passed at byte {0}", max = crate::limits::MAX_LEVELS)]
    TooDeep(usize),
    /// 6: a text of more than 65536 bytes.
    #[error("the text is longer than {0} bytes")]
    TooLong(usize),
    /// 7: one stage, parameter, case or expression node too many.
    #[error("one too many at byte {0}")]
    TooMany(usize),
    /// 8: no memory was left.
    #[error("out of memory")]
    Memory,
}

impl Fault for ParseFault {
    ghost use Rattle.pipe_tree.specs.FaultLine.{number_of, name_of};

    ghost number_of = { number_of };

    ghost name_of = { name_of };

    fn row(&self) -> FaultRow {
        fault_row!(self, ParseFault {
            NotAscii(_) = 1, BadToken(_) = 2, Unexpected(_) = 3, NumberTooBig(_) = 4, TooDeep(_) = 5, TooLong(_) = 6,
            TooMany(_) = 7, Memory = 8,
        })
    }
}

impl ParseFault {
    /// The offset of the fault. Memory has none.
    pub fn offset(&self) -> Option<usize>
        ensures { result ≡ offset_of self.now }
    {
        fault_place!(*self, ParseFault {
            NotAscii | BadToken | Unexpected | NumberTooBig | TooDeep | TooLong | TooMany
        } else Memory)
    }
}

impl From<AllocError> for ParseFault {
    ghost use Rattle.std.specs.Prelude.{◌≡◌};
    ghost use Rattle.pipe_tree.specs.declared.fault.ParseFault.TheVariants.{Memory};

    ghost from_gives = { λ _ fault. fault ≡ Memory };

    fn from(_fault: AllocError) -> ParseFault {
        ParseFault::Memory
    }
}

/// What is wrong with a list of tokens.
#[derive(Clone, Copy)]
pub enum ParseFaultKind {
    NotAscii,
    BadToken,
    Unexpected,
    NumberTooBig,
    TooDeep,
    TooMany,
}

/// A fault, and how many tokens remain at its place.
#[derive(Clone, Copy)]
pub struct Halt {
    pub kind: ParseFaultKind,
    pub remaining: usize,
}
