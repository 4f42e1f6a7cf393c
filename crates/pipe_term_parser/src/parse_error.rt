//! Why a list of tokens was not read.

ghost use Rattle.std.specs.Prelude.{◌≡◌};
ghost use Rattle.pipe_term_parser.specs.declared.parse_error.ParseError.TheVariants.{Memory};

use pipe_tree::Halt;
use std::alloc::{AllocError, AllocFailed};

/// Why a list of tokens has no tree.
#[derive(Drop)]
pub enum ParseError {
    Memory,
    Fault(Halt),
}

impl From<AllocError> for ParseError {
    ghost from_gives = { λ _ e. e ≡ Memory };

    fn from(_e: AllocError) -> ParseError {
        ParseError::Memory
    }
}

impl<T: Drop> From<AllocFailed<T>> for ParseError {
    ghost from_gives = { λ _ e. e ≡ Memory };

    fn from(_e: AllocFailed<T>) -> ParseError {
        ParseError::Memory
    }
}
