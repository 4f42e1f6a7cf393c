//! What a node answers of facts.

ghost use Rattle.std.specs.Prelude.{◌≡◌};

use identity::Key;
use std::alloc::AllocError;
use thiserror::Error;

/// Whether a fact that was taken was new.
#[derive(Clone, Copy, Debug, PartialEq, Eq)]
pub enum Taken {
    /// The fact was not held before.
    New,
    /// The fact was held already.
    Already,
    /// The fact's job is retired, which held facts alone do not report.
    Retired,
}

/// How many facts of a key are held.
#[derive(Clone, Copy, Debug, PartialEq, Eq)]
pub enum Known {
    /// None is.
    Nothing,
    /// One is.
    One,
    /// Two or more are, of which at most one can be true.
    Disputed,
    /// The key's job is retired, which held facts alone do not report.
    Retired,
}

/// Why facts are not lent.
#[derive(Clone, Copy, Debug, PartialEq, Eq, Error)]
pub enum LendFault {
    /// 1: the least of the keys of which nothing is held.
    #[error("no fact of a key is held")]
    NotHeld(Key),
    /// 2: all keys are held, and there is no memory for their facts.
    #[error("out of memory")]
    Memory,
}

impl LendFault {
    ghost use Rattle.held_facts.specs.Answers.{number_of};

    /// The fault's number, 1 or 2.
    pub fn number(self) -> u8
        ensures { result ≡ number_of self }
    {
        match self {
            LendFault::NotHeld(_) => 1,
            LendFault::Memory => 2,
        }
    }
}

impl From<AllocError> for LendFault {
    ghost use Rattle.std.specs.Prelude.{◌≡◌};
    ghost use Rattle.held_facts.specs.declared.answers.LendFault.TheVariants.{Memory};

    ghost from_gives = { λ _ fault. fault ≡ Memory };

    fn from(_fault: AllocError) -> LendFault {
        LendFault::Memory
    }
}
