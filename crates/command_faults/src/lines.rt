//! Faults of a program as they are reported: by the names of its parameters and stages where the libraries have numbers.

use binding::BindFault;
use pipe_bounds::ParamFault;
use pipe_checks::CheckFault;
use pipe_tokens::Name;
use std::marker::Model;

/// The names of stages. Contracts see their list.
#[derive(Debug, Drop)]
pub struct StageNames {
    pub names: Vec<Name>,
}

impl Model for StageNames {
    ghost use Rattle.std.specs.Prelude.{List, ℕ};

    ghost Value = { List (List ℕ) };

    ghost view = { λ s. s.names.items };
}

/// What is wrong with the names, the numbers and the cycles of a program.
#[derive(Debug, Drop)]
pub enum CheckFaultLine {
    /// A fault of an item, or a missing result.
    Fault(CheckFault),
    /// Stages of which each reads the next. The last is the first again.
    Cycle(StageNames),
}

/// Why a farm gave no answer.
#[derive(Clone, Copy, Debug, PartialEq, Eq)]
pub enum FarmFaultLine {
    /// A thread could not be started.
    SpawnFailed,
    /// A node did not hold what its receipts promise.
    Close,
}

/// A parameter that was rejected.
#[derive(Debug, Drop)]
pub struct ParamFaultLine {
    pub fault: ParamFault,
    /// The name as it was supplied.
    pub name: String,
}

/// The first fault of a program and a picture that make no job.
#[derive(Debug, Drop)]
pub struct BindFaultLine {
    pub fault: BindFault,
    /// The name of the parameter or the stage that the fault blames, if it blames one.
    pub blamed: Option<Name>,
}
