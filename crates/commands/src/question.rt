//! Questions about a job alone.

/// A question about a job alone.
#[derive(Clone, Copy, Debug, PartialEq, Eq)]
pub enum JobQuestion {
    /// What its result is.
    Answer,
    /// Which program it is of, and which stages it has.
    Stages,
    /// Which functions are stored, and what that costs.
    Plan,
}
