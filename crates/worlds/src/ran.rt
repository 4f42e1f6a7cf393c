//! How far a run went.

/// How far a run went.
#[derive(Clone, Copy, Debug, PartialEq, Eq)]
pub struct Ran {
    /// How many events it processed, including refused ones.
    pub done: usize,
    /// How many of these were refused.
    pub refused: usize,
    /// Whether it stopped because memory was refused.
    pub memory: bool,
}
