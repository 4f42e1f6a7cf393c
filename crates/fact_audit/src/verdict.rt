//! Verdicts on facts.

/// What an audit says of a fact.
#[derive(Clone, Copy, Debug, PartialEq, Eq)]
pub enum Verdict {
    /// No job of the catalog has the identities of the key.
    Foreign,
    /// The job has no such stage or tile, or the kind or the count of the numbers differs.
    Misshapen,
    /// The numbers are those of the tile.
    True,
    /// One of the numbers differs.
    False,
}
