//! What an event did.

/// What an accepted event answers.
#[derive(Clone, Copy, Debug, PartialEq, Eq)]
pub enum Done {
    /// A message of this number was sent.
    Message(u64),
    /// The number of facts and retirements that the node holds now and did not hold before.
    New(usize),
    /// What is held is kept.
    Kept,
    /// What was kept is held.
    Restarted,
}
