//! Updates of what a node knows.

use crate::fact::Fact;
use identity::JobId;

/// A fact, or the retirement of a job: a node that knows of it holds no fact of that job.
#[derive(Clone, Debug, Drop, PartialEq, Eq)]
pub enum Update {
    /// The numbers of a tile.
    Fact(Fact),
    /// The identities of a job that is retired.
    Retire(JobId),
}
