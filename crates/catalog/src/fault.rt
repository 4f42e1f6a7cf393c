//! Why a job is not admitted.

use thiserror::Error;

/// The first reason that applies, in this order.
#[derive(Clone, Copy, Debug, PartialEq, Eq, Error)]
pub enum AdmitFault {
    /// The job is in the catalog already: the same bytes are hashed of the one at this index.
    #[error("the job is there already, at {0}")]
    Same(usize),
    /// The job at this index has the same identities, but other bytes are hashed of it.
    #[error("another job at {0} has the same identities")]
    Clash(usize),
    /// The catalog has 16 jobs.
    #[error("the catalog is full")]
    Full,
    /// There is no memory for one more.
    #[error("out of memory")]
    Memory,
}
