//! The result of a recorded call.

use crate::event::Event;
use identity::JobId;
use tile_fact::Fact;

/// An event, and its number in the history, from 0 on.
#[derive(Debug, Drop)]
pub struct Receipt {
    pub number: u64,
    pub event: Event,
}

/// What a node lends.
#[derive(Debug, Drop)]
pub struct Loan {
    /// The facts, rising.
    pub facts: Vec<Fact>,
    /// The identities of all jobs that are retired there, rising.
    pub retired: Vec<JobId>,
    pub receipt: Receipt,
}
