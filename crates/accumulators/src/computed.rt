#![tactic(auto)]
//! Jobs whose stored functions are computed.

use grouping::Schedule;
use job::Job;
use tile_run::StoredTiles;

/// A job with its schedule, and with those tiles of its stored functions that its answer needs.
#[derive(Clone, Copy)]
pub(crate) struct ComputedJob<'a> {
    pub(crate) job: &'a Job,
    pub(crate) schedule: &'a Schedule,
    pub(crate) stored: &'a StoredTiles,
}
