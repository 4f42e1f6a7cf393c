//! What fact files hold.

use identity::JobId;
use tile_fact::Fact;

/// Identities of retired jobs, and facts.
#[derive(Debug, Drop)]
pub struct FactFileContents {
    pub retired: Vec<JobId>,
    pub facts: Vec<Fact>,
}
