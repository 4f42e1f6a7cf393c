//! What nodes know, ready to be written.

ghost use Rattle.fact_lines.specs.Written.{AreCounts};
ghost use Rattle.node_state.specs.States.{facts_in, retired_in};
ghost use Rattle.std.specs.Prelude.{◌≡◌, IfOk};

use fact_lines::{FactFileCounts, count_facts_and_jobs_for_fact_file_line};
use identity::JobId;
use node_state::NodeState;
use std::alloc::{AllocError, Global};
use tile_fact::Fact;

/// The jobs that a node knows to be retired and the facts that it holds, both rising, and how many there are of each.
#[derive(Drop)]
pub struct WorldNodeReport {
    pub node: u8,
    pub retired: Vec<JobId>,
    pub facts: Vec<Fact>,
    pub counts: FactFileCounts,
    ghost counted: { AreCounts counts retired.items facts.items },
}

impl WorldNodeReport {
    /// What the state of a node has. If a file cannot count so many jobs or facts, it fails as if memory ran out.
    pub fn from_state(
        alloc: Global,
        node: u8,
        state: &NodeState,
    ) -> Result<WorldNodeReport, AllocError>
        ensures node { IfOk result (λ contents. contents.node ≡ node) }
        ensures retired { IfOk result (λ contents. contents.retired.items ≡ retired_in state.now) }
        ensures facts { IfOk result (λ contents. contents.facts.items ≡ facts_in state.now) }
    {
        let retired = state.retired().to_vec(alloc)?;
        let facts = state.held().list_facts()?;
        match count_facts_and_jobs_for_fact_file_line(&retired, &facts) {
            Some(counts) => Ok(WorldNodeReport {
                node,
                retired,
                facts,
                counts,
            }),
            None => Err(AllocError),
        }
    }
}
