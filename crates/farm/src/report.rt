//! What a farm leaves.

use accumulators::Answer;
use live_nodes::ClosedNode;

/// The answer of a job, the end of each node, and how many tiles the caller's thread made for the answer.
#[derive(Drop)]
pub struct FarmReport {
    pub answer: Answer,
    pub closed: Vec<ClosedNode>,
    pub by_caller: u32,
}
