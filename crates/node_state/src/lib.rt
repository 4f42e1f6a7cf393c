//! The state of a node: the facts that it holds, the jobs that it knows to be retired, and what it answers from them.
//!
//! Words: node state, retired key.
#![tactic(auto)]

mod answering;
mod lending;
mod making;
mod state;

pub use held_facts::{AnswerFault, Known, LendFault, MakeFault, Taken};
pub use state::NodeState;
