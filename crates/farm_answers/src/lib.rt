//! The answer of a job from true facts: missing tiles are made, and the answer is composed from all of them.
//!
//! Words: farm answer, farm answer plan.
#![tactic(auto)]

mod completed;
mod plan;

pub use completed::{CompletedAnswer, complete_farm_answer};
