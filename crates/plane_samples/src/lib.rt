//! The samples of a plane as they lie in memory.
//!
//! Words: plane samples, load sample.
#![tactic(auto)]

mod samples;

pub use samples::{PlaneSamples, SpacedBytes, SpacedPairs};
