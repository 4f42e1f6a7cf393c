//! Lists that contracts see.
//!
//! Words: sequence.
#![tactic(auto)]

mod numbers;
mod sequence;

pub use numbers::SharedSequence;
pub use sequence::Sequence;
