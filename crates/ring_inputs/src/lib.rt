//! What accumulators read while rows of stages are made: planes where they lie, and rows of functions that rings keep.
//!
//! Words: ring input, ring inputs.
#![tactic(auto)]

mod adding;
mod asking;
mod inputs;

pub use adding::add_ring_inputs_to_totals;
pub use inputs::RingInputs;
