//! What events do to the nodes of a world, and what follows from it, by definitions and laws alone. `worlds` runs them.
//!
//! Words: headline, step fault, accepted, truth, took.
#![tactic(auto)]

mod done;
mod fault;
pub mod laws;

pub use done::Done;
pub use fault::StepFault;
