//! How a farm is set up: how many nodes it has, for how long they work, and which faults it makes.
//!
//! Words: farm setup.
#![tactic(auto)]

mod setup;

pub use setup::{FarmSetup, Faults, MAX_NODES, MAX_PARCELS, MAX_TURNS};
