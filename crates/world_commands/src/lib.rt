//! The command `world`: the world of an input's script, and the lines that report what its nodes hold.
//!
//! Words: world stream, world input, world outcome, world node report, world node line, requested world.
#![tactic(auto)]

mod contents;
mod holding;
mod outcome;
mod outcome_lines;
mod start;
mod stream;
mod world_input;

pub use stream::world_stream;
pub use world_input::read_catalog_and_events_of_world_input;
