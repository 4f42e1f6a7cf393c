//! Schedules: which functions of a job are inlined into the tiles that need them.
//!
//! Words: schedule, group, grouper, reader, separable, inlining, trial, stage status, identity index, box points,
//! meets case box, meets all case boxes.
#![tactic(auto)]

mod across;
mod between;
mod boxes;
mod fault;
mod greedy;
pub mod laws;
mod readers;
mod schedule;
mod standing;
mod trial;

pub use fault::ScheduleFault;
pub use schedule::Schedule;
pub use tile_boxes::{MOST_SCRATCH, find_greatest_rank, order_stages_by_rank};
