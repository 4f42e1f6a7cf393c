//! How a command computes its job: the schedule that the options request, and the bytes of its result. These are the one spelling of the
//! picture, and a line for each accumulator.
//!
//! Words: command job, requested schedule, result reply, total line.
#![tactic(auto)]

pub mod laws;
mod result_reply;
mod schedule;
mod totals;

pub use result_reply::make_result_reply;
pub use schedule::make_requested_schedule;
pub use totals::put_total_line_of_stage;
