//! The commands `eval`, `check` and `plan`, and `run_command`: from the words to the exit status.
//!
//! Words: run command, eval stream, check stream, plan stream, eval check or plan, eval reply, check line, plan line.
#![tactic(auto)]

mod answer;
mod asked_job;
mod command;
mod plan_lines;
mod question;
mod reply;
mod stage_lines;
mod success;
mod task_stream;

pub use command::run_command;
pub use task_stream::{check_stream, eval_stream, plan_stream};
