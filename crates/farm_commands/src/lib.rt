//! The command `run`: from an input to the result that a farm of nodes computes.
//!
//! Words: run stream, farm result.
#![tactic(auto)]

mod farm_faults;
mod farm_run;
mod result_run;
mod stream;

pub use farm_run::{FarmResult, compute_farm_result_of_job};
pub use result_run::FarmResultRun;
pub use stream::{compute_farm_result_of_input, run_stream};
