//! In which order rows of stages are made, and how many of each stage are kept: plans, which are checked before a row is made.
//!
//! Words: row plan, row state, plan step, planned, planner, rows read.
#![tactic(auto)]

mod plan;
mod repeated_plan_steps;
mod row_plan_check;
mod row_planner;
mod row_state;
mod row_state_repeats;
mod row_state_window;
mod row_state_windows;
mod rows_read;
mod stage_rows_read;

pub use plan::{MOST_NUMBERS, PlanStep, RowPlan, make_row_plan};
pub use row_state::RowState;
