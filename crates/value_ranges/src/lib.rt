//! Between which numbers the values of stages lie, and which of them are computed in 16 bits.
//!
//! Words: value range, value ranges, narrow.
#![tactic(auto)]

mod formulas;
mod functions;
mod kernels;
mod narrow_sums;
mod operands;
mod stages;
mod table_entries;
#[cfg(test)]
mod tests;
mod value_range;

pub use narrow_sums::count_narrow_steps_before_division;
pub use stages::{find_value_ranges, is_narrow_stage};
pub use value_range::{ValueRange, is_narrow_value_range};
