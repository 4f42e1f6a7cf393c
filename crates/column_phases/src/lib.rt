//! Functions that alternate along a row with a period of two to four columns, by their cases or by what they read. At the columns of one
//! rest by the period, a phase, such a function is a plain one: it is formed once, and computed at its own columns alone. The rows of all
//! phases are woven into one.
//!
//! Words: column phase, column phases, phase fault.
#![tactic(auto)]

mod finding;
mod formulas;
mod functions;
mod narrow_writing;
mod parts;
mod phase;
mod phase_fault;
mod tests;
mod weaving;
mod weighing;
mod wide_writing;

pub use finding::{ColumnPhases, find_column_phases};
pub use narrow_writing::write_narrow_column_phases;
pub use wide_writing::write_wide_column_phases;
