//! Functions that are a step of a restoring division everywhere: what is left of a dividend, less a multiple of the
//! divisor where that fits. They are written in one pass.
//!
//! Words: division step.
#![tactic(auto)]

mod digits;
mod finding;
mod reads;
mod step;
mod writing;

pub use finding::find_division_step;
pub use reads::DivisionStepRead;
pub use step::{DivisionStep, DivisionStepRest};
pub use writing::write_division_step;
