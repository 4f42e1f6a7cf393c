//! Formulas and functions along rows of points, computed in 16 bits where each number fits. Of each formula instructions are chosen once,
//! as a tree: its type says which formula it computes. Each row runs them.
//!
//! Words: narrow program, narrow function, narrow stencil, narrow case, narrow cases, narrow points.
#![tactic(auto)]

mod narrow_case;
mod narrow_cases;
mod narrow_choosing;
mod narrow_extremes;
mod narrow_points;
mod narrow_program;
mod narrow_reads;
mod narrow_running;
mod narrow_stencils;

pub use narrow_case::{NarrowCase, NarrowFunction};
pub use narrow_cases::evaluate_narrow_function;
pub use narrow_choosing::{choose_narrow_function, choose_narrow_program};
pub use narrow_program::NarrowProgram;
pub use narrow_stencils::borrow_narrow_stencil_line;
