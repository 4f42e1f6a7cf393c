//! Stencils along rows of numbers: sums of factors and numbers of lines, and kernels that are products.
//!
//! Words: factor, tap, separable kernel.
#![tactic(auto)]

mod products;
mod quintuple;
mod row_sums;
mod separable;
mod stencil;
mod symmetric;

pub use row_sums::write_tap_sums;
pub use separable::SeparableKernel;
pub use stencil::{add_line_times_factor, add_tap_sums};
