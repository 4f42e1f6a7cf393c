//! Values of jobs, a row of points at a time, from any source of the samples that are read.
//!
//! Words: source row, row source, evaluate, along row, capacity, into epilogue, separable stencil, span number,
//! operand capacity.
#![tactic(auto)]

mod areas;
mod cases;
mod finishes;
mod functions;
mod reads;
mod room;
mod rows;
mod source;
mod source_row;
mod spans;
mod stencil;

pub use functions::evaluate_function_area;
pub use room::{compute_operand_capacity_of_formula, compute_operand_capacity_of_function};
pub use row_kernels::{BufferView, RowSpan};
pub use rows::{borrow_or_evaluate_row, find_constant_along_row};
pub use source::RowSource;
pub use source_row::SourceRow;
pub use spans::find_span_number_at_position;
