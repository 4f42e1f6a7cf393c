//! The answer of a job: the picture of its output, and the totals of its accumulators over all tiles.
//!
//! Words: answer, accumulation, tiled accumulation, running total, computed job, totals scratch, evaluate job, one thread.
#![tactic(auto)]

mod answer;
mod computed;
mod gathering;
pub mod laws;
mod parting;
mod running;
mod totals;
mod totals_scratch;

pub use answer::{Answer, Total, compute_answer_from_function_tiles, evaluate_job};
pub use partials::partial;
pub use pictures::assemble_image;
pub use reductions::{compute_true_partial, find_accumulator_tile_area, join_into, whole};
pub use running::RunningTotal;
