//! What accumulators accumulate in their bins, without tiles: values, joins of bins, and totals of whole stages.
//!
//! Words: bin, totals, reduce, accumulator buffer, accumulator tile, true partial, join into, whole.
#![tactic(auto)]

mod bin_starts;
mod bin_values;
mod bins;
mod byte_bins;
mod four_rows;
mod gather;
mod join;
mod known_bins;
mod row_bins;
mod row_buffers;
mod side_by_side;
mod whole_totals;

pub use bin_starts::create_start_bins;
pub use join::{join_all_lists_into_bins, join_into};
pub use row_buffers::AccumulatorBuffers;
pub use whole_totals::{compute_true_partial, find_accumulator_tile_area, whole};
