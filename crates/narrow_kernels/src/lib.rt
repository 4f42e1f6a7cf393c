//! Rows of numbers of 16 bits: each place becomes what a tree of operators makes of the numbers there, where that fits.
//!
//! Words: narrow row, narrow number, narrow sample, narrow tree, narrow pair, narrow reciprocal, narrow complement,
//! narrow operand, narrow unary, narrow binary, narrow ternary, narrow literal op, narrow quotient, narrow right shift,
//! narrow tap, narrow line, narrow term, narrow least, narrow greatest, narrow median, narrow difference,
//! narrow clamped difference, narrow absolute, narrow selection, narrow index column, narrow place, narrow column, narrow affine,
//! narrow extreme, narrow offset, prepend narrow addition, prepend narrow multiplication, prepend narrow right shift, narrow means,
//! narrow column sums, narrow block, narrow ninth, narrow ninths, narrow rests, narrow mean.
#![tactic(auto)]

mod narrow_affine;
mod narrow_affine_extremes;
mod narrow_affine_map;
mod narrow_affine_steps;
mod narrow_centers;
mod narrow_conversions;
mod narrow_differences;
mod narrow_divided_sums;
mod narrow_gathering;
mod narrow_maps;
mod narrow_masks;
mod narrow_means;
mod narrow_operand;
mod narrow_operators;
mod narrow_pairs;
mod narrow_quotients;
mod narrow_selection;
mod narrow_sums;
mod narrow_taps;
mod narrow_terms;
mod narrow_trees;
mod narrow_triples;

pub use narrow_affine_extremes::{
    NarrowAffineLine, NarrowExtreme, write_narrow_extremes_of_three_affine_maps,
    write_narrow_extremes_of_two_affine_maps,
};
pub use narrow_affine_map::NarrowAffineMap;
pub use narrow_centers::{NarrowCenter, add_centered_narrow_tap_sums};
pub use narrow_conversions::{
    convert_samples_to_narrow_row, narrow_row_of_wide_numbers, widen_narrow_row,
};
pub use narrow_differences::{
    NarrowClampedDifference, add_narrow_difference_sums, write_narrow_difference_sums,
};
pub use narrow_divided_sums::{add_and_divide_narrow_tap_sums, write_divided_narrow_tap_sums};
pub use narrow_gathering::gather_narrow_index_columns;
pub use narrow_masks::copy_narrow_row_where_mask_holds;
pub use narrow_means::write_narrow_means_of_nine;
pub use narrow_operand::NarrowOperand;
pub use narrow_operators::{
    write_narrow_absolute_differences, write_narrow_binary_results,
    write_narrow_literal_op_results, write_narrow_ternary_results, write_narrow_unary_results,
};
pub use narrow_selection::write_narrow_selection;
pub use narrow_sums::write_narrow_literal_op_results_of_sums;
pub use narrow_taps::{
    NarrowTap, add_narrow_tap_sums, wrap_factor_to_narrow_number, write_narrow_tap_sums,
};
pub use narrow_trees::fill_narrow_row;
pub use narrow_triples::{
    write_narrow_greatest_of_three_lines, write_narrow_least_of_three_lines,
    write_narrow_medians_of_three_lines,
};
