//! Rows of numbers and operations on them, place by place: kernels of formulas and guards, independent of stages.
//!
//! Words: row span, buffer view, operand, epilogue, with epilogue, mask, gather, divided column, remainder, reciprocal, to row,
//! to number, at place, related, dividend.
#![tactic(auto)]

mod buffer_view;
mod changes;
mod divided_columns;
mod finish;
mod finishes;
mod gathering;
mod guards;
mod lookup;
mod operand;
mod operand_rows;
mod reciprocal;
mod row_operators;
mod row_span;
mod sample_rows;
mod values;

pub use buffer_view::BufferView;
pub use finish::Epilogue;
pub use finishes::write_operand_with_epilogue;
pub use gathering::gather_index_columns;
pub use guards::{
    RowMask, copy_row_where_mask_holds, count_columns_to_first_with_remainder, find_row_mask,
};
pub use lookup::write_table_lookups_to_row;
pub use operand::Operand;
pub use row_operators::{
    apply_unary_to_number, combine_with_scaled_operand, keep_row_where_operand_relation_holds,
    write_binary_results_to_row, write_literal_op_results_to_row,
    write_quotients_by_literal_to_row, write_ternary_results_to_row, write_unary_results_to_row,
};
pub use row_span::{RowSpan, compute_coordinate_at_place};
pub use sample_rows::{convert_samples_to_row, gather_samples};
pub use values::RowNumbers;
