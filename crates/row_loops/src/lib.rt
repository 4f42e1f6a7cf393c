//! Loops over rows of numbers: each place becomes what an operation makes of the numbers there.
//!
//! Words: fill row, mapped row, combination, row in place, pair map, number map, to pair, choose number.
#![tactic(auto)]

mod loops;
mod pairs;
mod row_change;

pub use loops::{
    choose_number, combine_row_in_place, combine_row_with_two_rows_in_place, fill_row,
    fill_row_counting_up, map_row_in_place, write_combination_of_three_rows,
    write_combination_of_two_rows, write_mapped_row,
};
pub use pairs::{
    AtMost, Difference, Equal, Greatest, Least, PairMap, Product, ScaledRightOperand, Sum,
    SwappedOperands,
};
pub use row_change::NumberMap;
