//! What accumulators accumulate row by row: totals over adjacent rows, over more rows, and over rows that follow.
//!
//! Words: row total, row totals, summed.
#![tactic(auto)]

mod row_total;
mod row_totals;

pub use row_total::RowTotal;
pub use row_totals::RowTotals;
