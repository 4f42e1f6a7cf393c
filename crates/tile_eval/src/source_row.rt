#![tactic(auto)]
//! Rows of points, with the source of the samples there.

use crate::source::RowSource;
use row_kernels::RowSpan;

/// A row of points, and the source of the samples that are read there.
#[derive(Drop)]
pub struct SourceRow<'a, S: RowSource> {
    pub source: &'a S,
    pub points: RowSpan,
}
