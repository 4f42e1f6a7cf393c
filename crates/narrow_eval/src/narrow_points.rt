#![tactic(auto)]
//! Rows of points, with the source of the samples there.

use narrow_sums::NarrowSource;
use row_kernels::RowSpan;

/// A row of points, and the source of the samples that are read there.
#[derive(Drop)]
pub(crate) struct NarrowPoints<'a, S: NarrowSource> {
    pub(crate) source: &'a S,
    pub(crate) points: RowSpan,
}
