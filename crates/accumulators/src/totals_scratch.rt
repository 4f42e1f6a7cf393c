//! Memory in which totals are computed.

use reductions::AccumulatorBuffers;
use std::alloc::Global;
use tile_run::TileScratch;

/// Memory in which the totals over tiles are computed, reused from one to the next. Its content is unspecified between calls.
#[derive(Drop)]
pub(crate) struct TotalsScratch {
    pub(crate) scratch: TileScratch,
    pub(crate) rows: AccumulatorBuffers,
}

impl TotalsScratch {
    /// No memory yet.
    pub(crate) fn new(alloc: Global) -> TotalsScratch {
        TotalsScratch {
            scratch: TileScratch::new(alloc),
            rows: AccumulatorBuffers::new(alloc),
        }
    }
}
