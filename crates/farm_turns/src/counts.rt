//! What a worker counts.

use crate::period::ParcelPeriodCounter;

/// What a worker counts from turn to turn.
#[derive(Debug, Drop)]
pub struct TurnCounts {
    /// Selects the parcels that are given to the node twice.
    pub repeated: ParcelPeriodCounter,
    /// Selects the parcels that are lost.
    pub lost: ParcelPeriodCounter,
    /// How many of the first work keys are known for good, where no node of the farm restarts; otherwise 0.
    pub settled: usize,
    /// No node restarts, and all keys of this turn so far are known.
    pub settling: bool,
}
