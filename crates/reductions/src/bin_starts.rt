#![tactic(auto)]
//! The start values of bins.

ghost use Rattle.std.specs.Prelude.{◌≡◌, IfOk};
ghost use Rattle.job.specs.Totals.{start_of as start_by};
ghost use Rattle.reductions.specs.Bins.{starts as starts_by};

use domains::Span;
use operators::ReductionOp;
use std::alloc::{AllocError, Global};

// The start value of a bin, which it keeps if no point has this bin.
fn find_bin_start_value(op: ReductionOp) -> i64
    ensures { result ≡ start_by op }
{
    match op {
        ReductionOp::Sum => 0,
        ReductionOp::Min => i64::MAX,
        ReductionOp::Max => i64::MIN,
    }
}

/// The start value of each of these bins.
///
/// # Errors
///
/// Fails only where memory is refused.
pub fn create_start_bins(
    alloc: Global,
    op: ReductionOp,
    bins: &Span,
) -> Result<Vec<i64>, AllocError>
    ensures { IfOk result (λ starts. starts.items ≡ starts_by op bins.now) }
{
    vec![in alloc; find_bin_start_value(op); bins.len() as usize]
}
