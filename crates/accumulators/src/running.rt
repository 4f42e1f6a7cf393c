//! The totals of an accumulator so far.

ghost use Rattle.std.specs.Prelude.{◌≡◌, length};
ghost use Rattle.domains.specs.Span.{len_of};

use domains::Span;
use operators::ReductionOp;

/// The bins of an accumulator, with all partials that came in so far.
#[derive(Drop)]
pub struct RunningTotal {
    pub(crate) stage: usize,
    pub(crate) op: ReductionOp,
    pub(crate) span: Span,
    pub(crate) bins: Vec<i64>,
    ghost count: { length bins.items ≡ len_of span },
}
