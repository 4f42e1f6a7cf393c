#![tactic(auto)]
//! Products of factors and reads, and sums of them.

ghost use Rattle.std.specs.Prelude.{All};
ghost use Rattle.linear_rows.specs.inside.LinearTaps.{IsShiftingTap};

use domains::Index;

/// A factor, and the read that it multiplies. The index of its column only adds.
#[derive(Clone, Copy)]
pub(crate) struct LinearTap<'a> {
    pub(crate) factor: i16,
    pub(crate) stage: usize,
    pub(crate) row: &'a Index,
    pub(crate) col: &'a Index,
}

/// A number, and the products that are added to it.
#[derive(Drop)]
pub(crate) struct LinearSum<'a> {
    pub(crate) number: i32,
    pub(crate) taps: Vec<LinearTap<'a>>,
    ghost shifting: { All IsShiftingTap taps.items },
}
