#![tactic(auto)]
//! The terms of sums.

ghost use Rattle.std.specs.Prelude.{◌≡◌, pos, true};
ghost use Rattle.narrow_sums.specs.NarrowSums.{Same16, adds, signed};

use domains::Index;
use operators::BinaryOp;

/// A read. The index of its column only adds, so that adjacent points take adjacent samples.
#[derive(Clone, Copy)]
pub struct NarrowSumRead {
    pub(crate) stage: usize,
    pub(crate) row: Index,
    pub(crate) col: Index,
    ghost mul: { col.mul ≡ pos 1 },
    ghost div: { col.div ≡ pos 1 },
}

/// How far a read lies above another one, clamped to at least `low` and then to at most `high`.
#[derive(Clone, Copy)]
pub struct NarrowSumDifference {
    pub(crate) left: NarrowSumRead,
    pub(crate) right: NarrowSumRead,
    pub(crate) low: i16,
    pub(crate) high: i16,
}

/// What the factor of a term multiplies.
#[derive(Clone, Copy)]
pub enum NarrowSumPart {
    Read(NarrowSumRead),
    Difference(NarrowSumDifference),
}

/// A factor, and what it multiplies, with the operator that joins their product to a sum. The weight is the factor, with the other sign if the
/// operator subtracts.
#[derive(Clone, Copy)]
pub struct NarrowSumTerm {
    pub(crate) op: BinaryOp,
    pub(crate) factor: i16,
    pub(crate) weight: i16,
    pub(crate) part: NarrowSumPart,
    ghost joins: { adds op ≡ true },
    ghost weighs: { Same16 weight (signed op factor) },
}

/// The least and the greatest difference that counts. 0 lies between them.
#[derive(Clone, Copy)]
pub struct NarrowSumBounds {
    pub(crate) low: i16,
    pub(crate) high: i16,
}
