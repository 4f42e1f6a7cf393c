#![tactic(auto)]
//! Sums that own what they need.

ghost use Rattle.std.specs.Prelude.{◌≡◌, ℤ, pos, Some};
ghost use Rattle.domains.specs.Arithmetic.{floor_div};
ghost use Rattle.operators.specs.Limits.{IsDivisor};
ghost use Rattle.operators.specs.Values.{literal_value};
ghost use Rattle.narrow_sums.specs.inside.TermOrders.{AreTermNumbers, HasSumOfAllTerms};
ghost use Rattle.narrow_sums.specs.inside.NearTerms.{AreNear};
ghost use Rattle.narrow_sums.specs.declared.terms.NarrowSumRead.{NarrowSumRead as ReadView};
ghost use Rattle.narrow_sums.specs.declared.terms.NarrowSumBounds.{NarrowSumBounds as BoundsView};

use crate::terms::{NarrowSumBounds, NarrowSumRead, NarrowSumTerm};
use job::Formula;
use operators::LiteralOp;

/// An operator that divides and rounds down, its literal, and the divisor.
#[derive(Clone, Copy)]
pub struct NarrowSumQuotient {
    pub(crate) op: LiteralOp,
    pub(crate) literal: u32,
    pub(crate) divisor: u32,
    ghost divides: { IsDivisor divisor },
    ghost quotients: { (v : ℤ) → literal_value op v literal ≡ floor_div v (pos divisor) },
}

/// Terms that are added, with a number if there is one. The sum may be divided, and the quotient added to a center. The terms are listed from
/// the last one, and added in another order: those of one weight one after another.
#[derive(Drop)]
pub struct NarrowSumRow {
    pub(crate) terms: Vec<NarrowSumTerm>,
    pub(crate) order: Vec<usize>,
    pub(crate) number: Option<i16>,
    pub(crate) quotient: Option<NarrowSumQuotient>,
    pub(crate) center: Option<NarrowSumRead>,
    pub(crate) bounds: Option<NarrowSumBounds>,
    ghost numbers: { AreTermNumbers terms.items order.items },
    ghost all: { HasSumOfAllTerms terms.items order.items },
    ghost near: { (x : ReadView) (b : BoundsView) → center ≡ Some x → bounds ≡ Some b → AreNear x b terms.items },
}

/// A sum, and the formula that it begins with if that is no term.
#[derive(Drop)]
pub struct FoundNarrowSum<'a> {
    pub row: NarrowSumRow,
    pub start: Option<&'a Formula>,
}
