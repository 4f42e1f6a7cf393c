#![tactic(auto)]
//! The bounds of sums whose terms are all differences from their center.

ghost use Rattle.std.specs.Prelude.{◌≡◌, ◌≤ℤ◌, ℤ, pos, Some, IfSome, IsTrue};
ghost use Rattle.narrow_sums.specs.declared.terms.NarrowSumRead.{NarrowSumRead as ReadView};
ghost use Rattle.narrow_sums.specs.declared.terms.NarrowSumBounds.{NarrowSumBounds as BoundsView};
ghost use Rattle.job.specs.Values.{Valuation};
ghost use Rattle.narrow_sums.specs.inside.TermValues.{sample_of};
ghost use Rattle.narrow_sums.specs.inside.NearTerms.{IsNear, AreNear};

use crate::terms::{NarrowSumBounds, NarrowSumPart, NarrowSumRead, NarrowSumTerm};
use domains::Index;

// The fewest terms that are added from a center. Of fewer no pass has eight, in which each four of one weight are added first.
const MANY: usize = 8;

// Whether two indices are the same.
fn is_same_narrow_sum_read_index(index: &Index, other: &Index) -> bool
    ensures { IsTrue result → index.now ≡ other.now }
{
    index.mul() == other.mul() && index.add() == other.add() && index.div() == other.div()
}

// Whether two reads are the same.
fn is_same_narrow_sum_read(read: &NarrowSumRead, other: &NarrowSumRead) -> bool
    ensures { IsTrue result → (env : Valuation) (r c : ℤ)
        → sample_of env read.now r c ≡ sample_of env other.now r c }
{
    read.stage == other.stage
        && is_same_narrow_sum_read_index(&read.row, &other.row)
        && is_same_narrow_sum_read_index(&read.col, &other.col)
}

// Whether a part is a difference from a center, with these bounds.
fn is_near_narrow_sum_part(
    part: &NarrowSumPart,
    center: &NarrowSumRead,
    bounds: NarrowSumBounds,
) -> bool
    ensures { IsTrue result → IsNear center.now bounds part.now }
{
    let NarrowSumPart::Difference(difference) = part else {
        return false;
    };
    if difference.low != bounds.low || difference.high != bounds.high {
        return false;
    }
    is_same_narrow_sum_read(&difference.right, center)
}

// The bounds of the first term, if 0 lies between them.
fn find_first_narrow_sum_term_bounds(terms: &[NarrowSumTerm]) -> Option<NarrowSumBounds>
    ensures { IfSome result (λ it. (it.low ≤ℤ pos 0) × (pos 0 ≤ℤ it.high)) }
{
    let NarrowSumPart::Difference(first) = terms.first()?.part else {
        return None;
    };
    if first.low <= 0 && 0 <= first.high {
        Some(NarrowSumBounds {
            low: first.low,
            high: first.high,
        })
    } else {
        None
    }
}

// The bounds of terms that are all differences from a center.
fn find_narrow_sum_term_bounds(
    terms: &[NarrowSumTerm],
    center: &NarrowSumRead,
) -> Option<NarrowSumBounds>
    ensures { IfSome result (λ it. AreNear center.now it terms.now) }
{
    if terms.len() < MANY {
        return None;
    }
    let bounds = find_first_narrow_sum_term_bounds(terms)?;
    for k in 0..terms.len() {
        if !is_near_narrow_sum_part(&terms[k].part, center, bounds) {
            return None;
        }
    }
    Some(bounds)
}

/// The bounds of terms, if all are differences from the center and have the same bounds.
pub(crate) fn find_narrow_sum_row_bounds(
    terms: &[NarrowSumTerm],
    center: &Option<NarrowSumRead>,
) -> Option<NarrowSumBounds>
    ensures { (x : ReadView) (b : BoundsView) → center.now ≡ Some x → result ≡ Some b → AreNear x b terms.now }
{
    match center {
        Some(center) => find_narrow_sum_term_bounds(terms, center),
        None => None,
    }
}
