#![tactic(auto)]
//! Indices of indices, and formulas at them.

ghost use Rattle.std.specs.Prelude.{◌≡◌, ℤ, IfOk, IfSome, IsTrue};
ghost use Rattle.domains.specs.Index.{IsIndex, index_at};
ghost use Rattle.job.specs.Formula.{read};
ghost use Rattle.job.specs.Views.{formula_view};
ghost use Rattle.joined_formulas.specs.inside.Moved.{IsAt};

use domains::Index;
use job::Formula;
use normal_formulas::copy_normal_formula;
use std::alloc::{AllocError, Global};

/// Whether an index is the number itself.
pub(crate) fn is_own_index(index: &Index) -> bool
    ensures { IsTrue result → (v : ℤ) → index_at index.now v ≡ v }
{
    index.mul() == 1 && index.add() == 0 && index.div() == 1
}

// The index that takes a number to the inner index of an outer one without a divisor.
fn compose_undivided_joined_index(outer: &Index, inner: &Index) -> Option<Index>
    ensures at { IfSome result (λ x. (v : ℤ) → index_at x v ≡ index_at inner.now (index_at outer.now v)) }
    ensures within { IfSome result IsIndex }
{
    if outer.div() != 1 {
        return None;
    }
    let mul = inner.mul().checked_mul(outer.mul())?;
    let add = inner.mul().checked_mul(outer.add())?;
    Index::new(mul, add.checked_add(inner.add())?, inner.div())
}

// The index that takes a number so many steps behind the outer one.
fn compose_joined_index_with_step(outer: &Index, inner: &Index) -> Option<Index>
    ensures at { IfSome result (λ x. (v : ℤ) → index_at x v ≡ index_at inner.now (index_at outer.now v)) }
    ensures within { IfSome result IsIndex }
{
    if inner.mul() != 1 || inner.div() != 1 {
        return None;
    }
    let add = inner.add().checked_mul(outer.div())?;
    Index::new(outer.mul(), outer.add().checked_add(add)?, outer.div())
}

/// The index that takes a number to the inner index of the outer one, where there is one.
pub(crate) fn compose_joined_indices(outer: &Index, inner: &Index) -> Option<Index>
    ensures at { IfSome result (λ x. (v : ℤ) → index_at x v ≡ index_at inner.now (index_at outer.now v)) }
    ensures within { IfSome result IsIndex }
{
    match compose_undivided_joined_index(outer, inner) {
        Some(index) => Some(index),
        None => compose_joined_index_with_step(outer, inner),
    }
}

// The read that is at a point what a read is at the point of its indices, if there is one.
fn move_joined_read(
    stage: usize,
    inner_row: &Index,
    inner_column: &Index,
    row: &Index,
    column: &Index,
) -> Option<Formula>
    ensures { IfSome result (λ made. IsAt row.now column.now (read stage inner_row.now inner_column.now)
        (formula_view made)) }
{
    let row = compose_joined_indices(row, inner_row)?;
    let column = compose_joined_indices(column, inner_column)?;
    Some(Formula::Read(stage, row, column))
}

/// The formula that is at a point what a formula is at the point of its indices, if there is one.
pub(crate) fn move_joined_formula(
    alloc: Global,
    row: &Index,
    column: &Index,
    formula: &Formula,
) -> Result<Option<Formula>, AllocError>
    ensures { IfOk result (λ found. IfSome found
        (λ made. IsAt row.now column.now (formula_view formula.now) (formula_view made))) }
{
    if is_own_index(row) && is_own_index(column) {
        return Ok(Some(copy_normal_formula(alloc, formula)?));
    }
    match formula {
        Formula::Number(number) => Ok(Some(Formula::Number(*number))),
        Formula::Read(stage, inner_row, inner_column) => {
            Ok(move_joined_read(*stage, inner_row, inner_column, row, column))
        }
        _ => Ok(None),
    }
}
