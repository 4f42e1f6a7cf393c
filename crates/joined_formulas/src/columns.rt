#![tactic(auto)]
//! Kernels that are products of a column and a row of factors, where a stage has the sums down each column.

ghost use Rattle.std.specs.Prelude.{◌≡◌, ◌∷◌, [], IsTrue, IfOk, IfSome};
ghost use Rattle.job.specs.Formula.{stencil};
ghost use Rattle.job.specs.Views.{formula_view};
ghost use Rattle.joined_formulas.specs.Columns.{column_formula, column_kernel, IsColumn};
ghost use Rattle.joined_formulas.specs.Joins.{Joins};
ghost use Rattle.stencil_kernels.specs.Separable.{IsSeparable};

use crate::known::StageFormula;
use job::{Formula, Kernel, KernelFactors};
use std::alloc::{AllocError, Global};
use stencil_kernels::SeparableKernel;

// Whether a kernel is this column of factors.
fn is_joined_column_kernel(kernel: &Kernel, down: &[i32]) -> bool
    ensures { IsTrue result → kernel.now ≡ column_kernel down.now }
{
    let rows = kernel.as_slice();
    if rows.len() != down.len() {
        return false;
    }
    for place in 0..down.len() {
        match rows[place].as_slice() {
            [factor] if *factor == down[place] => {}
            _ => return false,
        }
    }
    true
}

/// Whether a formula has the sums down the columns of this stage.
pub fn is_joined_column_formula(formula: &Formula, source: usize, down: &[i32]) -> bool
    ensures { IsTrue result → formula_view formula.now ≡ column_formula source down.now }
{
    match formula {
        Formula::Stencil(stage, 1, kernel) => {
            *stage == source && is_joined_column_kernel(kernel, down)
        }
        _ => false,
    }
}

// The stage that is known to have the sums down the columns of another one.
fn find_joined_column(known: &[StageFormula], source: usize, down: &[i32]) -> Option<usize>
    ensures { IfSome result (λ stage. IsColumn known.now source down.now stage) }
{
    for each in known {
        if each.whole && is_joined_column_formula(&each.formula, source, down) {
            return Some(each.stage);
        }
    }
    None
}

// The stage that is known to have the sums down the columns of a kernel, and the kernel as a product, if it has more than one column.
fn find_column_of_joined_kernel(
    known: &[StageFormula],
    source: usize,
    kernel: &Kernel,
) -> Option<(usize, SeparableKernel)>
    ensures column { IfSome result (λ found. IsColumn known.now source found.1.down.items found.0) }
    ensures product { IfSome result (λ found. IsSeparable kernel.now found.1.down.items found.1.along.items) }
{
    if known.is_empty() || kernel.as_slice().first()?.as_slice().len() == 1 {
        return None;
    }
    let product = SeparableKernel::from_kernel(kernel)?;
    let stage = find_joined_column(known, source, product.borrow_factor_of_each_row())?;
    Some((stage, product))
}

// The kernel of a row of factors.
fn make_joined_row_kernel(alloc: Global, along: &[i32]) -> Result<Kernel, AllocError>
    ensures { IfOk result (λ kernel. kernel ≡ along.now ∷ []) }
{
    let mut rows = Vec::with_capacity(alloc, 1)?;
    rows.push(KernelFactors::new(along.to_vec(alloc)?))?;
    Ok(Kernel::new(rows))
}

/// What stands for a stencil whose kernel is a product, where a stage is known to have the sums down its columns: what the row takes from
/// these.
pub(crate) fn join_stencil_by_columns(
    alloc: Global,
    known: &[StageFormula],
    stage: usize,
    divisor: u32,
    kernel: &Kernel,
) -> Result<Option<Formula>, AllocError>
    ensures { IfOk result (λ found. IfSome found (λ made. Joins known.now (stencil stage divisor kernel.now)
        (formula_view made))) }
{
    let Some((column, product)) = find_column_of_joined_kernel(known, stage, kernel) else {
        return Ok(None);
    };
    let along = make_joined_row_kernel(alloc, product.borrow_factor_of_each_column())?;
    Ok(Some(Formula::Stencil(column, divisor, along)))
}
