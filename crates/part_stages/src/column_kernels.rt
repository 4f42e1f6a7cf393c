#![tactic(auto)]
//! Columns of kernels. No clause speaks of which are found.

use domains::Area;
use job::{Formula, Job, Kernel, KernelFactors, Read, Stage};
use joined_formulas::{StageFormula, is_joined_column_formula};
use std::alloc::{AllocError, Global};
use stencil_kernels::SeparableKernel;

// Whether two steps have at most half of a kernel's products.
fn is_column_stage_worth_while(kernel: &Kernel) -> bool {
    let rows = kernel.as_slice();
    let Some(row) = rows.first() else {
        return false;
    };
    let (height, width) = (rows.len(), row.as_slice().len());
    width > 1 && height > 1 && height.saturating_mul(width) >= 2 * (height + width)
}

// Whether a stage reads at least half of another one's columns, so that sums down all of these are not too many.
fn reads_most_columns_of_column_stage(job: &Job, reader: &Area, source: usize) -> bool {
    match job.domain(source) {
        Some(domain) => domain.cols.len() / 2 <= reader.cols.len(),
        None => false,
    }
}

// One row of a column of factors.
fn make_column_stage_kernel_row(alloc: Global, factor: i32) -> Result<KernelFactors, AllocError> {
    let mut row = Vec::with_capacity(alloc, 1)?;
    row.push(factor)?;
    Ok(KernelFactors::new(row))
}

// The kernel of a column of factors.
fn make_column_stage_kernel(alloc: Global, down: &[i32]) -> Result<Kernel, AllocError> {
    let mut rows = Vec::with_capacity(alloc, down.len())?;
    for factor in down {
        rows.push(make_column_stage_kernel_row(alloc, *factor)?)?;
    }
    Ok(Kernel::new(rows))
}

/// Whether the columns of a stage are known to have these sums.
pub(crate) fn has_column_stage(known: &[StageFormula], source: usize, down: &[i32]) -> bool {
    for each in known {
        if is_joined_column_formula(&each.formula, source, down) {
            return true;
        }
    }
    false
}

/// The stage whose columns a reader adds up and the factors, if the kernel is the product of a column and a row and two steps are
/// faster.
pub(crate) fn find_column_stage_product(
    job: &Job,
    reader: &Stage,
    read: &Read,
) -> Option<(usize, SeparableKernel)> {
    let Read::Window(source, kernel) = read else {
        return None;
    };
    if !is_column_stage_worth_while(kernel)
        || !reads_most_columns_of_column_stage(job, reader.domain(), *source)
    {
        return None;
    }
    Some((*source, SeparableKernel::from_kernel(kernel)?))
}

/// The sums down the columns of a stage.
///
/// # Errors
///
/// Fails only where memory is refused.
pub(crate) fn make_column_stage_formula(
    alloc: Global,
    source: usize,
    down: &[i32],
) -> Result<Formula, AllocError> {
    Ok(Formula::Stencil(source, 1, make_column_stage_kernel(alloc, down)?))
}
