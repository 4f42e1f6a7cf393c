#![tactic(auto)]
//! Kernels: sums of products of numbers and reads, which fill a rectangle around the point.

ghost use Rattle.std.specs.Prelude.{◌≡◌, ◌≤◌, ◌-ℤ◌, ◌/◌, pos, neg_ℤ, length, IfOk, IfSome};
ghost use Rattle.operators.specs.declared.operator.BinaryOp.TheVariants.{Add};
ghost use Rattle.job.specs.Formula.{Formula as FormulaView, binary, read};
ghost use Rattle.job.specs.WellFormed.{IsKernelSide, IsKernel};
ghost use Rattle.normal_formulas.specs.Rewrites.{Rewrites};
ghost use Rattle.normal_formulas.specs.NormalSums.{product, terms_over};
ghost use Rattle.normal_formulas.specs.NormalKernels.{shift, row_over, rows_over, first_of, HasSides};

use crate::sums::{NormalTerm, find_place_of_normal_read};
use domains::Index;
use job::Formula;
use operators::{Kernel, KernelFactors};
use std::alloc::{AllocError, Global};

// The fewest reads of a kernel. Fewer are added up as they are.
const LEAST: usize = 9;

// How far a kernel reaches at most.
const FARTHEST: usize = 7;

/// The stage that a kernel reads, and its sides.
#[derive(Clone, Copy)]
pub(crate) struct NormalKernel {
    pub stage: usize,
    pub height: usize,
    pub width: usize,
    ghost sides: { IsKernelSide height × IsKernelSide width },
}

/// How many reads of a stage there are near the point, and how far away at most.
#[derive(Clone, Copy)]
struct NormalReach {
    count: usize,
    rows: usize,
    columns: usize,
}

// The stage of a read near the point, with how many rows and columns away it is.
fn find_distance_of_normal_read(formula: &Formula) -> Option<(usize, usize, usize)> {
    match formula {
        Formula::Read(stage, row, column)
            if row.mul() == 1 && row.div() == 1 && column.mul() == 1 && column.div() == 1 => {
            Some((
                *stage,
                row.add().unsigned_abs() as usize,
                column.add().unsigned_abs() as usize,
            ))
        }
        _ => None,
    }
}

// The stage of the first read near the point.
fn find_stage_of_normal_kernel(terms: &[NormalTerm]) -> Option<usize> {
    for term in terms {
        if let Some((stage, _, _)) = find_distance_of_normal_read(&term.term) {
            return Some(stage);
        }
    }
    None
}

// The reads of a stage near the point.
fn measure_normal_reach(terms: &[NormalTerm], stage: usize) -> NormalReach {
    let mut reach = NormalReach {
        count: 0,
        rows: 0,
        columns: 0,
    };
    for term in terms {
        match find_distance_of_normal_read(&term.term) {
            Some((own, rows, columns)) if own == stage => {
                reach.count = reach.count.saturating_add(1);
                reach.rows = reach.rows.max(rows);
                reach.columns = reach.columns.max(columns);
            }
            _ => {}
        }
    }
    reach
}

/// The kernel among terms, if there is one: reads of one stage that fill a rectangle around the point.
pub(crate) fn find_normal_kernel(terms: &[NormalTerm]) -> Option<NormalKernel> {
    let stage = find_stage_of_normal_kernel(terms)?;
    let reach = measure_normal_reach(terms, stage);
    if reach.count < LEAST || reach.rows > FARTHEST || reach.columns > FARTHEST {
        return None;
    }
    let height = 2 * reach.rows + 1;
    let width = 2 * reach.columns + 1;
    if reach.count == height * width {
        Some(NormalKernel {
            stage,
            height,
            width,
        })
    } else {
        None
    }
}

// The index of a place among so many, of which the middle one is at the point.
fn make_normal_index(place: usize, side: usize) -> Option<Index>
    requires place { place ≤ 15 }
    requires side { side ≤ 15 }
    ensures { IfSome result (λ index. index ≡ shift (pos place -ℤ pos (side / 2))) }
{
    Index::new(1, place as i32 - (side / 2) as i32, 1)
}

// Takes a read out of a sum, and returns its factor.
fn take_normal_read(
    terms: &mut Vec<NormalTerm>,
    stage: usize,
    row: Index,
    column: Index,
) -> Option<i32>
    ensures { IfSome result (λ factor. (s : FormulaView) → Rewrites (terms_over s terms.old.items)
        (binary Add (product factor (read stage row column)) (terms_over s terms.new.items))) }
{
    let read = Formula::Read(stage, row, column);
    let place = find_place_of_normal_read(terms, &read)?;
    Some(terms.remove(place).factor)
}

// Takes the reads of a row of a kernel out of a sum, and returns their factors.
fn take_normal_factors(
    alloc: Global,
    terms: &mut Vec<NormalTerm>,
    kernel: NormalKernel,
    row: Index,
) -> Result<Option<KernelFactors>, AllocError>
    ensures count { IfOk result (λ it. IfSome it (λ factors. length factors ≡ kernel.width)) }
    ensures value { IfOk result (λ it. IfSome it (λ factors. (s : FormulaView) → Rewrites (terms_over s terms.old.items)
        (row_over (terms_over s terms.new.items) kernel.stage row (first_of kernel.width) factors))) }
{
    let mut factors = Vec::with_capacity(alloc, kernel.width)?;
    for place in 0..kernel.width {
        let Some(column) = make_normal_index(place, kernel.width) else {
            return Ok(None);
        };
        let Some(factor) = take_normal_read(terms, kernel.stage, row, column) else {
            return Ok(None);
        };
        factors.push(factor)?;
    }
    Ok(Some(KernelFactors::new(factors)))
}

/// Takes the reads of a kernel out of a sum, and returns its factors.
pub(crate) fn take_normal_kernel(
    alloc: Global,
    terms: &mut Vec<NormalTerm>,
    kernel: NormalKernel,
) -> Result<Option<Kernel>, AllocError>
    ensures sides { IfOk result (λ it. IfSome it (HasSides kernel.height kernel.width)) }
    ensures value { IfOk result (λ it. IfSome it (λ rows. (s : FormulaView) → Rewrites (terms_over s terms.old.items)
        (rows_over (terms_over s terms.new.items) kernel.stage (first_of kernel.height) (first_of kernel.width) rows))) }
{
    let mut rows = Vec::with_capacity(alloc, kernel.height)?;
    for place in 0..kernel.height {
        let Some(row) = make_normal_index(place, kernel.height) else {
            return Ok(None);
        };
        let Some(factors) = take_normal_factors(alloc, terms, kernel, row)? else {
            return Ok(None);
        };
        rows.push(factors)?;
    }
    Ok(Some(Kernel::new(rows)))
}
