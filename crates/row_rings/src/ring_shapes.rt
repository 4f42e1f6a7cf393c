#![tactic(auto)]
//! How the rows of each stage are made, which is found once.

ghost use Rattle.std.specs.Prelude.{◌≡◌, ◌<◌, length, map, Some, IfOk, slice_get};
ghost use Rattle.std.specs.Option.{option_map};
ghost use Rattle.job.specs.Kept.{pipeline_in};
ghost use Rattle.job.specs.Pipeline.{function as function_body};
ghost use Rattle.job.specs.Views.{case_view, formula_view, stage_view};
ghost use Rattle.row_rings.specs.NarrowRings.{is_linear_shape};
ghost use Rattle.row_rings.specs.RingShapes.{IsShapeOf, AreShapesOf};
ghost use Rattle.value_ranges.specs.Ranges.{AreRanges};

use column_phases::{ColumnPhases, find_column_phases};
use job::{Body, Function, Job, Stage};
use linear_rows::{LinearRow, find_linear_row};
use narrow_eval::{NarrowFunction, choose_narrow_function};
use narrow_pieces::{NarrowPieces, find_narrow_pieces};
use std::alloc::{AllocError, Global};
use value_ranges::{ValueRange, is_narrow_stage, is_narrow_value_range};
use wide_divisions::{DivisionStep, find_division_step};

/// How the rows of a stage are made: as those of a function that is written in one pass or a few, by phases, or by its formulas. Rows of
/// 32 bits may be steps of a division; those of 16 bits have the other passes. Both may be made by phases or by formulas, of which rows of
/// 16 bits have programs. `Other` is no function.
#[derive(Drop)]
pub(crate) enum RingShape<'a> {
    Linear(LinearRow<'a>),
    Pieces(NarrowPieces<'a>),
    Division(DivisionStep<'a>, NarrowFunction),
    Phases(ColumnPhases, NarrowFunction),
    Formulas(NarrowFunction),
    Other,
}

impl<'a> RingShape<'a> {
    /// Whether rows are made as linear ones.
    pub(crate) fn is_linear_ring_shape(&self) -> bool
        ensures { result ≡ is_linear_shape self.now }
    {
        match self {
            RingShape::Linear(_) => true,
            RingShape::Pieces(_)
            | RingShape::Division(_, _)
            | RingShape::Phases(_, _)
            | RingShape::Formulas(_)
            | RingShape::Other => false,
        }
    }
}

/// Whether the values of a stage fit in 16 bits.
pub(crate) fn has_narrow_ring_range(ranges: &[ValueRange], stage: usize) -> bool {
    match ranges.get(stage) {
        Some(range) => is_narrow_value_range(range),
        None => false,
    }
}

// Whether the values of a function fit in 16 bits, as do all that it reads, but not all that is computed of them.
fn is_function_for_linear_ring(
    job: &Job,
    ranges: &[ValueRange],
    stage: usize,
    function: &Function,
) -> bool
    requires { AreRanges (pipeline_in job.now) ranges.now }
{
    has_narrow_ring_range(ranges, stage)
        && function
            .reads()
            .iter()
            .all(|read| has_narrow_ring_range(ranges, read.stage()))
        && !is_narrow_stage(job, ranges, stage)
}

// The shape of a function that is made as no linear row.
fn find_ring_shape_besides_linear<'a>(
    alloc: Global,
    function: &'a Function,
) -> Result<RingShape<'a>, AllocError>
    ensures { IfOk result (λ shape. IsShapeOf shape (function_body (map case_view function.now.cases.items)
        (option_map formula_view function.now.otherwise))) }
{
    if let Some(pieces) = find_narrow_pieces(function) {
        return Ok(RingShape::Pieces(pieces));
    }
    let program = choose_narrow_function(alloc, function)?;
    if let Some(step) = find_division_step(function) {
        return Ok(RingShape::Division(step, program));
    }
    match find_column_phases(alloc, function)? {
        Some(phases) => Ok(RingShape::Phases(phases, program)),
        None => Ok(RingShape::Formulas(program)),
    }
}

// The shape of a function: a linear row only where that is needed.
fn find_ring_shape_of_function<'a>(
    alloc: Global,
    function: &'a Function,
    linear: bool,
) -> Result<RingShape<'a>, AllocError>
    ensures { IfOk result (λ shape. IsShapeOf shape (function_body (map case_view function.now.cases.items)
        (option_map formula_view function.now.otherwise))) }
{
    if linear {
        if let Some(row) = find_linear_row(alloc, function)? {
            return Ok(RingShape::Linear(row));
        }
    }
    find_ring_shape_besides_linear(alloc, function)
}

// The shape of the stage of this number.
fn find_ring_shape<'a>(
    alloc: Global,
    job: &'a Job,
    ranges: &[ValueRange],
    number: usize,
    stage: &'a Stage,
) -> Result<RingShape<'a>, AllocError>
    requires { AreRanges (pipeline_in job.now) ranges.now }
    ensures { IfOk result (λ shape. IsShapeOf shape (stage_view stage.now).body) }
{
    match stage.body() {
        Body::Function(function) => {
            let linear = is_function_for_linear_ring(job, ranges, number, function);
            find_ring_shape_of_function(alloc, function, linear)
        }
        Body::Plane(_) | Body::Accumulator(_) => Ok(RingShape::Other),
    }
}

/// The shape of each stage.
///
/// # Errors
///
/// Fails only where memory is refused.
pub(crate) fn list_ring_shapes<'a>(
    alloc: Global,
    job: &'a Job,
    ranges: &[ValueRange],
) -> Result<Vec<RingShape<'a>>, AllocError>
    requires { AreRanges (pipeline_in job.now) ranges.now }
    ensures { IfOk result (λ shapes. AreShapesOf shapes.items (pipeline_in job.now).stages) }
{
    let mut shapes = Vec::with_capacity(alloc, job.stages().len())?;
    for stage in job.stages() {
        shapes.push(find_ring_shape(alloc, job, ranges, shapes.len(), stage)?)?;
    }
    Ok(shapes)
}

/// The shape of one stage among those of all.
#[inline]
pub(crate) fn borrow_ring_shape<'s, 'a>(
    shapes: &'s [RingShape<'a>],
    stage: usize,
) -> &'s RingShape<'a>
    requires { stage < length shapes.now }
    ensures { slice_get shapes.now stage ≡ Some result.now }
{
    &shapes[stage]
}
