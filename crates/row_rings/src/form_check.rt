#![tactic(auto)]
//! Checks of the forms in which rows are kept: whether each stage finds all that it reads in the form in which it is computed.

ghost use Rattle.std.specs.Prelude.{ℕ, ◌≡◌, ◌<◌, true, false, length, All, Some, slice_get, slice_index_or, if◌then◌else◌};
ghost use Rattle.job.specs.Kept.{pipeline_in};
ghost use Rattle.job.specs.Reads.{stage_read};
ghost use Rattle.job.specs.ReadViews.{read_view};
ghost use Rattle.row_rings.specs.NarrowRings.{IsFittingStage, IsNarrowlyMade, AreNarrowlyMade};
ghost use Rattle.row_rings.specs.declared.ring_shapes.RingShape.{RingShape as ShapeView};
ghost use Rattle.row_rings.specs.RingForms.{AreRightForms, AreFewForms, IsRightForm, IsWhole, IsWholeWhereKept, IsServed, IsFittingWhereKept};
ghost use Rattle.value_ranges.specs.Ranges.{AreRanges};

use crate::ring_forms::{RingForms, is_computed_narrow_ring};
use crate::ring_shapes::RingShape;
use job::{Body, Job, Read};
use row_plans::RowState;
use value_ranges::{ValueRange, is_narrow_stage, is_narrow_value_range};

// Whether two states are the same.
fn has_same_ring_form(form: &RowState, state: &RowState) -> bool
    ensures rows { result ≡ true → form.now.area.rows ≡ state.now.area.rows }
    ensures cols { result ≡ true → form.now.area.cols ≡ state.now.area.cols }
    ensures kept { result ≡ true → form.now.kept ≡ state.now.kept }
    ensures first { result ≡ true → form.now.first ≡ state.now.first }
    ensures next { result ≡ true → form.now.next ≡ state.now.next }
{
    form.area.rows == state.area.rows
        && form.area.cols == state.area.cols
        && form.kept == state.kept
        && form.first == state.first
        && form.next == state.next
}

// Whether all rows of a stage are kept in a form.
fn is_whole_ring_form(kept: &[RowState], states: &[RowState], stage: usize) -> bool
    ensures { result ≡ true → IsWhole kept.now states.now stage }
{
    match (kept.get(stage), states.get(stage)) {
        (Some(form), Some(state)) => has_same_ring_form(form, state),
        _ => false,
    }
}

// Whether all rows of some stages are kept in a form.
fn are_whole_ring_forms(kept: &[RowState], states: &[RowState], stages: &[usize]) -> bool
    ensures { result ≡ true → All (IsWhole kept.now states.now) stages.now }
{
    stages
        .iter()
        .all(|stage| is_whole_ring_form(kept, states, *stage))
}

// Whether no row of a stage is kept in a form, or all are.
fn is_whole_ring_form_where_kept(kept: &[RowState], states: &[RowState], stage: usize) -> bool
    ensures { result ≡ true → IsWholeWhereKept kept.now states.now stage }
{
    match kept.get(stage) {
        Some(form) => form.kept == 0 || is_whole_ring_form(kept, states, stage),
        None => true,
    }
}

// Whether all rows of the stages that are read are kept in a form.
fn read_whole_ring_forms_only(kept: &[RowState], states: &[RowState], reads: &[Read]) -> bool
    ensures { result ≡ true
        → All (λ x. IsWhole kept.now states.now (stage_read (read_view x))) reads.now }
{
    reads
        .iter()
        .all(|read| is_whole_ring_form(kept, states, read.stage()))
}

// Whether all rows of a stage are kept in a form, and of those that it reads. An accumulator has no rows that are made of others.
fn is_served_ring_form(job: &Job, kept: &[RowState], states: &[RowState], stage: usize) -> bool
    ensures { result ≡ true → IsServed (pipeline_in job.now) kept.now states.now stage }
{
    if job.is_accumulator(stage) {
        return is_whole_ring_form(kept, states, stage);
    }
    let Some(reads) = job.reads(stage) else {
        return false;
    };
    let served = read_whole_ring_forms_only(kept, states, reads);
    served && is_whole_ring_form(kept, states, stage)
}

// Whether the values of a stage fit in 16 bits.
fn is_fitting_narrow_ring(job: &Job, ranges: &[ValueRange], stage: usize) -> bool
    requires { AreRanges (pipeline_in job.now) ranges.now }
    ensures { result ≡ true → IsFittingStage (pipeline_in job.now) stage }
{
    match ranges.get(stage) {
        Some(range) => is_narrow_value_range(range),
        None => false,
    }
}

// Whether no row of a stage is kept in 16 bits, or its values fit in them.
fn is_fitting_narrow_ring_where_kept(
    job: &Job,
    ranges: &[ValueRange],
    kept: &[RowState],
    stage: usize,
) -> bool
    requires { AreRanges (pipeline_in job.now) ranges.now }
    ensures { result ≡ true → IsFittingWhereKept (pipeline_in job.now) kept.now stage }
{
    match kept.get(stage) {
        Some(form) => form.kept == 0 || is_fitting_narrow_ring(job, ranges, stage),
        None => true,
    }
}

// Whether a stage of this shape is computed in 16 bits, if it is a function.
fn is_narrowly_made_ring_of_shape(
    job: &Job,
    ranges: &[ValueRange],
    shape: &RingShape<'_>,
    stage: usize,
) -> bool
    requires { AreRanges (pipeline_in job.now) ranges.now }
    ensures { result ≡ true → IsNarrowlyMade (pipeline_in job.now) stage shape.now }
{
    let Some(found) = job.stage(stage) else {
        return false;
    };
    match found.body() {
        Body::Plane(_) => true,
        Body::Function(_) => shape.is_linear_ring_shape() || is_narrow_stage(job, ranges, stage),
        Body::Accumulator(_) => false,
    }
}

// Whether a stage is computed in 16 bits, if it is a function.
fn is_narrowly_made_ring(
    job: &Job,
    ranges: &[ValueRange],
    shapes: &[RingShape<'_>],
    stage: usize,
) -> bool
    requires { AreRanges (pipeline_in job.now) ranges.now }
    ensures { result ≡ true → (shape : ShapeView) → slice_get shapes.now stage ≡ Some shape
        → IsNarrowlyMade (pipeline_in job.now) stage shape }
{
    match shapes.get(stage) {
        Some(shape) => is_narrowly_made_ring_of_shape(job, ranges, shape, stage),
        None => false,
    }
}

// Whether a stage can be computed in the form that is chosen.
fn is_computed_ring_form_right(
    job: &Job,
    ranges: &[ValueRange],
    shapes: &[RingShape<'_>],
    states: &[RowState],
    forms: &RingForms,
    stage: usize,
) -> bool
    requires { AreRanges (pipeline_in job.now) ranges.now }
    ensures served { result ≡ true → IsServed (pipeline_in job.now)
        (if slice_index_or forms.now.computed_narrow.items stage false then forms.now.narrow.items
        else forms.now.wide.items) states.now stage }
    ensures narrow { result ≡ true → slice_index_or forms.now.computed_narrow.items stage false ≡ true
        → (shape : ShapeView) → slice_get shapes.now stage ≡ Some shape
        → IsNarrowlyMade (pipeline_in job.now) stage shape }
{
    if is_computed_narrow_ring(&forms.computed_narrow, stage) {
        is_served_ring_form(job, &forms.narrow, states, stage)
            && is_narrowly_made_ring(job, ranges, shapes, stage)
    } else {
        is_served_ring_form(job, &forms.wide, states, stage)
    }
}

// Whether the forms that are chosen for a stage are right.
fn is_ring_form_right(
    job: &Job,
    ranges: &[ValueRange],
    shapes: &[RingShape<'_>],
    states: &[RowState],
    forms: &RingForms,
    stage: usize,
) -> bool
    requires { AreRanges (pipeline_in job.now) ranges.now }
    ensures right { result ≡ true → IsRightForm (pipeline_in job.now) states.now forms.now.wide.items
        forms.now.narrow.items forms.now.computed_narrow.items stage }
    ensures narrow { result ≡ true → slice_index_or forms.now.computed_narrow.items stage false ≡ true
        → (shape : ShapeView) → slice_get shapes.now stage ≡ Some shape
        → IsNarrowlyMade (pipeline_in job.now) stage shape }
{
    is_whole_ring_form_where_kept(&forms.wide, states, stage)
        && is_whole_ring_form_where_kept(&forms.narrow, states, stage)
        && is_fitting_narrow_ring_where_kept(job, ranges, &forms.narrow, stage)
        && is_computed_ring_form_right(job, ranges, shapes, states, forms, stage)
}

/// Whether the forms that are chosen for all stages are right, and outputs are kept in theirs.
pub(crate) fn are_ring_forms_right(
    job: &Job,
    ranges: &[ValueRange],
    shapes: &[RingShape<'_>],
    states: &[RowState],
    forms: &RingForms,
    outputs: &[usize],
) -> bool
    requires { AreRanges (pipeline_in job.now) ranges.now }
    ensures right { result ≡ true → AreRightForms (pipeline_in job.now) states.now forms.now.wide.items
        forms.now.narrow.items forms.now.computed_narrow.items }
    ensures narrow { result ≡ true → AreNarrowlyMade (pipeline_in job.now) states.now
        shapes.now forms.now.computed_narrow.items }
    ensures outputs { result ≡ true → All (IsWhole
        (if forms.now.narrow_outputs then forms.now.narrow.items else forms.now.wide.items) states.now)
        outputs.now }
    ensures few { result ≡ true → AreFewForms states.now forms.now.wide.items forms.now.narrow.items }
{
    if forms.wide.len() > states.len() || forms.narrow.len() > states.len() {
        return false;
    }
    for stage in 0..states.len() {
        if !is_ring_form_right(job, ranges, shapes, states, forms, stage) {
            return false;
        }
    }
    are_whole_ring_forms(forms.borrow_output_ring_form(), states, outputs)
}
