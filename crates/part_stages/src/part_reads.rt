#![tactic(auto)]
//! Where all that a read takes has a value.

ghost use Rattle.std.specs.Prelude.{◌≡◌, ◌≤◌, ◌+ℤ◌, ◌-ℤ◌, pos, length, IsTrue, IfSome};
ghost use Rattle.job.specs.Kept.{pipeline_in};
ghost use Rattle.job.specs.ReadViews.{read_view};
ghost use Rattle.job.specs.Values.{factors};
ghost use Rattle.job.specs.Views.{stage_view};
ghost use Rattle.job.specs.WellFormed.{IsValued};
ghost use Rattle.part_stages.specs.Parts.{IsReadArea};
ghost use Rattle.part_stages.specs.inside.Spans.{IsUnderIndex, IsUnderIndices, IsUnderKernel, IsUnderSide};

use crate::part_kernels::is_part_kernel;
use domains::{Area, Index, Span};
use job::{Body, Job, Kernel, Read, Stage};

// A span as many numbers back as an index adds, if there is one.
fn move_part_span(span: &Span, index: &Index) -> Option<Span>
    ensures lo { IfSome result (λ found. found.lo ≡ span.now.lo -ℤ index.now.add) }
    ensures hi { IfSome result (λ found. found.hi ≡ span.now.hi -ℤ index.now.add) }
{
    let lo = span.lo().checked_sub(index.add())?;
    let hi = span.hi().checked_sub(index.add())?;
    Span::new(lo, hi)
}

// The numbers of a span that are not among so many at each of its ends, if there are any.
#[tactic(auto, using(std::proofs::lemmas::Int::ints))]
fn shrink_part_span(span: &Span, half: u32) -> Option<Span>
    requires { half ≤ 7 }
    ensures lo { IfSome result (λ found. found.lo ≡ span.now.lo +ℤ pos half) }
    ensures hi { IfSome result (λ found. found.hi ≡ span.now.hi -ℤ pos half) }
{
    Span::new(span.lo() + half as i32, span.hi() - half as i32)
}

// The numbers whose indices lie in a span, if there are any and the index is a step.
fn find_part_span_under_index(span: &Span, index: &Index) -> Option<Span>
    ensures { IfSome result (IsUnderIndex span.now index.now) }
{
    if index.mul() != 1 || index.div() != 1 {
        return None;
    }
    move_part_span(span, index)
}

// The numbers around which as many as this side lie in a span, if there are any.
fn find_part_span_under_side(span: &Span, side: usize) -> Option<Span>
    ensures { IfSome result (IsUnderSide span.now side) }
{
    if side % 2 != 1 || side > 15 {
        return None;
    }
    shrink_part_span(span, side as u32 / 2)
}

// The points whose indices lie in an area.
fn find_part_area_under_indices(area: &Area, row: &Index, column: &Index) -> Option<Area>
    ensures { IfSome result (IsUnderIndices area.now row.now column.now) }
{
    let rows = find_part_span_under_index(&area.rows, row)?;
    let cols = find_part_span_under_index(&area.cols, column)?;
    Some(Area { rows, cols })
}

// The length of the first row of a kernel.
fn find_width_of_part_kernel(kernel: &Kernel) -> usize
    ensures { result ≡ length (factors kernel.now 0) }
{
    match kernel.as_slice().first() {
        Some(row) => row.as_slice().len(),
        None => 0,
    }
}

// The points around which a kernel lies in an area.
fn find_part_area_under_kernel(area: &Area, kernel: &Kernel) -> Option<Area>
    ensures { IfSome result (IsUnderKernel area.now kernel.now) }
{
    if !is_part_kernel(kernel) {
        return None;
    }
    let rows = find_part_span_under_side(&area.rows, kernel.as_slice().len())?;
    let cols = find_part_span_under_side(&area.cols, find_width_of_part_kernel(kernel))?;
    Some(Area { rows, cols })
}

// Whether a stage has values.
fn has_values_of_part_read(from: &Stage) -> bool
    ensures { IsTrue result → IsValued (stage_view from.now).body }
{
    match from.body() {
        Body::Plane(_) | Body::Function(_) => true,
        Body::Accumulator(_) => false,
    }
}

/// Where all that a read takes has a value, if there is such a point and it is an area.
pub(crate) fn find_area_of_part_read(job: &Job, read: &Read) -> Option<Area>
    ensures { IfSome result (IsReadArea (pipeline_in job.now) (read_view read.now)) }
{
    let from = job.stage(read.stage())?;
    if !has_values_of_part_read(from) {
        return None;
    }
    match read {
        Read::Point(_, row, column) => find_part_area_under_indices(from.domain(), row, column),
        Read::Window(_, kernel) => find_part_area_under_kernel(from.domain(), kernel),
    }
}
