#![tactic(auto)]
//! Rings in which nothing is made.

ghost use Rattle.std.specs.Prelude.{ℕ, ◌≡◌, length, All, IfOk, slice_index_or, false};
ghost use Rattle.domains.specs.Span.{len_of};
ghost use Rattle.job.specs.Kept.{pipeline_in};
ghost use Rattle.row_rings.specs.RingRows.{ring_states};
ghost use Rattle.row_rings.specs.TrueRings.{HasOwnRoom};

use crate::ring::RowRing;
use crate::ring_forms::is_computed_narrow_ring;
use job::{Body, Job};
use row_plans::RowState;
use std::alloc::{AllocError, Global};
use tile_eval::compute_operand_capacity_of_function;

// How many numbers are needed beside a row of a stage to make it.
fn compute_ring_room(job: &Job, stage: usize) -> Result<usize, AllocError>
    ensures { IfOk result (λ room. HasOwnRoom (pipeline_in job.now) stage room) }
{
    let Some(found) = job.stage(stage) else {
        return Ok(0);
    };
    match found.body() {
        Body::Function(function) => compute_operand_capacity_of_function(
            function,
            found.domain().cols.len() as usize,
        ).ok_or(AllocError),
        Body::Plane(_) | Body::Accumulator(_) => Ok(0),
    }
}

// The same, or 0 if the stage is computed in the other form.
fn compute_ring_room_in_form(
    job: &Job,
    computed_narrow: &[bool],
    narrow: bool,
    stage: usize,
) -> Result<usize, AllocError>
    ensures { IfOk result (λ room. slice_index_or computed_narrow.now stage false ≡ narrow
        → HasOwnRoom (pipeline_in job.now) stage room) }
{
    if is_computed_narrow_ring(computed_narrow, stage) != narrow {
        return Ok(0);
    }
    compute_ring_room(job, stage)
}

// How many numbers are needed beside a row of any stage that is computed in 16 bits, or of any other one.
pub(crate) fn find_greatest_ring_room(
    job: &Job,
    computed_narrow: &[bool],
    narrow: bool,
) -> Result<usize, AllocError>
    ensures { IfOk result (λ room. (g : ℕ) → slice_index_or computed_narrow.now g false ≡ narrow
        → HasOwnRoom (pipeline_in job.now) g room) }
{
    let mut room = 0;
    for stage in 0..job.stages().len() {
        room = compute_ring_room_in_form(job, computed_narrow, narrow, stage)?.max(room);
    }
    Ok(room)
}

// How many numbers a row has room for behind its own, at most. So rows of common widths do not begin at the same place of a page: a processor
// takes a load for one of what was stored just before, if they lie at the same place of two pages. A narrow row has a quarter of its width.
const ROOM_BEHIND: usize = 144;

// A row of `width` numbers.
fn allocate_ring_row<T: Copy>(alloc: Global, zero: T, width: u32) -> Result<Vec<T>, AllocError>
    ensures { IfOk result (λ row. length row.items ≡ width) }
{
    let room = (width as usize / 4).min(ROOM_BEHIND);
    let mut row = Vec::with_capacity(alloc, width as usize + room)?;
    row.resize(width as usize, zero)?;
    Ok(row)
}

// `count` rows of `width` numbers.
fn allocate_ring_rows<T: Copy>(
    alloc: Global,
    zero: T,
    count: usize,
    width: u32,
) -> Result<Vec<Vec<T>>, AllocError>
    ensures count { IfOk result (λ rows. length rows.items ≡ count) }
    ensures width { IfOk result (λ rows. All (λ row. length row.items ≡ width) rows.items) }
{
    let mut rows = Vec::with_capacity(alloc, count)?;
    for _ in 0..count {
        rows.push(allocate_ring_row(alloc, zero, width)?)?;
    }
    Ok(rows)
}

// A ring in this state.
fn allocate_ring<T: Copy>(alloc: Global, zero: T, state: RowState) -> Result<RowRing<T>, AllocError>
    ensures { IfOk result (λ ring. ring.state ≡ state) }
{
    let rows = allocate_ring_rows(alloc, zero, state.kept, state.area.cols.len())?;
    Ok(RowRing { state, rows })
}

// Rings in these states. Before its rows are made a ring has this number everywhere.
pub(crate) fn allocate_rings<T: Copy>(
    alloc: Global,
    zero: T,
    states: &[RowState],
) -> Result<Vec<RowRing<T>>, AllocError>
    ensures { IfOk result (λ rings. ring_states rings.items ≡ states.now) }
{
    let mut rings = Vec::with_capacity(alloc, states.len())?;
    for state in states {
        rings.push(allocate_ring(alloc, zero, *state)?)?;
    }
    Ok(rings)
}
