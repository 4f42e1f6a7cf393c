#![tactic(auto)]
//! Where steps lie in scratch memory.

ghost use Rattle.std.specs.Prelude.{◌≡◌, ◌≤◌, ◌<◌, ◌+◌, ◌^◌, map, length, All, insert, IfOk, OnOk};
ghost use Rattle.std.specs.Prelude.{slice_index_or};
ghost use Rattle.tile_boxes.specs.Costs.{points_in, most_scratch};
ghost use Rattle.overlap_tiles.specs.Ranges.{LieWithin};
ghost use Rattle.overlap_tiles.specs.Views.{step_view};
ghost use Rattle.overlap_tiles.specs.inside.Made.{find_first_gap, with_held, still_held, held_by, held_after};
ghost use Rattle.overlap_tiles.specs.inside.Made.{ranges_by, size_of};
ghost use Rattle.overlap_tiles.specs.declared.ranges.HeldRange.{HeldRange as Range};

use crate::steps::{TileStep, count_points_of_stage_area};
use std::alloc::{AllocError, Global};

/// A range of scratch memory, by its start and its length, and the place of the last step that reads it.
#[derive(Clone, Copy, Debug)]
pub struct HeldRange {
    start: usize,
    len: usize,
    last: usize,
}

// The least start at which `len` places meet no held range. The held ranges are in the order of their starts.
fn find_first_gap(held: &[HeldRange], len: usize) -> usize
    requires within { All (λ h. h.start + h.len ≤ most_scratch) held.now }
    requires few { len < 2 ^ 43 }
    ensures { result ≡ find_first_gap len 0 held.now }
{
    let mut start = 0;
    for range in held {
        if start + len <= range.start {
            return start;
        }
        start = start.max(range.start + range.len);
    }
    start
}

// The number of held ranges that come before one with this start.
fn find_scratch_range_position(held: &[HeldRange], start: usize) -> usize
    ensures within { result ≤ length held.now }
    ensures put { (new : Range) → new.start ≡ start
        → insert held.now result new ≡ with_held new held.now }
{
    for (place, range) in held.iter().enumerate() {
        if start < range.start {
            return place;
        }
    }
    held.len()
}

// Adds a held range.
fn insert_held_scratch_range(held: &mut Vec<HeldRange>, range: HeldRange) -> Result<(), AllocError>
    ensures { OnOk result (held.new.items ≡ with_held range held.old.items) }
{
    let at = find_scratch_range_position(held, range.start);
    held.insert(at, range)?;
    Ok(())
}

// Frees the ranges that are not read at this place or later.
fn free_unread_scratch_ranges(held: &mut Vec<HeldRange>, place: usize)
    ensures { held.new.items ≡ still_held place held.old.items }
{
    held.retain(|range| place <= range.last);
}

// The start of the range of the step at this place, by its number of points and its last reader.
fn assign_scratch_range(
    held: &mut Vec<HeldRange>,
    place: usize,
    len: usize,
    last: usize,
) -> Result<usize, AllocError>
    requires within { All (λ h. h.start + h.len ≤ most_scratch) held.old.items }
    requires few { len < 2 ^ 43 }
    ensures start { IfOk result (λ start. start
        ≡ (held_by place held.old.items (len, last)).start) }
    ensures held { OnOk result (held.new.items ≡ held_after place held.old.items (len, last)) }
{
    free_unread_scratch_ranges(held, place);
    let start = find_first_gap(held, len);
    insert_held_scratch_range(held, HeldRange { start, len, last })?;
    Ok(start)
}

// The last reader of a stage in a table.
fn look_up_last_reader_of_stage(lasts: &[usize], stage: usize) -> usize
    ensures { result ≡ slice_index_or lasts.now stage 0 }
{
    lasts.get(stage).copied().unwrap_or(0)
}

/// A range for each step: its start and its length. A table has for each stage the place of its last reader. In the order of the
/// steps each range starts at the least place where it meets no range that is still to be read.
pub(crate) fn assign_scratch_ranges(
    alloc: Global,
    steps: &[TileStep],
    lasts: &[usize],
) -> Result<Vec<(usize, usize)>, AllocError>
    requires { points_in (map step_view steps.now) ≤ most_scratch }
    ensures ranges { IfOk result (λ ranges. ranges.items
        ≡ ranges_by lasts.now (map step_view steps.now)) }
    ensures within { IfOk result (λ ranges. LieWithin most_scratch ranges.items) }
{
    let mut ranges = Vec::new(alloc);
    let mut held = Vec::new(alloc);
    for (place, step) in steps.iter().enumerate() {
        let len = count_points_of_stage_area(&step.area) as usize;
        let last = look_up_last_reader_of_stage(lasts, step.stage);
        let start = assign_scratch_range(&mut held, place, len, last)?;
        ranges.push((start, len))?;
    }
    Ok(ranges)
}

/// The size of the least scratch memory that contains these ranges.
pub(crate) fn find_size_of_scratch_ranges(ranges: &[(usize, usize)]) -> usize
    requires { LieWithin most_scratch ranges.now }
    ensures { result ≡ size_of ranges.now }
{
    let mut size = 0;
    for (start, len) in ranges {
        size = size.max(*start + *len);
    }
    size
}
