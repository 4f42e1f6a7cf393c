#![tactic(auto)]
//! Ranges of the stages of a job.

ghost use Rattle.std.specs.Prelude.{◌≡◌, true, length, replicate, All, IfOk};
ghost use Rattle.job.specs.Kept.{pipeline_in};
ghost use Rattle.job.specs.Reads.{stage_read};
ghost use Rattle.job.specs.ReadViews.{read_view};
ghost use Rattle.value_ranges.specs.Ranges.{full_range, AreRanges, IsRangeOf, HasNarrowRange, IsNarrowStage, HasNarrowReads};
ghost use Rattle.value_ranges.specs.inside.Found.{AreKnown};

use crate::formulas::are_both_narrow;
use crate::functions::find_value_range_of_function;
use crate::value_range::{ValueRange, full_value_range, is_narrow_value_range};
use job::{Body, Job, Read};
use std::alloc::{AllocError, Global};

// The range of a stage that reads stages of these ranges.
fn find_value_range_of_stage(job: &Job, ranges: &[ValueRange], stage: usize) -> ValueRange
    requires { AreKnown (pipeline_in job.now) ranges.now }
    ensures { IsRangeOf (pipeline_in job.now) stage result }
{
    let Some(stage) = job.stage(stage) else {
        return full_value_range();
    };
    match stage.body() {
        Body::Plane(_) => ValueRange {
            lo: 0,
            hi: i32::from(job.picture().max()),
        },
        Body::Function(function) => find_value_range_of_function(function, ranges).range,
        Body::Accumulator(_) => full_value_range(),
    }
}

// All numbers of 32 bits, for each stage.
fn list_full_value_ranges(alloc: Global, count: usize) -> Result<Vec<ValueRange>, AllocError>
    ensures { IfOk result (λ ranges. ranges.items ≡ replicate count full_range) }
{
    Ok(vec![in alloc; full_value_range(); count]?)
}

// Finds the ranges of the stages of a rank anew, from those that are known.
fn improve_value_ranges_of_rank(job: &Job, rank: usize, ranges: &mut [ValueRange])
    requires { AreKnown (pipeline_in job.now) ranges.old }
    ensures length { length ranges.new ≡ length ranges.old }
    ensures ranges { AreKnown (pipeline_in job.now) ranges.new }
{
    for stage in 0..ranges.len() {
        if job.rank(stage) == Some(rank) {
            ranges[stage] = find_value_range_of_stage(job, ranges, stage);
        }
    }
}

// Finds the ranges of all stages anew, rank by rank.
fn improve_value_ranges(job: &Job, ranges: &mut [ValueRange])
    requires { AreKnown (pipeline_in job.now) ranges.old }
    ensures length { length ranges.new ≡ length ranges.old }
    ensures ranges { AreKnown (pipeline_in job.now) ranges.new }
{
    for rank in 0..ranges.len() {
        improve_value_ranges_of_rank(job, rank, ranges);
    }
    improve_value_ranges_of_rank(job, ranges.len(), ranges);
}

/// The range of each stage: its values lie between the ends. It is found in one pass over the stages for each rank. An
/// accumulator has all numbers of 32 bits.
///
/// # Errors
///
/// Fails only where memory is refused.
pub fn find_value_ranges(alloc: Global, job: &Job) -> Result<Vec<ValueRange>, AllocError>
    ensures length { IfOk result
        (λ ranges. length ranges.items ≡ length (pipeline_in job.now).stages) }
    ensures ranges { IfOk result (λ ranges. AreRanges (pipeline_in job.now) ranges.items) }
{
    let mut ranges = list_full_value_ranges(alloc, job.stages().len())?;
    improve_value_ranges(job, &mut ranges);
    Ok(ranges)
}

// Whether each stage that is read has a range of 16 bits.
fn read_narrow_value_ranges_only(reads: &[Read], ranges: &[ValueRange]) -> bool
    ensures { result ≡ true → All (λ x. HasNarrowRange ranges.now (stage_read (read_view x))) reads.now }
{
    reads
        .iter()
        .all(|read| is_narrow_value_range_at(ranges, read.stage()))
}

// Whether the stage of this number has a range of 16 bits.
fn is_narrow_value_range_at(ranges: &[ValueRange], stage: usize) -> bool
    ensures { result ≡ true → HasNarrowRange ranges.now stage }
{
    match ranges.get(stage) {
        Some(range) => is_narrow_value_range(range),
        None => false,
    }
}

/// Whether the stage of this number is a function whose formulas are computed in 16 bits, from stages whose ranges fit in them.
/// It says no where a coordinate or a table occurs.
pub fn is_narrow_stage(job: &Job, ranges: &[ValueRange], stage: usize) -> bool
    requires { AreRanges (pipeline_in job.now) ranges.now }
    ensures function { result ≡ true → IsNarrowStage (pipeline_in job.now) stage }
    ensures reads { result ≡ true → HasNarrowReads (pipeline_in job.now) ranges.now stage }
{
    let Some(stage) = job.stage(stage) else {
        return false;
    };
    let Body::Function(function) = stage.body() else {
        return false;
    };
    let found = find_value_range_of_function(function, ranges);
    let reads = read_narrow_value_ranges_only(function.reads(), ranges);
    are_both_narrow(found.narrow, reads)
}
