//! Whether a fact could be true, by its kind and the count of its numbers.

ghost use Rattle.std.specs.Prelude.{◌↔◌, IfSome, IfNone, IsTrue};
ghost use Rattle.domains.specs.Span.{Ends};
ghost use Rattle.fact_audit.specs.Shapes.{FitsJob, HasBins, IsPartialShape, IsTileShape};
ghost use Rattle.job.specs.Kept.{pipeline_in};

use domains::Span;
use identity::Key;
use job::Job;
use reductions::find_accumulator_tile_area;
use tile_fact::{Body, Fact};
use whole_stages::find_tile_area_in_whole_function;

/// Whether the job has the tile that the key names, and the kind and the count of the numbers are the tile's. The identities in
/// the key are ignored. No memory is allocated.
pub fn is_well_shaped_fact(job: &Job, fact: &Fact) -> bool
    ensures { IsTrue result ↔ FitsJob fact.now (pipeline_in job.now) }
{
    let key = *fact.key();
    match fact.body() {
        Body::Tile(samples) => has_audited_sample_for_each_point(job, &key, samples.as_slice()),
        Body::Partial(bins) => has_audited_total_for_each_bin(job, &key, bins.as_slice()),
    }
}

// Whether there is a number for each point of the function's tile.
fn has_audited_sample_for_each_point(job: &Job, key: &Key, samples: &[i32]) -> bool
    ensures { IsTrue result
        ↔ IsTileShape (pipeline_in job.now) key.now.stage key.now.row key.now.col samples.now }
{
    match find_tile_area_in_whole_function(job, usize::from(key.stage), key.row, key.col) {
        Some(area) => samples.len() as u64 == area.points(),
        None => false,
    }
}

// Whether there is a number for each bin of the accumulator.
fn has_audited_total_for_each_bin(job: &Job, key: &Key, bins: &[i64]) -> bool
    ensures { IsTrue result
        ↔ IsPartialShape (pipeline_in job.now) key.now.stage key.now.row key.now.col bins.now }
{
    match find_bin_span_of_audited_key(job, key) {
        Some(span) => bins.len() == span.len() as usize,
        None => false,
    }
}

// The bins of the accumulator that has the tile that the key names; none of other stages.
fn find_bin_span_of_audited_key(job: &Job, key: &Key) -> Option<Span>
    ensures some { IfSome result
        (HasBins (pipeline_in job.now) key.now.stage key.now.row key.now.col) }
    ensures none { IfNone result ((ends : Ends)
        → ¬ (HasBins (pipeline_in job.now) key.now.stage key.now.row key.now.col ends)) }
{
    let stage = usize::from(key.stage);
    match find_accumulator_tile_area(job, stage, key.row, key.col) {
        Some(_) => job.bins(stage),
        None => None,
    }
}
