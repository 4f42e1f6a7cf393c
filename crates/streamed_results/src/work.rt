#![tactic(auto)]
//! How much work the rows of a picture are, by an estimate, and how many threads make them. No result depends on it.

use job::{Job, Output};
use rayon::current_num_threads;
use std::thread::Threads;
use tile_run::count_point_run_work;

/// Least work at which several threads pay off, in points, reads and operators: three to eight milliseconds of one thread.
const WORK_WORTH_STRIPS: u64 = 67_108_864;

/// Least work for each byte of the picture at which they pay off: the bytes of a strip are held until all strips are made.
const WORK_PER_BYTE_WORTH_STRIPS: u64 = 12;

// The work of all stages at all their points, as far as it can be counted.
fn estimate_work_of_streamed_result(job: &Job) -> u64 {
    let mut work = 0u64;
    for stage in job.stages() {
        let points = stage.domain().points();
        work = work.saturating_add(points.saturating_mul(count_point_run_work(stage)));
    }
    work
}

// How many bytes the picture of a job with this output has.
fn count_bytes_of_streamed_result(job: &Job, output: &Output) -> u64 {
    let Some(area) = job.domain(output.first_stage()) else {
        return 0;
    };
    let samples = area.points().saturating_mul(output.stages().len() as u64);
    if output.max() < 256 {
        samples
    } else {
        samples.saturating_mul(2)
    }
}

/// How many threads make rows soonest, of the picture of this output or of none, as far as their work tells. Where there is little work, the
/// system is not asked how many processors there are, which takes longer than a row.
pub(crate) fn count_streamed_result_threads(
    rt: &(impl Threads + Sync),
    job: &Job,
    output: Option<&Output>,
) -> usize {
    let work = estimate_work_of_streamed_result(job);
    let bytes = match output {
        Some(found) => count_bytes_of_streamed_result(job, found),
        None => 0,
    };
    if work < WORK_WORTH_STRIPS || work < bytes.saturating_mul(WORK_PER_BYTE_WORTH_STRIPS) {
        return 1;
    }
    current_num_threads(rt)
}
