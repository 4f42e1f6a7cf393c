//! A count over a picture: whole, from its tiles, and at once.

ghost use Rattle.job.specs.Kept.{pipeline_in};

use crate::checks::assert_debug_text;
use crate::jobs::{ONE_TO_NINE, REMAINDERS, bind_example_job, make_example_stored_schedule};
use accumulators::{Answer, compute_answer_from_function_tiles, evaluate_job, whole};
use job::Job;
use std::alloc::Global;
use std::test::Fail;
use std::thread::Threads;
use tile_run::run_all;
use whole_stages::plain;

// The answers of a job: at once, and from the tiles of all functions.
fn compute_both_example_answers(
    rt: &(impl Threads + Sync),
    alloc: Global,
    job: &Job,
) -> Result<(Answer, Answer), Fail> {
    let schedule = make_example_stored_schedule(alloc, job)?;
    let tiles = run_all(rt, alloc, job, &schedule)?;
    let from_tiles = compute_answer_from_function_tiles(rt, alloc, job, &schedule, &tiles)?;
    let at_once = evaluate_job(rt, alloc, job, &schedule)?;
    Ok((at_once, from_tiles))
}

fn assert_bin_counts(rt: &(impl Threads + Sync), alloc: Global, job: &Job) -> Result<(), Fail> {
    let samples = plain(alloc, job, 0)?;
    assert_debug_text(alloc, &samples, "[1, 2, 3, 4, 5, 6, 7, 8, 9]")?;
    let bins = whole(alloc, job, 1)?;
    assert_debug_text(alloc, &bins, "[2, 3, 2, 2]")?;
    let wanted =
        "Answer { picture: None, totals: [Total { stage: 1, lo: 0, bins: [2, 3, 2, 2] }] }";
    let (at_once, from_tiles) = compute_both_example_answers(rt, alloc, job)?;
    assert_debug_text(alloc, &at_once, wanted)?;
    assert_debug_text(alloc, &from_tiles, wanted)
}

#[test]
fn a_count_is_answered(rt: HostRuntime) -> Result<(), Fail> {
    let job = bind_example_job(rt.alloc(), REMAINDERS, ONE_TO_NINE, (2, 2))?;
    assert_bin_counts(&rt, rt.alloc(), &job)
}
