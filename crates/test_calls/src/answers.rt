//! What a node answers from the partials that it holds, and what it lacks before.

use crate::checks::{assert_condition, assert_debug_text};
use crate::jobs::{ONE_TO_NINE, REMAINDERS, bind_example_job};
use job::Job;
use node_state::NodeState;
use std::alloc::Global;
use std::test::Fail;
use tile_fact::{Bins, Body, Fact};

/// What is counted over each of the four tiles.
const PARTIALS: [(u32, u32, [i64; 4]); 4] = [
    (1, 1, [0, 1, 0, 0]),
    (0, 0, [1, 2, 1, 0]),
    (1, 0, [1, 0, 0, 1]),
    (0, 1, [0, 0, 1, 1]),
];

// The fact of a partial of the job.
fn make_example_partial_fact(
    alloc: Global,
    job: &Job,
    row: u32,
    col: u32,
    bins: &[i64],
) -> Result<Fact, Fail> {
    let key = job.key(1, row, col).ok_or("no key")?;
    let body = Body::Partial(Bins::new(bins.to_vec(alloc)?)?);
    Ok(Fact::new(key, body).ok().ok_or("no fact")?)
}

fn assert_answer_of_partials(alloc: Global, job: &Job) -> Result<(), Fail> {
    let mut state: NodeState = NodeState::new(alloc);
    assert_condition(Some(state.missing(job)?.len() == 4), "all are missing")?;
    for (row, col, bins) in PARTIALS {
        let fact = make_example_partial_fact(alloc, job, row, col, &bins)?;
        assert_condition(Some(state.take(fact).is_ok()), "memory for a fact")?;
    }
    let answer = state.answer(job).ok().ok_or("no answer")?;
    assert_debug_text(
        alloc,
        &answer,
        "Answer { picture: None, totals: [Total { stage: 1, lo: 0, bins: [2, 3, 2, 2] }] }",
    )
}

#[test]
fn totals_of_partials(rt: HostRuntime) -> Result<(), Fail> {
    let job = bind_example_job(rt.alloc(), REMAINDERS, ONE_TO_NINE, (2, 2))?;
    assert_answer_of_partials(rt.alloc(), &job)
}
