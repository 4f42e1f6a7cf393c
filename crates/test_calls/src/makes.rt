//! A node that makes the tiles of a chain of two stencils, each of which is true.

use crate::checks::{assert_condition, assert_debug_text};
use crate::jobs::{
    CHAIN, ONES, assert_few_stages, bind_example_job, find_example_tile_key, make_example_catalog,
    make_example_stored_schedule,
};
use catalog::Catalog;
use fact_audit::audit;
use grouping::Schedule;
use identity::Key;
use node_state::NodeState;
use std::alloc::Global;
use std::test::Fail;
use tile_fact::{Body, Fact};

/// A catalog of one job, and a schedule of it.
#[derive(Drop)]
struct ScheduledExample {
    jobs: Catalog,
    schedule: Schedule,
}

// The chain of stencils, of which the first is stored.
fn make_scheduled_example_chain(alloc: Global) -> Result<ScheduledExample, Fail> {
    let job = bind_example_job(alloc, CHAIN, ONES, (2, 2))?;
    assert_few_stages(&job)?;
    let schedule = make_example_stored_schedule(alloc, &job)?;
    let jobs = make_example_catalog(alloc, job)?;
    Ok(ScheduledExample { jobs, schedule })
}

impl ScheduledExample {
    // The fact that is made of a key, which is a true tile of these numbers.
    fn make_and_assert_true_tile(
        &self,
        alloc: Global,
        state: &NodeState,
        key: &Key,
        wanted: &str,
    ) -> Result<Fact, Fail> {
        let fact = state.make(&self.jobs, &self.schedule, key)?;
        assert_debug_text(alloc, &audit(alloc, &self.jobs, &fact)?, "True")?;
        match fact.body() {
            Body::Tile(samples) => assert_debug_text(alloc, &samples.as_slice(), wanted)?,
            Body::Partial(_) => return Err(Fail::new("no tile")),
        }
        Ok(fact)
    }
}

/// The tiles of the first stencil.
const TILES: [(u32, u32); 4] = [(0, 0), (0, 1), (1, 0), (1, 1)];

fn assert_made_tiles(alloc: Global, chain: &ScheduledExample) -> Result<(), Fail> {
    let mut state = NodeState::new(alloc);
    for (row, col) in TILES {
        let key = find_example_tile_key(&chain.jobs, 0, 1, row, col).ok_or("no key")?;
        let fact = chain.make_and_assert_true_tile(alloc, &state, &key, "[9, 9, 9, 9]")?;
        assert_condition(Some(state.take(fact).is_ok()), "memory for a fact")?;
    }
    let last = find_example_tile_key(&chain.jobs, 0, 2, 0, 0).ok_or("no key")?;
    chain.make_and_assert_true_tile(alloc, &state, &last, "[81, 81, 81, 81]")?;
    Ok(())
}

#[test]
fn a_tile_is_made_of_tiles_that_were_made(rt: HostRuntime) -> Result<(), Fail> {
    let alloc = rt.alloc();
    assert_made_tiles(alloc, &make_scheduled_example_chain(alloc)?)
}
