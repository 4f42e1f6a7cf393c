//! A world of one node that copies a picture, over either store.

use crate::checks::{assert_condition, assert_debug_text};
use crate::jobs::{COPY, bind_example_job, make_example_catalog, make_example_stored_schedule};
use fact_store::{FactStore, SortedFacts, TableFacts};
use std::alloc::Global;
use std::test::Fail;
use worlds::{NodeSchedules, World};

fn make_example_copy_world<S: FactStore>(alloc: Global) -> Result<World<S>, Fail> {
    let job = bind_example_job(alloc, COPY, b"P2 2 2 255 1 2 3 4\n", (2, 2))?;
    let mut of_node = Vec::new(alloc);
    of_node.push(make_example_stored_schedule(alloc, &job)?)?;
    let mut schedules = Vec::new(alloc);
    schedules.push(NodeSchedules::new(of_node))?;
    match World::new(alloc, make_example_catalog(alloc, job)?, schedules) {
        Ok(world) => Ok(world),
        Err((_, _, fault)) => Err(Fail::new(fault)),
    }
}

// The file of what the node holds after the events that finish the job, a keeping and a restart.
fn run_example_world_to_its_end<S: FactStore>(alloc: Global) -> Result<Vec<u8>, Fail> {
    let mut world: World<S> = make_example_copy_world(alloc)?;
    let events = world.finish(0, 0)?;
    let two = "Ran { done: 2, refused: 0, memory: false }";
    assert_debug_text(alloc, &world.run(&events), two)?;
    let more = world
        .parse_script(b"keep 0\nrestart 0")
        .ok()
        .ok_or("no script")?;
    assert_debug_text(alloc, &world.run(&more), two)?;
    let kept = world.kept(0).ok_or("no node")?.export()?;
    let held = world.node(0).ok_or("no node")?.export()?;
    assert_condition(Some(held.len() == 103 && held == kept), "one fact is kept")?;
    Ok(held)
}

#[test]
fn either_store_leaves_the_same_world(rt: HostRuntime) -> Result<(), Fail> {
    let sorted = run_example_world_to_its_end::<SortedFacts>(rt.alloc())?;
    let tables = run_example_world_to_its_end::<TableFacts>(rt.alloc())?;
    assert_condition(Some(sorted == tables), "one file")
}
