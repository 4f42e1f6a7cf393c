//! A state over either store, which takes a fact, merges, lends, retires a job and writes.

use fact_store::{FactStore, SortedFacts, TableFacts};
use identity::{InputId, JobId, Key, ProgramId};
use node_state::{Known, NodeState, Taken};
use std::alloc::Global;
use std::test::Fail;
use tile_fact::{Body, Fact, Samples};

// Fails if this does not hold, or if no result was found of which it could hold. It is proved once, and an assertion in each test.
fn assert_example_state_condition(found: Option<bool>, what: &str) -> Result<(), Fail> {
    if found == Some(true) {
        return Ok(());
    }
    Err(Fail::new(format_args!("not so: {what}")))
}

// The fact that the tile of this key has these numbers.
fn make_example_state_tile_fact(alloc: Global, key: Key, numbers: &[i32]) -> Result<Fact, Fail> {
    let samples = Samples::new(numbers.to_vec(alloc)?)?;
    Ok(Fact::new(key, Body::Tile(samples)).ok().ok_or("no fact")?)
}

// The key of a tile in the first row.
fn make_example_state_tile_key(col: u32) -> Key {
    Key {
        program: ProgramId::new([0x11; 32]),
        input: InputId::new([0x22; 32]),
        stage: 1,
        row: 0,
        col,
    }
}

// The state that has taken a tile of one point.
fn make_example_state_of_fact<S: FactStore>(
    alloc: Global,
    col: u32,
    number: i32,
) -> Result<NodeState<S>, Fail> {
    let mut state = NodeState::new(alloc);
    let taken = state
        .take(make_example_state_tile_fact(alloc, make_example_state_tile_key(col), &[number])?)
        .ok();
    assert_example_state_condition(Some(taken == Some(Taken::New)), "the fact is new")?;
    Ok(state)
}

// One of two facts is new where states are merged.
fn make_merged_example_state<S: FactStore>(alloc: Global) -> Result<NodeState<S>, Fail> {
    let mut more: NodeState<S> = make_example_state_of_fact(alloc, 1, 2)?;
    let first: NodeState<S> = make_example_state_of_fact(alloc, 0, 0)?;
    assert_example_state_condition(Some(more.merge(&first)? == 1), "a fact of the other")?;
    let mut state = first;
    assert_example_state_condition(Some(state.merge(&more)? == 1), "one of two")?;
    Ok(state)
}

fn assert_facts_held_by_example_state<S: FactStore>(state: &NodeState<S>) -> Result<(), Fail> {
    assert_example_state_condition(
        Some(state.knows(&make_example_state_tile_key(1)) == Known::One),
        "one fact is known",
    )?;
    let held = state.held();
    assert_example_state_condition(
        Some(held.count_facts_of_key(&make_example_state_tile_key(2)) == 0),
        "no fact of another key",
    )?;
    let least = held.find_least_fact_of_all_keys().ok_or("a fact")?;
    let next = held.find_least_fact_above(least).ok_or("another fact")?;
    assert_example_state_condition(
        Some(held.find_nth_fact_of_key(&make_example_state_tile_key(1), 0) == Some(next)),
        "the next one",
    )?;
    let lent = state
        .lend(&[
            make_example_state_tile_key(1),
            make_example_state_tile_key(0),
        ])
        .ok()
        .ok_or("both are held")?;
    assert_example_state_condition(Some(lent.len() == 2), "both are lent")
}

// The file of what is held, which is that of a copy.
fn export_merged_example_state<S: FactStore>(alloc: Global) -> Result<Vec<u8>, Fail> {
    let state: NodeState<S> = make_merged_example_state(alloc)?;
    assert_facts_held_by_example_state(&state)?;
    let file = state.export()?;
    assert_example_state_condition(Some(state.copy()?.export()? == file), "a copy's file")?;
    Ok(file)
}

// A job is retired once, and its facts are taken no more.
fn assert_example_state_retires_job<S: FactStore>(alloc: Global) -> Result<(), Fail> {
    let mut state: NodeState<S> = make_merged_example_state(alloc)?;
    let ids = JobId::from_key(&make_example_state_tile_key(0));
    assert_example_state_condition(Some(state.retire(&ids)? == Taken::New), "it was not known")?;
    assert_example_state_condition(Some(state.retire(&ids)? == Taken::Already), "it is known")?;
    assert_example_state_condition(Some(state.retired() == [ids].as_slice()), "the one job")?;
    assert_example_state_condition(
        Some(state.knows(&make_example_state_tile_key(1)) == Known::Retired),
        "no fact of it",
    )?;
    let taken = state
        .take(make_example_state_tile_fact(alloc, make_example_state_tile_key(1), &[2])?)
        .ok();
    assert_example_state_condition(Some(taken == Some(Taken::Retired)), "nor is one taken")
}

#[test]
fn either_store_retires_a_job(rt: HostRuntime) -> Result<(), Fail> {
    assert_example_state_retires_job::<SortedFacts>(rt.alloc())?;
    assert_example_state_retires_job::<TableFacts>(rt.alloc())
}

#[test]
fn either_store_has_the_same_file(rt: HostRuntime) -> Result<(), Fail> {
    let sorted = export_merged_example_state::<SortedFacts>(rt.alloc())?;
    let tables = export_merged_example_state::<TableFacts>(rt.alloc())?;
    assert_example_state_condition(Some(sorted.len() == 174 && sorted == tables), "one file")
}
