#![tactic(auto)]
//! The shortest cycle of reads.

ghost use Rattle.std.specs.Prelude.{◌≡◌, ℕ, suc, ◌<◌, ◌≤◌, ◌+◌, ◌↔◌, Option, Some, None, if◌then◌else◌, ◌==◌, IsTrue, IfSome};
ghost use Rattle.std.specs.Prelude.{IfNone, IfOk, length, slice_get, Contains};
ghost use Rattle.pipe_checks.specs.Graph.{links_at, Way, IsAcyclic, IsShortestFrom, IsShortestCycle};
ghost use Rattle.pipe_checks.specs.inside.Search.{SomeAt, LeadsOn, AreDistances, IsStepAt, IsStepFrom, IsWayBack};

use crate::graph::{StageLinks, get_graph_rank_or_distance};
use std::alloc::{AllocError, Global};

// Whether a stage is known to be at this distance.
fn is_stage_at_cycle_distance(far: &[Option<usize>], stage: usize, steps: usize) -> bool
    ensures { IsTrue result ↔ (slice_get far.now stage ≡ Some (Some steps)) }
{
    match get_graph_rank_or_distance(far, stage) {
        Some(Some(distance)) => distance == steps,
        Some(None) | None => false,
    }
}

// Whether a stage reads one at this distance.
fn has_read_at_cycle_distance(links: &StageLinks, far: &[Option<usize>], steps: usize) -> bool
    ensures { IsTrue result ↔ SomeAt far.now links.now.reads steps }
{
    for stage in links.reads() {
        if is_stage_at_cycle_distance(far, *stage, steps) {
            return true;
        }
    }
    false
}

// Whether a stage whose distance is not known reads one at this distance.
fn can_extend_cycle_distances(graph: &[StageLinks], far: &[Option<usize>], steps: usize) -> bool
    requires { length far.now ≡ length graph.now }
    ensures { IsTrue result ↔ LeadsOn graph.now far.now steps }
{
    for (stage, links) in graph.iter().enumerate() {
        if far[stage].is_none() && has_read_at_cycle_distance(links, far, steps) {
            return true;
        }
    }
    false
}

// The distance of a stage, where the distances up to `steps` are known.
fn compute_next_cycle_distance_of_stage(
    graph: &[StageLinks],
    far: &[Option<usize>],
    steps: usize,
    stage: usize,
) -> Option<usize>
    requires each { length far.now ≡ length graph.now }
    requires fits { steps < usize.MAX }
    requires within { stage < length graph.now }
    ensures { IsStepAt graph.now far.now steps stage result }
{
    match far[stage] {
        Some(distance) => Some(distance),
        None => has_read_at_cycle_distance(&graph[stage], far, steps).then_some(steps + 1),
    }
}

// The distances, with those of `steps` + 1 added.
fn compute_extended_cycle_distances(
    alloc: Global,
    graph: &[StageLinks],
    far: &[Option<usize>],
    steps: usize,
) -> Result<Vec<Option<usize>>, AllocError>
    requires each { length far.now ≡ length graph.now }
    requires fits { steps < usize.MAX }
    ensures { IfOk result (λ v. IsStepFrom graph.now far.now steps v.items) }
{
    let mut next = Vec::new(alloc);
    for stage in 0..graph.len() {
        next.push(compute_next_cycle_distance_of_stage(graph, far, steps, stage))?;
    }
    Ok(next)
}

// Only the goal is known, at distance 0.
fn init_cycle_distances(
    alloc: Global,
    count: usize,
    goal: usize,
) -> Result<Vec<Option<usize>>, AllocError>
    ensures each { IfOk result (λ v. length v.items ≡ count) }
    ensures only { IfOk result (λ v. (t : ℕ) → t < count
        → slice_get v.items t ≡ Some (if t == goal then Some 0 else None)) }
{
    let mut far = Vec::new(alloc);
    for stage in 0..count {
        far.push(if stage == goal { Some(0) } else { None })?;
    }
    Ok(far)
}

// The number of reads from each stage to `goal`, where it can be reached.
fn compute_cycle_distances_to_stage(
    alloc: Global,
    graph: &[StageLinks],
    goal: usize,
) -> Result<Vec<Option<usize>>, AllocError>
    requires { goal < length graph.now }
    ensures { IfOk result (λ v. AreDistances graph.now goal v.items) }
{
    let mut far = init_cycle_distances(alloc, graph.len(), goal)?;
    let mut steps = 0;
    while can_extend_cycle_distances(graph, &far, steps) {
        far = compute_extended_cycle_distances(alloc, graph, &far, steps)?;
        steps += 1;
    }
    Ok(far)
}

// The least known distance of a stage that this one reads.
fn find_least_cycle_distance_of_reads(links: &StageLinks, far: &[Option<usize>]) -> Option<usize>
    ensures some { IfSome result (SomeAt far.now links.now.reads) }
    ensures least { IfSome result (λ d. (k : ℕ) → SomeAt far.now links.now.reads k → d ≤ k) }
    ensures none { IfNone result ((k : ℕ) → ¬ (SomeAt far.now links.now.reads k)) }
{
    let mut least: Option<usize> = None;
    for stage in links.reads() {
        if let Some(Some(distance)) = get_graph_rank_or_distance(far, *stage) {
            least = match least {
                Some(least) => Some(least.min(distance)),
                None => Some(distance),
            };
        }
    }
    least
}

// The least of the stages read that have this distance.
fn find_least_read_at_cycle_distance(
    links: &StageLinks,
    far: &[Option<usize>],
    steps: usize,
) -> usize
    requires { SomeAt far.now links.now.reads steps }
    ensures read { Contains links.now.reads result }
    ensures at { slice_get far.now result ≡ Some (Some steps) }
    ensures least { (u : ℕ) → Contains links.now.reads u → slice_get far.now u ≡ Some (Some steps)
        → result ≤ u }
{
    let mut least: Option<usize> = None;
    for stage in links.reads() {
        if is_stage_at_cycle_distance(far, *stage, steps) {
            least = match least {
                Some(least) => Some(least.min(*stage)),
                None => Some(*stage),
            };
        }
    }
    match least {
        Some(least) => least,
        None => unreachable!(),
    }
}

// The first of the shortest ways from `start` back to it, where the nearest stage that it reads is at the distance `left`.
fn trace_shortest_cycle(
    alloc: Global,
    graph: &[StageLinks],
    far: &[Option<usize>],
    start: usize,
    left: usize,
) -> Result<Vec<usize>, AllocError>
    requires distances { AreDistances graph.now start far.now }
    requires first { SomeAt far.now (links_at graph.now start).reads left }
    requires within { start < length graph.now }
    ensures { IfOk result (λ v. IsWayBack graph.now start far.now left v.items) }
{
    let mut way = Vec::new(alloc);
    way.push(start)?;
    let mut at = start;
    let mut steps = left + 1;
    while steps > 0 {
        steps -= 1;
        at = find_least_read_at_cycle_distance(&graph[at], far, steps);
        way.push(at)?;
    }
    Ok(way)
}

// The first of the shortest cycles from `start`, if there is one.
fn find_shortest_cycle_from_stage(
    alloc: Global,
    graph: &[StageLinks],
    start: usize,
) -> Result<Option<Vec<usize>>, AllocError>
    requires { start < length graph.now }
    ensures some { IfOk result (λ o. IfSome o (λ v. IsShortestFrom graph.now start v.items)) }
    ensures none { IfOk result (λ o. IfNone o ((k : ℕ) → Way graph.now (suc k) start start → ⊥)) }
{
    let far = compute_cycle_distances_to_stage(alloc, graph, start)?;
    match find_least_cycle_distance_of_reads(&graph[start], &far) {
        Some(left) => Ok(Some(trace_shortest_cycle(alloc, graph, &far, start, left)?)),
        None => Ok(None),
    }
}

/// The first of the shortest cycles of reads from the least stage that is on one.
pub(crate) fn find_shortest_cycle_from_least_stage(
    alloc: Global,
    graph: &[StageLinks],
) -> Result<Vec<usize>, AllocError>
    requires { ¬ (IsAcyclic graph.now) }
    ensures { IfOk result (λ v. IsShortestCycle graph.now v.items) }
{
    for start in 0..graph.len() {
        if let Some(cycle) = find_shortest_cycle_from_stage(alloc, graph, start)? {
            return Ok(cycle);
        }
    }
    unreachable!()
}
