//! Worlds before any event.

ghost use Rattle.std.specs.Prelude.{◌≡◌, [], IfOk, map, replicate};
ghost use Rattle.gossip_core.specs.Histories.{Leads};
ghost use Rattle.world_commands.specs.WorldSayings.{inlinings, work_of};

use catalog::Catalog;
use command_jobs::make_requested_schedule;
use command_line::{NodesArgument, Options};
use std::alloc::{AllocError, Global};
use worlds::{NodeSchedules, World, WorldFault};

/// So many nodes that hold nothing, with the jobs of a catalog, by the schedules that the options request.
pub fn make_requested_world(
    alloc: Global,
    nodes: NodesArgument,
    options: &Options,
    catalog: Catalog,
) -> Result<World, AllocError>
    ensures work { IfOk result
        (λ w. w.work ≡ work_of nodes options.now.stored options.now.percent catalog) }
    ensures led { IfOk result (λ w. Leads w.work nodes [] [] w.network) }
{
    let schedules = make_requested_world_schedules(alloc, nodes, options, &catalog)?;
    match World::new(alloc, catalog, schedules) {
        Ok(world) => Ok(world),
        Err((_, _, WorldFault::Memory)) => Err(AllocError),
        Err((_, _, WorldFault::BadCount)) => unreachable!(),
    }
}

/// The schedules of each node.
fn make_requested_world_schedules(
    alloc: Global,
    nodes: NodesArgument,
    options: &Options,
    catalog: &Catalog,
) -> Result<Vec<NodeSchedules>, AllocError>
    ensures { IfOk result (λ schedules. schedules.items
        ≡ replicate nodes (inlinings options.now.stored options.now.percent catalog.now)) }
{
    let mut schedules = Vec::new(alloc);
    for _ in 0..nodes.get() {
        schedules.push(make_requested_world_schedules_of_node(alloc, options, catalog)?)?;
    }
    Ok(schedules)
}

/// The schedules of one node, one for each job.
fn make_requested_world_schedules_of_node(
    alloc: Global,
    options: &Options,
    catalog: &Catalog,
) -> Result<NodeSchedules, AllocError>
    ensures { IfOk result (λ schedules. schedules
        ≡ inlinings options.now.stored options.now.percent catalog.now) }
{
    let mut schedules = Vec::new(alloc);
    for index in 0..catalog.len() {
        match catalog.job(index) {
            Some(job) => schedules.push(make_requested_schedule(alloc, job, options)?)?,
            None => unreachable!(),
        }
    }
    Ok(NodeSchedules::new(schedules))
}
