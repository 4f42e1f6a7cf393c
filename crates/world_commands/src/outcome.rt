//! What becomes of a world.

ghost use Rattle.std.specs.Prelude.{◌≡◌, [], IfErr, IfOk};
ghost use Rattle.gossip_core.specs.Histories.{Leads};
ghost use Rattle.world_commands.specs.WorldFaults.{IsWorldFault};
ghost use Rattle.world_commands.specs.WorldSayings.{IsOutcome, IsSaidOfWorld};
ghost use Rattle.world_commands.specs.inside.Outcomes.{outcome_lines};

use crate::contents::WorldNodeReport;
use crate::holding::collect_world_node_reports;
use crate::start::make_requested_world;
use crate::world_input::read_catalog_and_events_of_world_input;
use command_faults::StreamFault;
use command_line::{NodesArgument, Options};
use gossip_events::Event;
use std::alloc::{AllocError, Global};
use worlds::World;

/// How many events there were, how many of these were refused, and what each node then holds.
#[derive(Drop)]
pub struct WorldOutcome {
    pub done: usize,
    pub refused: usize,
    pub nodes: Vec<WorldNodeReport>,
}

/// What becomes of so many nodes by the script of an input. The input is freed.
pub fn compute_node_reports_of_world_input(
    alloc: Global,
    nodes: NodesArgument,
    options: &Options,
    given: &[(String, i32)],
    input: Vec<u8>,
) -> Result<WorldOutcome, StreamFault>
    ensures said { IfOk result (λ outcome. IsSaidOfWorld nodes options.now given.now input.items
        (outcome_lines outcome)) }
    ensures fault { IfErr result (IsWorldFault input.items given.now options.now.sides) }
{
    let (catalog, events) = read_catalog_and_events_of_world_input(alloc, options, given, input)?;
    let world = make_requested_world(alloc, nodes, options, catalog)?;
    Ok(run_events_to_world_node_reports(alloc, nodes, world, &events)?)
}

/// What becomes by the events of a world of so many nodes that hold nothing.
fn run_events_to_world_node_reports(
    alloc: Global,
    nodes: NodesArgument,
    world: World,
    events: &[Event],
) -> Result<WorldOutcome, AllocError>
    requires { Leads world.work nodes [] [] world.network }
    ensures { IfOk result
        (λ outcome. IsOutcome world.work nodes events.now (outcome_lines outcome)) }
{
    let mut world = world;
    let ran = world.run(events);
    if ran.memory {
        return Err(AllocError);
    }
    Ok(WorldOutcome {
        done: ran.done,
        refused: ran.refused,
        nodes: collect_world_node_reports(alloc, nodes, &world)?,
    })
}
