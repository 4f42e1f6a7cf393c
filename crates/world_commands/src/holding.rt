//! What the nodes of a world hold.

ghost use Rattle.std.specs.List.{flat_map};
ghost use Rattle.std.specs.Prelude.{◌≡◌, IfOk, length};
ghost use Rattle.world_commands.specs.WorldLines.{node_lines};
ghost use Rattle.world_commands.specs.inside.Outcomes.{held_line};

use crate::contents::WorldNodeReport;
use command_line::NodesArgument;
use std::alloc::{AllocError, Global};
use worlds::World;

/// What each of so many nodes holds.
pub fn collect_world_node_reports(
    alloc: Global,
    nodes: NodesArgument,
    world: &World,
) -> Result<Vec<WorldNodeReport>, AllocError>
    requires { length world.now.network.nodes ≡ nodes }
    ensures { IfOk result
        (λ held. flat_map held_line held.items ≡ node_lines nodes world.now.network) }
{
    let mut held = Vec::new(alloc);
    for node in 0..nodes.get() {
        match world.node(node) {
            Some(state) => held.push(WorldNodeReport::from_state(alloc, node, state)?)?,
            None => unreachable!(),
        }
    }
    Ok(held)
}
