//! Nodes and messages.

use fact_store::FactStore;
use node_state::NodeState;
use std::marker::Model;

/// What a node holds, and what it keeps.
#[derive(Drop)]
pub struct WorldNode<S: FactStore> {
    pub held: NodeState<S>,
    pub kept: NodeState<S>,
}

impl<S: FactStore> Model for WorldNode<S> {
    ghost use Rattle.gossip_core.specs.Networks.{NodeStates, coded_states};

    ghost Value = { NodeStates };

    ghost coded = { coded_states };

    ghost view = { λ n. record { held = n.held; kept = n.kept } };
}

/// What is on its way to a node: facts, and the jobs that the sender knew to be retired.
#[derive(Drop)]
pub struct Message<S: FactStore> {
    pub to: usize,
    pub state: NodeState<S>,
}

impl<S: FactStore> Model for Message<S> {
    ghost use Rattle.gossip_core.specs.Networks.{Sent, coded_sent};

    ghost Value = { Sent };

    ghost coded = { coded_sent };

    ghost view = { λ m. record { to = m.to; state = m.state } };
}
