//! Laws of the definitions. A law is a function whose clauses are the law.

ghost use Rattle.live_nodes.specs.Histories.{replay, replay_from};
ghost use Rattle.live_nodes.specs.declared.event.Event.{Event};
ghost use Rattle.gossip_core.specs.Networks.{Network, Sent};
ghost use Rattle.gossip_core.specs.Steps.{WorldWork};
ghost use Rattle.gossip_core.specs.Taking.{IsTaken, IsTakenAtKeep};
ghost use Rattle.gossip_events.specs.declared.event.Event.{Event as Step};
ghost use Rattle.node_histories.specs.Playing.{Plays, Runs, newest_first, node_in, with_node};
ghost use Rattle.std.specs.Prelude.{◌≡◌, ◌<◌, ℕ, [], List, length};

/// The replay of a history is what its deliveries, keeps and restarts do to one node of a world. A world accepts these events.
/// They leave the node as the replay does, and change nothing else. For each history there are messages and events that do the
/// same to a node.
pub fn node_histories_replay_in_worlds()
    ensures runs { (u : WorldWork) (w : Network) (n : ℕ) (h : List Event) (events : List Step)
        → n < length w.nodes → Plays w.messages n h events
        → Runs u w events (with_node w n (replay_from (node_in w n) h)) }
    ensures only { (u : WorldWork) (w new : Network) (n : ℕ) (h : List Event) (events : List Step)
        → n < length w.nodes → Plays w.messages n h events → Runs u w events new
        → new ≡ with_node w n (replay_from (node_in w n) h) }
    ensures each { (n : ℕ) (h : List Event)
        → (messages : List Sent) × (events : List Step) × Plays messages n h events }
{}

/// After a history a node holds what it took by those events. It keeps what it had taken at its last keep.
pub fn node_histories_leave_what_was_taken()
    ensures held { (messages : List Sent) (n : ℕ) (h : List Event) (events : List Step)
        → Plays messages n h events
        → IsTaken messages (newest_first events []) n (replay h).held }
    ensures kept { (messages : List Sent) (n : ℕ) (h : List Event) (events : List Step)
        → Plays messages n h events
        → IsTakenAtKeep messages (newest_first events []) n (replay h).kept }
{}
