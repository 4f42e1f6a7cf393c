//! Consequences of the definitions, proved once for dependent crates. A law is a function whose clauses are the law.

ghost use Rattle.live_nodes.specs.Accounts.{AccountFor};
ghost use Rattle.live_nodes.specs.Histories.{IsLegal, MayFollow, node_after, replay};
ghost use Rattle.live_nodes.specs.declared.event.Event.{Event as EventType};
ghost use Rattle.live_nodes.specs.declared.receipt.Receipt.{Receipt};
ghost use Rattle.std.specs.Prelude.{◌≡◌, ◌↔◌, ◌++◌, ◌∷◌, [], List, length, sum_by};

/// A history grows at its end: its last event happens to the node that the events before it leave, and is allowed there.
pub fn node_events_are_replayed_one_by_one()
    ensures replay { (h : List EventType) (e : EventType) →
        replay (h ++ e ∷ []) ≡ node_after (replay h) e }
    ensures legal { (h : List EventType) (e : EventType) →
        IsLegal (h ++ e ∷ []) ↔ (IsLegal h × MayFollow (replay h) e) }
{}

/// If lists of receipts account for a history, they have together as many receipts as it has events.
pub fn receipts_are_as_many_as_node_events()
    ensures { (history : List EventType) (lists : List (List Receipt)) → AccountFor history lists
        → length history ≡ sum_by length lists }
{}
