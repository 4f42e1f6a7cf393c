//! What takes the calls of a worker.

use crate::standing::KeyReadiness;
use identity::Key;
use std::alloc::AllocError;
use tile_fact::{Fact, Update};

/// What takes the calls of a worker: its node, the mailboxes of all nodes, the desk, the gate, and what computes a tile.
/// Contracts see a log of the calls. A place that keeps no log of its own states only what it knows of a log. A worker that uses
/// this trait alone has made all calls of the log, and no other ones. A call that is refused memory fails, and is in no log.
pub trait WorkerPlace {
    ghost use Rattle.farm_turns.specs.Calls.{Call, Calls, Entered, Received, Found_empty, Took, Claimed, Lent, Computed, Made, Put, Released, Kept, Restarted, finding_call};
    ghost use Rattle.identity.specs.declared.key.Key.{Key as KeyOf};
    ghost use Rattle.std.specs.Prelude.{◌∷◌, [], All, IfNone, IfOk, IfSome, List, None, OnOk, Option, Some};
    ghost use Rattle.tile_fact.specs.declared.fact.Fact.{Fact as FactOf};
    ghost use Rattle.tile_fact.specs.declared.update.Update.{Update as UpdateOf};
    ghost use Rattle.tile_fact.specs.declared.update.Update.TheVariants as update;

    /// How a tile is made.
    type Plan: Drop;

    /// These may be all calls so far, the oldest first.
    ghost has_log: { Self → List Call → Type 0 };

    /// A fact is true.
    ghost is_true: { FactOf → Type 0 };

    /// All of these updates are true.
    ghost are_true: { List UpdateOf → Type 0 };

    /// The keys of which a plan needs facts.
    ghost needs_of: { Self.Plan → List KeyOf };

    /// A worker enters a turn.
    fn announce_turn(&mut self, worker: u8, turn: u32)
        ensures { Calls has_log self.old self.new (Entered worker turn) };

    /// The updates of a parcel from a node's mailbox. There are none where it is empty.
    fn receive_parcel_updates(&mut self, node: u8) -> Option<Vec<Update>>
        ensures is_true { IfSome result (λ updates. are_true updates.items) }
        ensures call { IfSome result (λ updates.
            Calls has_log self.old self.new (Received node updates.items)) }
        ensures empty { IfNone result (Calls has_log self.old self.new (Found_empty node)) };

    /// The worker's node takes updates.
    fn add_updates_to_node(&mut self, updates: Vec<Update>) -> Result<(), AllocError>
        requires { are_true updates.items }
        ensures { OnOk result (Calls has_log self.old self.new (Took updates.items)) };

    /// The worker's node takes copies of updates.
    fn add_update_copies_to_node(&mut self, updates: &[Update]) -> Result<(), AllocError>
        requires { are_true updates.now }
        ensures { OnOk result (Calls has_log self.old self.new (Took updates.now)) };

    /// The worker's node takes a copy of a fact.
    fn add_fact_to_node(&mut self, fact: &Fact) -> Result<(), AllocError>
        requires { is_true fact.now }
        ensures { OnOk result
            (Calls has_log self.old self.new (Took (update.Fact fact.now ∷ []))) };

    /// The readiness of a key by what the worker's node holds.
    fn find_readiness_of_work_key(
        &mut self,
        key: &Key,
    ) -> Result<KeyReadiness<Self::Plan>, AllocError>
        ensures { IfOk result (λ standing.
            Calls has_log self.old self.new (finding_call needs_of key.now standing)) };

    /// Whether a key is leased to a worker from now on, for `ttl`.
    fn claim_key(&mut self, time: u64, worker: u8, key: &Key, ttl: u64) -> Result<bool, AllocError>
        ensures { IfOk result (λ leased.
            Calls has_log self.old self.new (Claimed time worker key.now ttl leased)) };

    /// The true facts of all keys that a plan needs, where the worker's node holds them all.
    fn lend_needed_facts(&mut self, plan: &Self::Plan) -> Result<Option<Vec<Fact>>, AllocError>
        ensures is_true { IfOk result (λ lent. IfSome lent (λ facts. All is_true facts.items)) }
        ensures lent { IfOk result (λ lent. IfSome lent (λ facts.
            Calls has_log self.old self.new (Lent (needs_of plan.now) (Some facts.items)))) }
        ensures not_held { IfOk result (λ lent. IfNone lent
            (Calls has_log self.old self.new (Lent (needs_of plan.now) None))) };

    /// The fact of a key, computed from true facts, where these are all that it needs. It is true too.
    fn compute_fact(&mut self, facts: &[Fact], key: &Key) -> Result<Option<Fact>, AllocError>
        requires { All is_true facts.now }
        ensures is_true { IfOk result (λ made. IfSome made is_true) }
        ensures call { IfOk result (λ made.
            Calls has_log self.old self.new (Computed key.now facts.now made)) };

    /// A worker has made a fact, which it has not given to its node yet.
    fn report_fact(&mut self, worker: u8, turn: u32, fact: &Fact)
        ensures { Calls has_log self.old self.new (Made worker turn fact.now) };

    /// Puts a parcel from a node with a copy of the fact into another node's mailbox. If the mailbox is full, the parcel is
    /// dropped.
    fn post_fact(&mut self, node: u8, from: u8, fact: &Fact) -> Result<(), AllocError>
        requires { is_true fact.now }
        ensures { OnOk result (Calls has_log self.old self.new (Put node from fact.now)) };

    /// Gives the lease of a key back, if a worker has it.
    fn release_key(&mut self, time: u64, worker: u8, key: &Key)
        ensures { Calls has_log self.old self.new (Released time worker key.now) };

    /// The worker's node keeps what it holds.
    fn keep_node_state(&mut self) -> Result<(), AllocError>
        ensures { OnOk result (Calls has_log self.old self.new Kept) };

    /// The worker's node holds what it kept, and nothing else.
    fn restart_node(&mut self) -> Result<(), AllocError>
        ensures { OnOk result (Calls has_log self.old self.new Restarted) };
}
