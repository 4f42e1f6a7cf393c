//! What takes the calls of a worker of a farm.

use crate::hand::{CheckpointStep, WorkerSeat};
use crate::named::NamedFarm;
use catalog::NamedCatalog;
use farm_turns::{KeyReadiness, WorkerPlace};
use farm_work::{FarmWork, Gate, KeyLookup};
use identity::Key;
use leases::{Claim, LiveDesk, NamedDesk, SeenLeases};
use live_nodes::LiveNode;
use node_state::LendFault;
use overlap_tiles::TilePlan;
use posts::{MailboxPort, Parcel};
use std::alloc::{AllocError, Global};
use std::sync::Wait;
use tile_fact::{Fact, Update};
use updates::{copy_update_list, make_update_list_of_fact};

/// The node, the mailboxes, the desk and the gate that a worker calls.
#[derive(Drop)]
pub struct WorkerSite<'s, 'a, C: NamedCatalog + NamedDesk, R, G> {
    pub rt: &'s R,
    pub gate: &'s G,
    pub alloc: Global,
    pub work: &'a FarmWork<'a, C>,
    pub desk: &'a LiveDesk<C>,
    /// What the worker has seen of the desk's history.
    pub leases: SeenLeases<C>,
    pub hand: WorkerSeat<'a, C>,
    /// A port to the mailbox of each node.
    pub ports: Vec<MailboxPort<'a, C>>,
}

// A node that tells which keys nothing is held of, as it is when it is asked.
#[derive(Clone, Copy)]
struct NodeLookup<'s, 'a, C: NamedCatalog, R> {
    rt: &'s R,
    node: &'a LiveNode<C>,
}

impl<'s, 'a, C: NamedCatalog, R: Wait> KeyLookup for NodeLookup<'s, 'a, C, R> {
    ghost use Rattle.live_nodes.specs.Ends.{IsSomeLook};

    ghost may_tell = { λ lookup keys lacking. IsSomeLook C.catalog keys lacking };

    fn lacks_any_key(&self, keys: &[Key]) -> bool {
        self.node.lacks_any_key(self.rt, keys)
    }
}

impl<'s, 'a, C: NamedCatalog + NamedDesk + NamedFarm, R: Wait, G: Gate> WorkerPlace
    for WorkerSite<'s, 'a, C, R, G> {
    ghost use Rattle.crossbeam_queue.specs.Passes.{ruled_capacity, view};
    ghost use Rattle.fact_audit.specs.TrueFacts.{IsTrueFact};
    ghost use Rattle.farm.specs.WorkerLogs.{HasLog, WorksAt};
    ghost use Rattle.std.specs.Prelude.{map};
    ghost use Rattle.updates.specs.TrueUpdates.{AreTrue};

    type Plan = TilePlan<'a>;

    ghost has_log = { λ site log.
        WorksAt C.farm site.work.now.job.now site.work.now.schedule.now.inlining
        × HasLog C.catalog C.farm (record {
          receipts = site.hand.end.receipts.items;
          ports = map (λ port. record {
            capacity = ruled_capacity port.post.now.queue;
            moved = view port.pass.seat;
          }) site.ports.items;
          seen = site.leases;
        }) log };

    ghost is_true = { IsTrueFact C.catalog };

    ghost are_true = { AreTrue C.catalog };

    ghost needs_of = { λ plan. plan.needs };

    fn announce_turn(&mut self, worker: u8, turn: u32) {
        self.gate.announce_turn(worker, turn);
    }

    fn receive_parcel_updates(&mut self, node: u8) -> Option<Vec<Update>> {
        let port = self.ports.get_mut(usize::from(node))?;
        let parcel = port.take_parcel(self.rt)?;
        Some(parcel.updates)
    }

    fn add_updates_to_node(&mut self, updates: Vec<Update>) -> Result<(), AllocError> {
        self.hand.add_updates_to_node(self.rt, updates)
    }

    fn add_update_copies_to_node(&mut self, updates: &[Update]) -> Result<(), AllocError> {
        let copies = copy_update_list(self.alloc, updates)?;
        self.hand.add_updates_to_node(self.rt, copies)
    }

    fn add_fact_to_node(&mut self, fact: &Fact) -> Result<(), AllocError> {
        let updates = make_update_list_of_fact(self.alloc, fact)?;
        self.hand.add_updates_to_node(self.rt, updates)
    }

    fn find_readiness_of_work_key(
        &mut self,
        key: &Key,
    ) -> Result<KeyReadiness<TilePlan<'a>>, AllocError> {
        let held = NodeLookup {
            rt: self.rt,
            node: self.hand.node,
        };
        self.work.find_tile_readiness(self.alloc, &held, key)
    }

    fn claim_key(
        &mut self,
        time: u64,
        worker: u8,
        key: &Key,
        ttl: u64,
    ) -> Result<bool, AllocError> {
        let claim = self
            .desk
            .claim(self.rt, &mut self.leases, time, worker, *key, ttl);
        match claim {
            Claim::Granted { .. } | Claim::Renewed { .. } => Ok(true),
            Claim::Held { .. } => Ok(false),
            Claim::Memory => Err(AllocError),
        }
    }

    fn lend_needed_facts(&mut self, plan: &TilePlan<'a>) -> Result<Option<Vec<Fact>>, AllocError> {
        match self.hand.lend_node_facts_of_keys(self.rt, plan.needs()) {
            Ok(facts) => Ok(Some(facts)),
            Err(LendFault::NotHeld(_)) => Ok(None),
            Err(LendFault::Memory) => Err(AllocError),
        }
    }

    fn compute_fact(&mut self, facts: &[Fact], key: &Key) -> Result<Option<Fact>, AllocError> {
        self.work.make_fact_from_true_facts(self.alloc, facts, key)
    }

    fn report_fact(&mut self, worker: u8, turn: u32, fact: &Fact) {
        self.gate.report_fact(worker, turn, fact);
    }

    fn post_fact(&mut self, node: u8, from: u8, fact: &Fact) -> Result<(), AllocError> {
        let Some(port) = self.ports.get_mut(usize::from(node)) else {
            return Ok(());
        };
        let updates = make_update_list_of_fact(self.alloc, fact)?;
        let _ = port.put_parcel(self.rt, Parcel { from, updates });
        Ok(())
    }

    fn release_key(&mut self, time: u64, worker: u8, key: &Key) {
        self.desk
            .release(self.rt, &mut self.leases, time, worker, key);
    }

    fn keep_node_state(&mut self) -> Result<(), AllocError> {
        self.hand
            .keep_or_restart_node(self.rt, CheckpointStep::Keep)
    }

    fn restart_node(&mut self) -> Result<(), AllocError> {
        self.hand
            .keep_or_restart_node(self.rt, CheckpointStep::Restart)
    }
}
