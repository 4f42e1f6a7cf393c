//! A worker's place at its node.

ghost use Rattle.std.specs.Prelude.{◌≡◌, [], All, IfErr, IfOk, List, OnErr, OnOk, length};
ghost use Rattle.fact_audit.specs.TrueFacts.{IsTrueFact};
ghost use Rattle.farm.specs.NodeCalls.{IsReceiptAdded, event_of_step};
ghost use Rattle.live_nodes.specs.Ends.{IsAsked};
ghost use Rattle.live_nodes.specs.Loans.{AreTrueFactsOf};
ghost use Rattle.live_nodes.specs.declared.event.Event.TheVariants.{Lent, Took};
ghost use Rattle.updates.specs.TrueUpdates.{AreTrue};

use catalog::NamedCatalog;
use identity::Key;
use live_nodes::{LiveNode, Receipt, Seat};
use node_state::LendFault;
use std::alloc::{AllocError, Global};
use std::sync::Wait;
use tile_fact::{Fact, Update};

/// A worker's seat with a receipt for each call that was recorded, and whether it ran out of memory.
#[derive(Drop)]
pub struct WorkerReceipts {
    pub seat: Seat,
    pub receipts: Vec<Receipt>,
    pub memory: bool,
    ghost fits: { length receipts.items ≡ seat },
}

impl WorkerReceipts {
    /// A seat by which nothing was recorded.
    pub fn new(alloc: Global, seat: Seat) -> WorkerReceipts
        requires { seat ≡ 0 }
        ensures { result.receipts.items ≡ [] }
    {
        WorkerReceipts {
            seat,
            receipts: Vec::new(alloc),
            memory: false,
        }
    }
}

/// What a node does with its checkpoint.
#[derive(Clone, Copy, Debug, PartialEq, Eq)]
pub enum CheckpointStep {
    /// Keeps what it holds.
    Keep,
    /// Holds what it kept, and nothing else.
    Restart,
}

/// A node and a seat at it. Each call first reserves capacity for its receipt.
#[derive(Drop)]
pub struct WorkerSeat<'a, C: NamedCatalog> {
    pub node: &'a LiveNode<C>,
    pub end: WorkerReceipts,
}

impl<'a, C: NamedCatalog> WorkerSeat<'a, C> {
    pub fn lend_node_facts_of_keys<R: Wait>(
        &mut self,
        rt: &R,
        keys: &[Key],
    ) -> Result<Vec<Fact>, LendFault>
        ensures is_true { IfOk result (λ facts. All (IsTrueFact C.catalog) facts.items) }
        ensures lent { IfOk result (λ facts. AreTrueFactsOf C.catalog keys.now facts.items) }
        ensures receipt { OnOk result ((retired : List _) × IsReceiptAdded
            self.old.end.receipts.items self.new.end.receipts.items (Lent keys.now retired)) }
        ensures asked { IfErr result (IsAsked keys.now) }
        ensures unchanged { OnErr result (self.new.end.receipts.items ≡ self.old.end.receipts.items) }
    {
        let WorkerReceipts { seat, receipts, .. } = &mut self.end;
        receipts.reserve(1)?;
        let loan = self.node.lend(rt, seat, keys)?;
        receipts.push_reserved(loan.receipt);
        Ok(loan.facts)
    }

    pub fn add_updates_to_node<R: Wait>(
        &mut self,
        rt: &R,
        updates: Vec<Update>,
    ) -> Result<(), AllocError>
        requires { AreTrue C.catalog updates.items }
        ensures { OnOk result (IsReceiptAdded
            self.old.end.receipts.items self.new.end.receipts.items (Took updates.items)) }
    {
        let WorkerReceipts { seat, receipts, .. } = &mut self.end;
        receipts.reserve(1)?;
        match self.node.take(rt, seat, updates) {
            Ok(receipt) => receipts.push_reserved(receipt),
            Err(_) => return Err(AllocError),
        }
        Ok(())
    }

    /// Takes a step that involves no parcel and no fact.
    pub fn keep_or_restart_node<R: Wait>(
        &mut self,
        rt: &R,
        step: CheckpointStep,
    ) -> Result<(), AllocError>
        ensures { OnOk result (IsReceiptAdded
            self.old.end.receipts.items self.new.end.receipts.items (event_of_step step)) }
    {
        let WorkerReceipts { seat, receipts, .. } = &mut self.end;
        receipts.reserve(1)?;
        let receipt = match step {
            CheckpointStep::Keep => self.node.keep(rt, seat)?,
            CheckpointStep::Restart => self.node.restart(rt, seat)?,
        };
        receipts.push_reserved(receipt);
        Ok(())
    }
}
