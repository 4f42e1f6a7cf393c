//! The threads of a farm's nodes.

use crate::hand::{WorkerReceipts, WorkerSeat};
use crate::named::NamedFarm;
use crate::site::WorkerSite;
use crate::threads::FarmThreadTask;
use catalog::NamedCatalog;
use farm_setup::FarmSetup;
use farm_turns::{TurnRules, WorkerShift};
use farm_work::{FarmWork, Gate};
use leases::{LiveDesk, NamedDesk, SeenLeases};
use posts::MailboxPort;
use std::alloc::Global;
use std::sync::Wait;

/// One thread's work at a node.
#[derive(Drop)]
pub struct FarmWorker<'a, C: NamedCatalog + NamedDesk> {
    /// Its number among all workers.
    pub number: u8,
    /// The number of its node.
    pub home: u8,
    pub setup: FarmSetup,
    pub work: &'a FarmWork<'a, C>,
    pub desk: &'a LiveDesk<C>,
    /// What it has seen of the desk's history.
    pub leases: SeenLeases<C>,
    pub hand: WorkerSeat<'a, C>,
    /// A port to the mailbox of each node.
    pub ports: Vec<MailboxPort<'a, C>>,
}

impl<'a, C: NamedCatalog + NamedDesk + NamedFarm> FarmThreadTask for FarmWorker<'a, C> {
    ghost use Rattle.crossbeam_queue.specs.Passes.{ruled_capacity, view};
    ghost use Rattle.farm.specs.WorkerLogs.{AreFresh, WorksAt};
    ghost use Rattle.farm.specs.WorkerRuns.{HasWorked};
    ghost use Rattle.std.specs.Prelude.{◌≡◌, [], false, map};
    ghost use contract.BorrowLft.{◌⊑◌};

    ghost may_run = { [] ⊑ C.row.lives };

    ghost may_end = { λ worker end.
        WorksAt C.farm worker.work.now.job.now worker.work.now.schedule.now.inlining
        → AreFresh C.farm (record {
          receipts = worker.hand.end.receipts.items;
          ports = map (λ port. record {
            capacity = ruled_capacity port.post.now.queue;
            moved = view port.pass.seat;
          }) worker.ports.items;
          seen = worker.leases;
        })
        → end.memory ≡ false
        → HasWorked C.catalog C.farm (record {
          number = worker.number;
          home = worker.home;
          setup = worker.setup;
          keys = worker.work.now.keys;
        }) end.receipts.items };

    fn run<R: Wait, G: Gate>(self, rt: &R, alloc: Global, gate: &G) -> WorkerReceipts {
        let FarmWorker {
            number,
            home,
            setup,
            work,
            desk,
            leases,
            hand,
            ports,
        } = self;
        let rules = TurnRules {
            number,
            home,
            setup,
            keys: work.keys,
        };
        let site = WorkerSite {
            rt,
            gate,
            alloc,
            work,
            desk,
            leases,
            hand,
            ports,
        };
        let mut shift = WorkerShift::new(rules, site);
        let memory = shift.run().is_err();
        let WorkerShift { place, .. } = shift;
        let WorkerSite { hand, .. } = place;
        let WorkerSeat { mut end, .. } = hand;
        end.memory = memory;
        end
    }
}
