//! Farms.

ghost use Rattle.std.specs.Option.{ForSome};
ghost use Rattle.std.specs.Prelude.{◌≡◌, ◌*◌, ◌/◌, [], All, IfErr, IfOk, Some, length, map, replicate, slice_get};
ghost use Rattle.crossbeam_queue.specs.Passes.{view};
ghost use Rattle.farm.specs.FarmFaults.{IsBeforeClosing};
ghost use Rattle.farm.specs.Members.{BelongTogether, EachAt};
ghost use Rattle.farm.specs.NodeEnds.{AreNewEnds};
ghost use Rattle.farm.specs.Reports.{IsSoundEnd, all_held};
ghost use Rattle.farm.specs.WorkerLogs.{WorksAt};
ghost use Rattle.farm.specs.WorkerRuns.{AreFarmHistories, HaveRun, IsFarmFault, IsRunFault};
ghost use Rattle.farm_answers.specs.Answering.{IsAnswerOf, IsPlanned, missing_work};
ghost use Rattle.netpbm.specs.Image.{IsImage};
ghost use Rattle.posts.specs.Parcels.{moves};

use crate::closing::{
    close_farm_nodes_to_list_or_memory_fault, join_facts_of_closed_farm_nodes_by_keys,
};
use crate::fault::FarmFault;
use crate::hand::{WorkerReceipts, WorkerSeat};
use crate::named::NamedFarm;
use crate::node::{
    FarmNode, WORKERS, open_farm_nodes_and_worker_seats, open_ports_to_farm_node_mailboxes,
};
use crate::report::FarmReport;
use crate::threads::{FarmThreadTask, run_and_join_farm_threads};
use crate::worker::FarmWorker;
use catalog::{Catalog, NamedCatalog};
use farm_answers::complete_farm_answer;
use farm_setup::FarmSetup;
use farm_work::{FarmWork, Gate};
use grouping::Schedule;
use identity::Key;
use job::Job;
use leases::{LiveDesk, NamedDesk, NewLeaseLog, SeenLeases};
use live_nodes::ClosedNode;
use overlap_tiles::list_work_keys;
use std::alloc::{AllocError, Global};
use std::marker::Brand;
use std::sync::Wait;
use std::thread::Threads;

/// Nodes that make the tiles of a job together, each with a mailbox and two workers in threads of their own.
pub struct Farm;

impl Farm {
    /// Runs a farm, and answers a job of a catalog from what its nodes hold at the end. The caller's thread makes the tiles of
    /// stored functions and accumulators of which no node holds anything. Started threads are joined before it returns.
    ///
    /// # Errors
    ///
    /// `SpawnFailed` only where a thread could not be started. `Close` where receipts do not match a node's history, before
    /// `Memory` of a worker.
    pub fn run<G: Gate + Sync, R: Threads + Wait + Sync>(
        rt: &R,
        alloc: Global,
        catalog: &Catalog,
        job: usize,
        setup: &FarmSetup,
        schedule: &Schedule,
        gate: &G,
    ) -> Result<FarmReport, FarmFault>
        requires planned { IsPlanned catalog.now job schedule.now }
        ensures answer { IfOk result (λ report. IsAnswerOf catalog.now job report.answer) }
        ensures image { IfOk result (λ report. ForSome report.answer.picture IsImage) }
        ensures closed { IfOk result
            (λ report. All (IsSoundEnd catalog.now) report.closed.items) }
        ensures nodes { IfOk result (λ report. length report.closed.items ≡ setup.now.nodes) }
        ensures worked { IfOk result (λ report. HaveRun
            catalog.now job schedule.now.inlining setup.now report.closed.items) }
        ensures fault { IfErr result
            (IsRunFault catalog.now job schedule.now.inlining setup.now) }
        ensures by_caller { IfOk result (λ report. report.by_caller ≡ length
            (missing_work catalog.now job schedule.now.inlining (all_held report.closed.items))) }
    {
        let Some(asked) = catalog.job(job) else {
            unreachable!();
        };
        let keys = list_work_keys(alloc, asked, schedule)?;
        let plan = FarmWorkPlan {
            job: asked,
            schedule,
            keys: &keys,
        };
        let closed = run_farm_to_closed_farm_nodes::<Brand, G, R>(
            rt,
            alloc,
            catalog,
            &plan,
            setup,
            gate,
            NewLeaseLog::new(),
        )?;
        let held = join_facts_of_closed_farm_nodes_by_keys(alloc, &keys, &closed)?;
        let done = complete_farm_answer(alloc, catalog, job, schedule, held)?;
        Ok(FarmReport {
            answer: done.answer,
            closed,
            by_caller: done.made,
        })
    }
}

// What is to be made, and how.
#[derive(Clone, Copy)]
struct FarmWorkPlan<'a> {
    job: &'a Job,
    schedule: &'a Schedule,
    keys: &'a [Key],
}

// What all workers share.
#[derive(Drop)]
struct FarmSharedState<'a, C: NamedCatalog + NamedDesk> {
    work: FarmWork<'a, C>,
    desk: LiveDesk<C>,
    nodes: Vec<FarmNode<C>>,
}

// The ends of all nodes, after their workers have gone through all turns.
fn run_farm_to_closed_farm_nodes<
    'a,
    C: NamedCatalog + NamedDesk + NamedFarm + Send + Sync + 'static,
    G: Gate + Sync,
    R: Threads + Wait + Sync,
>(
    rt: &R,
    alloc: Global,
    catalog: &'a Catalog,
    plan: &FarmWorkPlan<'a>,
    setup: &FarmSetup,
    gate: &G,
    log: NewLeaseLog,
) -> Result<Vec<ClosedNode>, FarmFault>
    requires catalog { catalog.now ≡ C.catalog }
    requires log { log.seen.book ≡ C.book }
    requires job { WorksAt C.farm plan.now.job.now plan.now.schedule.now.inlining }
    requires mailboxes { C.farm.mailboxes ≡ replicate setup.now.nodes setup.now.capacity }
    ensures sound { IfOk result (λ closed. All (IsSoundEnd C.catalog) closed.items) }
    ensures count { IfOk result (λ closed. length closed.items ≡ setup.now.nodes) }
    ensures worked { IfOk result (λ closed. AreFarmHistories
        C.catalog C.farm plan.now.keys.now setup.now closed.items) }
    ensures fault { IfErr result
        (IsFarmFault C.catalog C.farm plan.now.keys.now setup.now) }
{
    let (nodes, seats) = open_farm_nodes_and_worker_seats::<C>(alloc, catalog, setup)?;
    let (desk, leases) = LiveDesk::open(alloc, log);
    let shared = FarmSharedState {
        work: FarmWork::new(catalog, plan.job, plan.schedule, plan.keys),
        desk,
        nodes,
    };
    let workers = make_farm_workers(alloc, setup, &shared, &leases, seats)?;
    let ends = run_farm_workers(rt, alloc, workers, gate)?;
    let FarmSharedState { nodes, .. } = shared;
    close_farm_nodes_to_list_or_memory_fault(alloc, nodes, ends)
}

// Runs all workers in threads of their own.
fn run_farm_workers<
    'a,
    C: NamedCatalog + NamedDesk + NamedFarm + Send + Sync + 'static,
    G: Gate + Sync,
    R: Threads + Wait + Sync,
>(
    rt: &R,
    alloc: Global,
    workers: Vec<FarmWorker<'a, C>>,
    gate: &G,
) -> Result<Vec<WorkerReceipts>, FarmFault>
    ensures ends { IfOk result (λ ends. BelongTogether
        ⟦<FarmWorker<'a, C> as FarmThreadTask>⟧.may_end workers.entry.items ends.items) }
    ensures fault { IfErr result IsBeforeClosing }
{
    run_and_join_farm_threads(rt, alloc, workers, gate)
}

// The workers of all nodes, before their first turn: two for each node, one after the other.
fn make_farm_workers<'a, C: NamedCatalog + NamedDesk>(
    alloc: Global,
    setup: &FarmSetup,
    shared: &'a FarmSharedState<'a, C>,
    leases: &SeenLeases<C>,
    seats: Vec<WorkerReceipts>,
) -> Result<Vec<FarmWorker<'a, C>>, AllocError>
    requires nodes { length shared.now.nodes.items ≡ setup.now.nodes }
    requires seats { length seats.items ≡ 2 * setup.now.nodes }
    requires fresh { AreNewEnds seats.items }
    ensures count { IfOk result (λ workers. length workers.items ≡ length seats.items) }
    ensures each { IfOk result (λ workers. EachAt (λ number worker.
        (worker.number ≡ number)
        × (worker.home ≡ number / 2)
        × (worker.setup ≡ setup.now)
        × (worker.work.now ≡ shared.now.work)
        × (slice_get (map (λ node. node.live) shared.now.nodes.items) worker.home
        ≡ Some worker.hand.node.now)
        × (worker.hand.end.receipts.items ≡ [])
        × All (λ port. view port.pass.seat ≡ moves [] []) worker.ports.items
        × (map (λ port. port.post.now) worker.ports.items
        ≡ map (λ node. node.post) shared.now.nodes.items)) workers.items) }
{
    let mut workers: Vec<FarmWorker<'a, C>> = Vec::new(alloc);
    let mut number: u8 = 0;
    for end in seats {
        let home = number / WORKERS;
        workers.reserve(1)?;
        workers.push_reserved(FarmWorker {
            number,
            home,
            setup: *setup,
            work: &shared.work,
            desk: &shared.desk,
            leases: leases.again(),
            hand: WorkerSeat {
                node: &shared.nodes[usize::from(home)].live,
                end,
            },
            ports: open_ports_to_farm_node_mailboxes(alloc, &shared.nodes)?,
        });
        number += 1;
    }
    Ok(workers)
}
