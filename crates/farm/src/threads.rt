//! Work in threads.

ghost use Rattle.farm.specs.FarmFaults.{IsBeforeClosing};
ghost use Rattle.farm.specs.Members.{BelongTogether};
ghost use Rattle.std.specs.Prelude.{◌≡◌, IfErr, IfOk};

use crate::fault::FarmFault;
use crate::hand::WorkerReceipts;
use crate::start::start_farm_worker_thread;
use farm_work::Gate;
use std::alloc::Global;
use std::snapshot::Snapshot;
use std::sync::Wait;
use std::thread;
use std::thread::{Promise, PromisedHandle, Scope, Threads};

/// What one thread does.
pub trait FarmThreadTask {
    ghost use Rattle.farm.specs.declared.hand.WorkerReceipts.{WorkerReceipts as ReceiptsOf};

    /// What a task names outlives every thread.
    ghost may_run: { Type 0 };

    /// A task may end with these receipts.
    ghost may_end: { Self → ReceiptsOf → Type 0 };

    /// Goes through all turns, up to the first in which memory is refused.
    fn run<R: Wait, G: Gate>(self, rt: &R, alloc: Global, gate: &G) -> WorkerReceipts
        requires { may_run }
        ensures { may_end self result };
}

/// That the thread of a task ends as the task may.
#[derive(Drop)]
struct FarmThreadPromise<T> {
    task: Snapshot<T>,
}

impl<T: FarmThreadTask> Promise<WorkerReceipts> for FarmThreadPromise<T> {
    ghost kept_by = { λ promise end. T.may_end promise.task.value end };
}

type FarmThreadHandle<T> = PromisedHandle<WorkerReceipts, FarmThreadPromise<T>>;

/// Runs each task in a thread of its own, and joins them all. The receipts come in the order of the tasks.
pub fn run_and_join_farm_threads<
    T: FarmThreadTask + Send + Drop,
    G: Gate + Sync,
    R: Threads + Wait + Sync,
>(rt: &R, alloc: Global, tasks: Vec<T>, gate: &G) -> Result<Vec<WorkerReceipts>, FarmFault>
    requires { T.may_run }
    ensures ends { IfOk result (λ ends. BelongTogether T.may_end tasks.items ends.items) }
    ensures fault { IfErr result IsBeforeClosing }
{
    thread::scope(
        thread::scope_env(),
        rt,
        |scope| -> Result<Vec<WorkerReceipts>, FarmFault>
            requires { T.may_run }
            ensures ends { IfOk result (λ ends. BelongTogether T.may_end tasks.items ends.items) }
            ensures fault { IfErr result IsBeforeClosing }
        {
            let handles = start_farm_threads(scope, rt, alloc, tasks, gate)?;
            join_farm_threads(rt, alloc, handles)
        },
    )
}

// Joins all threads.
fn join_farm_threads<T: FarmThreadTask, R: Threads>(
    rt: &R,
    alloc: Global,
    handles: Vec<FarmThreadHandle<T>>,
) -> Result<Vec<WorkerReceipts>, FarmFault>
    ensures ends { IfOk result (λ ends. BelongTogether
        (λ handle end. T.may_end handle.promise.task.value end) handles.items ends.items) }
    ensures fault { IfErr result IsBeforeClosing }
{
    let mut ends = Vec::new(alloc);
    for handle in handles {
        ends.reserve(1)?;
        ends.push_reserved(handle.join(rt));
    }
    Ok(ends)
}

// Starts each task in a thread of its own.
fn start_farm_threads<'s, E, T: FarmThreadTask + Send + Drop + 's, G: Gate + Sync, R: Wait + Sync>(
    scope: &Scope<'s, E>,
    rt: &'s R,
    alloc: Global,
    tasks: Vec<T>,
    gate: &'s G,
) -> Result<Vec<FarmThreadHandle<T>>, FarmFault>
    requires { T.may_run }
    ensures handles { IfOk result (λ handles. BelongTogether
        (λ task handle. handle.promise.task.value ≡ task) tasks.items handles.items) }
    ensures fault { IfErr result IsBeforeClosing }
{
    let mut handles = Vec::new(alloc);
    for task in tasks {
        handles.reserve(1)?;
        let promise = FarmThreadPromise {
            task: Snapshot::of(&task),
        };
        let work = move || -> WorkerReceipts
            requires { T.may_run }
            ensures { T.may_end task result }
        { task.run(rt, alloc, gate) };
        match start_farm_worker_thread(scope, promise, work) {
            Ok(handle) => handles.push_reserved(handle),
            Err((_, refusal)) => return Err(FarmFault::SpawnFailed(refusal)),
        }
    }
    Ok(handles)
}
