//! The run of a farm by which a result is computed.

ghost use Rattle.std.specs.Prelude.{◌≡◌, All, IfOk, length};
ghost use Rattle.farm.specs.Reports.{IsSoundEnd, all_held};
ghost use Rattle.farm.specs.WorkerRuns.{HaveRun};
ghost use Rattle.farm_answers.specs.Answering.{IsAnswerOf, IsPlanned, missing_work};

use accumulators::Answer;
use catalog::Catalog;
use farm::{ClosedNode, Farm, FarmFault};
use farm_setup::FarmSetup;
use farm_work::OpenGate;
use grouping::Schedule;
use std::sync::Wait;
use std::thread::Threads;

/// The run of a farm: how it was set up, the end of each node, and how many tiles it left to the caller's thread. Only
/// [`run_farm_for_farm_result`] makes one, of what `Farm::run` reports for this setup.
#[derive(Drop)]
pub struct FarmResultRun {
    setup: FarmSetup,
    closed: Vec<ClosedNode>,
    by_caller: u32,
}

impl FarmResultRun {
    /// How the farm was set up.
    pub fn setup(&self) -> FarmSetup
        ensures { result ≡ self.now.setup }
    {
        self.setup
    }

    /// The end of each node.
    pub fn closed(&self) -> &[ClosedNode]
        ensures { result.now ≡ self.now.closed.items }
    {
        self.closed.as_slice()
    }

    /// How many tiles the caller's thread made.
    pub fn by_caller(&self) -> u32
        ensures { result ≡ self.now.by_caller }
    {
        self.by_caller
    }
}

/// Runs a farm of this setup on the first job of a catalog. Returns its answer, and the run.
pub(crate) fn run_farm_for_farm_result<H: AllocGlobal + Threads + Wait + Sync>(
    rt: &H,
    setup: &FarmSetup,
    catalog: &Catalog,
    schedule: &Schedule,
) -> Result<(Answer, FarmResultRun), FarmFault>
    requires planned { IsPlanned catalog.now 0 schedule.now }
    ensures answer { IfOk result (λ done. IsAnswerOf catalog.now 0 done.0) }
    ensures setup { IfOk result (λ done. done.1.setup ≡ setup.now) }
    ensures nodes { IfOk result (λ done. length done.1.closed.items ≡ setup.now.nodes) }
    ensures closed { IfOk result (λ done. All (IsSoundEnd catalog.now) done.1.closed.items) }
    ensures worked { IfOk result (λ done. HaveRun catalog.now 0 schedule.now.inlining setup.now done.1.closed.items) }
    ensures by_caller { IfOk result (λ done. done.1.by_caller ≡ length
        (missing_work catalog.now 0 schedule.now.inlining (all_held done.1.closed.items))) }
{
    let report = Farm::run(rt, rt.alloc(), catalog, 0, setup, schedule, &OpenGate)?;
    Ok((
        report.answer,
        FarmResultRun {
            setup: *setup,
            closed: report.closed,
            by_caller: report.by_caller,
        },
    ))
}
