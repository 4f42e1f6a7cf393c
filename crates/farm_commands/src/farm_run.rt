//! The result of a job, as a farm computes it.

ghost use Rattle.std.specs.Prelude.{◌≡◌, ◌∷◌, [], IfErr, IfOk};
ghost use Rattle.catalog.specs.Entries.{entry_of};
ghost use Rattle.job.specs.Kept.{pipeline_in};
ghost use Rattle.farm_commands.specs.FarmRuns.{IsRunOnJob};
ghost use Rattle.farm_commands.specs.RunFaults.{IsOfFarm};
ghost use Rattle.command_outcomes.specs.Replies.{reply_bytes};
ghost use Rattle.command_jobs.specs.Results.{result_bytes};

use crate::farm_faults::convert_fault_of_farm_for_run_stream;
use crate::result_run::{FarmResultRun, run_farm_for_farm_result};
use catalog::Catalog;
use command_faults::StreamFault;
use command_inputs::make_catalog_of_input_job;
use command_jobs::{make_requested_schedule, make_result_reply};
use command_line::Options;
use command_outcomes::JobReply;
use farm_setup::FarmSetup;
use job::Job;
use std::sync::Wait;
use std::thread::Threads;

/// What a farm has computed of a job: the result, and the run that gave it.
#[derive(Drop)]
pub struct FarmResult {
    pub reply: JobReply,
    pub run: FarmResultRun,
}

/// The result of a job, which a farm computes by the schedule that the options request.
pub fn compute_farm_result_of_job<H: AllocGlobal + Threads + Wait + Sync>(
    rt: &H,
    setup: &FarmSetup,
    options: &Options,
    job: Job,
) -> Result<FarmResult, StreamFault>
    ensures reply { IfOk result
        (λ farmed. reply_bytes farmed.reply ≡ result_bytes (pipeline_in job)) }
    ensures run { IfOk result
        (λ farmed. IsRunOnJob setup.now options.now (entry_of job) farmed.run) }
    ensures fault { IfErr result IsOfFarm }
{
    let catalog = make_catalog_of_input_job(rt.alloc(), job)?;
    match catalog.job(0) {
        Some(job) => compute_farm_result_of_only_job(rt, setup, options, &catalog, job),
        None => unreachable!(),
    }
}

/// The result of the only job of a catalog.
fn compute_farm_result_of_only_job<H: AllocGlobal + Threads + Wait + Sync>(
    rt: &H,
    setup: &FarmSetup,
    options: &Options,
    catalog: &Catalog,
    job: &Job,
) -> Result<FarmResult, StreamFault>
    requires { catalog.now ≡ entry_of job.now ∷ [] }
    ensures reply { IfOk result
        (λ farmed. reply_bytes farmed.reply ≡ result_bytes (pipeline_in job.now)) }
    ensures run { IfOk result
        (λ farmed. IsRunOnJob setup.now options.now (entry_of job.now) farmed.run) }
    ensures fault { IfErr result IsOfFarm }
{
    let alloc = rt.alloc();
    let schedule = make_requested_schedule(alloc, job, options)?;
    match run_farm_for_farm_result(rt, setup, catalog, &schedule) {
        Ok((answer, run)) => Ok(FarmResult {
            reply: make_result_reply(alloc, job, answer)?,
            run,
        }),
        Err(fault) => Err(convert_fault_of_farm_for_run_stream(fault)),
    }
}
