#![tactic(auto)]
//! Which stages read a stage.

ghost use Rattle.std.specs.Prelude.{◌≡◌, ◌==◌, IfOk, filter};
ghost use Rattle.std.specs.List.{list_any};
ghost use Rattle.job.specs.Kept.{pipeline_in};
ghost use Rattle.job.specs.Views.{stage_view};
ghost use Rattle.job.specs.Reads.{stage_read, reads_of};
ghost use Rattle.grouping.specs.Greedy.{is_reader_of_stage};

use job::{Job, Stage};
use std::alloc::{AllocError, Global};

/// Those of these stages that read stage `number`.
pub(crate) fn list_readers_of_stage(
    alloc: Global,
    job: &Job,
    stages: &[usize],
    number: usize,
) -> Result<Vec<usize>, AllocError>
    ensures { IfOk result (λ readers. readers.items
        ≡ filter (is_reader_of_stage (pipeline_in job.now) number) stages.now) }
{
    let mut readers = Vec::new(alloc);
    for reader in stages {
        if is_reader_of_stage(job, number, *reader) {
            readers.push(*reader)?;
        }
    }
    Ok(readers)
}

fn is_reader_of_stage(job: &Job, number: usize, reader: usize) -> bool
    ensures { result ≡ is_reader_of_stage (pipeline_in job.now) number reader }
{
    match job.stage(reader) {
        Some(stage) => is_stage_reader(stage, number),
        None => false,
    }
}

fn is_stage_reader(stage: &Stage, number: usize) -> bool
    ensures { result
        ≡ list_any (λ x. stage_read x == number) (reads_of (stage_view stage.now).body) }
{
    for read in stage.reads() {
        if read.stage() == number {
            return true;
        }
    }
    false
}
