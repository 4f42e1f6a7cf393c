#![tactic(auto)]
//! Which stages of a job are wanted in the end. No clause speaks of it.

use job::{Job, Stage, StageKind};
use std::alloc::{AllocError, Global};

// Marks what a stage reads. Whether something was not marked yet.
fn mark_used_part_stages_of_reader(used: &mut Vec<bool>, reader: &Stage) -> bool {
    let mut is_new = false;
    for read in reader.reads() {
        if let Some(own) = used.get_mut(read.stage()) {
            is_new = is_new || !*own;
            *own = true;
        }
    }
    is_new
}

// Marks what marked stages read. Whether something was not marked yet.
fn mark_used_part_stages(used: &mut Vec<bool>, job: &Job) -> bool {
    let mut is_new = false;
    for (number, reader) in job.stages().iter().enumerate() {
        if used.get(number) == Some(&true) && mark_used_part_stages_of_reader(used, reader) {
            is_new = true;
        }
    }
    is_new
}

/// Which stages are outputs or accumulators, or are read for some of them.
///
/// # Errors
///
/// Fails only where memory is refused.
pub(crate) fn find_used_part_stages(alloc: Global, job: &Job) -> Result<Vec<bool>, AllocError> {
    let mut used = Vec::with_capacity(alloc, job.stages().len())?;
    for stage in job.stages() {
        used.push(stage.kind() == StageKind::Accumulator)?;
    }
    for output in job.outputs() {
        if let Some(own) = used.get_mut(*output) {
            *own = true;
        }
    }
    for _ in 0..used.len() {
        if !mark_used_part_stages(&mut used, job) {
            return Ok(used);
        }
    }
    Ok(used)
}
