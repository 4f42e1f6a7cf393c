#![tactic(auto)]
//! The choice of the forms in which rows are kept. No clause specifies it: it is checked.

ghost use Rattle.job.specs.Kept.{pipeline_in};
ghost use Rattle.value_ranges.specs.Ranges.{AreRanges};

use crate::ring_forms::RingForms;
use crate::ring_shapes::RingShape;
use job::{Body, Job, Stage};
use row_plans::RowState;
use std::alloc::{AllocError, Global};
use value_ranges::{ValueRange, is_narrow_stage};

// Whether the rows of a stage are made as linear ones.
fn is_linear_narrow_ring(shapes: &[RingShape<'_>], stage: usize) -> bool {
    match shapes.get(stage) {
        Some(shape) => shape.is_linear_ring_shape(),
        None => false,
    }
}

// Whether a stage is a plane of the picture.
fn is_plane_with_ring(job: &Job, stage: usize) -> bool {
    match job.stage(stage) {
        Some(found) => matches!(found.body(), Body::Plane(_)),
        None => false,
    }
}

/// Which stages are kept in which form, and which of them are computed in 16 bits: a flag for each stage.
#[derive(Drop)]
struct RingFormFlags {
    wide: Vec<bool>,
    narrow: Vec<bool>,
    computed_narrow: Vec<bool>,
}

// Whether the flag of a stage is set.
fn has_ring_form_flag(flags: &[bool], stage: usize) -> bool {
    match flags.get(stage) {
        Some(flag) => *flag,
        None => false,
    }
}

// Sets the flag of a stage.
fn set_ring_form_flag(flags: &mut [bool], stage: usize) {
    if let Some(flag) = flags.get_mut(stage) {
        *flag = true;
    }
}

impl RingFormFlags {
    // No flag is set.
    fn new(alloc: Global, count: usize) -> Result<RingFormFlags, AllocError> {
        Ok(RingFormFlags {
            wide: vec![in alloc; false; count]?,
            narrow: vec![in alloc; false; count]?,
            computed_narrow: vec![in alloc; false; count]?,
        })
    }

    // Keeps a stage in a form.
    fn request_ring_form(&mut self, stage: usize, narrow: bool) {
        if narrow {
            set_ring_form_flag(&mut self.narrow, stage);
        } else {
            set_ring_form_flag(&mut self.wide, stage);
        }
    }

    // Computes a stage in a form: it is kept in this form, and so is all that it reads.
    fn compute_stage_in_ring_form(&mut self, stage: usize, found: &Stage, narrow: bool) {
        if narrow {
            set_ring_form_flag(&mut self.computed_narrow, stage);
        }
        self.request_ring_form(stage, narrow);
        for read in found.reads() {
            self.request_ring_form(read.stage(), narrow);
        }
    }

    // Keeps in 32 bits what an accumulator reads, besides planes, which it reads where they lie.
    fn request_ring_forms_of_accumulator(&mut self, job: &Job, accumulator: usize) {
        let Some(found) = job.stage(accumulator) else {
            return;
        };
        for read in found.reads() {
            if !is_plane_with_ring(job, read.stage()) {
                self.request_ring_form(read.stage(), false);
            }
        }
    }

    // Chooses the form of each function.
    fn choose_ring_forms_of_functions(
        &mut self,
        job: &Job,
        ranges: &[ValueRange],
        shapes: &[RingShape<'_>],
    )
        requires { AreRanges (pipeline_in job.now) ranges.now }
    {
        for (stage, found) in job.stages().iter().enumerate() {
            match found.body() {
                Body::Plane(_) | Body::Accumulator(_) => {}
                Body::Function(_) => {
                    let narrow = is_linear_narrow_ring(shapes, stage)
                        || is_narrow_stage(job, ranges, stage);
                    self.compute_stage_in_ring_form(stage, found, narrow);
                }
            }
        }
    }

    // Whether there are outputs, and all of them are computed in 16 bits.
    fn has_narrow_ring_outputs_only(&self, outputs: &[usize]) -> bool {
        !outputs.is_empty()
            && outputs.iter().all(|output| has_ring_form_flag(&self.computed_narrow, *output))
    }

    // Chooses the form of each plane: 16 bits, if one of its readers is computed in them.
    fn choose_ring_forms_of_planes(&mut self, job: &Job) {
        for (stage, found) in job.stages().iter().enumerate() {
            match found.body() {
                Body::Plane(_) => {
                    let narrow = has_ring_form_flag(&self.narrow, stage);
                    self.compute_stage_in_ring_form(stage, found, narrow);
                }
                Body::Function(_) | Body::Accumulator(_) => {}
            }
        }
    }
}

// The states of the stages whose flags are set. Of the others no row is kept.
fn list_row_states_of_ring_form(
    alloc: Global,
    states: &[RowState],
    flags: &[bool],
) -> Result<Vec<RowState>, AllocError> {
    let mut kept = states.to_vec(alloc)?;
    for stage in 0..kept.len() {
        if !has_ring_form_flag(flags, stage) {
            kept[stage].kept = 0;
        }
    }
    Ok(kept)
}

/// Computes each stage in 16 bits that can be, and keeps it in the forms in which it is read. The accumulators `summed` read numbers of 32
/// bits.
///
/// # Errors
///
/// Fails only where memory is refused.
pub(crate) fn choose_ring_forms(
    alloc: Global,
    job: &Job,
    ranges: &[ValueRange],
    shapes: &[RingShape<'_>],
    states: &[RowState],
    outputs: &[usize],
    summed: &[usize],
) -> Result<RingForms, AllocError>
    requires { AreRanges (pipeline_in job.now) ranges.now }
{
    let mut flags = RingFormFlags::new(alloc, states.len())?;
    flags.choose_ring_forms_of_functions(job, ranges, shapes);
    let narrow_outputs = flags.has_narrow_ring_outputs_only(outputs);
    for output in outputs {
        flags.request_ring_form(*output, narrow_outputs);
    }
    for accumulator in summed {
        flags.request_ring_forms_of_accumulator(job, *accumulator);
    }
    flags.choose_ring_forms_of_planes(job);
    Ok(RingForms {
        wide: list_row_states_of_ring_form(alloc, states, &flags.wide)?,
        narrow: list_row_states_of_ring_form(alloc, states, &flags.narrow)?,
        computed_narrow: flags.computed_narrow,
        narrow_outputs,
    })
}
