#![tactic(auto)]
//! In which form the rows of each stage are kept: as numbers of 32 bits, of 16 bits, or in both forms.

ghost use Rattle.std.specs.Prelude.{◌≡◌, false, [], All, IfOk, slice_index_or, if◌then◌else◌};
ghost use Rattle.job.specs.Kept.{pipeline_in};
ghost use Rattle.row_rings.specs.NarrowRings.{AreNarrowlyMade};
ghost use Rattle.row_rings.specs.RingForms.{AreRightForms, AreFewForms, IsWhole};
ghost use Rattle.value_ranges.specs.Ranges.{AreRanges};

use crate::form_check::are_ring_forms_right;
use crate::form_choice::choose_ring_forms;
use crate::ring_shapes::RingShape;
use job::Job;
use row_plans::RowState;
use std::alloc::{AllocError, Global};
use value_ranges::ValueRange;

/// In which form the rows of each stage are kept, and in which they are computed.
#[derive(Drop)]
pub(crate) struct RingForms {
    // Which rows are kept as numbers of 32 bits.
    pub(crate) wide: Vec<RowState>,
    // Which rows are kept as numbers of 16 bits.
    pub(crate) narrow: Vec<RowState>,
    // Whether they are computed in 16 bits.
    pub(crate) computed_narrow: Vec<bool>,
    // Whether rows of outputs are kept as numbers of 16 bits, and not of 32.
    pub(crate) narrow_outputs: bool,
}

impl RingForms {
    // Which rows are kept in the form of the outputs.
    pub(crate) fn borrow_output_ring_form(&self) -> &[RowState]
        ensures { result.now ≡ (if self.now.narrow_outputs then self.now.narrow.items
            else self.now.wide.items) }
    {
        if self.narrow_outputs {
            &self.narrow
        } else {
            &self.wide
        }
    }
}

// Whether the rows of a stage are computed in 16 bits.
#[inline]
pub(crate) fn is_computed_narrow_ring(computed_narrow: &[bool], stage: usize) -> bool
    ensures { result ≡ slice_index_or computed_narrow.now stage false }
{
    match computed_narrow.get(stage) {
        Some(narrow) => *narrow,
        None => false,
    }
}

// All rows are computed in 32 bits and kept in them.
fn list_wide_ring_forms(alloc: Global, states: &[RowState]) -> Result<RingForms, AllocError>
    ensures { IfOk result (λ forms. (forms.wide.items ≡ states.now) × (forms.narrow.items ≡ [])
        × (forms.computed_narrow.items ≡ []) × (forms.narrow_outputs ≡ false)) }
{
    Ok(RingForms {
        wide: states.to_vec(alloc)?,
        narrow: Vec::new(alloc),
        computed_narrow: Vec::new(alloc),
        narrow_outputs: false,
    })
}

/// The forms of the rings of a job that has these states. `outputs` are kept as numbers of 16 bits if all of them are computed so, else
/// of 32 bits. What the accumulators `summed` read is kept as numbers of 32 bits.
///
/// # Errors
///
/// Fails only where memory is refused.
pub(crate) fn find_ring_forms(
    alloc: Global,
    job: &Job,
    ranges: &[ValueRange],
    shapes: &[RingShape<'_>],
    states: &[RowState],
    outputs: &[usize],
    summed: &[usize],
) -> Result<RingForms, AllocError>
    requires { AreRanges (pipeline_in job.now) ranges.now }
    ensures right { IfOk result (λ forms. AreRightForms (pipeline_in job.now) states.now forms.wide.items
        forms.narrow.items forms.computed_narrow.items) }
    ensures narrow { IfOk result (λ forms. AreNarrowlyMade (pipeline_in job.now) states.now
        shapes.now forms.computed_narrow.items) }
    ensures few { IfOk result (λ forms. AreFewForms states.now forms.wide.items forms.narrow.items) }
    ensures outputs { IfOk result (λ forms. All (IsWhole
        (if forms.narrow_outputs then forms.narrow.items else forms.wide.items) states.now)
        outputs.now) }
{
    let forms = choose_ring_forms(alloc, job, ranges, shapes, states, outputs, summed)?;
    if are_ring_forms_right(job, ranges, shapes, states, &forms, outputs) {
        return Ok(forms);
    }
    list_wide_ring_forms(alloc, states)
}
