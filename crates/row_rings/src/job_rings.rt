#![tactic(auto)]
//! The rings of a job.

ghost use Rattle.std.specs.Prelude.{ℕ, ℤ, ◌≡◌, ◌<◌, ◌≢◌, length, true, false, All, IfOk, Some, slice_get, slice_set, slice_index_or, if◌then◌else◌};
ghost use Rattle.std.proofs.Props.{props};
ghost use Rattle.job.specs.Kept.{pipeline_in};
ghost use Rattle.raw_rows.specs.Rows.{row_values};
ghost use Rattle.row_plans.specs.Plans.{states_after, CanMake, IsOutputKept};
ghost use Rattle.row_rings.specs.NarrowRings.{AreNarrowlyMade};
ghost use Rattle.row_rings.specs.RingShapes.{AreShapesOf};
ghost use Rattle.row_rings.specs.RingForms.{AreRightForms};
ghost use Rattle.row_rings.specs.RingRows.{IsKeptPoint, ring_states};
ghost use Rattle.row_rings.specs.TrueRings.{AreTrueRings, ArePlacedRings, AreRoomy};
ghost use Rattle.row_rings.specs.RoomOnce.{AreRoomy-prop};
ghost use Rattle.row_rings.specs.ShapesOnce.{AreShapesOf-prop};

use crate::narrow_ring_source::NarrowRingSource;
use crate::new_rings::{allocate_rings, find_greatest_ring_room};
use crate::ring::{RowRing, RowRings};
use crate::ring_forms::{find_ring_forms, is_computed_narrow_ring};
use crate::ring_shapes::{RingShape, borrow_ring_shape, list_ring_shapes};
use job::Job;
use row_plans::RowState;
use std::alloc::{AllocError, Global};
use std::mem;
use value_ranges::find_value_ranges;

/// The rings of all stages of a job, with room for the numbers that are needed to make a row. What they have is true. A stage whose
/// formulas allow it is computed in 16 bits. Its rows are kept in the forms in which they are read.
#[derive(Drop)]
pub struct JobRings<'a> {
    alloc: Global,
    pub(crate) job: &'a Job,
    // Which rows are kept.
    pub(crate) states: Vec<RowState>,
    pub(crate) wide: RowRings<i32>,
    pub(crate) narrow: RowRings<i16>,
    // Whether the rows of each stage are computed in 16 bits.
    computed_narrow: Vec<bool>,
    // How rows of each stage are made.
    shapes: Vec<RingShape<'a>>,
    // Whether rows of outputs are kept as numbers of 16 bits, and not of 32.
    pub(crate) narrow_outputs: bool,
    temps: Vec<i32>,
    narrow_temps: Vec<i16>,
    ghost forms: { AreRightForms (pipeline_in job.now) states.items (ring_states wide.rings.items)
        (ring_states narrow.rings.items) computed_narrow.items } by { Prim.hlevel props },
    ghost made: { ∥ AreNarrowlyMade (pipeline_in job.now) states.items shapes.items computed_narrow.items ∥₁ },
    ghost shaped: { AreShapesOf shapes.items (pipeline_in job.now).stages } by { AreShapesOf-prop shapes.items (pipeline_in job.now).stages },
    ghost right: { AreTrueRings (pipeline_in job.now) wide.rings.items } by { Prim.hlevel props },
    ghost right_narrow: { AreTrueRings (pipeline_in job.now) narrow.rings.items } by { Prim.hlevel props },
    ghost placed: { ArePlacedRings (pipeline_in job.now) wide.rings.items } by { Prim.hlevel props },
    ghost placed_narrow: { ArePlacedRings (pipeline_in job.now) narrow.rings.items } by { Prim.hlevel props },
    ghost roomy: { AreRoomy (pipeline_in job.now) computed_narrow.items false (length temps.items) } by { AreRoomy-prop (pipeline_in job.now) computed_narrow.items false (length temps.items) },
    ghost roomy_narrow: { AreRoomy (pipeline_in job.now) computed_narrow.items true (length narrow_temps.items) } by { AreRoomy-prop (pipeline_in job.now) computed_narrow.items true (length narrow_temps.items) },
}

impl<T> RowRings<T> {
    // Takes the ring of a stage out. In its place stands one in which nothing is kept.
    fn take_out_ring(&mut self, alloc: Global, stage: usize) -> RowRing<T>
        requires { stage < length self.old.rings.items }
        ensures ring { slice_get self.old.rings.items stage ≡ Some result }
        ensures place { stage < length self.new.rings.items }
        ensures none { (r c : ℤ) → ¬ (IsKeptPoint self.new.rings.items stage r c) }
        ensures others { (h : ℕ) → h ≢ stage
            → slice_get self.new.rings.items h ≡ slice_get self.old.rings.items h }
        ensures back { (ring : RowRing T) → slice_set self.new.rings.items stage ring
            ≡ slice_set self.old.rings.items stage ring }
    {
        let RowState { area, .. } = self.rings[stage].state;
        let none = RowRing {
            state: RowState {
                area,
                kept: 0,
                first: 0,
                next: 0,
            },
            rows: Vec::new(alloc),
        };
        mem::replace(&mut self.rings[stage], none)
    }
}

impl<'a> JobRings<'a> {
    ghost use Rattle.row_rings.specs.Rings.{states_in, IsWideIn, IsNarrowIn, IsOutputForm};

    /// Rings for these states, in which nothing is made. The rows of `outputs` are kept as numbers of 16 bits if all of them are
    /// computed so, else of 32 bits. What the accumulators `summed` read is kept as numbers of 32 bits.
    ///
    /// # Errors
    ///
    /// Fails only where memory is refused.
    pub fn new(
        alloc: Global,
        job: &'a Job,
        states: &[RowState],
        outputs: &[usize],
        summed: &[usize],
    ) -> Result<JobRings<'a>, AllocError>
        requires { All (λ state. state.next ≡ state.first) states.now }
        ensures job { IfOk result (λ rings. rings.job.now ≡ job.now) }
        ensures states { IfOk result (λ rings. states_in rings ≡ states.now) }
        ensures outputs { IfOk result (λ rings. All (IsOutputForm rings) outputs.now) }
    {
        let ranges = find_value_ranges(alloc, job)?;
        let shapes = list_ring_shapes(alloc, job, &ranges)?;
        let forms = find_ring_forms(alloc, job, &ranges, &shapes, states, outputs, summed)?;
        let room = find_greatest_ring_room(job, &forms.computed_narrow, false)?;
        let narrow_room = find_greatest_ring_room(job, &forms.computed_narrow, true)?;
        let states = states.to_vec(alloc)?;
        let wide = allocate_rings(alloc, 0, &forms.wide)?;
        let narrow = allocate_rings(alloc, 0, &forms.narrow)?;
        Ok(JobRings {
            alloc,
            job,
            states,
            wide: RowRings { rings: wide },
            narrow: RowRings { rings: narrow },
            computed_narrow: forms.computed_narrow,
            shapes,
            narrow_outputs: forms.narrow_outputs,
            temps: vec![in alloc; 0; room]?,
            narrow_temps: vec![in alloc; 0; narrow_room]?,
        })
    }

    /// Makes the next row of a stage. If its ring is full, the oldest row is dropped.
    pub fn make_next_ring_row(&mut self, stage: usize)
        requires { CanMake (pipeline_in self.old.job.now) (states_in self.old) stage }
        ensures job { self.new.job ≡ self.old.job }
        ensures states { states_in self.new ≡ states_after (states_in self.old) stage }
        ensures wide { (g : ℕ) → IsWideIn self.old g → IsWideIn self.new g }
        ensures narrow { (g : ℕ) → IsNarrowIn self.old g → IsNarrowIn self.new g }
        ensures outputs { self.new.narrow_outputs ≡ self.old.narrow_outputs }
    {
        if is_computed_narrow_ring(&self.computed_narrow, stage) {
            self.make_next_narrow_ring_row(stage);
        } else {
            self.make_next_wide_ring_row(stage);
        }
    }

    // Makes the next row of a stage in 32 bits.
    fn make_next_wide_ring_row(&mut self, stage: usize)
        requires can { CanMake (pipeline_in self.old.job.now) (states_in self.old) stage }
        requires form { slice_index_or self.old.computed_narrow.items stage false ≡ false }
        ensures job { self.new.job ≡ self.old.job }
        ensures states { states_in self.new ≡ states_after (states_in self.old) stage }
        ensures wide { (g : ℕ) → IsWideIn self.old g → IsWideIn self.new g }
        ensures narrow { (g : ℕ) → IsNarrowIn self.old g → IsNarrowIn self.new g }
        ensures outputs { self.new.narrow_outputs ≡ self.old.narrow_outputs }
    {
        let mut ring = self.wide.take_out_ring(self.alloc, stage);
        let shape = borrow_ring_shape(&self.shapes, stage);
        ring.make_next_row(self.job, stage, shape, &self.wide, &mut self.temps);
        let line = ring.borrow_counted_row(self.states[stage].next);
        self.narrow.push_narrowed_ring_row(stage, line);
        self.wide.rings[stage] = ring;
        self.states[stage].next += 1;
    }

    // Makes the next row of a stage in 16 bits.
    fn make_next_narrow_ring_row(&mut self, stage: usize)
        requires can { CanMake (pipeline_in self.old.job.now) (states_in self.old) stage }
        requires form { slice_index_or self.old.computed_narrow.items stage false ≡ true }
        ensures job { self.new.job ≡ self.old.job }
        ensures states { states_in self.new ≡ states_after (states_in self.old) stage }
        ensures wide { (g : ℕ) → IsWideIn self.old g → IsWideIn self.new g }
        ensures narrow { (g : ℕ) → IsNarrowIn self.old g → IsNarrowIn self.new g }
        ensures outputs { self.new.narrow_outputs ≡ self.old.narrow_outputs }
    {
        let mut ring = self.narrow.take_out_ring(self.alloc, stage);
        let shape = borrow_ring_shape(&self.shapes, stage);
        let source = NarrowRingSource {
            job: self.job,
            known: &self.narrow,
        };
        ring.make_next_row_of_narrow_ring(&source, stage, shape, &mut self.narrow_temps);
        let line = ring.borrow_counted_row(self.states[stage].next);
        self.wide.push_widened_ring_row(stage, line);
        self.narrow.rings[stage] = ring;
        self.states[stage].next += 1;
    }

    /// The values of a stage in a row, counted from the first row of its domain.
    pub fn borrow_ring_row(&self, stage: usize, row: usize) -> &[i32]
        requires kept { IsOutputKept (pipeline_in self.now.job.now) (states_in self.now) row stage }
        requires wide { IsWideIn self.now stage }
        ensures { result.now ≡ row_values (pipeline_in self.now.job.now) row stage }
    {
        self.wide.rings[stage].borrow_counted_row(row)
    }

    /// The same as numbers of 16 bits.
    pub fn borrow_narrow_ring_row(&self, stage: usize, row: usize) -> &[i16]
        requires kept { IsOutputKept (pipeline_in self.now.job.now) (states_in self.now) row stage }
        requires narrow { IsNarrowIn self.now stage }
        ensures { result.now ≡ row_values (pipeline_in self.now.job.now) row stage }
    {
        self.narrow.rings[stage].borrow_counted_row(row)
    }

    /// Whether the rows of outputs are kept as numbers of 16 bits, and not of 32.
    pub fn has_narrow_output_rings(&self) -> bool
        ensures { result ≡ self.now.narrow_outputs }
    {
        self.narrow_outputs
    }
}
