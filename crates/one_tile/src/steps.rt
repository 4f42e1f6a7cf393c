#![tactic(auto)]
//! The steps of a tile, one after another: inlined functions over their boxes, each in its range of scratch memory.

ghost use Rattle.std.specs.Prelude.{◌≡◌, ◌≤◌, ◌<◌, ◌+◌, ℕ, suc, false, map, length, IfSome, IfNone};
ghost use Rattle.std.specs.Option.{option_map};
ghost use Rattle.domains.specs.Area.{IsArea, point_count};
ghost use Rattle.domains.specs.Span.{len_of};
ghost use Rattle.tile_boxes.specs.Schedules.{is_function_stage};
ghost use Rattle.job.specs.Kept.{pipeline_in};
ghost use Rattle.job.specs.Views.{case_view, formula_view};
ghost use Rattle.scratch.specs.Lending.{numbers_of};
ghost use Rattle.scratch.specs.Parts.{with_part};
ghost use Rattle.tile_eval.specs.Raster.{raster};
ghost use Rattle.tile_eval.specs.Reading.{HasFunctionRoom};
ghost use Rattle.one_tile.specs.Local.{local_value};
ghost use Rattle.one_tile.specs.Runs.{NeedsGiven, IsSomeLayout};
ghost use Rattle.tile_sources.specs.Wide.{AreWide};
ghost use Rattle.one_tile.specs.inside.Steps.{IsFunctionAt, AreComputed, HasStepsRoom, IsPreparedBeside};

use crate::scratch_view::TileScratchView;
use crate::tile_inputs::TileInputs;
use crate::tile_job::TileJob;
use job::{Body, Function, Job};
use overlap_tiles::TileStep;
use scratch::Scratch;
use tile_sources::{ThreePlaneBuffers, TileSource};

/// The function of this number.
pub(crate) fn find_tile_step_function(job: &Job, number: usize) -> Option<&Function>
    ensures some { IfSome result (λ function. IsFunctionAt (pipeline_in job.now) number
        (map case_view function.now.cases.items) (option_map formula_view function.now.otherwise)) }
    ensures none { IfNone result (is_function_stage (pipeline_in job.now) number ≡ false) }
{
    match job.stage(number)?.body() {
        Body::Function(function) => Some(function),
        Body::Plane(_) | Body::Accumulator(_) => None,
    }
}

impl<K: TileSource> TileJob<'_, K> {
    // Writes the values of a function over its box into the box's range, which starts at `start`. The memory before and after the
    // range is borrowed meanwhile.
    fn write_box_values_into_scratch(
        &self,
        planes: &ThreePlaneBuffers,
        step: &TileStep,
        function: &Function,
        start: usize,
        scratch: &mut Scratch,
        temps: &mut [i32],
    )
        requires function { IsFunctionAt (pipeline_in self.now.job.now) step.now.stage
            (map case_view function.now.cases.items)
            (option_map formula_view function.now.otherwise) }
        requires area { IsArea step.now.area }
        requires inside { (start + point_count step.now.area) ≤ length (numbers_of scratch.old) }
        requires prepared { IsPreparedBeside (pipeline_in self.now.job.now) self.now.layout.now
            (K.given self.now.known.now) (numbers_of scratch.old) start step.now.stage step.now.area }
        requires room { HasFunctionRoom (len_of step.now.area.cols) (length temps.old)
            (map case_view function.now.cases.items)
            (option_map formula_view function.now.otherwise) }
        requires wide { AreWide (pipeline_in self.now.job.now).picture planes.now }
        ensures { numbers_of scratch.new
            ≡ with_part (numbers_of scratch.old) start (start + point_count step.now.area)
            (raster step.now.area (local_value (pipeline_in self.now.job.now)
            self.now.layout.now.inlining (K.given self.now.known.now) step.now.stage)) }
    {
        let end = start + step.area.points() as usize;
        let (before, part, behind) = scratch.parts(start..end);
        let boxes = TileScratchView {
            before,
            behind,
            end,
            planes,
        };
        let tile = *self;
        let inputs = TileInputs { tile, boxes };
        inputs.write_function_values(step.stage, function, &step.area, part, temps);
    }

    // Computes the step at this place into its range. Those steps before it that are still read are already computed.
    fn compute_step(
        &self,
        place: usize,
        planes: &ThreePlaneBuffers,
        scratch: &mut Scratch,
        temps: &mut [i32],
    )
        requires layout { IsSomeLayout (pipeline_in self.now.job.now) self.now.layout.now }
        requires needs { NeedsGiven (K.given self.now.known.now) self.now.layout.now.needs }
        requires there { suc place < length self.now.layout.now.steps }
        requires size { self.now.layout.now.scratch ≤ length (numbers_of scratch.old) }
        requires room { HasStepsRoom (pipeline_in self.now.job.now) self.now.layout.now.steps
            (length temps.old) }
        requires before { AreComputed (pipeline_in self.now.job.now) self.now.layout.now
            (K.given self.now.known.now) (numbers_of scratch.old) place }
        requires wide { AreWide (pipeline_in self.now.job.now).picture planes.now }
        ensures size { length (numbers_of scratch.new) ≡ length (numbers_of scratch.old) }
        ensures computed { AreComputed (pipeline_in self.now.job.now) self.now.layout.now
            (K.given self.now.known.now) (numbers_of scratch.new) (place + 1) }
    {
        let step = self.layout.steps()[place];
        let (start, _) = self.layout.ranges()[place];
        if let Some(function) = find_tile_step_function(self.job, step.stage) {
            self.write_box_values_into_scratch(planes, &step, function, start, scratch, temps);
        }
    }

    /// Computes each step before the last.
    pub(crate) fn compute_inlined_steps(
        &self,
        planes: &ThreePlaneBuffers,
        scratch: &mut Scratch,
        temps: &mut [i32],
    )
        requires layout { IsSomeLayout (pipeline_in self.now.job.now) self.now.layout.now }
        requires needs { NeedsGiven (K.given self.now.known.now) self.now.layout.now.needs }
        requires size { self.now.layout.now.scratch ≤ length (numbers_of scratch.old) }
        requires room { HasStepsRoom (pipeline_in self.now.job.now) self.now.layout.now.steps
            (length temps.old) }
        requires wide { AreWide (pipeline_in self.now.job.now).picture planes.now }
        ensures size { length (numbers_of scratch.new) ≡ length (numbers_of scratch.old) }
        ensures computed { (last : ℕ) → suc last ≡ length self.now.layout.now.steps → AreComputed
            (pipeline_in self.now.job.now) self.now.layout.now
            (K.given self.now.known.now) (numbers_of scratch.new) last }
    {
        for place in 1..self.layout.steps().len() {
            self.compute_step(place - 1, planes, scratch, temps);
        }
    }
}
