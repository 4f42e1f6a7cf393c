#![tactic(auto)]
//! What a job reports of its output, its parameters, its picture and its functions.

ghost use Rattle.std.specs.Prelude.{◌≡◌, ℕ, ◌+◌, ◌*◌, ◌<◌, [], List, length, map, slice_get, slice_index, slice_index_or};
ghost use Rattle.std.specs.Option.{option_map, option_map_or};
ghost use Rattle.job.specs.Kept.{pipeline_in};
ghost use Rattle.job.specs.Reads.{reads_of};
ghost use Rattle.job.specs.Readers.{stage_cases};
ghost use Rattle.job.specs.ReadViews.{read_view};
ghost use Rattle.job.specs.Views.{case_view};

use crate::job::Job;
use crate::reads::Read;
use crate::stage::{Body, JobCase};

impl Job {
    /// The numbers of the functions that are the planes of the result, one or three; none where the program has no output.
    pub fn outputs(&self) -> &[usize]
        ensures { result.now ≡ option_map_or (λ o. o.stages) (pipeline_in self.now).output [] }
    {
        match self.output() {
            Some(output) => output.stages(),
            None => &[],
        }
    }

    /// The value of the parameter of this number, in the order of the text.
    pub fn param(&self, number: usize) -> Option<i32>
        ensures { result
            ≡ option_map (λ p. p.value) (slice_get (pipeline_in self.now).params number) }
    {
        match self.params().get(number) {
            Some(parameter) => Some(parameter.value),
            None => None,
        }
    }

    /// The sample of the picture in this plane, row and column.
    pub fn sample(&self, plane: usize, row: u32, col: u32) -> u16
        requires in_planes { plane < length (pipeline_in self.now).picture.planes }
        requires in_rows { row < (pipeline_in self.now).picture.rows }
        requires in_cols { col < (pipeline_in self.now).picture.cols }
        ensures { result
            ≡ slice_index (slice_index_or (pipeline_in self.now).picture.planes plane [])
            (row * (pipeline_in self.now).picture.cols + col) }
    {
        self.picture().sample(plane, row, col)
    }

    /// The cases of the function of this number, in the order of the text; none of other stages.
    pub fn cases(&self, number: usize) -> Option<&[JobCase]>
        ensures { option_map (λ cases. map case_view cases.now) result
            ≡ stage_cases (slice_get (pipeline_in self.now).stages number) }
    {
        match self.stage(number)?.body() {
            Body::Function(function) => Some(function.cases()),
            Body::Plane(_) | Body::Accumulator(_) => None,
        }
    }

    /// What the stage of this number reads, in the order of the text; of an accumulator first for the value and then for the bin.
    pub fn reads(&self, number: usize) -> Option<&[Read]>
        ensures { option_map (λ reads. map read_view reads.now) result
            ≡ option_map (λ s. reads_of s.body) (slice_get (pipeline_in self.now).stages number) }
    {
        match self.stage(number) {
            Some(stage) => Some(stage.reads()),
            None => None,
        }
    }
}
