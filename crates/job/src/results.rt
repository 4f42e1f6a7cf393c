#![tactic(auto)]
//! The stages from whose tiles the answer of a job is assembled.

ghost use Rattle.std.specs.Prelude.{◌≡◌, ◌==◌};
ghost use Rattle.std.specs.List.{list_any};
ghost use Rattle.job.specs.Answers.{is_accumulator_at, is_output, is_result};
ghost use Rattle.job.specs.Kept.{pipeline_in};

use crate::job::{Job, StageKind};

impl Job {
    /// Whether the stage of this number is an output.
    pub fn is_output(&self, number: usize) -> bool
        ensures { result ≡ is_output (pipeline_in self.now) number }
    {
        match self.output() {
            Some(output) => is_stage_number_in_list(output.stages(), number),
            None => false,
        }
    }

    /// Whether the stage of this number is an accumulator.
    pub fn is_accumulator(&self, number: usize) -> bool
        ensures { result ≡ is_accumulator_at (pipeline_in self.now) number }
    {
        match self.kind(number) {
            Some(StageKind::Accumulator) => true,
            Some(StageKind::Plane | StageKind::Function) | None => false,
        }
    }

    /// Whether tiles of the stage of this number belong to the answer: it is an output or an accumulator.
    pub fn is_result(&self, number: usize) -> bool
        ensures { result ≡ is_result (pipeline_in self.now) number }
    {
        self.is_output(number) || self.is_accumulator(number)
    }
}

fn is_stage_number_in_list(numbers: &[usize], number: usize) -> bool
    ensures { result ≡ list_any (λ n. n == number) numbers.now }
{
    numbers.iter().any(|other| *other == number)
}
