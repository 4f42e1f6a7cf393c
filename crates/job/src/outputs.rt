#![tactic(auto)]
//! The output and the parameters of a job.

ghost use Rattle.std.specs.Prelude.{◌≡◌, slice_index};
ghost use Rattle.job.specs.Views.{output_view};

use pipe_tokens::Name;

/// The functions that are the planes of the result, by their numbers, and its greatest sample.
#[derive(Debug, Drop)]
pub struct Output {
    stages: Vec<usize>,
    max: u32,
}

impl Output {
    /// The output of these functions, with this greatest sample.
    pub fn new(stages: Vec<usize>, max: u32) -> Self
        ensures { output_view result ≡ record { stages = stages.items; max = max } }
    {
        Output { stages, max }
    }

    /// The numbers of the functions: one, or three for red, green and blue.
    pub fn stages(&self) -> &[usize]
        ensures { result.now ≡ (output_view self.now).stages }
    {
        &self.stages
    }

    /// The greatest sample.
    pub fn max(&self) -> u32
        ensures { result ≡ (output_view self.now).max }
    {
        self.max
    }

    /// The number of the first function.
    pub fn first_stage(&self) -> usize
        ensures { result ≡ slice_index (output_view self.now).stages 0 }
    {
        match self.stages() {
            [first, ..] => *first,
            [] => 0,
        }
    }
}

/// A parameter and its value.
#[derive(Clone, Copy, Debug)]
pub struct Parameter {
    pub name: Name,
    pub value: i32,
}
