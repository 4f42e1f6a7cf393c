//! A job: a program at its parameters' values, with the picture that it works on and the sides of its tiles. Its definitions
//! specify the value of a stage at a point. It knows of no text but the canonical one that it keeps.
//!
//! Words: job, stage, function, formula, accumulator, output, input, same input, hash input, push input, worked job.
#![tactic(auto)]

mod bound_pipeline;
mod formula;
mod hashing;
mod job;
pub mod laws;
mod outputs;
mod readers;
mod reads;
mod results;
mod sameness;
mod stage;
pub mod worked;

pub use bound_pipeline::BoundPipeline;
pub use formula::Formula;
pub use job::{Job, StageKind};
pub use operators::{Axis, Kernel, KernelFactors, PointTest, copy_kernel};
pub use outputs::{Output, Parameter};
pub use reads::Read;
pub use stage::{Accumulator, Body, Function, JobCase, Stage};
pub use tables::{Table, TableEntries};
