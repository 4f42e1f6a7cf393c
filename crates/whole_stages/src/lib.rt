//! Stages on their whole domains: computed without tiles and independently of schedules, each after those that it reads.
//!
//! Words: stage buffer, whole stage, whole function, whole plane, plain.
#![tactic(auto)]

mod buffer_source;
mod buffers;
mod functions;
mod parts;
mod planes;
mod stages;
mod true_stages;

pub use buffers::{StageBuffer, StageBuffers};
pub use true_stages::{
    ComputedWholeStages, compute_values_of_whole_stages, find_tile_area_in_whole_function, plain,
};
