//! The picture of a job's output: samples of its functions, clamped and added row by row from tiles.
//!
//! Words: output plane, supplied job, clamped sample, assemble image.
#![tactic(auto)]

mod picture;
mod plane;

pub use picture::assemble_image;
