//! The result of a job that is written while it is made: some rows of the picture at a time, or strips of rows that threads made.
//!
//! Words: streamed result, streamed piece, result header, result strip.
#![tactic(auto)]

mod header;
mod lines;
mod pieces;
mod result;
mod strips;
mod summed;
mod work;

pub use result::{StreamedResult, prepare_streamed_result};
