//! Rows of a picture in bytes: of each pixel the clamped numbers of its planes, as the raw raster of the picture has them.
//!
//! Words: raw row, raw rows.
#![tactic(auto)]

mod encoding;
pub mod laws;
mod lines;
mod numbers;

pub use encoding::{count_raw_row_bytes, encode_raw_row};
pub use lines::RawRowLines;
