//! Spans of whole numbers, areas of points, the tiles that partition an area, and the indices at which an area is read.
//!
//! Words: area, span, grid, side, index, wrapping, floor.
#![tactic(auto)]

pub mod area;
pub mod arithmetic;
pub mod grid;
pub mod index;
pub mod laws;
mod parts;
pub mod span;

pub use area::Area;
pub use grid::{Grid, MOST_SIDE, TileSides};
pub use index::Index;
pub use span::{LIMIT, Span};
