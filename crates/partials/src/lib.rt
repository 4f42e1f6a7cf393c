//! What an accumulator accumulates over one tile, from supplied tiles.
//!
//! Words: partial, step partial, tile partial.
#![tactic(auto)]

mod partials;

pub use partials::{accumulate_tile_partial, partial};
