//! What a fact asserts of its tile.

ghost use Rattle.std.specs.Prelude.{◌↔◌, IsTrue};

use crate::fact::{MAX_BINS, MAX_SAMPLES};
use crate::numbers::{Bins, Samples};

/// The numbers of a tile, of one kind. A tile comes before a partial, and bodies of one kind are in the order of their numbers.
#[derive(Clone, Debug, Drop, PartialEq, Eq, PartialOrd, Ord)]
pub enum Body {
    /// The values of a function on its tile, row by row.
    Tile(Samples),
    /// The bins of an accumulator over its tile.
    Partial(Bins),
}

impl Body {
    ghost use Rattle.tile_fact.specs.Bodies.{IsWithin};

    /// Whether a fact may have as many numbers as this.
    pub fn is_within_fact_limit(&self) -> bool
        ensures { IsTrue result ↔ IsWithin self.now }
    {
        match self {
            Body::Tile(samples) => samples.as_slice().len() <= MAX_SAMPLES,
            Body::Partial(bins) => bins.as_slice().len() <= MAX_BINS,
        }
    }
}
