//! The two kinds of records.

use crate::fact::{MAX_BINS, MAX_SAMPLES};

/// What a record's numbers are.
#[derive(Clone, Copy, Debug)]
pub enum FactBodyKind {
    /// 0: the values of a function on its tile, in 32 bits each.
    OfTile,
    /// 1: the bins of an accumulator over its tile, in 64 bits each.
    OfPartial,
}

impl FactBodyKind {
    ghost use Rattle.std.specs.Prelude.{◌≡◌};
    ghost use Rattle.tile_fact.specs.Numbers.{bytes_each, most};

    /// How many bytes one of its numbers has.
    pub fn count_bytes_of_one_number(self) -> usize
        ensures { result ≡ bytes_each self }
    {
        match self {
            FactBodyKind::OfTile => 4,
            FactBodyKind::OfPartial => 8,
        }
    }

    /// The most numbers that its records may have.
    pub fn find_max_number_count(self) -> usize
        ensures { result ≡ most self }
    {
        match self {
            FactBodyKind::OfTile => MAX_SAMPLES,
            FactBodyKind::OfPartial => MAX_BINS,
        }
    }
}
