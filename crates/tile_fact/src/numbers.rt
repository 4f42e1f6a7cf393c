//! The numbers of a fact, which its copies share.

use sequences::SharedSequence;

/// The values of a function on a tile, row by row.
pub type Samples = SharedSequence<i32>;

/// The bins of an accumulator over a tile, from the first.
pub type Bins = SharedSequence<i64>;
