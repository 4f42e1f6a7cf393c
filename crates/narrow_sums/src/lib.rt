//! Sums along rows of points, in 16 bits. Products of numbers with reads and with clamped differences of reads are added, alone or to a
//! formula. The sum may be divided, and the quotient added to a read. A formula is matched once into a list of terms, and each row is written
//! from the list.
//!
//! Words: narrow sum, narrow addend, narrow source, narrow sum row, narrow sum term, narrow sum part, narrow sum read, narrow sum
//! quotient.
#![tactic(auto)]

mod bounds;
mod finding;
mod matching;
mod narrow_source;
mod narrow_sum;
mod ordering;
mod reads;
mod splitting;
mod sum_row;
mod terms;
mod writing;

pub use finding::find_narrow_sum_row;
pub use narrow_source::NarrowSource;
pub use narrow_sum::NarrowSum;
pub use reads::{borrow_narrow_sum_read_line, match_narrow_sum_read};
pub use sum_row::{FoundNarrowSum, NarrowSumRow};
pub use terms::NarrowSumRead;
pub use writing::{join_narrow_sum_row, write_narrow_sum_row};
