//! The picture of a job as a stream of rows. Each is computed when it is written, from the few rows of other stages that are kept. Accumulators
//! read the same rows.
//!
//! Words: row stream, row strip, row strips, streamed row, strip stream.
#![tactic(auto)]

mod row_steps;
mod row_stream;
mod row_strips;
mod strip_streams;
mod strip_totals;

pub use row_plans::MOST_NUMBERS;
pub use row_stream::RowStream;
pub use strip_streams::{StripStream, make_strip_streams};
pub use strip_totals::make_strip_stream_totals;
