#![tactic(auto)]
//! Work that is partitioned among threads.

ghost use Rattle.std.specs.Prelude.{◌<◌, ◌/◌, IsTrue};

use rayon::current_num_threads;
use std::thread::Threads;

/// Whether one thread computes all of these rows: where there is one processor, and where the rows are too few for two parts.
pub(crate) fn is_one_thread_enough_for_rows(rt: &impl Threads, rows: u32, least: usize) -> bool
    ensures { rows / 2 < least → IsTrue result }
{
    rows as usize / 2 < least || current_num_threads(rt) == 1
}
