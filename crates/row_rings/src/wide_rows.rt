#![tactic(auto)]
//! What readers of rows ask of rings.

ghost use Rattle.std.specs.Prelude.{◌≡◌, true};
ghost use Rattle.row_rings.specs.RingRows.{IsKeptIn};

use crate::job_rings::JobRings;
use crate::ring::RowRings;
use job::Job;

impl<T> RowRings<T> {
    /// Whether the row of this number of a stage is kept.
    pub fn keeps_ring_row(&self, stage: usize, row: i32) -> bool
        ensures { result ≡ true → IsKeptIn self.now.rings.items stage row }
    {
        match self.rings.get(stage) {
            Some(ring) => ring.state.keeps_row(row),
            None => false,
        }
    }
}

impl<'a> JobRings<'a> {
    /// The job whose rows are kept.
    pub fn job_of_rings(&self) -> &'a Job
        ensures { result.now ≡ self.now.job.now }
    {
        self.job
    }

    /// The rows that are kept as numbers of 32 bits.
    pub fn borrow_wide_rings(&self) -> &RowRings<i32>
        ensures { result.now ≡ self.now.wide }
    {
        &self.wide
    }
}
