#![tactic(auto)]
//! What gives the samples that formulas read.

ghost use Rattle.std.specs.Prelude.{◌≡◌, ◌≤◌, ℕ, ℤ, ◌+ℤ◌, ◌≤ℤ◌, pos, length, slice_index, IfSome};
ghost use Rattle.domains.specs.Index.{index_at};
ghost use Rattle.row_loops.specs.Rows.{EachPlace, at};

use domains::Index;
use row_kernels::RowSpan;

/// Gives the samples of stages.
pub trait RowSource {
    /// Whether the sample of a stage in a row and a column is available.
    ghost has: { Self → ℕ → ℤ → ℤ → Type 0 };
    /// And the sample.
    ghost samples: { Self → ℕ → ℤ → ℤ → ℤ };

    /// Writes the samples of a stage along a row, from a column on.
    fn read_row(&self, stage: usize, row: i32, first: i32, out: &mut [i32])
        requires { EachPlace (length out.old) (λ k. has self.now stage row (first +ℤ pos k)) }
        ensures { EachPlace (length out.old)
            (λ k. at out.new k ≡ samples self.now stage row (first +ℤ pos k)) };

    /// The samples of a stage along a row, from a column on, if they are adjacent in memory.
    fn borrow_row(&self, stage: usize, row: i32, first: i32, count: usize) -> Option<&[i32]>
        requires { EachPlace count (λ k. has self.now stage row (first +ℤ pos k)) }
        ensures { IfSome result (λ line. (length line.now ≡ count)
            × EachPlace count (λ k. at line.now k ≡ samples self.now stage row (first +ℤ pos k))) };

    /// The samples of a stage along a row, from a column on, if they are bytes that are adjacent in memory.
    fn borrow_byte_row(&self, _stage: usize, _row: i32, _first: i32, _count: usize) -> Option<&[u8]>
        requires { EachPlace _count (λ k. has self.now _stage _row (_first +ℤ pos k)) }
        ensures { IfSome result (λ line. (length line.now ≡ _count) × EachPlace _count
            (λ k. pos (slice_index line.now k) ≡ samples self.now _stage _row (_first +ℤ pos k))) }
    {
        None
    }

    /// Writes the samples of a stage along a row, at the columns that an index takes at the columns of some points.
    fn gather_row(&self, stage: usize, row: i32, col: &Index, points: &RowSpan, out: &mut [i32])
        requires fits { length out.old ≡ points.now.len }
        requires there { EachPlace (length out.old)
            (λ k. has self.now stage row (index_at col.now (points.now.col +ℤ pos k))) }
        ensures { EachPlace (length out.old) (λ k. at out.new k
            ≡ samples self.now stage row (index_at col.now (points.now.col +ℤ pos k))) }
    {
        for k in 0..out.len() {
            out[k] = self.read_sample(stage, row, col.at(points.column(k)));
        }
    }

    /// One sample.
    fn read_sample(&self, stage: usize, row: i32, col: i32) -> i32
        requires { has self.now stage row col }
        ensures { result ≡ samples self.now stage row col };
}
