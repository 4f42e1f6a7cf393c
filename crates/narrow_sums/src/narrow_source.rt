#![tactic(auto)]
//! What gives the samples that formulas read, as numbers of 16 bits.

ghost use Rattle.std.specs.Prelude.{◌≡◌, ℕ, ℤ, ◌+ℤ◌, pos, length};
ghost use Rattle.domains.specs.Index.{index_at};
ghost use Rattle.row_loops.specs.Rows.{EachPlace, at};

use domains::Index;
use row_kernels::RowSpan;

/// Gives the samples of stages, each of which fits in 16 bits.
pub trait NarrowSource {
    /// Whether the sample of a stage in a row and a column is available.
    ghost has: { Self → ℕ → ℤ → ℤ → Type 0 };
    /// And the sample.
    ghost samples: { Self → ℕ → ℤ → ℤ → ℤ };

    /// The samples of a stage along a row, from a column on.
    fn borrow_narrow_row(&self, stage: usize, row: i32, first: i32, count: usize) -> &[i16]
        requires { EachPlace count (λ k. has self.now stage row (first +ℤ pos k)) }
        ensures count { length result.now ≡ count }
        ensures values { EachPlace count
            (λ k. at result.now k ≡ samples self.now stage row (first +ℤ pos k)) };

    /// Writes the samples of a stage along a row, at the columns that an index takes at the columns of some points.
    fn gather_narrow_row(
        &self,
        stage: usize,
        row: i32,
        col: &Index,
        points: &RowSpan,
        out: &mut [i16],
    )
        requires fits { length out.old ≡ points.now.len }
        requires there { EachPlace (length out.old)
            (λ k. has self.now stage row (index_at col.now (points.now.col +ℤ pos k))) }
        ensures { EachPlace (length out.old) (λ k. at out.new k
            ≡ samples self.now stage row (index_at col.now (points.now.col +ℤ pos k))) };
}
