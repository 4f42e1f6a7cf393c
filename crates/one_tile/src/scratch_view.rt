#![tactic(auto)]
//! Parts of scratch memory that are borrowed.

ghost use Rattle.std.specs.Prelude.{◌≡◌, ◌≤◌, ◌+◌, length, IfSome, IfNone};
ghost use Rattle.tile_eval.specs.Rows.{EachPlace, at};

use tile_sources::{ThreePlaneBuffers, borrow_number_range};

/// What a step reads of scratch memory: the numbers before the range that it writes, and those from the range's end on. Also the
/// converted planes.
#[derive(Clone, Copy)]
pub struct TileScratchView<'a> {
    pub(crate) before: &'a [i32],
    pub(crate) behind: &'a [i32],
    pub(crate) end: usize,
    pub(crate) planes: &'a ThreePlaneBuffers,
    ghost ordered: { length before.now ≤ end },
}

impl<'a> TileScratchView<'a> {
    ghost use Rattle.std.specs.Prelude.{ℤ};
    ghost use Rattle.one_tile.specs.Prepared.{IsLent, IsNumberAt};

    /// All of scratch memory, for a step that writes none of it, and these planes.
    pub(crate) fn from_numbers(
        numbers: &'a [i32],
        planes: &'a ThreePlaneBuffers,
    ) -> TileScratchView<'a>
        ensures before { result.before.now ≡ numbers.now }
        ensures behind { length result.behind.now ≡ 0 }
        ensures end { result.end ≡ length numbers.now }
        ensures planes { result.planes.now ≡ planes.now }
    {
        TileScratchView {
            before: numbers,
            behind: &[],
            end: numbers.len(),
            planes,
        }
    }

    /// `len` numbers from a start on, if these are borrowed.
    pub(crate) fn borrow_range(&self, start: usize, len: usize) -> Option<&'a [i32]>
        ensures count { IfSome result (λ part. length part.now ≡ len) }
        ensures numbers { IfSome result (λ part. EachPlace len (λ k. (number : ℤ)
            → IsNumberAt self.now (start + k) number → at part.now k ≡ number)) }
        ensures none { IfNone result (¬ (IsLent self.now start len)) }
    {
        match start.checked_sub(self.end) {
            Some(behind) => borrow_number_range(self.behind, behind, len),
            None => borrow_number_range(self.before, start, len),
        }
    }
}
