#![tactic(auto)]
//! The next row of a ring, from the same row in a ring of other numbers.

ghost use Rattle.std.specs.Prelude.{◌≡◌, ◌<◌, true, false, length, Some, slice_get, FitsSigned};
ghost use Rattle.std.specs.Int.{w16};
ghost use Rattle.domains.specs.Span.{len_of};
ghost use Rattle.row_loops.specs.Rows.{EachPlace, at};
ghost use Rattle.row_rings.specs.inside.Converting.{HasRowMore, AreWithRow, IsRowFor, IsFittingRowFor};

use crate::ring::{RowRing, RowRings};
use narrow_kernels::{narrow_row_of_wide_numbers, widen_narrow_row};

impl<T> RowRings<T> {
    // Whether rows of a stage are kept.
    fn keeps_rows_of_ring(&self, stage: usize) -> bool
        ensures there { result ≡ true → stage < length self.now.rings.items }
        ensures some { result ≡ true → (ring : RowRing T)
            → slice_get self.now.rings.items stage ≡ Some ring → 0 < ring.state.kept }
        ensures none { result ≡ false → (ring : RowRing T)
            → slice_get self.now.rings.items stage ≡ Some ring → ring.state.kept ≡ 0 }
    {
        match self.rings.get(stage) {
            Some(ring) => ring.state.kept > 0,
            None => false,
        }
    }
}

impl RowRing<i32> {
    // Takes the numbers of a row of 16 bits as the next row, in place of the oldest one.
    fn push_widened_ring_row(&mut self, line: &[i16])
        requires some { 0 < self.old.state.kept }
        requires few { self.old.state.next < 2097153 }
        requires count { length line.now ≡ len_of self.old.state.area.cols }
        ensures { HasRowMore line.now self.old self.new }
    {
        widen_narrow_row(&mut self.rows[0], line);
        self.rows.rotate_left(1);
        self.state.next += 1;
    }
}

impl RowRing<i16> {
    // Takes the numbers of a row of 32 bits as the next row, in place of the oldest one.
    fn push_narrowed_ring_row(&mut self, line: &[i32])
        requires some { 0 < self.old.state.kept }
        requires few { self.old.state.next < 2097153 }
        requires count { length line.now ≡ len_of self.old.state.area.cols }
        requires fits { EachPlace (length line.now) (λ k. FitsSigned w16 (at line.now k)) }
        ensures { HasRowMore line.now self.old self.new }
    {
        narrow_row_of_wide_numbers(&mut self.rows[0], line);
        self.rows.rotate_left(1);
        self.state.next += 1;
    }
}

impl RowRings<i32> {
    // Takes the numbers of a row of 16 bits as the next row of a stage, if rows of it are kept.
    pub(crate) fn push_widened_ring_row(&mut self, stage: usize, line: &[i16])
        requires { IsRowFor stage line.now self.old.rings.items }
        ensures { AreWithRow stage line.now self.old.rings.items self.new.rings.items }
    {
        if self.keeps_rows_of_ring(stage) {
            self.rings[stage].push_widened_ring_row(line);
        }
    }
}

impl RowRings<i16> {
    // Takes the numbers of a row of 32 bits as the next row of a stage, if rows of it are kept.
    pub(crate) fn push_narrowed_ring_row(&mut self, stage: usize, line: &[i32])
        requires row { IsRowFor stage line.now self.old.rings.items }
        requires fits { IsFittingRowFor stage line.now self.old.rings.items }
        ensures { AreWithRow stage line.now self.old.rings.items self.new.rings.items }
    {
        if self.keeps_rows_of_ring(stage) {
            self.rings[stage].push_narrowed_ring_row(line);
        }
    }
}
