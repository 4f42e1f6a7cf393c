#![tactic(auto)]
//! Which rows of a stage are kept while the steps of a plan are checked, by their numbers.

ghost use Rattle.std.specs.Prelude.{◌≡◌, ◌<◌, ◌≤◌, ◌+◌, ◌*◌, ◌≤ℤ◌, ◌+ℤ◌, ℕ, ℤ, pos, negsuc, true, IfSome};
ghost use Rattle.row_plans.specs.Rows.{IsKeptRow, one_row_more};
ghost use Rattle.row_plans.specs.declared.row_state.RowState.{RowState as KeptState};

use crate::row_state::RowState;

// The most rows of a domain.
const MOST_ROWS: usize = 2_097_153;

/// Which rows of a stage are kept, and which can still be made, by their numbers: a state in the form in which reads are checked.
#[derive(Clone, Copy)]
pub(crate) struct RowStateWindow {
    // The first row of the domain.
    lo: i32,
    // The first row that is kept, if any is.
    first: i32,
    // The row that is made next. Those before it, from the first one on, are kept.
    next: i32,
    // The last row that can be made.
    last: i32,
    // How many rows are kept at most.
    kept: i32,
    ghost least: { negsuc 1048575 ≤ℤ lo },
    ghost begun: { lo ≤ℤ first },
    ghost order: { lo ≤ℤ next },
    ghost most: { next ≤ℤ pos 1048577 },
    ghost most_made: { last ≤ℤ pos 1048576 },
    ghost least_kept: { pos 0 ≤ℤ kept },
    ghost most_kept: { kept ≤ℤ pos 2097153 },
}

impl RowStateWindow {
    ghost use Rattle.domains.specs.Span.{len_of};
    ghost use Rattle.row_plans.specs.Moved.{rows_more};
    ghost use Rattle.row_plans.specs.Windows.{IsWindowOf};

    /// The window of a state. None of a state of no plan, if more rows are made or kept than there are.
    pub(crate) fn from_row_state(state: &RowState) -> Option<RowStateWindow>
        ensures { IfSome result (IsWindowOf state.now) }
    {
        if state.kept > MOST_ROWS
            || state.next > state.area.rows.len() as usize
            || state.first > state.next
        {
            return None;
        }
        let lo = state.area.rows.lo();
        let next = lo + state.next as i32;
        let kept = state.kept as i32;
        Some(RowStateWindow {
            lo,
            first: (lo + state.first as i32).max(next - kept),
            next,
            last: if kept > 0 {
                state.area.rows.hi()
            } else {
                lo - 1
            },
            kept,
        })
    }

    /// The row that is made next.
    #[inline]
    pub(crate) fn next(&self) -> i32
        ensures { result ≡ self.now.next }
    {
        self.next
    }

    /// Whether a row is left that can be made.
    #[inline]
    pub(crate) fn has_next_row(&self) -> bool
        ensures { result ≡ true → self.now.next ≤ℤ self.now.last }
    {
        self.next <= self.last
    }

    /// The window once the next row is made.
    #[inline]
    pub(crate) fn make_next_row(&self) -> RowStateWindow
        requires { self.now.next ≤ℤ self.now.last }
        ensures { (state : KeptState) → IsWindowOf state self.now → IsWindowOf (one_row_more state) result }
    {
        let next = self.next + 1;
        RowStateWindow {
            lo: self.lo,
            first: self.first.max(next - self.kept),
            next,
            last: self.last,
            kept: self.kept,
        }
    }

    /// The window once so many rows more are made. None if fewer are left.
    pub(crate) fn make_rows(&self, rows: usize) -> Option<RowStateWindow>
        ensures windows { IfSome result (λ window. (state : KeptState) → IsWindowOf state self.now
            → IsWindowOf (rows_more rows state) window) }
        ensures left { IfSome result (λ window. (state : KeptState) → IsWindowOf state self.now
            → 0 < rows → state.next + rows ≤ len_of state.area.rows) }
    {
        if rows == 0 {
            return Some(*self);
        }
        if rows > MOST_ROWS {
            return None;
        }
        let next = self.next + rows as i32;
        if next - 1 > self.last {
            return None;
        }
        let first = self.first.max(next - self.kept);
        Some(RowStateWindow {
            lo: self.lo,
            first,
            next,
            last: self.last,
            kept: self.kept,
        })
    }

    /// Whether all rows from row `first` to row `last` are kept.
    #[inline]
    pub(crate) fn keeps_rows(&self, first: i32, last: i32) -> bool
        ensures { result ≡ true → (state : KeptState) → IsWindowOf state self.now
            → (row : ℤ) → first ≤ℤ row → row ≤ℤ last → IsKeptRow state row }
    {
        self.first <= first && last < self.next
    }

    /// Whether the row at this place of the domain is kept.
    pub(crate) fn keeps_row_of_place(&self, place: usize) -> bool
        ensures { result ≡ true → (state : KeptState) → IsWindowOf state self.now
            → IsKeptRow state (state.area.rows.lo +ℤ pos place) }
    {
        place < (self.next - self.lo) as usize && self.first <= self.lo + place as i32
    }
}
