#![tactic(auto)]
//! Which rows of a stage are kept.

ghost use Rattle.std.specs.Prelude.{◌≡◌, ◌<◌, ◌≤◌, ◌↔◌, ◌+◌, true, All, IfSome, IsTrue};
ghost use Rattle.std.specs.Int.{int_gap};
ghost use Rattle.domains.specs.Span.{Holds};
ghost use Rattle.row_plans.specs.Rows.{IsKeptRow, numbers_kept};

use domains::Area;

/// Which rows of a stage are kept: of those that are made, the last ones. Rows are counted from the first one of the stage's domain.
#[derive(Clone, Copy, Debug, PartialEq, Eq)]
pub struct RowState {
    /// The stage's domain.
    pub area: Area,
    /// How many rows are kept at most.
    pub kept: usize,
    /// The first row that is made.
    pub first: usize,
    /// The row that is made next.
    pub next: usize,
}

impl RowState {
    /// Whether the row of this number is made, and is one of the last rows made, as many as are kept.
    #[inline]
    pub fn keeps_row(&self, row: i32) -> bool
        ensures { IsTrue result ↔ IsKeptRow self.now row }
    {
        self.area.rows.holds(row) && self.keeps_row_at_place(self.find_place_of_row(row))
    }

    /// Whether it has the rows and the columns of this area.
    pub(crate) fn has_area(&self, area: &Area) -> bool
        ensures { result ≡ true → (self.now.area.rows ≡ area.now.rows)
            × (self.now.area.cols ≡ area.now.cols) }
    {
        self.area.rows == area.rows && self.area.cols == area.cols
    }

    // The place of a row of the domain.
    #[inline]
    fn find_place_of_row(&self, row: i32) -> usize
        requires { Holds self.now.area.rows row }
        ensures { result ≡ int_gap self.now.area.rows.lo row }
    {
        (row - self.area.rows.lo()) as usize
    }

    // Whether the row at this place is kept.
    #[inline]
    fn keeps_row_at_place(&self, place: usize) -> bool
        ensures { IsTrue result ↔ (self.now.first ≤ place) × (place < self.now.next)
            × (self.now.next ≤ place + self.now.kept) }
    {
        self.first <= place && place < self.next && self.next - place <= self.kept
    }
}

/// Whether no row is made.
pub(crate) fn are_row_states_at_start(states: &[RowState]) -> bool
    ensures { result ≡ true → All (λ state. state.next ≡ state.first) states.now }
{
    for state in states {
        if state.next != state.first {
            return false;
        }
    }
    true
}

/// How many numbers are kept in all. None if there is no such number.
pub(crate) fn count_numbers_kept_in_row_states(states: &[RowState]) -> Option<u64>
    ensures { IfSome result (λ count. count ≡ numbers_kept states.now) }
{
    let mut count = 0u64;
    for state in states {
        let columns = u64::from(state.area.cols.len());
        count = count.checked_add((state.kept as u64).checked_mul(columns)?)?;
    }
    Some(count)
}
