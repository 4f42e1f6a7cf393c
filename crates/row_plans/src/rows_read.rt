#![tactic(auto)]
//! Which rows of other stages a row of a stage is made of.

ghost use Rattle.std.specs.Prelude.{◌≡◌, ◌<◌, ◌↔◌, ◌+ℤ◌, ◌≤ℤ◌, ℕ, ℤ, pos, negsuc, true, List, IfSome, IsTrue};
ghost use Rattle.domains.specs.Index.{index_at};
ghost use Rattle.domains.specs.Span.{Holds};
ghost use Rattle.job.specs.ReadViews.{read_view};
ghost use Rattle.operators.specs.Values.{under};
ghost use Rattle.row_plans.specs.Moved.{AreWindowsMoved, IsReadMoved};
ghost use Rattle.row_plans.specs.Rows.{IsDomainRow};
ghost use Rattle.row_plans.specs.Taken.{middle_row, AreTakenKept, IsKeptFor, IsReadKept};
ghost use Rattle.row_plans.specs.Windows.{AreWindowsOf};
ghost use Rattle.row_plans.specs.declared.row_state.RowState.{RowState};

use crate::row_state_repeats::count_row_state_rows_made;
use crate::row_state_window::RowStateWindow;
use crate::row_state_windows::are_row_state_rows_kept;
use domains::{Index, Span};
use job::Read;

// The highest kernel.
const MOST_HEIGHT: usize = 4096;

/// Rows of one stage that another reads for each row of some span.
#[derive(Clone, Copy)]
pub(crate) struct RowsRead {
    // The stage that is read.
    stage: usize,
    // The rows of the reader for which it is read.
    rows: Span,
    // The row from which the others are counted; none if it has the number of the reader's row.
    index: Option<Index>,
    // How far the first and the last row that are read lie below that row.
    first: i16,
    last: i16,
}

impl RowsRead {
    /// What a read takes for these rows of the reader. None if a kernel is too high.
    pub(crate) fn from_read(read: &Read, rows: Span) -> Option<RowsRead>
        ensures { IfSome result (λ x. (states : List RowState) (g : ℕ) (r c : ℤ) → Holds rows r
            → AreTakenKept states g r x → IsReadKept states g r c (read_view read.now)) }
    {
        match read {
            Read::Point(stage, index, _) => Some(RowsRead::from_index(*stage, *index, rows)),
            Read::Window(stage, kernel) => {
                RowsRead::from_height(*stage, kernel.as_slice().len(), rows)
            }
        }
    }

    // The row at an index, which is a distance if it neither multiplies nor divides.
    fn from_index(stage: usize, index: Index, rows: Span) -> RowsRead
        ensures { (states : List RowState) (g : ℕ) (r : ℤ) → Holds rows r
            → AreTakenKept states g r result → IsKeptFor states g stage (index_at index r) }
    {
        if index.mul() == 1 && index.div() == 1 {
            let distance = index.add() as i16;
            RowsRead {
                stage,
                rows,
                index: None,
                first: distance,
                last: distance,
            }
        } else {
            RowsRead {
                stage,
                rows,
                index: Some(index),
                first: 0,
                last: 0,
            }
        }
    }

    // The rows under a kernel of this height.
    fn from_height(stage: usize, height: usize, rows: Span) -> Option<RowsRead>
        ensures { IfSome result (λ x. (states : List RowState) (g : ℕ) (r : ℤ) → Holds rows r
            → AreTakenKept states g r x
            → (a : ℕ) → a < height → IsKeptFor states g stage (under r height a)) }
    {
        if height == 0 || height > MOST_HEIGHT {
            return None;
        }
        Some(RowsRead {
            stage,
            rows,
            index: None,
            first: -((height / 2) as i16),
            last: (height - height / 2 - 1) as i16,
        })
    }

    /// The stage that is read.
    pub(crate) fn stage(&self) -> usize
        ensures { result ≡ self.now.stage }
    {
        self.stage
    }

    /// One for both, if they read the same stage for the same rows, counted from the same row.
    pub(crate) fn join_rows_read(&self, other: &RowsRead) -> Option<RowsRead>
        ensures { IfSome result (λ x. (states : List RowState) (g : ℕ) (r : ℤ)
            → AreTakenKept states g r x
            → AreTakenKept states g r self.now × AreTakenKept states g r other.now) }
    {
        if !self.has_same_middle_rows_read(other) {
            return None;
        }
        Some(RowsRead {
            first: self.first.min(other.first),
            last: self.last.max(other.last),
            ..*self
        })
    }

    // Whether both read the same stage for the same rows, counted from the same row.
    fn has_same_middle_rows_read(&self, other: &RowsRead) -> bool
        ensures { result ≡ true → (self.now.stage ≡ other.now.stage) × (self.now.rows ≡ other.now.rows)
            × (self.now.index ≡ other.now.index) }
    {
        self.stage == other.stage && self.rows == other.rows && self.index == other.index
    }

    // The row from which those that are read are counted.
    #[inline]
    fn find_middle_row_read(&self, row: i32) -> Option<i32>
        requires { IsDomainRow row }
        ensures middle { IfSome result (λ middle. middle ≡ middle_row self.now row) }
        ensures least { IfSome result (λ middle. negsuc 1048575 ≤ℤ middle) }
        ensures most { IfSome result (λ middle. middle ≤ℤ pos 1048576) }
    {
        match self.index {
            None => Some(row),
            Some(index) => find_row_read_at_index(&index, row),
        }
    }

    /// The first and the last row that are read for this row of the reader. None if its number is beyond those of domains.
    #[inline]
    pub(crate) fn find_first_and_last_row_read(&self, row: i32) -> Option<(i32, i32)>
        requires { IsDomainRow row }
        ensures first { IfSome result (λ ends. ends.0 ≡ middle_row self.now row +ℤ self.now.first) }
        ensures last { IfSome result (λ ends. ends.1 ≡ middle_row self.now row +ℤ self.now.last) }
    {
        let middle = self.find_middle_row_read(row)?;
        Some((
            find_row_read_at_distance(middle, self.first),
            find_row_read_at_distance(middle, self.last),
        ))
    }

    // Whether any rows are read for this row of the reader.
    #[inline]
    fn has_rows_read_at(&self, row: i32) -> bool
        ensures held { IsTrue result ↔ Holds self.now.rows row }
        ensures number { result ≡ true → IsDomainRow row }
    {
        self.rows.lo() <= row && row <= self.rows.hi()
    }

    /// The first and the last row that are read for this row of the reader, if it is one for which any are read.
    pub(crate) fn find_rows_read_at(&self, row: i32) -> Option<(i32, i32)> {
        if self.has_rows_read_at(row) {
            self.find_first_and_last_row_read(row)
        } else {
            None
        }
    }

    /// The first and the last row that are read for rows of the reader, from row `first` up to before row `end`.
    pub(crate) fn find_first_and_last_row_read_in_range(
        &self,
        first: i32,
        end: i32,
    ) -> Option<(i32, i32)> {
        let top = self.rows.lo().max(first);
        let bottom = self.rows.hi().min(end.saturating_sub(1));
        if top > bottom {
            return None;
        }
        let (first, _) = self.find_first_and_last_row_read(top)?;
        let (_, last) = self.find_first_and_last_row_read(bottom)?;
        Some((first, last))
    }

    /// How often the rows of the reader from `begun` up to before `next` can be made again, if each time so many rows more of the stage
    /// that is read are made, so that they read what lies as far from the row that is made next.
    pub(crate) fn count_repeats(&self, begun: i32, next: i32, moved: i32) -> i32 {
        let made = next.saturating_sub(begun);
        if made <= 0 || begun > self.rows.hi() {
            i32::MAX
        } else if next <= self.rows.lo() {
            self.rows
                .lo()
                .saturating_sub(next)
                .checked_div(made)
                .unwrap_or(0)
        } else if begun >= self.rows.lo() && self.moves_with_rows(made, moved) {
            let end = self.rows.hi() + 1;
            end.saturating_sub(next)
                .max(0)
                .checked_div(made)
                .unwrap_or(0)
        } else {
            0
        }
    }

    // Whether what is read moves by so many rows if the reader's row does.
    fn moves_with_rows(&self, made: i32, moved: i32) -> bool
        ensures { result ≡ true → (r : ℤ) → middle_row self.now (r +ℤ made) ≡ middle_row self.now r +ℤ moved }
    {
        match self.index {
            Some(index) => are_rows_read_at_index_moved(&index, made, moved),
            None => made == moved,
        }
    }

    /// Whether the rows that are read move by as many rows as their stage, if the reader's row moves by as many as the reader.
    pub(crate) fn are_rows_read_moved(
        &self,
        begun: &[RowStateWindow],
        ended: &[RowStateWindow],
        reader: usize,
    ) -> bool
        ensures { result ≡ true → (states : List RowState) (d : ℕ → ℕ)
            → AreWindowsMoved d states begun.now ended.now → IsReadMoved d states reader self.now }
    {
        match (
            begun.get(reader),
            count_row_state_rows_made(begun, ended, reader),
            count_row_state_rows_made(begun, ended, self.stage),
        ) {
            (Some(window), Some(made), Some(moved)) => {
                self.rows.lo() <= window.next() && self.moves_with_rows(made, moved)
            }
            _ => false,
        }
    }

    /// Whether the rows that are read for this row of the reader are kept, and are of another stage.
    #[inline]
    pub(crate) fn are_rows_read_kept(
        &self,
        windows: &[RowStateWindow],
        reader: usize,
        row: i32,
    ) -> bool
        ensures { result ≡ true → (states : List RowState) → AreWindowsOf states windows.now
            → AreTakenKept states reader row self.now }
    {
        if !self.has_rows_read_at(row) {
            return true;
        }
        match self.find_first_and_last_row_read(row) {
            Some((first, last)) => {
                self.stage != reader && are_row_state_rows_kept(windows, self.stage, first, last)
            }
            None => false,
        }
    }
}

// The row at an index. None if the number is beyond those of which indices are taken.
fn find_row_read_at_index(index: &Index, row: i32) -> Option<i32>
    ensures middle { IfSome result (λ middle. middle ≡ index_at index.now row) }
    ensures least { IfSome result (λ middle. negsuc 1048575 ≤ℤ middle) }
    ensures most { IfSome result (λ middle. middle ≤ℤ pos 1048576) }
{
    if row < -32_767 || row > 32_768 {
        return None;
    }
    Some(index.at(row))
}

// Whether the row at an index moves by so many rows if the reader's row does.
fn are_rows_read_at_index_moved(index: &Index, made: i32, moved: i32) -> bool
    ensures { result ≡ true → (r : ℤ) → index_at index.now (r +ℤ made) ≡ index_at index.now r +ℤ moved }
{
    i64::from(index.mul()) * i64::from(made) == i64::from(index.div()) * i64::from(moved)
}

// The row that lies so far below another.
#[inline]
fn find_row_read_at_distance(row: i32, distance: i16) -> i32
    requires least { negsuc 1048575 ≤ℤ row }
    requires most { row ≤ℤ pos 1048576 }
    ensures { result ≡ row +ℤ distance }
{
    row + i32::from(distance)
}
