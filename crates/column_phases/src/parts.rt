#![tactic(auto)]
//! The points of a row that lie in the columns of a phase.

ghost use Rattle.std.specs.Prelude.{◌≡◌, ◌<◌, ◌≤◌, ◌+ℤ◌, pos, length, map};
ghost use Rattle.std.specs.Option.{option_map};
ghost use Rattle.domains.specs.Arithmetic.{floor_div, floor_rem};
ghost use Rattle.job.specs.Views.{case_view, formula_view};
ghost use Rattle.narrow_eval.specs.NarrowPrograms.{IsProgramOf};
ghost use Rattle.column_phases.specs.inside.Rows.{places_from, IsPart};

use crate::finding::ColumnPhases;
use domains::arithmetic::{floor_div, floor_rem};
use job::Function;
use narrow_eval::NarrowFunction;
use row_kernels::RowSpan;

// The rest of the column of point number `place` by a period.
#[tactic(auto, using(std::proofs::lemmas::Int::ints))]
fn find_column_phase_at_place(points: &RowSpan, period: usize, place: usize) -> usize
    requires least { 2 ≤ period }
    requires most { period ≤ 4 }
    requires place { place < points.now.len }
    ensures rest { pos result ≡ floor_rem (points.now.col +ℤ pos place) (pos period) }
    ensures below { result < period }
{
    floor_rem(points.column(place), period as i32) as usize
}

// The number of the column of point number `place`, among those of its phase.
#[tactic(auto, using(std::proofs::lemmas::Int::ints))]
fn find_column_phase_number_at_place(points: &RowSpan, period: usize, place: usize) -> i32
    requires least { 2 ≤ period }
    requires most { period ≤ 4 }
    requires place { place < points.now.len }
    ensures { result ≡ floor_div (points.now.col +ℤ pos place) (pos period) }
{
    floor_div(points.column(place), period as i32)
}

// The points whose columns lie whole periods after that of point number `place`, by the numbers of their columns.
fn slice_column_phase_points(points: &RowSpan, period: usize, place: usize) -> RowSpan
    requires least { 2 ≤ period }
    requires most { period ≤ 4 }
    requires first { place < period }
    requires place { place < points.now.len }
    ensures row { result.row ≡ points.now.row }
    ensures col { result.col ≡ floor_div (points.now.col +ℤ pos place) (pos period) }
    ensures len { result.len ≡ places_from period points.now.len place }
{
    RowSpan {
        row: points.row,
        col: find_column_phase_number_at_place(points, period, place),
        len: (points.len + (period - 1 - place)) / period,
    }
}

impl ColumnPhases {
    /// The phase of the columns that lie whole periods after that of point number `place`, its program, and the points there, by the numbers of the
    /// columns.
    pub(crate) fn slice_column_phase(
        &self,
        points: &RowSpan,
        place: usize,
    ) -> (&Function, &NarrowFunction, RowSpan)
        requires place { place < length self.now.functions.items }
        requires enough { length self.now.functions.items ≤ points.now.len }
        ensures part { IsPart self.now.functions.items points.now place result.0.now result.2 }
        ensures program { IsProgramOf result.1.now (map case_view result.0.now.cases.items)
            (option_map formula_view result.0.now.otherwise) }
    {
        let period = self.count_column_phases();
        let rest = find_column_phase_at_place(points, period, place);
        let part = slice_column_phase_points(points, period, place);
        let (phase, program) = self.borrow_column_phase(rest);
        (phase, program, part)
    }
}
