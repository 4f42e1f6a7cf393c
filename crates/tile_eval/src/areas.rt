#![tactic(auto)]
//! Functions over whole areas.

ghost use Rattle.std.specs.Prelude.{◌≡◌, ◌<◌, ◌+◌, ◌*◌, ◌+ℤ◌, ◌≤ℤ◌, ℕ, pos, length, map, All};
ghost use Rattle.std.specs.Option.{option_map, ForSome};
ghost use Rattle.job.specs.Reads.{EachRead};
ghost use Rattle.job.specs.WellFormed.{IsFormula};
ghost use Rattle.job.specs.Views.{case_view, formula_view};
ghost use Rattle.row_loops.specs.Rows.{EachPlace, at};
ghost use Rattle.tile_eval.specs.Reading.{HasRoom};
ghost use Rattle.tile_eval.specs.Cases.{function_value};
ghost use Rattle.tile_eval.specs.inside.Cases.{IsReady, IsRoomy};

use crate::source::RowSource;
use crate::source_row::SourceRow;
use job::Function;

impl<S: RowSource> SourceRow<'_, S> {
    /// The values of a function in this row and those below it, `rows` rows in all, row by row.
    pub(crate) fn evaluate_function_from_row_down(
        &self,
        function: &Function,
        rows: usize,
        out: &mut [i32],
        temps: &mut [i32],
    )
        requires some { 0 < self.now.points.len }
        requires row_most { (self.now.points.row +ℤ pos rows) ≤ℤ pos 16385 }
        requires len { length out.old ≡ rows * self.now.points.len }
        requires cases { All (λ p. ((i k : ℕ) → i < rows → k < self.now.points.len
            → IsReady (S.has self.now.source.now) (case_view p) (self.now.points.row +ℤ pos i)
            (self.now.points.col +ℤ pos k))
            × IsRoomy self.now.points.len (length temps.old) (case_view p))
            function.now.cases.items }
        requires other { ForSome (option_map formula_view function.now.otherwise)
            (λ f. ((i k : ℕ) → i < rows → k < self.now.points.len
            → EachRead (S.has self.now.source.now) f (self.now.points.row +ℤ pos i)
            (self.now.points.col +ℤ pos k))
            × IsFormula f × HasRoom f self.now.points.len (length temps.old)) }
        ensures { (i : ℕ) → i < rows
            → EachPlace self.now.points.len (λ k. at out.new (i * self.now.points.len + k)
            ≡ function_value (S.samples self.now.source.now)
            (map case_view function.now.cases.items)
            (option_map formula_view function.now.otherwise) (self.now.points.row +ℤ pos i)
            (self.now.points.col +ℤ pos k)) }
    {
        for i in 0..rows {
            let from = i * self.points.len;
            let line = &mut out[from..from + self.points.len];
            let points = self.points.copy_moved_down_by_rows(i);
            let own = SourceRow {
                source: self.source,
                points,
            };
            own.evaluate_cases(function.cases(), function.otherwise(), line, temps);
        }
    }
}
