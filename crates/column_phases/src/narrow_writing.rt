#![tactic(auto)]
//! Rows of functions in 16 bits, by phases.

ghost use Rattle.std.specs.Prelude.{◌≡◌, ◌<◌, ◌≤◌, ◌+◌, ◌%◌, ◌+ℤ◌, ℕ, suc, pos, length, map};
ghost use Rattle.std.specs.Option.{option_map};
ghost use Rattle.narrow_eval.specs.NarrowCases.{IsNarrowComputable};
ghost use Rattle.narrow_eval.specs.NarrowPrograms.{program_case, program_formula};
ghost use Rattle.row_loops.specs.Rows.{EachPlace, at};
ghost use Rattle.tile_eval.specs.Cases.{function_value};
ghost use Rattle.column_phases.specs.Phases.{ArePhasesOf};
ghost use Rattle.column_phases.specs.inside.Rows.{places_from, row_start, row_place};

use crate::finding::ColumnPhases;
use crate::weaving::weave_column_phases;
use narrow_eval::{NarrowFunction, evaluate_narrow_function};
use narrow_sums::NarrowSource;
use row_kernels::RowSpan;

// Writes the row of the phase that has point number `place`, and returns where it ends.
fn write_narrow_column_phase<S: NarrowSource>(
    source: &S,
    function: &NarrowFunction,
    phases: &ColumnPhases,
    points: &RowSpan,
    place: usize,
    from: usize,
    out: &mut [i16],
    temps: &mut [i16],
) -> usize
    requires place { place < length phases.now.functions.items }
    requires enough { length phases.now.functions.items ≤ points.now.len }
    requires fits { length out.old ≡ points.now.len }
    requires from { from ≡ row_start (length phases.now.functions.items) (length out.old) place }
    requires function { IsNarrowComputable (S.has source.now) (S.samples source.now) points.now.row
        points.now.col (length out.old) (length temps.old) (map program_case function.now.cases.items)
        (option_map program_formula function.now.otherwise) }
    requires phases { ArePhasesOf phases.now.functions.items (map program_case function.now.cases.items)
        (option_map program_formula function.now.otherwise) }
    requires few { (from + places_from (length phases.now.functions.items) (length out.old) place) ≤ length out.old }
    ensures end { result ≡ row_start (length phases.now.functions.items) (length out.old) (suc place) }
    ensures before { (i : ℕ) → i < from → at out.new i ≡ at out.old i }
    ensures row { EachPlace (length out.old) (λ k. k % length phases.now.functions.items ≡ place
        → at out.new (row_place (length phases.now.functions.items) (length out.old) k)
        ≡ function_value (S.samples source.now) (map program_case function.now.cases.items)
        (option_map program_formula function.now.otherwise) points.now.row
        (points.now.col +ℤ pos k)) }
{
    let (_, program, part) = phases.slice_column_phase(points, place);
    let end = from + part.len;
    evaluate_narrow_function(source, program, &part, &mut out[from..end], temps);
    end
}

// Writes the rows of the phases, one after the other.
fn write_narrow_column_phase_rows<S: NarrowSource>(
    source: &S,
    function: &NarrowFunction,
    phases: &ColumnPhases,
    points: &RowSpan,
    out: &mut [i16],
    temps: &mut [i16],
)
    requires enough { length phases.now.functions.items ≤ points.now.len }
    requires fits { length out.old ≡ points.now.len }
    requires function { IsNarrowComputable (S.has source.now) (S.samples source.now) points.now.row
        points.now.col (length out.old) (length temps.old) (map program_case function.now.cases.items)
        (option_map program_formula function.now.otherwise) }
    requires phases { ArePhasesOf phases.now.functions.items (map program_case function.now.cases.items)
        (option_map program_formula function.now.otherwise) }
    ensures { EachPlace (length out.old) (λ k. at out.new
        (row_place (length phases.now.functions.items) (length out.old) k)
        ≡ function_value (S.samples source.now) (map program_case function.now.cases.items)
        (option_map program_formula function.now.otherwise) points.now.row
        (points.now.col +ℤ pos k)) }
{
    let mut end = 0;
    for place in 0..phases.count_column_phases() {
        end = write_narrow_column_phase(source, function, phases, points, place, end, out, temps);
    }
}

/// Writes the values of a function at a row of points, where each number that is computed fits in 16 bits. Each phase is computed at its
/// own columns alone. The contents of `temps` have no meaning.
pub fn write_narrow_column_phases<S: NarrowSource>(
    source: &S,
    function: &NarrowFunction,
    phases: &ColumnPhases,
    points: &RowSpan,
    out: &mut [i16],
    temps: &mut [i16],
)
    requires some { 0 < length out.old }
    requires fits { length out.old ≡ points.now.len }
    requires function { IsNarrowComputable (S.has source.now) (S.samples source.now) points.now.row
        points.now.col (length out.old) (length temps.old) (map program_case function.now.cases.items)
        (option_map program_formula function.now.otherwise) }
    requires phases { ArePhasesOf phases.now.functions.items (map program_case function.now.cases.items)
        (option_map program_formula function.now.otherwise) }
    ensures { EachPlace (length out.old) (λ k. at out.new k
        ≡ function_value (S.samples source.now) (map program_case function.now.cases.items)
        (option_map program_formula function.now.otherwise) points.now.row
        (points.now.col +ℤ pos k)) }
{
    let (period, count) = (phases.count_column_phases(), out.len());
    if count < period {
        return evaluate_narrow_function(source, function, points, out, temps);
    }
    write_narrow_column_phase_rows(source, function, phases, points, out, temps);
    let rows = &mut temps[..count];
    rows.copy_from_slice(out);
    weave_column_phases(out, rows, period);
}
