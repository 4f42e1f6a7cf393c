#![tactic(auto)]
//! Rows of functions in 32 bits, by phases.

ghost use Rattle.std.specs.Prelude.{◌≡◌, ◌<◌, ◌≤◌, ◌+◌, ◌%◌, ◌+ℤ◌, ℕ, suc, pos, length, map};
ghost use Rattle.std.specs.Option.{option_map};
ghost use Rattle.domains.specs.Span.{len_of};
ghost use Rattle.job.specs.Views.{case_view, formula_view};
ghost use Rattle.row_loops.specs.Rows.{EachPlace, at};
ghost use Rattle.tile_eval.specs.Cases.{IsComputable, function_value};
ghost use Rattle.tile_eval.specs.Reading.{HasFunctionRoom};
ghost use Rattle.column_phases.specs.Phases.{ArePhasesOf};
ghost use Rattle.column_phases.specs.inside.Rows.{places_from, row_start, row_place};

use crate::finding::ColumnPhases;
use crate::weaving::weave_column_phases;
use domains::Area;
use job::Function;
use row_kernels::RowSpan;
use tile_eval::{RowSource, evaluate_function_area};

// Writes the values of a function on an area of one row.
fn write_row_of_wide_column_phase<S: RowSource>(
    source: &S,
    function: &Function,
    area: &Area,
    out: &mut [i32],
    temps: &mut [i32],
)
    requires one { area.now.rows.hi ≡ area.now.rows.lo }
    requires function { IsComputable (S.has source.now) area.now
        (map case_view function.now.cases.items) (option_map formula_view function.now.otherwise) }
    requires count { length out.old ≡ len_of area.now.cols }
    requires room { HasFunctionRoom (len_of area.now.cols) (length temps.old)
        (map case_view function.now.cases.items) (option_map formula_view function.now.otherwise) }
    ensures { EachPlace (length out.old) (λ k. at out.new k
        ≡ function_value (S.samples source.now) (map case_view function.now.cases.items)
        (option_map formula_view function.now.otherwise) area.now.rows.lo
        (area.now.cols.lo +ℤ pos k)) }
{
    evaluate_function_area(source, function, area, out, temps);
}

// Writes the row of the phase that has column number `place` of an area of one row, and returns where it ends.
fn write_wide_column_phase<S: RowSource>(
    source: &S,
    function: &Function,
    phases: &ColumnPhases,
    area: &Area,
    place: usize,
    from: usize,
    out: &mut [i32],
    temps: &mut [i32],
) -> usize
    requires place { place < length phases.now.functions.items }
    requires enough { length phases.now.functions.items ≤ length out.old }
    requires fits { length out.old ≡ len_of area.now.cols }
    requires from { from ≡ row_start (length phases.now.functions.items) (length out.old) place }
    requires one { area.now.rows.hi ≡ area.now.rows.lo }
    requires function { IsComputable (S.has source.now) area.now
        (map case_view function.now.cases.items) (option_map formula_view function.now.otherwise) }
    requires room { HasFunctionRoom (length out.old) (length temps.old)
        (map case_view function.now.cases.items) (option_map formula_view function.now.otherwise) }
    requires phases { ArePhasesOf phases.now.functions.items (map case_view function.now.cases.items)
        (option_map formula_view function.now.otherwise) }
    requires few { (from + places_from (length phases.now.functions.items) (length out.old) place) ≤ length out.old }
    ensures end { result ≡ row_start (length phases.now.functions.items) (length out.old) (suc place) }
    ensures before { (i : ℕ) → i < from → at out.new i ≡ at out.old i }
    ensures row { EachPlace (length out.old) (λ k. k % length phases.now.functions.items ≡ place
        → at out.new (row_place (length phases.now.functions.items) (length out.old) k)
        ≡ function_value (S.samples source.now) (map case_view function.now.cases.items)
        (option_map formula_view function.now.otherwise) area.now.rows.lo
        (area.now.cols.lo +ℤ pos k)) }
{
    let points = RowSpan::from_area_top(area);
    let (phase, _, part) = phases.slice_column_phase(&points, place);
    let end = from + part.len;
    if let Some(cols) = part.columns() {
        let own = Area {
            rows: area.rows,
            cols,
        };
        write_row_of_wide_column_phase(source, phase, &own, &mut out[from..end], temps);
    }
    end
}

// Writes the rows of the phases, one after the other.
fn write_wide_column_phase_rows<S: RowSource>(
    source: &S,
    function: &Function,
    phases: &ColumnPhases,
    area: &Area,
    out: &mut [i32],
    temps: &mut [i32],
)
    requires enough { length phases.now.functions.items ≤ length out.old }
    requires fits { length out.old ≡ len_of area.now.cols }
    requires one { area.now.rows.hi ≡ area.now.rows.lo }
    requires function { IsComputable (S.has source.now) area.now
        (map case_view function.now.cases.items) (option_map formula_view function.now.otherwise) }
    requires room { HasFunctionRoom (length out.old) (length temps.old)
        (map case_view function.now.cases.items) (option_map formula_view function.now.otherwise) }
    requires phases { ArePhasesOf phases.now.functions.items (map case_view function.now.cases.items)
        (option_map formula_view function.now.otherwise) }
    ensures { EachPlace (length out.old) (λ k. at out.new
        (row_place (length phases.now.functions.items) (length out.old) k)
        ≡ function_value (S.samples source.now) (map case_view function.now.cases.items)
        (option_map formula_view function.now.otherwise) area.now.rows.lo
        (area.now.cols.lo +ℤ pos k)) }
{
    let mut end = 0;
    for place in 0..phases.count_column_phases() {
        end = write_wide_column_phase(source, function, phases, area, place, end, out, temps);
    }
}

/// Writes the values of a function on an area of one row. Each phase is computed at its own columns alone. The contents of `temps` have no
/// meaning.
pub fn write_wide_column_phases<S: RowSource>(
    source: &S,
    function: &Function,
    phases: &ColumnPhases,
    area: &Area,
    out: &mut [i32],
    temps: &mut [i32],
)
    requires fits { length out.old ≡ len_of area.now.cols }
    requires one { area.now.rows.hi ≡ area.now.rows.lo }
    requires function { IsComputable (S.has source.now) area.now
        (map case_view function.now.cases.items) (option_map formula_view function.now.otherwise) }
    requires room { HasFunctionRoom (len_of area.now.cols) (length temps.old)
        (map case_view function.now.cases.items) (option_map formula_view function.now.otherwise) }
    requires phases { ArePhasesOf phases.now.functions.items (map case_view function.now.cases.items)
        (option_map formula_view function.now.otherwise) }
    ensures { EachPlace (length out.old) (λ k. at out.new k
        ≡ function_value (S.samples source.now) (map case_view function.now.cases.items)
        (option_map formula_view function.now.otherwise) area.now.rows.lo
        (area.now.cols.lo +ℤ pos k)) }
{
    let (period, count) = (phases.count_column_phases(), out.len());
    if count < period {
        return write_row_of_wide_column_phase(source, function, area, out, temps);
    }
    write_wide_column_phase_rows(source, function, phases, area, out, temps);
    let rows = &mut temps[..count];
    rows.copy_from_slice(out);
    weave_column_phases(out, rows, period);
}
