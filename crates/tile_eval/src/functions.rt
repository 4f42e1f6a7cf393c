#![tactic(auto)]
//! Functions on areas.

ghost use Rattle.std.specs.Prelude.{◌≡◌, length, map};
ghost use Rattle.std.specs.Option.{option_map};
ghost use Rattle.domains.specs.Span.{len_of};
ghost use Rattle.domains.specs.Area.{point_count};
ghost use Rattle.job.specs.Views.{case_view, formula_view};
ghost use Rattle.tile_eval.specs.Cases.{IsComputable, function_value};
ghost use Rattle.tile_eval.specs.Reading.{HasFunctionRoom};
ghost use Rattle.tile_eval.specs.Raster.{raster};

use crate::source::RowSource;
use crate::source_row::SourceRow;
use domains::Area;
use job::Function;
use row_kernels::RowSpan;

/// Writes the values of a function on an area of its domain, row by row. The contents of the operands' buffer have no meaning.
pub fn evaluate_function_area<S: RowSource>(
    source: &S,
    function: &Function,
    area: &Area,
    out: &mut [i32],
    temps: &mut [i32],
)
    requires function { IsComputable (S.has source.now) area.now
        (map case_view function.now.cases.items) (option_map formula_view function.now.otherwise) }
    requires len { length out.old ≡ point_count area.now }
    requires room { HasFunctionRoom (len_of area.now.cols) (length temps.old)
        (map case_view function.now.cases.items) (option_map formula_view function.now.otherwise) }
    ensures { out.new
        ≡ raster area.now (function_value (S.samples source.now)
        (map case_view function.now.cases.items)
        (option_map formula_view function.now.otherwise)) }
{
    let points = RowSpan::from_area_top(area);
    let first = SourceRow { source, points };
    let rows = area.rows.len() as usize;
    first.evaluate_function_from_row_down(function, rows, out, temps);
}
