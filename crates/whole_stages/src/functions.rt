#![tactic(auto)]
//! Functions on their whole domains.

ghost use Rattle.std.specs.Prelude.{◌≡◌, map, IfOk};
ghost use Rattle.std.specs.Option.{option_map};
ghost use Rattle.job.specs.Views.{case_view, formula_view};
ghost use Rattle.tile_eval.specs.Cases.{IsComputable, function_value};
ghost use Rattle.tile_eval.specs.Raster.{raster};

use domains::Area;
use job::Function;
use std::alloc::{AllocError, Global};
use tile_eval::{RowSource, compute_operand_capacity_of_function, evaluate_function_area};

/// The values of a function on its domain, row by row.
pub fn evaluate_whole_function<S: RowSource>(
    alloc: Global,
    source: &S,
    function: &Function,
    domain: &Area,
) -> Result<Vec<i32>, AllocError>
    requires { IsComputable (S.has source.now) domain.now (map case_view function.now.cases.items)
        (option_map formula_view function.now.otherwise) }
    ensures { IfOk result (λ values. values.items
        ≡ raster domain.now (function_value (S.samples source.now)
        (map case_view function.now.cases.items)
        (option_map formula_view function.now.otherwise))) }
{
    let room = compute_operand_capacity_of_function(function, domain.cols.len() as usize).ok_or(
        AllocError,
    )?;
    let mut temps = vec![in alloc; 0; room]?;
    let mut values = vec![in alloc; 0; domain.points() as usize]?;
    evaluate_function_area(source, function, domain, &mut values, &mut temps);
    Ok(values)
}
