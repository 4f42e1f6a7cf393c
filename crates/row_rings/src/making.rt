#![tactic(auto)]
//! The next row of a ring, from the rows of others.

ghost use Rattle.std.specs.Prelude.{◌≡◌, ◌<◌, pos, length, map};
ghost use Rattle.std.specs.Option.{option_map};
ghost use Rattle.domains.specs.Span.{len_of};
ghost use Rattle.job.specs.Kept.{pipeline_in};
ghost use Rattle.job.specs.Pipeline.{function as function_body};
ghost use Rattle.job.specs.Values.{sample_at};
ghost use Rattle.job.specs.Views.{case_view, formula_view};
ghost use Rattle.row_loops.specs.Rows.{EachPlace, at};
ghost use Rattle.row_plans.specs.Rows.{next_row};
ghost use Rattle.row_rings.specs.RingShapes.{IsFormulaBody, IsShapeOf, IsStageShape};
ghost use Rattle.row_rings.specs.TrueRings.{AreTrueRings, HasStageRoom};
ghost use Rattle.row_rings.specs.inside.Making.{IsPictureRow, IsRowToWrite, IsFunctionRow, IsMakeable, IsValueRow, HasOneRowMore};
ghost use Rattle.wide_divisions.specs.DivisionSteps.{step_formula, IsRightStep};

use crate::ring::{RowRing, RowRings};
use crate::ring_shapes::RingShape;
use column_phases::write_wide_column_phases;
use domains::{Area, Span};
use job::{Body, Function, Job};
use netpbm::Picture;
use row_kernels::convert_samples_to_row;
use row_plans::RowState;
use tile_eval::{RowSpan, SourceRow, evaluate_function_area, find_span_number_at_position};
use wide_divisions::{DivisionStep, write_division_step};

// Writes a row of a plane, which is counted from the first one of the picture.
fn write_samples_to_ring(picture: &Picture, plane: usize, row: usize, out: &mut [i32])
    requires { IsPictureRow picture.now plane row (length out.old) }
    ensures { EachPlace (length out.old)
        (λ k. at out.new k ≡ sample_at picture.now plane (pos row) (pos k)) }
{
    convert_samples_to_row(&picture.samples(plane), row * out.len(), out);
}

// Writes a row of a function by its formulas, on an area of one row. The contents of the operands' buffer have no meaning.
fn write_formula_row_to_ring(
    known: &RowRings<i32>,
    function: &Function,
    area: &Area,
    out: &mut [i32],
    temps: &mut [i32],
)
    requires row { IsRowToWrite known.now.rings.items function.now area.now (length out.old)
        (length temps.old) }
    ensures { IsFunctionRow known.now.rings.items function.now area.now (length out.old) out.new }
{
    match (function.cases(), function.otherwise()) {
        ([], Some(formula)) => {
            let points = RowSpan::from_area_top(area);
            let own = SourceRow {
                source: known,
                points,
            };
            own.evaluate_formula(formula, out, temps);
        }
        _ => evaluate_function_area(known, function, area, out, temps),
    }
}

// Writes a row of a step of a division, on an area of one row. The contents of the operands' buffer have no meaning.
fn write_division_row_to_ring(
    known: &RowRings<i32>,
    function: &Function,
    step: &DivisionStep<'_>,
    area: &Area,
    out: &mut [i32],
    temps: &mut [i32],
)
    requires row { IsRowToWrite known.now.rings.items function.now area.now (length out.old)
        (length temps.old) }
    requires formula { IsFormulaBody (step_formula step.now)
        (function_body (map case_view function.now.cases.items)
        (option_map formula_view function.now.otherwise)) }
    requires right { IsRightStep step.now }
    ensures { IsFunctionRow known.now.rings.items function.now area.now (length out.old) out.new }
{
    let points = RowSpan::from_area_top(area);
    if !write_division_step(known, step, &points, out) {
        write_formula_row_to_ring(known, function, area, out, temps);
    }
}

// Writes a row of a function of this shape, on an area of one row. The contents of the operands' buffer have no meaning.
fn write_function_row_to_ring(
    known: &RowRings<i32>,
    function: &Function,
    shape: &RingShape<'_>,
    area: &Area,
    out: &mut [i32],
    temps: &mut [i32],
)
    requires row { IsRowToWrite known.now.rings.items function.now area.now (length out.old)
        (length temps.old) }
    requires shape { IsShapeOf shape.now (function_body (map case_view function.now.cases.items)
        (option_map formula_view function.now.otherwise)) }
    ensures { IsFunctionRow known.now.rings.items function.now area.now (length out.old) out.new }
{
    match shape {
        RingShape::Division(step, _) => {
            write_division_row_to_ring(known, function, step, area, out, temps)
        }
        RingShape::Phases(phases, _) => {
            write_wide_column_phases(known, function, phases, area, out, temps)
        }
        _ => write_formula_row_to_ring(known, function, area, out, temps),
    }
}

// Writes the next row of a stage of this shape, from the rows that it reads.
fn write_stage_row_to_ring(
    job: &Job,
    stage: usize,
    shape: &RingShape<'_>,
    state: &RowState,
    known: &RowRings<i32>,
    out: &mut [i32],
    temps: &mut [i32],
)
    requires can { IsMakeable (pipeline_in job.now) known.now.rings.items stage state.now }
    requires right { AreTrueRings (pipeline_in job.now) known.now.rings.items }
    requires shape { IsStageShape (pipeline_in job.now) stage shape.now }
    requires count { length out.old ≡ len_of state.now.area.cols }
    requires room { HasStageRoom (pipeline_in job.now) stage (len_of state.now.area.cols)
        (length temps.old) }
    ensures { IsValueRow (pipeline_in job.now) stage state.now.area (next_row state.now) out.new }
{
    let Some(found) = job.stage(stage) else {
        return;
    };
    match found.body() {
        Body::Plane(plane) => write_samples_to_ring(job.picture(), *plane, state.next, out),
        Body::Function(function) => {
            let row = find_span_number_at_position(&state.area.rows, state.next as u32);
            if let Some(rows) = Span::new(row, row) {
                let own = Area {
                    rows,
                    cols: state.area.cols,
                };
                write_function_row_to_ring(known, function, shape, &own, out, temps);
            }
        }
        Body::Accumulator(_) => {}
    }
}

impl RowRing<i32> {
    // Makes the next row, in place of the oldest one.
    pub(crate) fn make_next_row(
        &mut self,
        job: &Job,
        stage: usize,
        shape: &RingShape<'_>,
        known: &RowRings<i32>,
        temps: &mut [i32],
    )
        requires can { IsMakeable (pipeline_in job.now) known.now.rings.items stage self.old.state }
        requires some { 0 < self.old.state.kept }
        requires right { AreTrueRings (pipeline_in job.now) known.now.rings.items }
        requires shape { IsStageShape (pipeline_in job.now) stage shape.now }
        requires room { HasStageRoom (pipeline_in job.now) stage (len_of self.old.state.area.cols)
            (length temps.old) }
        ensures { HasOneRowMore (pipeline_in job.now) stage self.old self.new }
    {
        write_stage_row_to_ring(
            job,
            stage,
            shape,
            &self.state,
            known,
            &mut self.rows[0],
            temps,
        );
        self.rows.rotate_left(1);
        self.state.next += 1;
    }
}
