#![tactic(auto)]
//! The next row of a ring of 16 bits, from the rows of others.

ghost use Rattle.std.specs.Prelude.{◌≡◌, ◌<◌, ◌+ℤ◌, false, pos, length, map};
ghost use Rattle.std.specs.Option.{option_map};
ghost use Rattle.domains.specs.Span.{len_of};
ghost use Rattle.job.specs.Kept.{pipeline_in};
ghost use Rattle.job.specs.Pipeline.{function as function_body};
ghost use Rattle.job.specs.Reads.{BodyReads};
ghost use Rattle.job.specs.Values.{sample_at};
ghost use Rattle.job.specs.Views.{case_view, formula_view};
ghost use Rattle.row_loops.specs.Rows.{EachPlace, at};
ghost use Rattle.row_plans.specs.Rows.{next_row};
ghost use Rattle.row_rings.specs.NarrowRings.{IsFittingStage, is_linear_shape, IsNarrowlyMade};
ghost use Rattle.row_rings.specs.RingShapes.{IsShapeOf, IsStageShape};
ghost use Rattle.row_rings.specs.TrueRings.{HasStageRoom};
ghost use Rattle.row_rings.specs.inside.Making.{AreFittingValues, IsFittingRow, IsMakeable, IsPictureRow, IsValueRow, HasOneRowMore};
ghost use Rattle.narrow_eval.specs.NarrowCases.{IsNarrowComputable};
ghost use Rattle.tile_eval.specs.Cases.{function_value};

use crate::narrow_ring_source::NarrowRingSource;
use crate::ring::RowRing;
use crate::ring_shapes::RingShape;
use column_phases::write_narrow_column_phases;
use job::{Body, Function};
use linear_rows::write_linear_row;
use narrow_eval::evaluate_narrow_function;
use narrow_kernels::convert_samples_to_narrow_row;
use narrow_pieces::write_narrow_pieces;
use narrow_sums::NarrowSource;
use netpbm::Picture;
use row_plans::RowState;
use tile_eval::RowSpan;

// Writes a row of a plane, which is counted from the first one of the picture. Its samples fit in 16 bits.
fn write_samples_to_narrow_ring(picture: &Picture, plane: usize, row: usize, out: &mut [i16])
    requires row { IsPictureRow picture.now plane row (length out.old) }
    requires fits { IsFittingRow picture.now plane row }
    ensures { EachPlace (length out.old)
        (λ k. at out.new k ≡ sample_at picture.now plane (pos row) (pos k)) }
{
    convert_samples_to_narrow_row(&picture.samples(plane), row * out.len(), out);
}

// Writes a row of a function of this shape. The contents of `temps` have no meaning.
fn write_shaped_row_to_narrow_ring<S: NarrowSource>(
    source: &S,
    function: &Function,
    shape: &RingShape<'_>,
    points: &RowSpan,
    out: &mut [i16],
    temps: &mut [i16],
)
    requires some { 0 < length out.old }
    requires fits { length out.old ≡ points.now.len }
    requires shape { IsShapeOf shape.now (function_body (map case_view function.now.cases.items)
        (option_map formula_view function.now.otherwise)) }
    requires reads { EachPlace (length out.old) (λ k. BodyReads (S.has source.now)
        (function_body (map case_view function.now.cases.items)
        (option_map formula_view function.now.otherwise)) points.now.row (points.now.col +ℤ pos k)) }
    requires values { AreFittingValues (S.samples source.now) (map case_view function.now.cases.items)
        (option_map formula_view function.now.otherwise) points.now.row points.now.col (length out.old) }
    requires function { is_linear_shape shape.now ≡ false
        → IsNarrowComputable (S.has source.now) (S.samples source.now) points.now.row
        points.now.col (length out.old) (length temps.old) (map case_view function.now.cases.items)
        (option_map formula_view function.now.otherwise) }
    ensures { EachPlace (length out.old) (λ k. at out.new k
        ≡ function_value (S.samples source.now) (map case_view function.now.cases.items)
        (option_map formula_view function.now.otherwise) points.now.row
        (points.now.col +ℤ pos k)) }
{
    match shape {
        RingShape::Linear(linear) => write_linear_row(source, linear, points, out),
        RingShape::Pieces(pieces) => write_narrow_pieces(source, function, pieces, points, out),
        RingShape::Phases(phases, program) => {
            write_narrow_column_phases(source, program, phases, points, out, temps)
        }
        RingShape::Division(_, program) => {
            evaluate_narrow_function(source, program, points, out, temps)
        }
        RingShape::Formulas(program) => {
            evaluate_narrow_function(source, program, points, out, temps)
        }
        RingShape::Other => {}
    }
}

impl NarrowRingSource<'_> {
    // Writes the next row of a stage of this shape, from the rows that it reads. The contents of `temps` have no meaning.
    fn write_stage_row_to_narrow_ring(
        &self,
        stage: usize,
        shape: &RingShape<'_>,
        state: &RowState,
        out: &mut [i16],
        temps: &mut [i16],
    )
        requires can { IsMakeable (pipeline_in self.now.job.now) self.now.known.now.rings.items stage state.now }
        requires fits { IsFittingStage (pipeline_in self.now.job.now) stage }
        requires narrow { IsNarrowlyMade (pipeline_in self.now.job.now) stage shape.now }
        requires shape { IsStageShape (pipeline_in self.now.job.now) stage shape.now }
        requires count { length out.old ≡ len_of state.now.area.cols }
        requires room { HasStageRoom (pipeline_in self.now.job.now) stage (len_of state.now.area.cols)
            (length temps.old) }
        ensures { IsValueRow (pipeline_in self.now.job.now) stage state.now.area (next_row state.now) out.new }
    {
        let Some(found) = self.job.stage(stage) else {
            return;
        };
        match found.body() {
            Body::Plane(plane) => {
                write_samples_to_narrow_ring(self.job.picture(), *plane, state.next, out)
            }
            Body::Function(function) => {
                let points = RowSpan::from_area_row(&state.area, state.next);
                write_shaped_row_to_narrow_ring(self, function, shape, &points, out, temps);
            }
            Body::Accumulator(_) => {}
        }
    }
}

impl RowRing<i16> {
    // Makes the next row of a stage of this shape, in place of the oldest one.
    pub(crate) fn make_next_row_of_narrow_ring(
        &mut self,
        source: &NarrowRingSource<'_>,
        stage: usize,
        shape: &RingShape<'_>,
        temps: &mut [i16],
    )
        requires can { IsMakeable (pipeline_in source.now.job.now) source.now.known.now.rings.items stage
            self.old.state }
        requires some { 0 < self.old.state.kept }
        requires fits { IsFittingStage (pipeline_in source.now.job.now) stage }
        requires narrow { IsNarrowlyMade (pipeline_in source.now.job.now) stage shape.now }
        requires shape { IsStageShape (pipeline_in source.now.job.now) stage shape.now }
        requires room { HasStageRoom (pipeline_in source.now.job.now) stage (len_of self.old.state.area.cols)
            (length temps.old) }
        ensures { HasOneRowMore (pipeline_in source.now.job.now) stage self.old self.new }
    {
        source.write_stage_row_to_narrow_ring(stage, shape, &self.state, &mut self.rows[0], temps);
        self.rows.rotate_left(1);
        self.state.next += 1;
    }
}
