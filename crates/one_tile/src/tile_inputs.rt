#![tactic(auto)]
//! What is available for a tile: planes, supplied tiles, and boxes of inlined functions.

ghost use Rattle.std.specs.Prelude.{◌≡◌, map, slice_get};
ghost use Rattle.std.specs.Option.{option_map};
ghost use Rattle.job.specs.Kept.{pipeline_in};
ghost use Rattle.overlap_tiles.specs.Views.{step_view};
ghost use Rattle.one_tile.specs.Prepared.{IsInputAt, input_at};
ghost use Rattle.tile_sources.specs.Wide.{AreWide};

use crate::scratch_view::TileScratchView;
use crate::tile_job::TileJob;
use domains::{Area, Index};
use job::{Body, Function};
use overlap_tiles::TileStep;
use tile_eval::{BufferView, RowSource, RowSpan, evaluate_function_area};
use tile_sources::{
    TileSource, borrow_plane_row_bytes_for_tile, gather_plane_row_for_tile,
    read_plane_row_for_tile, read_plane_sample_for_tile,
};

/// What a tile reads: planes of its job, supplied tiles of stored functions, and boxes of inlined functions.
#[derive(Drop)]
pub struct TileInputs<'a, 'b, K: TileSource> {
    pub tile: TileJob<'a, K>,
    pub boxes: TileScratchView<'b>,
    ghost wide: { AreWide (pipeline_in tile.job.now).picture boxes.planes.now },
}

// The area of the step at a place.
fn find_tile_step_area(steps: &[TileStep], place: usize) -> Option<Area>
    ensures { result ≡ option_map (λ s. s.1) (slice_get (map step_view steps.now) place) }
{
    Some(steps.get(place)?.area)
}

// Where the range at a place starts.
fn find_tile_step_range_start(ranges: &[(usize, usize)], place: usize) -> Option<usize>
    ensures { result ≡ option_map (λ r. r.0) (slice_get ranges.now place) }
{
    Some(ranges.get(place)?.0)
}

impl<K: TileSource> TileInputs<'_, '_, K> {
    ghost use Rattle.std.specs.Prelude.{ℤ, ◌<◌, ◌+ℤ◌, pos, length, slice_index, IfSome, IfNone};
    ghost use Rattle.domains.specs.Area.{HoldsPoint, IsArea, point_count};
    ghost use Rattle.domains.specs.Span.{len_of};
    ghost use Rattle.job.specs.Values.{sample_at};
    ghost use Rattle.job.specs.Views.{case_view, formula_view};
    ghost use Rattle.job.specs.WellFormed.{picture_area};
    ghost use Rattle.tile_eval.specs.Raster.{place_of, raster};
    ghost use Rattle.tile_eval.specs.Reading.{HasFunctionRoom};
    ghost use Rattle.tile_eval.specs.Rows.{EachPlace, at};
    ghost use Rattle.one_tile.specs.Local.{local_value};
    ghost use Rattle.one_tile.specs.Prepared.{IsBoxed, IsPrepared};
    ghost use Rattle.one_tile.specs.inside.Steps.{IsFunctionAt};

    // The box of an inlined function, if it is borrowed.
    fn view_inlined_box(&self, stage: usize) -> Option<BufferView<'_>>
        ensures some { IfSome result (λ view. (r c : ℤ)
            → IsBoxed (pipeline_in self.now.tile.job.now) self.now.tile.layout.now
            (K.given self.now.tile.known.now) self.now.boxes stage r c
            → HoldsPoint view.area r c × (at view.values.now (place_of view.area r c)
            ≡ local_value (pipeline_in self.now.tile.job.now)
            self.now.tile.layout.now.inlining (K.given self.now.tile.known.now) stage r c)) }
        ensures none { IfNone result ((r c : ℤ)
            → ¬ (IsBoxed (pipeline_in self.now.tile.job.now) self.now.tile.layout.now
            (K.given self.now.tile.known.now) self.now.boxes stage r c)) }
    {
        let layout = self.tile.layout;
        let place = layout.find_step_place(stage)?;
        let area = find_tile_step_area(layout.steps(), place)?;
        let start = find_tile_step_range_start(layout.ranges(), place)?;
        let numbers = self.boxes.borrow_range(start, area.points() as usize)?;
        Some(BufferView::new(area, numbers))
    }

    // Writes the samples of a plane along a row, from a column on.
    fn copy_plane_row(&self, plane: usize, row: i32, first: i32, out: &mut [i32])
        requires plane { plane < length (pipeline_in self.now.tile.job.now).picture.planes }
        requires there { EachPlace (length out.old)
            (λ k. HoldsPoint (picture_area (pipeline_in self.now.tile.job.now).picture) row
            (first +ℤ pos k)) }
        ensures { EachPlace (length out.old) (λ k. at out.new k
            ≡ sample_at (pipeline_in self.now.tile.job.now).picture plane row (first +ℤ pos k)) }
    {
        match self
            .boxes
            .planes
            .borrow_plane_row(plane, row, first, out.len())
        {
            Some(line) => out.copy_from_slice(line),
            None => read_plane_row_for_tile(self.tile.job.picture(), plane, row, first, out),
        }
    }

    // The samples of a plane along a row, from a column on, if they are adjacent bytes.
    fn borrow_plane_bytes(&self, plane: usize, row: i32, first: i32, count: usize) -> Option<&[u8]>
        requires plane { plane < length (pipeline_in self.now.tile.job.now).picture.planes }
        requires there { EachPlace count
            (λ k. HoldsPoint (picture_area (pipeline_in self.now.tile.job.now).picture) row
            (first +ℤ pos k)) }
        ensures count { IfSome result (λ line. length line.now ≡ count) }
        ensures samples { IfSome result (λ line. EachPlace count (λ k. pos (slice_index line.now k)
            ≡ sample_at (pipeline_in self.now.tile.job.now).picture plane row (first +ℤ pos k))) }
    {
        borrow_plane_row_bytes_for_tile(self.tile.job.picture(), plane, row, first, count)
    }

    /// Writes the values of a function over an area of its domain, row by row, where all its reads are available. The content of
    /// the operand buffer is unspecified.
    pub(crate) fn write_function_values(
        &self,
        number: usize,
        function: &Function,
        area: &Area,
        out: &mut [i32],
        temps: &mut [i32],
    )
        requires function { IsFunctionAt (pipeline_in self.now.tile.job.now) number
            (map case_view function.now.cases.items)
            (option_map formula_view function.now.otherwise) }
        requires area { IsArea area.now }
        requires prepared { IsPrepared (pipeline_in self.now.tile.job.now)
            self.now.tile.layout.now (K.given self.now.tile.known.now) self.now.boxes
            number area.now }
        requires len { length out.old ≡ point_count area.now }
        requires room { HasFunctionRoom (len_of area.now.cols) (length temps.old)
            (map case_view function.now.cases.items)
            (option_map formula_view function.now.otherwise) }
        ensures { out.new ≡ raster area.now (local_value (pipeline_in self.now.tile.job.now)
            self.now.tile.layout.now.inlining (K.given self.now.tile.known.now) number) }
    {
        evaluate_function_area(self, function, area, out, temps)
    }
}

impl<K: TileSource> RowSource for TileInputs<'_, '_, K> {
    ghost has = { λ inputs g r c. IsInputAt (pipeline_in inputs.tile.job.now) inputs.tile.layout.now
        (K.given inputs.tile.known.now) inputs.boxes g r c };

    ghost samples = { λ inputs g r c. input_at (pipeline_in inputs.tile.job.now) inputs.tile.layout.now.inlining
        (K.given inputs.tile.known.now) g r c };

    fn read_row(&self, stage: usize, row: i32, first: i32, out: &mut [i32]) {
        let Some(found) = self.tile.job.stage(stage) else {
            return;
        };
        match found.body() {
            Body::Plane(plane) => self.copy_plane_row(*plane, row, first, out),
            Body::Function(_) if self.tile.layout.inlined(stage) => {
                if let Some(view) = self.view_inlined_box(stage) {
                    view.read_row(row, first, out);
                }
            }
            Body::Function(_) => self
                .tile
                .view_supplied_tiles(stage, found)
                .read_row(row, first, out),
            Body::Accumulator(_) => {}
        }
    }

    fn borrow_row(&self, stage: usize, row: i32, first: i32, count: usize) -> Option<&[i32]> {
        let found = self.tile.job.stage(stage)?;
        match found.body() {
            Body::Function(_) if self.tile.layout.inlined(stage) => {
                match self.view_inlined_box(stage) {
                    Some(view) => Some(view.slice_row(row, first, count)),
                    None => None,
                }
            }
            Body::Function(_) => self
                .tile
                .view_supplied_tiles(stage, found)
                .borrow_row(row, first, count),
            Body::Plane(plane) => self
                .boxes
                .planes
                .borrow_plane_row(*plane, row, first, count),
            Body::Accumulator(_) => None,
        }
    }

    fn borrow_byte_row(&self, stage: usize, row: i32, first: i32, count: usize) -> Option<&[u8]> {
        let found = self.tile.job.stage(stage)?;
        match found.body() {
            Body::Plane(plane) => self.borrow_plane_bytes(*plane, row, first, count),
            Body::Function(_) | Body::Accumulator(_) => None,
        }
    }

    fn gather_row(&self, stage: usize, row: i32, col: &Index, points: &RowSpan, out: &mut [i32]) {
        let Some(found) = self.tile.job.stage(stage) else {
            return;
        };
        match found.body() {
            Body::Plane(plane) => gather_plane_row_for_tile(
                self.tile.job.picture(),
                *plane,
                row,
                col,
                points,
                out,
            ),
            Body::Function(_) if self.tile.layout.inlined(stage) => {
                if let Some(view) = self.view_inlined_box(stage) {
                    view.gather_row(row, col, points, out);
                }
            }
            Body::Function(_) => self
                .tile
                .view_supplied_tiles(stage, found)
                .gather_row(row, col, points, out),
            Body::Accumulator(_) => {}
        }
    }

    fn read_sample(&self, stage: usize, row: i32, col: i32) -> i32 {
        let Some(found) = self.tile.job.stage(stage) else {
            return 0;
        };
        match found.body() {
            Body::Plane(plane) => read_plane_sample_for_tile(
                self.tile.job.picture(),
                *plane,
                row,
                col,
            ),
            Body::Function(_) if self.tile.layout.inlined(stage) => match self.view_inlined_box(
                stage,
            ) {
                Some(view) => view.read_sample(row, col),
                None => 0,
            },
            Body::Function(_) => self
                .tile
                .view_supplied_tiles(stage, found)
                .read_number(row, col),
            Body::Accumulator(_) => 0,
        }
    }
}
